// Failed vertices. Unit steps, then a round of trials, until a round strikes nothing. A step gives None where a
// remaining class is empty, or will be, and otherwise whether it struck a vertex.
ghost use Rattle.std.specs.Prelude.{◌+◌, ◌<◌, ◌≤◌, length};
ghost use Rattle.cliques.specs.Words.{Room, four_rows};
ghost use Rattle.filters.specs.Failed.{failed as failed_vertices};
ghost use Rattle.filters.specs.Filtered.{Filtered};
ghost use Rattle.filters.specs.Step.{Stepped, OneOfTwo, Stands, BothStand, AllStand};

use crate::unit_rows::unit_steps;
use cliques::Place;

// A trial of vertex a, of class c with two live vertices: alone in its class, on a copy in row 1. Where unit steps
// refute that, it is struck, and unit steps run.
fn trial(part: &mut [u64], place: Place, d: usize, c: usize, a: usize) -> Option<bool>
    requires { Room (four_rows place) place (length part.old) × (d ≤ c) × (c < place.k)
        × OneOfTwo place.w place.masks c a part.old }
    ensures { Stepped failed_vertices (λ G. Stands G d a) (four_rows place) d place
        part.old part.new result }
{
    let Place { w, masks, k, .. } = place;
    let m = rows::row_at(masks, w, c, k);
    rows::cut(part, w, w, 0, m);
    rows::insert(part, w, w, a);
    let there = Place {
        masks: masks - w,
        graph: place.graph - w,
        ..place
    };
    if unit_steps(&mut part[w..], there, d) {
        return Some(false);
    }
    rows::remove(part, w, 0, a);
    unit_steps(part, place, d).then_some(true)
}

// Where class c has two live vertices, the lower is tried, and then, where it has two still, the higher.
fn try_class(part: &mut [u64], place: Place, d: usize, c: usize) -> Option<bool>
    requires { Room (four_rows place) place (length part.old) × (d ≤ c) × (c < place.k) }
    ensures { Stepped failed_vertices (λ G. BothStand G d c) (four_rows place) d place
        part.old part.new result }
{
    let Place { w, masks, k, .. } = place;
    let m = rows::row_at(masks, w, c, k);
    if rows::size_common(part, w, 0, m) != 2 {
        return Some(false);
    }
    let a = rows::next_common(part, w, 0, m, 0);
    let struck = trial(part, place, d, c, a)?;
    // with the lower struck, one is left
    if struck {
        return Some(true);
    }
    let b = rows::next_common(part, w, 0, m, a + 1);
    trial(part, place, d, c, b)
}

// A round: each remaining class that has two live vertices when its turn comes has them tried.
fn round(part: &mut [u64], place: Place, d: usize) -> Option<bool>
    requires { Room (four_rows place) place (length part.old) × (d ≤ place.k) }
    ensures { Stepped failed_vertices (λ G. AllStand G d) (four_rows place) d place
        part.old part.new result }
{
    let mut struck = false;
    for c in d..place.k {
        struck |= try_class(part, place, d, c)?;
    }
    Some(struck)
}

// Unit steps and rounds of trials: whether they leave no remaining class empty. Unit steps before a later round find
// nothing left to strike: each trial that struck a vertex ran them.
pub fn failed(part: &mut [u64], place: Place, d: usize) -> bool
    requires { Room (four_rows place) place (length part.old) × (d ≤ place.k) }
    ensures { Filtered failed_vertices (four_rows place) d place part.old part.new result }
{
    while unit_steps(part, place, d) {
        match round(part, place, d) {
            None => return false,
            Some(false) => return true,
            Some(true) => {}
        }
    }
    false
}
