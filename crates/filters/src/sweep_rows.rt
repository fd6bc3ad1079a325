// The colour sweep. Class by class in rising order, a class strikes in all later ones: so each vertex is asked by every
// earlier class, as it was left.
ghost use Rattle.std.specs.Prelude.{◌+◌, ◌*◌, ◌^◌, ◌<◌, ◌≤◌, length};
ghost use Rattle.cliques.specs.Words.{Room, four_rows};
ghost use Rattle.filters.specs.Filtered.{Filtered};
ghost use Rattle.filters.specs.Reach.{SweptBy};
ghost use Rattle.filters.specs.Sweep.{sweep as colour_sweep};

use crate::is_open;
use crate::reach_rows::strike_unreached;
use cliques::Place;

// The class with its mask at m strikes in the classes that are not in row 3; it is added to row 3 first.
fn sweep_by(part: &mut [u64], w: usize, m: usize, graph: usize, n: usize)
    requires { (w + w + w + w ≤ m) × (m + w ≤ length part.old) × (w + w + w + w ≤ graph)
        × (graph + n * w ≤ length part.old) × (n ≤ 64 * w) × (64 * w < 2 ^ 64) }
    ensures { SweptBy w m graph n part.old part.new }
{
    let u = w + w;
    let a = u + w;
    rows::join(part, w, a, a, m);
    rows::copy(part, w, u, a);
    strike_unreached(part, w, m, graph, n);
}

// The colour sweep: whether it leaves no remaining class empty.
pub fn sweep(part: &mut [u64], place: Place, d: usize) -> bool
    requires { Room (four_rows place) place (length part.old) × (d ≤ place.k) }
    ensures { Filtered colour_sweep (four_rows place) d place part.old part.new result }
{
    let Place { w, masks, k, .. } = place;
    let a = w + w + w;
    rows::clear(part, w, a);
    for e in d..k {
        let m = rows::row_at(masks, w, e, k);
        sweep_by(part, w, m, place.graph, place.n);
    }
    is_open(part, place, d)
}
