// The filters of a node, on one part of the work words that begins at the node's own row. A row is w words; the masks
// of the k classes stand from `masks` on, the rows of the n vertices from `graph` on, and the classes from d on remain.
// The contracts cite `Filtered` of specs/Filtered.antt: for every graph that the words hold, what a filter leaves is
// what its definition leaves.
#![tactic(auto)]

mod failed_rows;
mod pre_filter_rows;
mod reach_rows;
mod sweep_rows;
mod unit_rows;

ghost use Rattle.std.specs.Prelude.{◌≡◌, ◌≤◌, length};
ghost use Rattle.cliques.specs.Graph.{Graph, is_open};
ghost use Rattle.cliques.specs.Words.{own_row, Room, Node, four_rows};
ghost use Rattle.filters.specs.Failed.{failed as failed_vertices};
ghost use Rattle.filters.specs.Filtered.{Filtered};
ghost use Rattle.filters.specs.Switches.{switched, on, at_node};

use cliques::Place;
use failed_rows::failed;
pub use pre_filter_rows::pre_filter;
use sweep_rows::sweep;

// Whether no remaining class is empty.
pub fn is_open(part: &[u64], place: Place, d: usize) -> bool
    requires { Room place.w place (length part.now) × (d ≤ place.k) }
    ensures { (G : Graph) → Node G d place part.now
        → result ≡ is_open G d (own_row place part.now) }
{
    let Place { w, masks, k, .. } = place;
    for c in d..k {
        let m = rows::row_at(masks, w, c, k);
        if rows::is_empty_common(part, w, 0, m) {
            return false;
        }
    }
    true
}

// Unit steps and failed vertices, where filter number `filters` has them: whether no remaining class is left empty.
fn unit_filter(part: &mut [u64], place: Place, d: usize, filters: u32) -> bool
    requires { Room (four_rows place) place (length part.old) × (d ≤ place.k) }
    ensures { Filtered (λ G. on (switched filters 4) (failed_vertices G)) (four_rows place) d place
        part.old part.new result }
{
    if filters / 4 % 2 == 1 {
        return failed(part, place, d);
    }
    is_open(part, place, d)
}

// The filters of a node, as filter number `filters` has them switched: whether they leave no remaining class empty.
// `filters` is a number, as the caller's setting may be any: each bit is tested where it counts.
pub fn filter(part: &mut [u64], place: Place, d: usize, filters: u32) -> bool
    requires { Room (four_rows place) place (length part.old) × (d ≤ place.k) }
    ensures { Filtered (at_node filters) (four_rows place) d place part.old part.new result }
{
    if filters / 2 % 2 != 1 {
        return unit_filter(part, place, d, filters);
    }
    if !sweep(part, place, d) {
        return false;
    }
    unit_filter(part, place, d, filters)
}
