// The pre-filter, by the layers.
ghost use Rattle.std.specs.Prelude.{◌+◌, length};
ghost use Rattle.cliques.specs.Words.{Room, three_rows};
ghost use Rattle.filters.specs.Filtered.{Filtered};
ghost use Rattle.filters.specs.PreFilter.{pre_filter};

use crate::is_open;
use crate::reach_rows::strike_unreached;
use cliques::Place;

// The pre-filter, where the masks are those of the layers: whether it leaves no layer empty. The graph of the contract
// is the one whose classes are the layers.
pub fn pre_filter(part: &mut [u64], place: Place) -> bool
    requires { Room (three_rows place) place (length part.old) }
    ensures { Filtered (λ G d L. pre_filter G G.cls L) (three_rows place) 0 place
        part.old part.new result }
{
    let Place { w, masks, k, .. } = place;
    let u = w + w;
    for e in 0..k {
        let m = rows::row_at(masks, w, e, k);
        rows::copy(part, w, u, m);
        strike_unreached(part, w, m, place.graph, place.n);
    }
    is_open(part, place, 0)
}
