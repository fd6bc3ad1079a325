// The search of a setting, from the root: "Fewer than k non-empty classes: no plan, 0 nodes", and "A link left empty
// gives no plan with 0 nodes"; then the pre-filter as switched, then the root.
ghost use Rattle.std.specs.Prelude.{false, length};
ghost use Rattle.cliques.specs.Words.{Room, with_masks, three_rows};
ghost use Rattle.search.specs.Limit.{none};
ghost use Rattle.search.specs.Walk.{reach, Tells, Space};
ghost use Rattle.search.specs.Searched.{NoneEmpty, Opened, Searched};

use crate::{RunOutcome, RunVerdict, run};
use cliques::Place;
use filters::{is_open, pre_filter};

// No plan, and no node.
pub fn no_nodes() -> RunOutcome
    ensures { Tells result (none 0) }
{
    RunOutcome {
        verdict: RunVerdict::None,
        nodes: 0,
    }
}

// Whether no layer and no class of the root is empty. Each class can have a vertex where a layer has none.
fn none_empty(part: &[u64], place: Place, layers: usize) -> bool
    requires { Room (three_rows place) place (length part.now)
        × Room (three_rows place) (with_masks place layers) (length part.now) }
    ensures { NoneEmpty place layers part.now result }
{
    let by_layers = Place {
        masks: layers,
        ..place
    };
    is_open(part, by_layers, 0) && is_open(part, place, 0)
}

// Whether the root is to be entered. Then its live set, after the pre-filter as switched, is the first row of the part.
pub fn open_root(part: &mut [u64], place: Place, layers: usize, filters: u32) -> bool
    requires { Room (reach place 0) place (length part.old)
        × Room (three_rows place) (with_masks place layers) (length part.old) }
    ensures { Opened filters place layers part.old part.new result }
{
    if !none_empty(part, place, layers) {
        return false;
    }
    if filters % 2 == 0 {
        return true;
    }
    let by_layers = Place {
        masks: layers,
        ..place
    };
    pre_filter(part, by_layers) && is_open(part, place, 0)
}

// Searches the tree of a setting until the first plan. The layers' masks stand from `layers` on.
pub fn search_setting(
    part: &mut [u64],
    chosen: &mut [u32],
    place: Place,
    layers: usize,
    limit: u32,
    filters: u32,
) -> RunOutcome
    requires { Space place 0 0 limit (length part.old) (length chosen.old)
        × Room (three_rows place) (with_masks place layers) (length part.old) }
    ensures { Searched false filters place layers limit
        part.old part.new chosen.old chosen.new result }
{
    if !open_root(part, place, layers, filters) {
        return no_nodes();
    }
    run(part, chosen, place, limit, filters)
}
