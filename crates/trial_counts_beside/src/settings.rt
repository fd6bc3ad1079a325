// A job under every filter number and choice.
ghost use Rattle.std.specs.Prelude.{◌≡◌, length};

use trial_counts_calls::{ANY, LEAST, MOST, ask_plan, counts_in};
use trial_parts::kept::{CHOICE, FESTIVALS, FILTER, LIMIT, N, NODE_SUMS, NODES, NUMBER, WANTED};
use trial_parts::{copy_cells, first_bytes, get, more, put};

// Counts lent to some calls: more than n.
const ROOMY: usize = 40;

// The limit of the next call, and the number and the nodes wanted of it.
fn want(kept: &mut [usize], limit: usize, number: usize, nodes: usize) {
    put(kept, LIMIT, limit);
    put(kept, NUMBER, number);
    put(kept, WANTED, nodes);
}

// A limit below the tree's size stops the call.
fn is_stopped(kept: &mut [usize], sheet: &[u8], callers: &[u8], left: &[usize], limit: usize) {
    if limit == 0 {
        return;
    }
    want(kept, limit, 102, limit);
    counts_in(kept, sheet, callers, left, ROOMY);
}

// A limit as large as the tree gives the same answer; one less stops the call, and so does one node.
fn meets_limits(
    kept: &mut [usize],
    sheet: &[u8],
    callers: &[u8],
    left: &[usize],
    number: usize,
    nodes: usize,
) {
    if nodes == 0 {
        return;
    }
    want(kept, nodes, number, nodes);
    counts_in(kept, sheet, callers, left, ROOMY);
    is_stopped(kept, sheet, callers, left, nodes - 1);
    if 3 <= nodes {
        is_stopped(kept, sheet, callers, left, 1);
    }
}

// A refusal: with n counts or so many fewer, and with none.
fn refuses(
    kept: &mut [usize],
    sheet: &[u8],
    callers: &[u8],
    left: &[usize],
    number: usize,
    fewer: usize,
) {
    let n = get(kept, N);
    want(kept, MOST, number, 0);
    counts_in(kept, sheet, callers, left, n.saturating_sub(fewer));
    counts_in(kept, sheet, callers, left, 0);
}

// Adds the nodes to those of the setting.
fn add_nodes(kept: &mut [usize], setting: usize, nodes: usize) {
    let at = NODE_SUMS.wrapping_add(setting);
    let sum = get(kept, at).wrapping_add(nodes);
    put(kept, at, sum);
}

// A sheet of form 2 gives the same answer, nodes, plan and counts with form 3 in its header.
fn agrees_as_festival(
    kept: &mut [usize],
    sheet: &[u8],
    callers: &[u8],
    left: &[usize],
    number: usize,
    nodes: usize,
) {
    let mut other = [0u8; 1200];
    if sheet.first() != Some(&2) {
        return;
    }
    copy_cells(sheet, &mut other);
    other[0] = 3;
    more(kept, FESTIVALS);
    let limit = if nodes == 0 { MOST } else { nodes };
    want(kept, limit, number, nodes);
    let n = get(kept, N);
    let form_three = first_bytes(&other, sheet.len());
    counts_in(kept, form_three, callers, left, n);
}

// With form 3 in the header, and around the tree's size.
fn agrees_again(
    kept: &mut [usize],
    sheet: &[u8],
    callers: &[u8],
    left: &[usize],
    number: usize,
    nodes: usize,
) {
    agrees_as_festival(kept, sheet, callers, left, number, nodes);
    meets_limits(kept, sheet, callers, left, number, nodes);
}

// A job that planning accepts with this number: with n counts, again with form 3, around the
// tree's size, and with too few counts.
fn accepts(
    kept: &mut [usize],
    sheet: &[u8],
    callers: &[u8],
    left: &[usize],
    setting: usize,
    number: usize,
    known: usize,
) {
    want(kept, MOST, number, known);
    counts_in(kept, sheet, callers, left, get(kept, N));
    let nodes = get(kept, NODES);
    add_nodes(kept, setting, nodes);
    agrees_again(kept, sheet, callers, left, number, nodes);
    refuses(kept, sheet, callers, left, 19, 1);
}

// The nodes known of the longer tree: planning's, where there is no plan, and those counted apart without a filter
// under choice 0.
fn known_nodes(kept: &[usize], setting: usize, number: usize, apart: usize) -> usize {
    if setting == 0 {
        apart
    } else if number == 101 {
        get(kept, LEAST)
    } else {
        ANY
    }
}

// One setting: filter number and choice. The answer and the plan are those of planning; the nodes are no fewer.
fn under_setting(
    kept: &mut [usize],
    sheet: &[u8],
    callers: &[u8],
    left: &[usize],
    setting: usize,
    apart: usize,
) {
    put(kept, FILTER, setting % 8);
    put(kept, CHOICE, setting / 8);
    put(kept, LIMIT, MOST);
    let number = ask_plan(kept, sheet, callers);
    let least = get(kept, NODES);
    put(kept, LEAST, least);
    if number < 100 {
        refuses(kept, sheet, callers, left, number, 0);
        return;
    }
    let known = known_nodes(kept, setting, number, apart);
    accepts(kept, sheet, callers, left, setting, number, known);
}

// All of them, with the plans left and the nodes counted apart.
pub fn beside(kept: &mut [usize], sheet: &[u8], callers: &[u8], left: &[usize], apart: usize)
    ensures { length kept.new ≡ length kept.old }
{
    for setting in 0..24 {
        under_setting(kept, sheet, callers, left, setting, apart);
    }
}
