// The trees of a sheet under every filter number.
ghost use Rattle.std.specs.Prelude.{◌≡◌, ◌<◌, length};

use crate::calls::{plans, want};
use std::io;
use trial_parts::kept::{CHOICE, FESTIVALS, FILTER, NODE_SUMS, NODES, SIZES};
use trial_parts::{copy_cells, first_bytes, get, more, put, times};

// A limit that no tree here reaches.
pub const MOST: usize = 1000000000;

// A limit as large as the tree gives the same answer, and one less stops it.
fn meets_limits(
    rt: &impl Print,
    kept: &mut [usize],
    sheet: &[u8],
    callers: &[u8],
    number: usize,
    nodes: usize,
) -> io::Result<bool> {
    if nodes == 0 {
        return Ok(true);
    }
    want(kept, nodes, number, Some(nodes));
    if !plans(rt, kept, sheet, callers)? {
        return Ok(false);
    }
    if nodes == 1 {
        return Ok(true);
    }
    let under = nodes - 1;
    want(kept, under, 102, Some(under));
    plans(rt, kept, sheet, callers)
}

// Keeps the size of the tree under the filter number, and adds it to the sum.
fn keep_size(kept: &mut [usize], filter: usize, nodes: usize) {
    let first = NODE_SUMS.wrapping_add(times(8, get(kept, CHOICE)));
    let at = first.wrapping_add(filter);
    let sum = get(kept, at).wrapping_add(nodes);
    put(kept, SIZES.wrapping_add(filter), nodes);
    put(kept, at, sum);
}

// A sheet of form 2 gives the same answer, plan and nodes with form 3 in its header, and a limit as large as the tree.
fn agrees_as_festival(
    rt: &impl Print,
    kept: &mut [usize],
    sheet: &[u8],
    callers: &[u8],
    number: usize,
    nodes: usize,
) -> io::Result<bool> {
    let mut other = [0u8; 1200];
    if sheet.first() != Some(&2) {
        return Ok(true);
    }
    copy_cells(sheet, &mut other);
    other[0] = 3;
    more(kept, FESTIVALS);
    let limit = if nodes == 0 { MOST } else { nodes };
    want(kept, limit, number, Some(nodes));
    plans(rt, kept, first_bytes(&other, sheet.len()), callers)
}

// One filter number: verdict, plan and nodes, then form 3 in the header, and the limits around the tree's size.
fn under_filter(
    rt: &impl Print,
    kept: &mut [usize],
    sheet: &[u8],
    callers: &[u8],
    filter: usize,
    number: usize,
    known: Option<usize>,
) -> io::Result<bool> {
    put(kept, FILTER, filter);
    want(kept, MOST, number, known);
    if !plans(rt, kept, sheet, callers)? {
        return Ok(false);
    }
    let nodes = get(kept, NODES);
    keep_size(kept, filter, nodes);
    Ok(
        agrees_as_festival(rt, kept, sheet, callers, number, nodes)?
            && meets_limits(rt, kept, sheet, callers, number, nodes)?,
    )
}

fn each_filter(
    rt: &impl Print,
    kept: &mut [usize],
    sheet: &[u8],
    callers: &[u8],
    number: usize,
    known: Option<usize>,
) -> io::Result<bool> {
    for filter in 0..8 {
        if !under_filter(rt, kept, sheet, callers, filter, number, known)? {
            return Ok(false);
        }
    }
    Ok(true)
}

// Whether the tree of a filter number is no larger than that with the filter of weight w left out.
fn is_no_larger(kept: &[usize], filter: usize, w: usize) -> bool
    requires { 0 < w }
{
    let size = |filter: usize| get(kept, SIZES.wrapping_add(filter));
    filter / w % 2 == 0 || size(filter) <= size(filter.saturating_sub(w))
}

// Whether no tree grows as a filter is added.
fn sizes_fall(kept: &[usize]) -> bool {
    (0..8).all(|filter| {
        is_no_larger(kept, filter, 1)
            && is_no_larger(kept, filter, 2)
            && is_no_larger(kept, filter, 4)
    })
}

// All filter numbers: the number wanted, and the nodes of every tree, if they are known. No tree grows as a filter is
// added.
pub fn under_filters(
    rt: &impl Print,
    kept: &mut [usize],
    sheet: &[u8],
    callers: &[u8],
    number: usize,
    known: Option<usize>,
) -> io::Result<bool>
    ensures { length kept.new ≡ length kept.old }
{
    if !each_filter(rt, kept, sheet, callers, number, known)? {
        return Ok(false);
    }
    if sizes_fall(kept) {
        return Ok(true);
    }
    println!(rt;
        "difference: nodes rise as filters are added under choice {} 0 0",
        get(kept, CHOICE)
    )?;
    Ok(false)
}
