// The rows on a sheet. Each says whether all was as wanted.
ghost use Rattle.std.specs.Prelude.{◌≡◌, length};

use std::io;
use trial_beside::beside;
use trial_calls::{ACCEPTED, ANY, checks, plans, plans_in};
use trial_job::fill;
use trial_parts::kept::{CELLS, CHOICE, FILTER, LIMIT, LIST, LISTED, NUMBER, PLAN, WANTED};
use trial_parts::{
    SKIP, encode, first_bytes, get, narrow, next, next_run, put, put_bytes, put_half, put_word,
    want_firsts,
};
use trial_spares::display_row;

// One filter number of a row `plan`.
fn plan_under(
    rt: &impl Print,
    kept: &mut [usize],
    sheet: &[u8],
    list: &[u8],
    filter: usize,
) -> io::Result<bool> {
    let nodes = next(kept);
    if nodes == SKIP {
        return Ok(true);
    }
    put(kept, FILTER, filter);
    put(kept, WANTED, nodes);
    plans(rt, kept, sheet, list)
}

fn plan_filters(
    rt: &impl Print,
    kept: &mut [usize],
    sheet: &[u8],
    list: &[u8],
) -> io::Result<bool> {
    for filter in 0..8 {
        if !plan_under(rt, kept, sheet, list, filter)? {
            return Ok(false);
        }
    }
    Ok(true)
}

// `plan`: choice, limit, the number of the answer, four plan cells, and the nodes under each filter number.
fn plan_row(rt: &impl Print, kept: &mut [usize], sheet: &[u8], list: &[u8]) -> io::Result<bool> {
    want_firsts(kept, 0);
    next_run(kept, CHOICE, 3);
    next_run(kept, PLAN, 4);
    plan_filters(rt, kept, sheet, list)
}

// `yields`: choice, limit, the number of the answer, how many links take their first frequency, the others none, and
// the nodes under each filter number.
fn yields_row(rt: &impl Print, kept: &mut [usize], sheet: &[u8], list: &[u8]) -> io::Result<bool> {
    next_run(kept, CHOICE, 3);
    let m = next(kept);
    want_firsts(kept, m);
    plan_filters(rt, kept, sheet, list)
}

// The refusal wanted, or 0 where the call is to be accepted.
fn want_refusal(kept: &mut [usize], number: usize) {
    let nodes = if number == ACCEPTED { ANY } else { 0 };
    put(kept, NUMBER, number);
    put(kept, WANTED, nodes);
}

fn plans_within(
    rt: &impl Print,
    kept: &mut [usize],
    sheet: &[u8],
    list: &[u8],
    cells: &mut [u32],
    work: &mut [u64],
) -> io::Result<bool> {
    let c = next(kept);
    let w = next(kept);
    if cells.len() < c || work.len() < w {
        return Ok(false);
    }
    plans_in(rt, kept, sheet, list, &mut cells[..c], &mut work[..w])
}

// `within`: filter, choice, limit, the refusal, or 0 where the call is accepted, and the cells and words lent.
fn within_row(rt: &impl Print, kept: &mut [usize], sheet: &[u8], list: &[u8]) -> io::Result<bool> {
    let mut cells = [7u32; 136];
    let mut work = [7u64; 32768];
    next_run(kept, FILTER, 3);
    let number = next(kept);
    want_refusal(kept, number);
    plans_within(rt, kept, sheet, list, &mut cells, &mut work)
}

// The first m cells of the plan wanted.
fn plan_cells(kept: &[usize], cells: &mut [u32], m: usize) {
    for (l, cell) in cells.iter_mut().enumerate().take(m) {
        *cell = narrow(get(kept, PLAN.wrapping_add(l)));
    }
}

fn checks_first(
    rt: &impl Print,
    kept: &mut [usize],
    sheet: &[u8],
    cells: &[u32],
    m: usize,
    number: usize,
) -> io::Result<bool> {
    if cells.len() < m {
        return Ok(false);
    }
    checks(rt, kept, sheet, &cells[..m], number)
}

// `check`: how many cells, the cells, and the number of the answer.
fn check_row(rt: &impl Print, kept: &mut [usize], sheet: &[u8]) -> io::Result<bool> {
    let mut cells = [0u32; 136];
    let m = next(kept);
    next_run(kept, PLAN, m);
    plan_cells(kept, &mut cells, m);
    let number = next(kept);
    checks_first(rt, kept, sheet, &cells, m, number)
}

// A sheet under a setting that is refused, or accepted.
fn refuses_under(
    rt: &impl Print,
    kept: &mut [usize],
    sheet: &[u8],
    filter: usize,
    choice: usize,
    limit: usize,
    number: usize,
) -> io::Result<bool> {
    put(kept, FILTER, filter);
    put(kept, CHOICE, choice);
    put(kept, LIMIT, limit);
    want_refusal(kept, number);
    plans(rt, kept, sheet, b"")
}

// A sheet that is refused, or accepted, by planning and by the check. With a setting out of range, which is tested
// after the sheet, too.
fn refuses(rt: &impl Print, kept: &mut [usize], sheet: &[u8], number: usize) -> io::Result<bool> {
    let zeros = [0u32; 136];
    let past = if number == ACCEPTED { 9 } else { number };
    Ok(
        refuses_under(rt, kept, sheet, 0, 0, 1000000, number)?
            && refuses_under(rt, kept, sheet, 8, 3, 0, past)?
            && checks(rt, kept, sheet, &zeros, number)?,
    )
}

// `first`: bytes lent of the sheet, and the refusal, or 0.
fn first_row(rt: &impl Print, kept: &mut [usize], sheet: &[u8]) -> io::Result<bool> {
    let m = next(kept);
    let number = next(kept);
    refuses(rt, kept, first_bytes(sheet, m), number)
}

fn alter(kept: &mut [usize], sheet: &mut [u8]) {
    let width = next(kept);
    let at = next(kept);
    let x = next(kept);
    match width {
        2 => put_half(sheet, at, x),
        4 => put_word(sheet, at, x),
        _ => {}
    }
}

// `alter`: two fields of 2 or 4 bytes, 0 for none, each with its place and its number, then the refusal, or 0.
fn alter_row(
    rt: &impl Print,
    kept: &mut [usize],
    sheet: &mut [u8],
    length: usize,
) -> io::Result<bool> {
    alter(kept, sheet);
    alter(kept, sheet);
    let number = next(kept);
    refuses(rt, kept, first_bytes(sheet, length), number)
}

fn takes_filters(rt: &impl Print, kept: &mut [usize], sheet: &[u8]) -> io::Result<bool> {
    for filter in 0..8 {
        put(kept, FILTER, filter);
        if !plans(rt, kept, sheet, b"")? {
            return Ok(false);
        }
    }
    Ok(true)
}

// `takes`: the number of the answer, its nodes under every filter number, and how many links take their first
// frequency, the others none; then the check of that.
fn takes_row(rt: &impl Print, kept: &mut [usize], sheet: &[u8]) -> io::Result<bool> {
    put(kept, CHOICE, 0);
    put(kept, LIMIT, 1000000);
    next_run(kept, NUMBER, 2);
    let m = next(kept);
    want_firsts(kept, m);
    Ok(takes_filters(rt, kept, sheet)? && checks_plan(rt, kept, sheet)?)
}

// The check of the plan wanted.
fn checks_plan(rt: &impl Print, kept: &mut [usize], sheet: &[u8]) -> io::Result<bool> {
    let mut cells = [0u32; 136];
    plan_cells(kept, &mut cells, 136);
    let number = get(kept, NUMBER);
    checks(rt, kept, sheet, &cells, number)
}

// `beside`: the sheet and the list beside the brute-force solver.
fn beside_row(rt: &impl Print, kept: &mut [usize], sheet: &[u8], list: &[u8]) -> io::Result<bool> {
    let mut graph = [0usize; CELLS];
    fill(kept, &mut graph);
    beside(rt, kept, &graph, sheet, list)
}

// A row with the sheet and the list, by the first byte of its word.
fn called_row(
    rt: &impl Print,
    kept: &mut [usize],
    word: usize,
    sheet: &[u8],
    list: &[u8],
) -> io::Result<bool> {
    match u8::try_from(word) {
        Ok(b'p') => plan_row(rt, kept, sheet, list),
        Ok(b'y') => yields_row(rt, kept, sheet, list),
        Ok(b'w') => within_row(rt, kept, sheet, list),
        Ok(b'c') => check_row(rt, kept, sheet),
        Ok(b'd') => display_row(rt, kept, sheet),
        Ok(b't') => takes_row(rt, kept, sheet),
        Ok(b'b') => beside_row(rt, kept, sheet, list),
        _ => Ok(false),
    }
}

fn listed_row(rt: &impl Print, kept: &mut [usize], word: usize, sheet: &[u8]) -> io::Result<bool> {
    let mut list = [0u8; 1100];
    put_bytes(kept, LIST, &mut list);
    let m = get(kept, LISTED);
    called_row(rt, kept, word, sheet, first_bytes(&list, m))
}

// A row on the job's sheet, by the first byte of its word.
pub fn row_on_sheet(rt: &impl Print, kept: &mut [usize], word: usize) -> io::Result<bool>
    ensures { length kept.new ≡ length kept.old }
{
    let mut sheet = [0u8; 62400];
    let length = encode(kept, &mut sheet);
    match u8::try_from(word) {
        Ok(b'a') => alter_row(rt, kept, &mut sheet, length),
        Ok(b'f') => first_row(rt, kept, &sheet),
        _ => listed_row(rt, kept, word, first_bytes(&sheet, length)),
    }
}
