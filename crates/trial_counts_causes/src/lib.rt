// The counting call of the test program of the counts with several faults at once, which says the causes in the order
// tested.
#![tactic(auto)]

ghost use Rattle.std.specs.Prelude.{◌≡◌, length};

use trial_counts_calls::{MOST, are_zero, ask_counts};
use trial_parts::kept::{CHANNELS, CHOICE, FILTER, K, LIMIT, N, ON_AIR};
use trial_parts::{first_bytes, get, put};

// What is told of an answer that leaves a cell, a count or a work word.
const LEAVES: usize = 999;

// The number of an answer, if the cells and counts of a refusal are zero, and the work words of any answer.
fn told(number: usize, cells: &[u32], counts: &[u64], work: &[u64]) -> usize {
    let leaves_none = cells.iter().all(|cell| *cell == 0) && are_zero(counts);
    let is_told = are_zero(work) && (100 <= number || leaves_none);
    if is_told { number } else { LEAVES }
}

// A call in these cells, counts and work words.
fn asked_in(
    kept: &mut [usize],
    sheet: &[u8],
    list: &[u8],
    cells: &mut [u32],
    counts: &mut [u64],
    work: &mut [u64],
) -> usize {
    let number = ask_counts(kept, sheet, list, cells, counts, work);
    told(number, cells, counts, work)
}

// A call in so many of them, which are not zero before.
fn asked(kept: &mut [usize], sheet: &[u8], list: &[u8], c: usize, m: usize, w: usize) -> usize {
    let mut cells = [7u32; 136];
    let mut counts = [7u64; 40];
    let mut work = [7u64; 32768];
    if 136 < c || 40 < m || 32768 < w {
        return LEAVES;
    }
    asked_in(
        kept,
        sheet,
        list,
        &mut cells[..c],
        &mut counts[..m],
        &mut work[..w],
    )
}

// 1 where fault i is left after the first faults are mended, else 0.
fn fault(mended: usize, i: usize) -> usize {
    usize::from(mended <= i)
}

// Channel 20, or none.
fn put_channels(kept: &mut [usize], m: usize) {
    put(kept, ON_AIR, m);
    put(kept, CHANNELS, 20);
}

// Choice 2, without a limit near.
fn put_setting(kept: &mut [usize], filter: usize) {
    put(kept, FILTER, filter);
    put(kept, CHOICE, 2);
    put(kept, LIMIT, MOST);
}

fn put_faults(kept: &mut [usize], mended: usize) {
    put_setting(kept, if mended <= 1 { 8 } else { 0 });
    put_channels(kept, fault(mended, 4));
}

// The work words of a sheet's form.
fn words_of(sheet: &[u8]) -> usize {
    if sheet.first() == Some(&3) {
        32768
    } else {
        8192
    }
}

// A call with the faults left: an empty sheet, filter number 8, a cell and a work word too few, channel 20, an empty
// list, a count too few.
pub fn with_faults(kept: &mut [usize], sheet: &[u8], list: &[u8], mended: usize) -> usize
    ensures { length kept.new ≡ length kept.old }
{
    put_faults(kept, mended);
    let bytes = if mended == 0 { 0 } else { sheet.len() };
    let classes = if mended <= 5 { 0 } else { list.len() };
    let c = get(kept, K).saturating_sub(fault(mended, 2));
    let w = words_of(sheet).saturating_sub(fault(mended, 3));
    let m = get(kept, N).saturating_sub(fault(mended, 6));
    asked(
        kept,
        first_bytes(sheet, bytes),
        first_bytes(list, classes),
        c,
        m,
        w,
    )
}
