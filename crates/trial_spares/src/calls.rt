// The call for a rack display beside what is wanted of it.
ghost use Rattle.std.specs.Prelude.{◌≡◌, length};

use crate::places::{is_judged, is_table, links_shown, list_end};
use crate::report::is_answer;
use std::io;
use trial_parts::kept::{CHANNELS, CHECKS, K, ON_AIR, SPARES};
use trial_parts::{copy_cells, first_bytes, get, khz, more, put, put_bytes, times};

// The number of the answer.
fn ask(sheet: &[u8], channels: &[u8], cells: &[u32], table: &mut [i32]) -> usize {
    rules::check_number(spares::spares(sheet, channels, cells, table)) as usize
}

// Whether the call gives the number wanted, and a table with what each pair of cells has to spare, or with zeros.
pub fn shows_in(
    rt: &impl Print,
    kept: &mut [usize],
    sheet: &[u8],
    channels: &[u8],
    cells: &[u32],
    number: usize,
    table: &mut [i32],
) -> io::Result<bool>
    ensures { length kept.new ≡ length kept.old }
{
    let mut vertices = [0usize; 128];
    more(kept, SPARES);
    let got = ask(sheet, channels, cells, table);
    if !is_answer(rt, got, number, get(cells, 0))? {
        return Ok(false);
    }
    let k = links_shown(kept, cells, number, &mut vertices);
    is_table(rt, kept, &vertices, k, table)
}

// The same in a table of its own with so many places, which are not zero before.
fn shows_on(
    rt: &impl Print,
    kept: &mut [usize],
    sheet: &[u8],
    channels: &[u8],
    cells: &[u32],
    number: usize,
    places: usize,
) -> io::Result<bool> {
    let mut table = [7i32; 16448];
    let end = places.min(table.len());
    shows_in(rt, kept, sheet, channels, cells, number, &mut table[..end])
}

// The places of a table of all links.
fn all_places(kept: &[usize]) -> usize {
    let k = get(kept, K);
    times(k, k)
}

// The number of checks so far, modulo m, by which the calls differ.
fn turn(kept: &[usize], m: usize) -> usize {
    if m == 0 { 0 } else { get(kept, CHECKS) % m }
}

// With as many places as there are pairs of links, or up to three more; and with fewer.
fn shows_places(
    rt: &impl Print,
    kept: &mut [usize],
    sheet: &[u8],
    channels: &[u8],
    cells: &[u32],
    number: usize,
) -> io::Result<bool> {
    let places = all_places(kept);
    let extra = turn(kept, 4);
    let enough = places.wrapping_add(extra);
    if !shows_on(rt, kept, sheet, channels, cells, number, enough)? {
        return Ok(false);
    }
    let few = turn(kept, places);
    shows_on(rt, kept, sheet, channels, cells, 10, few)
}

// With a cell that is not in its link's list, but one above its last frequency.
fn shows_unlisted(
    rt: &impl Print,
    kept: &mut [usize],
    sheet: &[u8],
    channels: &[u8],
    cells: &[u32],
) -> io::Result<bool> {
    let mut other = [0u32; 136];
    copy_cells(cells, &mut other);
    let l = turn(kept, get(kept, K));
    let last = khz(kept, list_end(kept, l).saturating_sub(1));
    put(&mut other, l, last.wrapping_add(1));
    let places = all_places(kept);
    shows_on(rt, kept, sheet, channels, &other, 0, places)
}

// With a list of channels that is refused, and with a sheet that is: its last byte is left out.
fn shows_refused(
    rt: &impl Print,
    kept: &mut [usize],
    sheet: &[u8],
    channels: &[u8],
    cells: &[u32],
) -> io::Result<bool> {
    let wrong = [20u8; 1];
    let places = all_places(kept);
    if !shows_on(rt, kept, sheet, &wrong, cells, 17, places)? {
        return Ok(false);
    }
    let m = sheet.len().saturating_sub(1);
    shows_on(rt, kept, first_bytes(sheet, m), channels, cells, 4, places)
}

// Cells that the check judges, and cells that it refuses.
fn shows_all(
    rt: &impl Print,
    kept: &mut [usize],
    sheet: &[u8],
    channels: &[u8],
    cells: &[u32],
    number: usize,
) -> io::Result<bool> {
    if !is_judged(number) {
        let places = all_places(kept);
        return shows_on(rt, kept, sheet, channels, cells, number, places);
    }
    Ok(
        shows_places(rt, kept, sheet, channels, cells, number)?
            && shows_unlisted(rt, kept, sheet, channels, cells)?
            && shows_refused(rt, kept, sheet, channels, cells)?,
    )
}

// Whether the call with the channels of the job gives the number that the check gives, and the table; and, for cells
// that it judges, zeros with too few places, with a cell that is not in its list, and where it refuses.
pub fn shows(
    rt: &impl Print,
    kept: &mut [usize],
    sheet: &[u8],
    cells: &[u32],
    number: usize,
) -> io::Result<bool>
    ensures { length kept.new ≡ length kept.old }
{
    let mut channels = [0u8; 60];
    put_bytes(kept, CHANNELS, &mut channels);
    let on_air = first_bytes(&channels, get(kept, ON_AIR));
    shows_all(rt, kept, sheet, on_air, cells, number)
}
