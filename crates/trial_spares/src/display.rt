// The row `display`.
ghost use Rattle.std.specs.Prelude.{◌≡◌, length};

use crate::calls::shows_in;
use crate::places::get_spare;
use crate::report::is_place;
use std::io;
use trial_job::ZERO;
use trial_parts::kept::{CHANNELS, ON_AIR};
use trial_parts::{SKIP, first_bytes, get, narrow, next, put_bytes};

fn next_cells(kept: &mut [usize], cells: &mut [u32]) {
    for cell in cells.iter_mut() {
        *cell = narrow(next(kept));
    }
}

// The next number of half kHz; a minus before it stands as `SKIP`.
fn next_spare(kept: &mut [usize]) -> usize {
    match next(kept) {
        SKIP => ZERO.saturating_sub(next(kept)),
        x => ZERO.wrapping_add(x),
    }
}

// Whether the first places have the next m numbers.
fn has_next(rt: &impl Print, kept: &mut [usize], table: &[i32], m: usize) -> io::Result<bool> {
    for i in 0..m {
        let wanted = next_spare(kept);
        if !is_place(rt, i, get_spare(table, i), wanted)? {
            return Ok(false);
        }
    }
    Ok(true)
}

// The call with the channels of the job in so many cells and places.
fn displays(
    rt: &impl Print,
    kept: &mut [usize],
    sheet: &[u8],
    cells: &mut [u32],
    table: &mut [i32],
) -> io::Result<bool> {
    let mut channels = [0u8; 60];
    put_bytes(kept, CHANNELS, &mut channels);
    let on_air = first_bytes(&channels, get(kept, ON_AIR));
    next_cells(kept, cells);
    let number = next(kept);
    if !shows_in(rt, kept, sheet, on_air, cells, number, table)? {
        return Ok(false);
    }
    let m = next(kept);
    has_next(rt, kept, table, m)
}

// `display`: the places lent, how many cells, the cells, the number of the answer, how many numbers, and those of the
// first places.
pub fn display_row(rt: &impl Print, kept: &mut [usize], sheet: &[u8]) -> io::Result<bool>
    ensures { length kept.new ≡ length kept.old }
{
    let mut cells = [0u32; 136];
    let mut table = [7i32; 16448];
    let places = next(kept);
    let m = next(kept);
    if table.len() < places || cells.len() < m {
        return Ok(false);
    }
    displays(rt, kept, sheet, &mut cells[..m], &mut table[..places])
}
