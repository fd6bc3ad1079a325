// Cells in bytes: four a cell, little-endian.
ghost use Rattle.std.specs.Prelude.{◌≡◌, ◌*◌, ◌≤◌, length};
ghost use Rattle.sets.specs.Below.{tabulate};
ghost use Rattle.byte_calls.specs.ByteCalls.{cell_in};

use wire::word;

// The first cells in some bytes.
pub fn get_cells(from: &[u8], to: &mut [u32])
    requires { 4 * length to.old ≤ length from.now }
    ensures { to.new ≡ tabulate (length to.old) (cell_in from.now) }
{
    for (i, cell) in to.iter_mut().enumerate() {
        *cell = word(from, 4 * i) as u32;
    }
}
