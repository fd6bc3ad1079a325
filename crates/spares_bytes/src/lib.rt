// The call for spares with numbers and byte slices. The contracts cite specs/SparesBytes.antt, for every input.
#![tactic(auto)]

ghost use Rattle.std.specs.Prelude.{◌≡◌, ◌*◌, ◌≤◌, pos, length, get_or};
ghost use Rattle.sets.specs.Below.{tabulate};
ghost use Rattle.rules.specs.Job.{job_with};
ghost use Rattle.spares.specs.Spares.{answer_for};
ghost use Rattle.byte_calls.specs.ByteCalls.{cell_in, cells_in, cell_bytes};
ghost use Rattle.spares_bytes.specs.SparesBytes.{bits32, table_bits, SparesHanded};

use byte_calls::{get_cells, lent};
use number_bytes::put_numbers;
use rules::check_number;
use spares::spares;

// The numbers of a table as 32 bits each.
fn get_bits(from: &[i32], to: &mut [u32])
    requires { length to.old ≤ length from.now }
    ensures { to.new
        ≡ tabulate (length to.old) (λ i. bits32 (get_or from.now i (pos 0))) }
{
    for (i, bits) in to.iter_mut().enumerate() {
        *bits = from[i].cast_unsigned();
    }
}

// The spares of the first cells in some bytes, as many as are lent, in the table and bits lent, and as bytes.
fn spares_into(
    sheet: &[u8],
    channels: &[u8],
    from: &[u8],
    cells: &mut [u32],
    table: &mut [i32],
    bits: &mut [u32],
    to: &mut [u8],
) -> u64
    requires { (4 * length cells.old ≤ length from.now) × (length bits.old ≡ length table.old) }
    ensures { (result ≡ answer_for (job_with sheet.now channels.now)
        (tabulate (length cells.old) (cell_in from.now)) (length table.old))
        × (to.new ≡ cell_bytes (table_bits (job_with sheet.now channels.now)
        (tabulate (length cells.old) (cell_in from.now)) (length table.old))
        (length to.old)) }
{
    get_cells(from, cells);
    let answer = spares(sheet, channels, cells, table);
    get_bits(table, bits);
    put_numbers(bits, to);
    u64::from(check_number(answer))
}

// What the cells in some bytes have to spare, and what the check says of them. The table is the call's own.
pub fn spares_bytes(sheet: &[u8], channels: &[u8], from: &[u8], to: &mut [u8]) -> u64
    ensures { SparesHanded (job_with sheet.now channels.now) (cells_in from.now)
        (length to.old) result to.new }
{
    let mut cells = [0u32; 128];
    let mut table = [0i32; 16384];
    let mut bits = [0u32; 16384];
    let m = lent::<u32>(from.len(), 128);
    let n = lent::<u32>(to.len(), 16384);
    spares_into(
        sheet,
        channels,
        from,
        &mut cells[..m],
        &mut table[..n],
        &mut bits[..n],
        to,
    )
}
