// Planning and checking with numbers and byte slices: what the console's calls and the desk's have in common. The
// contracts cite specs/ByteCalls.antt, for every input.
#![tactic(auto)]

mod cell_bytes;

ghost use Rattle.std.specs.Fn.{FnOnceReturnsAtMut};
ghost use Rattle.std.specs.Prelude.{List, ℕ, ◌≡◌, ◌+◌, ◌*◌, ◌^◌, ◌≤◌, min, ◌/◌, length};
ghost use Rattle.sets.specs.Below.{tabulate};
ghost use Rattle.sheet_rows.specs.Form.{hall_words, most_words};
ghost use Rattle.rules.specs.Job.{job_with};
ghost use Rattle.rules.specs.Plans.{checked};
ghost use Rattle.setting.specs.Setting.{setting_of};
ghost use Rattle.planner.specs.Outcome.{outcome};
ghost use Rattle.planner.specs.Planned.{Planned, verdict_number, nodes_of, Gives};
ghost use Rattle.hall_plan.specs.Hall.{hall_outcome};
ghost use Rattle.byte_calls.specs.ByteCalls.{outcome_in, hall_outcome_in, checked_in, Handed, cell_in, cell_bytes};

pub use cell_bytes::get_cells;
use hall_plan::plan_hall;
use number_bytes::{Number, put_numbers};
use planner::{Planned, answer_number, check, node_count, plan};
use rules::check_number;
use setting::Options;

// The number that the caller is handed.
pub fn number(p: Planned) -> u64
    ensures { result ≡ nodes_of p + 2 ^ 32 * verdict_number p }
{
    u64::from(node_count(p)) + 4294967296 * u64::from(answer_number(p))
}

// The numbers that the library is lent, for a call with so many bytes: at most as many as there are.
pub fn lent<T: Number>(bytes: usize, most: usize) -> usize
    ensures { (result ≡ min (bytes / T.BYTES) most) × (result ≤ most) }
{
    (bytes / T::BYTES).min(most)
}

// Plans in cells of the call's own, at most N, and writes them as bytes.
fn plan_cells<const N: usize, P: FnOnce(&mut [u32]) -> Planned>(bytes: &mut [u8], plan: P) -> u64
    requires callable { P.IsAlwaysCallable plan }
    requires few { N ≤ 128 }
    ensures { (before after : List ℕ) × (p : Planned) × FnOnceReturnsAtMut P.FnOnce plan before p after
        × (length before ≡ min (length bytes.old / 4) N)
        × (result ≡ nodes_of p + 2 ^ 32 * verdict_number p)
        × (bytes.new ≡ cell_bytes after (length bytes.old)) }
{
    let mut cells = [0u32; N];
    let m = lent::<u32>(bytes.len(), N);
    let p = plan(&mut cells[..m]);
    put_numbers(&cells[..m], bytes);
    number(p)
}

// Plans a job of any form. The work words are the call's own.
pub fn plan_bytes(
    sheet: &[u8],
    channels: &[u8],
    options: Options,
    classes: &[u8],
    bytes: &mut [u8],
) -> u64
    ensures { Handed (outcome_in (job_with sheet.now channels.now)
        (setting_of options classes.now) (length bytes.old))
        (length bytes.old) result bytes.new }
{
    let mut work = [0u64; 32768];
    plan_cells::<128, _>(
        bytes,
        |cells|
            ensures { Gives (outcome (job_with sheet.entry.now channels.entry.now)
                (setting_of options classes.entry.now) (length cells.old) most_words) result cells.new }
        { plan(sheet, channels, options, classes, cells, &mut work) },
    )
}

// Plans a job of a hall. The work words are the call's own, and as few as a hall needs.
pub fn plan_hall_bytes(
    sheet: &[u8],
    channels: &[u8],
    options: Options,
    classes: &[u8],
    bytes: &mut [u8],
) -> u64
    ensures { Handed (hall_outcome_in (job_with sheet.now channels.now)
        (setting_of options classes.now) (length bytes.old))
        (length bytes.old) result bytes.new }
{
    let mut work = [0u64; 8192];
    plan_cells::<64, _>(
        bytes,
        |cells|
            ensures { Gives (hall_outcome (job_with sheet.entry.now channels.entry.now)
                (setting_of options classes.entry.now) (length cells.old) hall_words) result cells.new }
        { plan_hall(sheet, channels, options, classes, cells, &mut work) },
    )
}

// Checks the first cells in some bytes, as many as are lent.
fn check_into(sheet: &[u8], channels: &[u8], bytes: &[u8], cells: &mut [u32]) -> u64
    requires { 4 * length cells.old ≤ length bytes.now }
    ensures { result ≡ checked (job_with sheet.now channels.now)
        (tabulate (length cells.old) (cell_in bytes.now)) }
{
    get_cells(bytes, cells);
    u64::from(check_number(check(sheet, channels, cells)))
}

// Checks cells against a job: 0 for no, 100 for yes, or the refusal's number.
pub fn check_bytes(sheet: &[u8], channels: &[u8], bytes: &[u8]) -> u64
    ensures { result ≡ checked_in (job_with sheet.now channels.now) bytes.now }
{
    let mut cells = [0u32; 128];
    let m = lent::<u32>(bytes.len(), 128);
    check_into(sheet, channels, bytes, &mut cells[..m])
}
