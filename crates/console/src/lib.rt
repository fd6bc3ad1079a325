// The console's two calls, with numbers and byte slices, for a C program. They lend no list of channels; planning is
// for halls, forms 1 and 2, the check takes every form. Their contracts cite specs/ByteCalls.antt of the crate
// byte_calls, for every input.
#![tactic(auto)]

ghost use Rattle.std.specs.Prelude.{◌≡◌, length};
ghost use Rattle.rules.specs.Job.{job_of};
ghost use Rattle.setting.specs.Setting.{setting_of};
ghost use Rattle.byte_calls.specs.ByteCalls.{hall_outcome_in, checked_in, Handed};

use byte_calls::{check_bytes, plan_hall_bytes};
use setting::Options;

// Plans a sheet. The work words are the call's own.
#[unsafe(no_mangle)]
pub extern "C" fn guvtemi_plan(
    sheet: &[u8],
    filter: u32,
    choice: u32,
    limit: u32,
    classes: &[u8],
    bytes: &mut [u8],
) -> u64
    ensures { Handed (hall_outcome_in (job_of sheet.now)
        (setting_of (record { filter = filter; choice = choice; limit = limit }) classes.now)
        (length bytes.old))
        (length bytes.old) result bytes.new }
{
    let options = Options {
        filter,
        choice,
        limit,
    };
    plan_hall_bytes(sheet, b"", options, classes, bytes)
}

// Checks cells against a sheet: 0 for no, 100 for yes, or the refusal's number.
#[unsafe(no_mangle)]
pub extern "C" fn guvtemi_check(sheet: &[u8], bytes: &[u8]) -> u64
    ensures { result ≡ checked_in (job_of sheet.now) bytes.now }
{
    check_bytes(sheet, b"", bytes)
}
