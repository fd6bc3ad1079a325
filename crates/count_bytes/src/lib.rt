// The counting call with numbers and byte slices. The contracts cite specs/CountBytes.antt, for every input.
#![tactic(auto)]

ghost use Rattle.std.specs.Prelude.{length};
ghost use Rattle.sheet_rows.specs.Form.{most_words};
ghost use Rattle.rules.specs.Job.{job_with};
ghost use Rattle.setting.specs.Setting.{setting_of};
ghost use Rattle.counting.specs.Outcome.{counting_outcome};
ghost use Rattle.count_bytes.specs.CountBytes.{CountsHanded, counting_in};

use byte_calls::{lent, number};
use counting::count;
use number_bytes::put_numbers;
use setting::Options;

// Counts in the cells and counts lent, and writes the cells of the plan and the tally of counts as bytes. The work
// words are the call's own.
fn count_into(
    sheet: &[u8],
    channels: &[u8],
    options: Options,
    classes: &[u8],
    cells: &mut [u32],
    counts: &mut [u64],
    plan: &mut [u8],
    tally: &mut [u8],
) -> u64
    ensures { CountsHanded (counting_outcome (job_with sheet.now channels.now)
        (setting_of options classes.now) (length cells.old) (length counts.old)
        most_words) (length plan.old) (length tally.old) result
        plan.new tally.new }
{
    let mut work = [0u64; 32768];
    let p = count(sheet, channels, options, classes, cells, counts, &mut work);
    put_numbers(cells, plan);
    put_numbers(counts, tally);
    number(p)
}

// Plans a job and counts its plans.
pub fn count_job_bytes(
    sheet: &[u8],
    channels: &[u8],
    options: Options,
    classes: &[u8],
    plan: &mut [u8],
    tally: &mut [u8],
) -> u64
    ensures { CountsHanded (counting_in (job_with sheet.now channels.now)
        (setting_of options classes.now) (length plan.old)
        (length tally.old)) (length plan.old) (length tally.old) result
        plan.new tally.new }
{
    let mut cells = [0u32; 128];
    let mut counts = [0u64; 1024];
    let m = lent::<u32>(plan.len(), 128);
    let u = lent::<u64>(tally.len(), 1024);
    count_into(
        sheet,
        channels,
        options,
        classes,
        &mut cells[..m],
        &mut counts[..u],
        plan,
        tally,
    )
}
