// Planning in the buffers of a hall, as the printing program and the console do: a sheet of form 3 is refused, every
// other one is planned. The contracts cite specs/Hall.antt, for every input.
#![tactic(auto)]

ghost use Rattle.std.specs.Prelude.{◌≡◌, length};
ghost use Rattle.rules.specs.Job.{job_with};
ghost use Rattle.setting.specs.Setting.{setting_of};
ghost use Rattle.hall_plan.specs.Hall.{is_festival, PlanningHall};

use planner::{Planned, Refusal, plan};
use setting::Options;
use sheet::{Cause, form_ok, link_count_ok};
use wire::word;
use zeros::zero;

// Whether a sheet is of form 3 and passes causes 1 and 2.
fn is_festival(s: &[u8]) -> bool
    ensures { result ≡ is_festival s.now }
{
    if !form_ok(s) {
        return false;
    }
    link_count_ok(s) & (word(s, 0) == 3)
}

// Plans a sheet of forms 1 and 2 as `plan` does, and refuses one of form 3.
pub fn plan_hall(
    sheet: &[u8],
    channels: &[u8],
    options: Options,
    classes: &[u8],
    cells: &mut [u32],
    work: &mut [u64],
) -> Planned
    ensures { PlanningHall (job_with sheet.now channels.now)
        (setting_of options classes.now) (length cells.old) (length work.old) result
        cells.new work.new }
{
    if is_festival(sheet) {
        zero(cells);
        zero(work);
        return Err(Refusal::Sheet(Cause::Counts));
    }
    plan(sheet, channels, options, classes, cells, work)
}
