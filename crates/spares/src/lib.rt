// What each pair of a plan has to spare, for a rack display, and what the plan check says of it.
// The contracts cite `Table` and `Spares`.
#![tactic(auto)]

mod table;

ghost use Rattle.std.specs.Prelude.{◌≡◌, true, ◌&&◌, ◌≤◌, length};
ghost use Rattle.sets.specs.Below.{all};
ghost use Rattle.sheet.specs.Sheet.{k_of};
ghost use Rattle.sheet.specs.Accepted.{Accepted};
ghost use Rattle.rules.specs.Job.{job_with};
ghost use Rattle.rules.specs.Plans.{check_number};
ghost use Rattle.rules.specs.Asked.{cell_listed};
ghost use Rattle.spares.specs.Spares.{answer_for, judged, Answered};

use rules::{CheckRefusal, cells_listed, check_accepted};
use sheet::{check_sheet, links_of};
use table::fill;

// The answer of a call that is lent a table of so many places.
fn answer_for(s: &[u8], channels: &[u8], cells: &[u32], room: usize) -> Result<bool, CheckRefusal>
    ensures { check_number result
        ≡ answer_for (job_with s.now channels.now) cells.now room }
{
    check_sheet(s)?;
    let k = links_of(s);
    if room < k * k {
        return Err(CheckRefusal::FewCells);
    }
    check_accepted(s, channels, cells)
}

// Whether the table is shown with this answer: cells that were judged are each in its link's list.
fn is_shown(s: &[u8], cells: &[u32], answer: Result<bool, CheckRefusal>) -> bool
    requires { judged (check_number answer) ≡ true → Accepted s.now × (k_of s.now ≤ length cells.now) }
    ensures { result ≡ (judged (check_number answer)
        && all (k_of s.now) (cell_listed s.now cells.now)) }
{
    if answer.is_err() {
        return false;
    }
    cells_listed(s, cells)
}

// The answer, with the table filled where it is shown and zero elsewhere, for any bytes, channels, cells and table.
pub fn spares(
    s: &[u8],
    channels: &[u8],
    cells: &[u32],
    table: &mut [i32],
) -> Result<bool, CheckRefusal>
    ensures { Answered (job_with s.now channels.now) cells.now
        (length table.old) (check_number result) table.new }
{
    let answer = answer_for(s, channels, cells, table.len());
    if is_shown(s, cells, answer) {
        fill(s, cells, table);
    } else {
        table.fill(0);
    }
    answer
}
