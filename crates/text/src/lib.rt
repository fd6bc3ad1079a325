// The text that the program prints: the answer for a sheet in bytes, one line for the answer and, on found, one for
// each link. The contract of `put_text` cites `printed` of specs/Text.antt, for every sheet.
#![tactic(auto)]

mod link_lines;

ghost use Rattle.std.specs.Prelude.{◌≡◌, ◌≤◌, length};
ghost use Rattle.sheet_rows.specs.Form.{hall_links};
ghost use Rattle.sheet.specs.Sheet.{k_of};
ghost use Rattle.sheet.specs.Refusal.{refusal};
ghost use Rattle.rules.specs.Job.{job_of};
ghost use Rattle.planner.specs.Planned.{verdict_number, gave};
ghost use Rattle.hall_plan.specs.Hall.{hall_outcome};
ghost use Rattle.output.specs.Puts.{Puts};
ghost use Rattle.text.specs.Text.{program_setting, printed_of};
ghost use Rattle.text.specs.Written.{Holds, most_bytes, printed_in};

use hall_plan::plan_hall;
use lines::put_line;
use link_lines::put_link_lines;
use output::Output;
use planner::Planned;
use search::RunVerdict;
use setting::Options;
use sheet::links_of;

// An answer as text. A plan is found only for a sheet that was accepted, with a cell for each link and no more links
// than a hall has.
fn put_answer(planned: Planned, sheet: &[u8], cells: &[u32], out: &mut Output)
    requires { (out.old.end ≡ 0) × (verdict_number planned ≡ 100
        → (refusal sheet.now ≡ 0) × (k_of sheet.now ≤ length cells.now) × (k_of sheet.now ≤ hall_links)) }
    ensures { Puts (printed_of (k_of sheet.now) (gave planned cells.now)) out.old out.new
        × (out.new.end ≤ most_bytes) }
{
    match planned {
        Ok(run) => match run.verdict {
            RunVerdict::Found => {
                put_line(out, b"found", run.nodes);
                put_link_lines(out, cells, links_of(sheet));
            }
            RunVerdict::None => put_line(out, b"none", run.nodes),
            RunVerdict::Stopped => put_line(out, b"stopped", run.nodes),
        },
        Err(refusal) => put_line(out, b"refused", u32::from(refusal)),
    }
}

// Plans a sheet in the cells and words lent, with no list of channels, and puts the answer.
fn put_planned(sheet: &[u8], cells: &mut [u32], work: &mut [u64], text: &mut [u8]) -> usize
    requires { most_bytes ≤ length text.old }
    ensures { Holds (printed_of (k_of sheet.now)
        (hall_outcome (job_of sheet.now) program_setting (length cells.old)
        (length work.old))) text.old text.new result }
{
    let options = Options {
        filter: 7,
        choice: 0,
        limit: 1000000,
    };
    let p = plan_hall(sheet, b"", options, b"", cells, work);
    let mut out = Output::new(text);
    put_answer(p, sheet, cells, &mut out);
    out.end
}

// The text for a sheet, and how many bytes it has; nothing where there is not room for any text.
pub fn put_text(sheet: &[u8], text: &mut [u8]) -> usize
    ensures { Holds (printed_in (length text.old) sheet.now)
        text.old text.new result }
{
    if text.len() < 1425 {
        return 0;
    }
    let mut cells = [0u32; 64];
    let mut work = [0u64; 8192];
    put_planned(sheet, &mut cells, &mut work, text)
}
