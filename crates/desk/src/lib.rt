// The desk's calls, with numbers and byte slices, for a C program: what a planner's desk asks beside the console's two
// calls. Their contracts cite specs/Desk.antt and the definitions of the crates byte_calls, count_bytes and
// spares_bytes, for every input.
#![tactic(auto)]

ghost use Rattle.std.specs.Prelude.{◌≡◌, ◌+◌, ◌*◌, ◌^◌, ◌≤◌, length};
ghost use Rattle.dimacs.specs.Export.{exported};
ghost use Rattle.dimacs.specs.Import.{imported};
ghost use Rattle.graph_export.specs.Gives.{export_number, lengths_of, most_graph, most_counts};
ghost use Rattle.graph_import.specs.Gives.{most_sheet};
ghost use Rattle.heaviest_sheet.specs.Call.{heaviest_of};
ghost use Rattle.rules.specs.Job.{job_with};
ghost use Rattle.setting.specs.Setting.{setting_of};
ghost use Rattle.byte_calls.specs.ByteCalls.{outcome_in, cells_in, checked_in, Handed};
ghost use Rattle.count_bytes.specs.CountBytes.{CountsHanded, counting_in};
ghost use Rattle.spares_bytes.specs.SparesBytes.{SparesHanded};
ghost use Rattle.desk.specs.Desk.{ExportHanded, sheet_word, ImportHanded, HeaviestHanded};

use byte_calls::{check_bytes, plan_bytes};
use count_bytes::count_job_bytes;
use graph_export::{ExportRefusal, Lengths, export, export_number};
use graph_import::{import, import_number};
use heaviest::{heaviest, heaviest_number};
use setting::Options;
use spares_bytes::spares_bytes;

// The number of an export: both lengths and the cause.
fn exported_number(answer: Result<Lengths, ExportRefusal>) -> u64
    requires { ((lengths_of answer).graph ≤ most_graph) × ((lengths_of answer).counts ≤ most_counts) }
    ensures { result ≡ (lengths_of answer).graph + 2 ^ 32 * (lengths_of answer).counts + 2 ^ 48 * export_number answer }
{
    let cause = u64::from(export_number(answer));
    let lengths = answer.unwrap_or(Lengths {
        graph: 0,
        counts: 0,
    });
    lengths.graph as u64 + 4294967296 * (lengths.counts as u64) + 281474976710656 * cause
}

// Writes the two texts of a sheet.
#[unsafe(no_mangle)]
pub extern "C" fn guvtemi_export(sheet: &[u8], graph: &mut [u8], counts: &mut [u8]) -> u64
    ensures { ExportHanded (exported sheet.now (length graph.old)
        (length counts.old)) result graph.new counts.new }
{
    exported_number(export(sheet, graph, counts))
}

// The number of a call that writes a sheet: its length and the cause.
fn sheet_number(length: usize, cause: u32) -> u64
    requires { length ≤ most_sheet }
    ensures { result ≡ sheet_word length cause }
{
    length as u64 + 4294967296 * u64::from(cause)
}

// Writes the sheet of a graph text and a count text.
#[unsafe(no_mangle)]
pub extern "C" fn guvtemi_import(graph: &[u8], counts: &[u8], sheet: &mut [u8]) -> u64
    ensures { ImportHanded (imported graph.now counts.now (length sheet.old))
        result sheet.new }
{
    let answer = import(graph, counts, sheet);
    sheet_number(answer.unwrap_or(0), import_number(answer))
}

// Plans a job: a sheet and the channels on air. The work words are the call's own.
#[unsafe(no_mangle)]
pub extern "C" fn guvtemi_plan_job(
    sheet: &[u8],
    channels: &[u8],
    filter: u32,
    choice: u32,
    limit: u32,
    classes: &[u8],
    cells: &mut [u8],
) -> u64
    ensures { Handed (outcome_in (job_with sheet.now channels.now)
        (setting_of (record { filter = filter; choice = choice; limit = limit }) classes.now)
        (length cells.old))
        (length cells.old) result cells.new }
{
    let options = Options {
        filter,
        choice,
        limit,
    };
    plan_bytes(sheet, channels, options, classes, cells)
}

// Plans a job and counts the plans with each of its frequencies.
#[unsafe(no_mangle)]
pub extern "C" fn guvtemi_count_job(
    sheet: &[u8],
    channels: &[u8],
    filter: u32,
    choice: u32,
    limit: u32,
    classes: &[u8],
    cells: &mut [u8],
    counts: &mut [u8],
) -> u64
    ensures { CountsHanded (counting_in (job_with sheet.now channels.now)
        (setting_of (record { filter = filter; choice = choice; limit = limit }) classes.now)
        (length cells.old) (length counts.old))
        (length cells.old) (length counts.old) result cells.new counts.new }
{
    let options = Options {
        filter,
        choice,
        limit,
    };
    count_job_bytes(sheet, channels, options, classes, cells, counts)
}

// Checks cells against a job: 0 for no, 100 for yes, or the refusal's number.
#[unsafe(no_mangle)]
pub extern "C" fn guvtemi_check_job(sheet: &[u8], channels: &[u8], cells: &[u8]) -> u64
    ensures { result ≡ checked_in (job_with sheet.now channels.now) cells.now }
{
    check_bytes(sheet, channels, cells)
}

// Writes what each pair of cells has to spare, and answers as the check does.
#[unsafe(no_mangle)]
pub extern "C" fn guvtemi_spares(
    sheet: &[u8],
    channels: &[u8],
    cells: &[u8],
    table: &mut [u8],
) -> u64
    ensures { SparesHanded (job_with sheet.now channels.now) (cells_in cells.now)
        (length table.old) result table.new }
{
    spares_bytes(sheet, channels, cells, table)
}

// Writes the heaviest job of k links with m frequencies each.
#[unsafe(no_mangle)]
pub extern "C" fn guvtemi_heaviest(k: u32, m: u32, buffer: &mut [u8]) -> u64
    ensures { HeaviestHanded (heaviest_of k m (length buffer.old)) result buffer.new }
{
    let answer = heaviest(k, m, buffer);
    sheet_number(answer.unwrap_or(0), heaviest_number(answer))
}
