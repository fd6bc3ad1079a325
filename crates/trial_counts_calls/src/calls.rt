// The calls, with the setting, the job and what is wanted in the table that the test program keeps.
ghost use Rattle.std.specs.Prelude.{◌≡◌, ◌≤◌, length};

use crate::held::{are_zero, holds_counts, holds_plan, sums_to, want_cells};
use planner::{Planned, answer_number, node_count};
use setting::Options;
use trial_counts_apart::PLANS;
use trial_parts::kept::{CHANNELS, CHOICE, FILTER, LIMIT, N, NODES, NUMBER, ON_AIR, WANTED};
use trial_parts::{first_bytes, get, more, narrow, put, put_bytes};

// Any number of nodes, a number as all that the table keeps; and a limit that no tree here reaches.
pub const ANY: usize = 4294967296;

pub const MOST: usize = 1000000000;

// Calls of counting since the last line printed, that gave what is wanted and that did not.
pub const AGREED: usize = 17;

pub const DIFFERED: usize = 18;

// The setting and the room of the first call that differed: filter number, choice, limit and counts lent.
pub const WHERE: usize = 19;

// The least nodes wanted of a call that may have any.
pub const LEAST: usize = 23;

fn setting_of(kept: &[usize]) -> Options {
    Options {
        filter: narrow(get(kept, FILTER)),
        choice: narrow(get(kept, CHOICE)),
        limit: narrow(get(kept, LIMIT)),
    }
}

// The number of an answer; its nodes are kept.
fn told(kept: &mut [usize], planned: Planned) -> usize {
    put(kept, NODES, node_count(planned) as usize);
    answer_number(planned) as usize
}

// The number of a planning call's answer in these words. Its nodes are kept, and its cells as the plan wanted.
fn ask_plan_in(kept: &mut [usize], sheet: &[u8], callers: &[u8], work: &mut [u64]) -> usize {
    let mut cells = [7u32; 136];
    let mut channels = [0u8; 60];
    put_bytes(kept, CHANNELS, &mut channels);
    let on_air = first_bytes(&channels, get(kept, ON_AIR));
    let planned = planner::plan(sheet, on_air, setting_of(kept), callers, &mut cells, work);
    want_cells(kept, &cells);
    told(kept, planned)
}

// The same in so many words.
fn ask_plan_with<const WORDS: usize>(kept: &mut [usize], sheet: &[u8], callers: &[u8]) -> usize
    requires { WORDS ≤ 32768 }
{
    let mut work = [7u64; WORDS];
    ask_plan_in(kept, sheet, callers, &mut work)
}

// The same in the words of the sheet's form.
pub fn ask_plan(kept: &mut [usize], sheet: &[u8], callers: &[u8]) -> usize
    ensures { length kept.new ≡ length kept.old }
{
    if sheet.first() == Some(&3) {
        ask_plan_with::<32768>(kept, sheet, callers)
    } else {
        ask_plan_with::<8192>(kept, sheet, callers)
    }
}

// The number of a counting call's answer; its nodes are kept.
pub fn ask_counts(
    kept: &mut [usize],
    sheet: &[u8],
    callers: &[u8],
    cells: &mut [u32],
    counts: &mut [u64],
    work: &mut [u64],
) -> usize
    ensures { length kept.new ≡ length kept.old }
{
    let mut channels = [0u8; 60];
    put_bytes(kept, CHANNELS, &mut channels);
    let on_air = first_bytes(&channels, get(kept, ON_AIR));
    let planned = counting::count(
        sheet,
        on_air,
        setting_of(kept),
        callers,
        cells,
        counts,
        work,
    );
    told(kept, planned)
}

fn are_wanted(kept: &[usize], number: usize) -> bool {
    let nodes = get(kept, NODES);
    let wanted = get(kept, WANTED);
    let has_nodes = if wanted == ANY {
        get(kept, LEAST) <= nodes
    } else {
        wanted == nodes
    };
    get(kept, NUMBER) == number && has_nodes
}

// Whether the counts are the plans left where a plan is found or there is none, and zeros else.
fn are_left(kept: &[usize], counts: &[u64], left: &[usize], number: usize) -> bool {
    match number {
        100 => {
            sums_to(kept, counts, get(left, PLANS)) && holds_counts(counts, left, get(kept, N))
        }
        101 => holds_counts(counts, left, get(kept, N)),
        _ => are_zero(counts),
    }
}

// Whether a call in these counts gives the number and the nodes wanted, the plan where it is found, zeros in all other
// cells, the plans left, and zero work words.
fn gives_in(
    kept: &mut [usize],
    sheet: &[u8],
    callers: &[u8],
    counts: &mut [u64],
    left: &[usize],
    work: &mut [u64],
) -> bool {
    let mut cells = [7u32; 136];
    let number = ask_counts(kept, sheet, callers, &mut cells, counts, work);
    are_wanted(kept, number)
        && holds_plan(kept, &cells, number == 100)
        && are_zero(work)
        && are_left(kept, counts, left, number)
}

// The same in so many words, which are not zero before.
fn gives_with<const WORDS: usize>(
    kept: &mut [usize],
    sheet: &[u8],
    callers: &[u8],
    counts: &mut [u64],
    left: &[usize],
) -> bool
    requires { WORDS ≤ 32768 }
{
    let mut work = [7u64; WORDS];
    gives_in(kept, sheet, callers, counts, left, &mut work)
}

// The same in the words of the sheet's form.
fn gives(
    kept: &mut [usize],
    sheet: &[u8],
    callers: &[u8],
    counts: &mut [u64],
    left: &[usize],
) -> bool {
    if sheet.first() == Some(&3) {
        gives_with::<32768>(kept, sheet, callers, counts, left)
    } else {
        gives_with::<8192>(kept, sheet, callers, counts, left)
    }
}

// Keeps where the first call differed.
fn keep_where(kept: &mut [usize], room: usize) {
    if get(kept, DIFFERED) != 0 {
        return;
    }
    put(kept, WHERE, get(kept, FILTER));
    put(kept, WHERE + 1, get(kept, CHOICE));
    put(kept, WHERE + 2, get(kept, LIMIT));
    put(kept, WHERE + 3, room);
}

// A call in so many counts, which are not zero before: it is counted as one that agreed or one that differed.
pub fn counts_in(kept: &mut [usize], sheet: &[u8], callers: &[u8], left: &[usize], room: usize)
    ensures { length kept.new ≡ length kept.old }
{
    let mut counts = [7u64; 40];
    if 40 < room {
        return;
    }
    if gives(kept, sheet, callers, &mut counts[..room], left) {
        more(kept, AGREED);
    } else {
        keep_where(kept, room);
        more(kept, DIFFERED);
    }
}
