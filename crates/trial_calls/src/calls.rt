// Calls of the planner and of the check beside what is wanted of them. A difference is printed.
ghost use Rattle.std.specs.Prelude.{◌≡◌, ◌≢◌, ◌+◌, ◌%◌, ◌^◌, ◌≤◌, IfOk, OnErr, eqb, get_or, length, set};
ghost use Rattle.rules.specs.Job.{job_with};
ghost use Rattle.rules.specs.Plans.{checked};

use setting::Options;
use std::io;
use trial_parts::kept::{
    CALLS, CHANNELS, CHECKS, CHOICE, FILTER, LIMIT, NODES, NUMBER, ON_AIR, PLAN, WANTED,
};
use trial_parts::{first_bytes, get, more, narrow, put, put_bytes};
use trial_spares::shows;

// Any number of nodes; and the number wanted of a call that is to be accepted, whatever its answer. Both are numbers, as
// the table that the test program keeps has no others.
pub const ANY: usize = 4294967296;

pub const ACCEPTED: usize = 0;

// The limit of the next planning call, and the number and, if they are known, the nodes wanted of it.
pub fn want(kept: &mut [usize], limit: usize, number: usize, nodes: Option<usize>)
    ensures { length kept.new ≡ length kept.old }
{
    put(kept, LIMIT, limit);
    put(kept, NUMBER, number);
    put(kept, WANTED, nodes.unwrap_or(ANY));
}

fn setting_of(kept: &[usize]) -> Options {
    Options {
        filter: narrow(get(kept, FILTER)),
        choice: narrow(get(kept, CHOICE)),
        limit: narrow(get(kept, LIMIT)),
    }
}

// The number of a planning call's answer with the channels of the job; its nodes are kept.
fn ask(
    kept: &mut [usize],
    sheet: &[u8],
    callers: &[u8],
    cells: &mut [u32],
    work: &mut [u64],
) -> usize {
    let mut channels = [0u8; 60];
    put_bytes(kept, CHANNELS, &mut channels);
    let on_air = first_bytes(&channels, get(kept, ON_AIR));
    let planned = planner::plan(sheet, on_air, setting_of(kept), callers, cells, work);
    put(kept, NODES, planner::node_count(planned) as usize);
    planner::answer_number(planned) as usize
}

// Whether the cells are those of the plan wanted where one is found, and zeros else.
fn holds_plan(kept: &[usize], cells: &[u32], found: bool) -> bool {
    cells.iter().enumerate().all(|(l, cell)| {
        let wanted = if found {
            get(kept, PLAN.wrapping_add(l))
        } else {
            0
        };
        *cell as usize == wanted
    })
}

fn are_wanted(kept: &[usize], nodes: usize) -> bool {
    get(kept, WANTED) == ANY || get(kept, WANTED) == nodes
}

// Whether an answer and the cells are as wanted.
fn is_as_wanted(kept: &[usize], number: usize, cells: &[u32]) -> bool {
    if get(kept, NUMBER) == ACCEPTED {
        return 100 <= number;
    }
    get(kept, NUMBER) == number
        && are_wanted(kept, get(kept, NODES))
        && holds_plan(kept, cells, number == 100)
}

fn print_difference(
    rt: &impl Print,
    kept: &[usize],
    number: usize,
    cells: &[u32],
) -> io::Result<()> {
    println!(rt;
        "difference under filter, choice, limit {} {} {}",
        get(kept, FILTER),
        get(kept, CHOICE),
        get(kept, LIMIT)
    )?;
    println!(rt;
        "wanted number, nodes, first cell {} {} {}",
        get(kept, NUMBER),
        get(kept, WANTED),
        get(kept, PLAN)
    )?;
    println!(rt; "got {number} {} {}", get(kept, NODES), get(cells, 0))
}

// The number of the plan check's answer.
fn check_of(sheet: &[u8], channels: &[u8], cells: &[u32]) -> usize
    ensures { result ≡ checked (job_with sheet.now channels.now) cells.now }
{
    rules::check_number(planner::check(sheet, channels, cells)) as usize
}

// Whether the plan check with the channels on air gives the number wanted.
fn checks_on(
    rt: &impl Print,
    sheet: &[u8],
    channels: &[u8],
    cells: &[u32],
    number: usize,
) -> io::Result<bool>
    ensures ok { IfOk result (λ r. r ≡
        eqb (checked (job_with sheet.now channels.now) cells.now) number) }
    ensures err { OnErr result
        (checked (job_with sheet.now channels.now) cells.now ≢ number) }
{
    let got = check_of(sheet, channels, cells);
    if got == number {
        return Ok(true);
    }
    println!(rt;
        "difference: check, wanted, first cell {got} {number} {}",
        get(cells, 0)
    )?;
    Ok(false)
}

// The same with the channels of the job.
fn is_checked(
    rt: &impl Print,
    kept: &mut [usize],
    sheet: &[u8],
    cells: &[u32],
    number: usize,
) -> io::Result<bool>
    ensures { kept.new ≡
        set kept.old 2 ((get_or kept.old 2 0 + 1) % 2 ^ 64) }
{
    let mut channels = [0u8; 60];
    put_bytes(kept, CHANNELS, &mut channels);
    more(kept, CHECKS);
    checks_on(
        rt,
        sheet,
        first_bytes(&channels, get(kept, ON_AIR)),
        cells,
        number,
    )
}

// The same; and the call for a rack display gives that number too, with the table of the job.
pub fn checks(
    rt: &impl Print,
    kept: &mut [usize],
    sheet: &[u8],
    cells: &[u32],
    number: usize,
) -> io::Result<bool>
    ensures { length kept.new ≡ length kept.old }
{
    Ok(is_checked(rt, kept, sheet, cells, number)? && shows(rt, kept, sheet, cells, number)?)
}

// Whether a planning call in these cells and words gives the number and the nodes wanted, the plan where it is found,
// zeros in all other cells, and zero work words; and the check says yes to a plan that is found.
pub fn plans_in(
    rt: &impl Print,
    kept: &mut [usize],
    sheet: &[u8],
    callers: &[u8],
    cells: &mut [u32],
    work: &mut [u64],
) -> io::Result<bool>
    ensures { length kept.new ≡ length kept.old }
{
    more(kept, CALLS);
    let number = ask(kept, sheet, callers, cells, work);
    if !is_as_wanted(kept, number, cells) {
        print_difference(rt, kept, number, cells)?;
        return Ok(false);
    }
    let is_left_zero = work.iter().all(|word| *word == 0);
    Ok(is_left_zero && (number != 100 || is_checked(rt, kept, sheet, cells, 100)?))
}

// The same in so many words, which are not zero before.
fn plans_with<const WORDS: usize>(
    rt: &impl Print,
    kept: &mut [usize],
    sheet: &[u8],
    callers: &[u8],
    cells: &mut [u32],
) -> io::Result<bool>
    requires { WORDS ≤ 32768 }
{
    let mut work = [7u64; WORDS];
    plans_in(rt, kept, sheet, callers, cells, &mut work)
}

// The same in cells of its own and in the words of the form.
pub fn plans(rt: &impl Print, kept: &mut [usize], sheet: &[u8], callers: &[u8]) -> io::Result<bool>
    ensures { length kept.new ≡ length kept.old }
{
    let mut cells = [7u32; 136];
    if sheet.first() == Some(&3) {
        plans_with::<32768>(rt, kept, sheet, callers, &mut cells)
    } else {
        plans_with::<8192>(rt, kept, sheet, callers, &mut cells)
    }
}
