// Planning calls on two sheets of one graph.
ghost use Rattle.std.specs.Prelude.{◌≡◌, ◌≤◌, length};

use setting::Options;
use std::io;
use trial_parts::kept::{CALLS, NODES};
use trial_parts::{get, more, narrow, put};
use trial_texts_calls::is_same;

// The number of a planning call's answer; its nodes are kept.
fn ask(
    kept: &mut [usize],
    sheet: &[u8],
    options: Options,
    cells: &mut [u32],
    work: &mut [u64],
) -> usize {
    more(kept, CALLS);
    let planned = planner::plan(sheet, b"", options, b"", cells, work);
    put(kept, NODES, planner::node_count(planned) as usize);
    planner::answer_number(planned) as usize
}

// The same in cells of its own and in so many words.
fn run_with<const WORDS: usize>(kept: &mut [usize], sheet: &[u8], options: Options) -> usize
    requires { WORDS ≤ 32768 }
{
    let mut cells = [7u32; 136];
    let mut work = [7u64; WORDS];
    ask(kept, sheet, options, &mut cells, &mut work)
}

// The same in the words of the sheet's form.
fn run(kept: &mut [usize], sheet: &[u8], options: Options) -> usize {
    if sheet.first() == Some(&3) {
        run_with::<32768>(kept, sheet, options)
    } else {
        run_with::<8192>(kept, sheet, options)
    }
}

// Setting p: eight filter numbers under choices 0 and 1, with a limit of 1,000,000 and then of 3.
fn setting_of(p: usize) -> Options {
    Options {
        filter: narrow(p % 8),
        choice: narrow(p / 8 % 2),
        limit: if p < 16 { 1000000 } else { 3 },
    }
}

// Whether a sheet is accepted by the planner.
pub fn is_accepted(rt: &impl Print, kept: &mut [usize], sheet: &[u8]) -> io::Result<bool>
    ensures { length kept.new ≡ length kept.old }
{
    let number = run(kept, sheet, setting_of(7));
    Ok(100 <= number || is_same(rt, b"number of the imported sheet's run", number, 100)?)
}

// Whether the runs of two sheets agree under setting p.
fn agree_under(
    rt: &impl Print,
    kept: &mut [usize],
    one: &[u8],
    other: &[u8],
    p: usize,
) -> io::Result<bool> {
    let number = run(kept, one, setting_of(p));
    let nodes = get(kept, NODES);
    let second = run(kept, other, setting_of(p));
    let got = get(kept, NODES);
    Ok(
        is_same(rt, b"number of the imported sheet's run", second, number)?
            && is_same(rt, b"nodes of the imported sheet's run", got, nodes)?,
    )
}

// Whether the runs of two sheets agree under every setting.
pub fn runs_agree(rt: &impl Print, kept: &mut [usize], one: &[u8], other: &[u8]) -> io::Result<bool>
    ensures { length kept.new ≡ length kept.old }
{
    for p in 0..32 {
        if !agree_under(rt, kept, one, other, p)? {
            return is_same(rt, b"first of 32 settings with another run", p, 32);
        }
    }
    Ok(true)
}
