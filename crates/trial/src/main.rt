// The test program: the planner's calls beside the rows of its input, and beside a brute-force solver that is written
// apart from the planner. It prints what it compared, and stops at the first difference.
#![tactic(auto)]

use input::read_full;
use std::io;
use trial_beside::small_sheets;
use trial_heaviest::{HEAVIEST, heaviest_row};
use trial_parts::kept::{
    AIRED, AT, CALLS, CHECKS, EMPTIED, FESTIVALS, LAYERED, LIST, LISTED, NODE_SUMS, REFUSED, ROOM,
    ROWS, SPARES, WITH,
};
use trial_parts::{
    EQUALS, first_bytes, get, line_end, more, next, next_run, put, read, reads_job, times,
};
use trial_rows::row_on_sheet;

fn print_nodes(rt: &impl Print, kept: &[usize], choice: usize) -> io::Result<()> {
    let at = NODE_SUMS.wrapping_add(times(8, choice));
    print!(rt; "nodes under filter numbers 0 to 7, choice {choice}:")?;
    for filter in 0..8 {
        print!(rt; " {}", get(kept, at.wrapping_add(filter)))?;
    }
    println!(rt; "")
}

fn print_small(rt: &impl Print, kept: &[usize]) -> io::Result<()> {
    println!(rt;
        "small sheets with a plan: {}; with more than k greedy classes: {}; with a refused class list: {}",
        get(kept, WITH),
        get(kept, LAYERED),
        get(kept, REFUSED)
    )?;
    println!(rt;
        "with channels on air: {}; with a link left empty: {}",
        get(kept, AIRED),
        get(kept, EMPTIED)
    )
}

// `random`: so many small sheets beside the brute-force solver.
fn random_row(rt: &impl Print, kept: &mut [usize], m: usize) -> io::Result<bool> {
    let mut counted = [0usize; ROOM];
    if !small_sheets(rt, &mut counted, m)? {
        return Ok(false);
    }
    print_small(rt, &counted)?;
    for choice in 0..3 {
        print_nodes(rt, &counted, choice)?;
    }
    for what in [CALLS, FESTIVALS, CHECKS, SPARES] {
        put(kept, what, get(&counted, what));
    }
    Ok(true)
}

// The calls since the last line printed.
fn print_calls(rt: &impl Print, kept: &[usize]) -> io::Result<()> {
    print!(rt; "; calls of planning: {}", get(kept, CALLS))?;
    print_some(rt, ", of these again with form 3", get(kept, FESTIVALS))?;
    print!(rt;
        ", of the check: {}, for the spares: {}",
        get(kept, CHECKS),
        get(kept, SPARES)
    )?;
    print_some(rt, ", for heaviest jobs", get(kept, HEAVIEST))?;
    println!(rt; "")
}

fn print_some(rt: &impl Print, words: &str, m: usize) -> io::Result<()> {
    if m == 0 {
        return Ok(());
    }
    print!(rt; "{words}: {m}")
}

// A line that begins with `=`: its text, and the calls since the last such line.
fn print_line(rt: &impl Print, words: &[u8], kept: &mut [usize]) -> io::Result<()> {
    let from = next(kept);
    if let Some(text) = words.get(from..line_end(words, from)) {
        rt.write_all(text)?;
    }
    print_calls(rt, kept)?;
    for what in [CALLS, FESTIVALS, CHECKS, SPARES, HEAVIEST, ROWS] {
        put(kept, what, 0);
    }
    Ok(())
}

fn read_list(kept: &mut [usize]) {
    let m = next(kept);
    next_run(kept, LIST, m);
    put(kept, LISTED, m);
}

// A row, by the first byte of its word. Says whether all was as wanted.
fn row(rt: &impl Print, kept: &mut [usize], word: usize) -> io::Result<bool> {
    if reads_job(kept, word) {
        return Ok(true);
    }
    match u8::try_from(word) {
        Ok(b'l') => {
            read_list(kept);
            Ok(true)
        }
        Ok(b'h') => heaviest_row(rt, kept),
        Ok(b'r') => {
            let m = next(kept);
            random_row(rt, kept, m)
        }
        _ => row_on_sheet(rt, kept, word),
    }
}

// A row, or a line to print.
fn row_or_line(rt: &impl Print, words: &[u8], kept: &mut [usize]) -> io::Result<bool> {
    let word = next(kept);
    if word == EQUALS {
        print_line(rt, words, kept)?;
        return Ok(true);
    }
    more(kept, ROWS);
    row(rt, kept, word)
}

// The rows of an input of m words and numbers, up to a difference.
fn rows_of(rt: &impl Print, words: &[u8], kept: &mut [usize], m: usize) -> io::Result<bool> {
    for _ in 0..m {
        if m <= get(kept, AT) {
            return Ok(true);
        }
        if !row_or_line(rt, words, kept)? {
            return Ok(false);
        }
    }
    Ok(true)
}

fn run(rt: &impl Print, words: &[u8], kept: &mut [usize]) -> io::Result<()> {
    let m = read(words, kept);
    if rows_of(rt, words, kept, m)? {
        return println!(rt; "no difference");
    }
    println!(rt; "stopped in row {} after the last line", get(kept, ROWS))
}

fn main(rt: HostRuntime) -> io::Result<()> {
    let mut words = [0u8; 98304];
    let mut kept = [0usize; ROOM];
    let n = read_full(&mut rt.stdin(), &mut words)?;
    run(&rt, first_bytes(&words, n), &mut kept)
}
