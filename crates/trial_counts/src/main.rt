// The test program of the counts: the counting call on the rows of its input, beside plans counted apart from it and
// beside planning. It prints the counts of known sheets, and how many calls agreed and how many differed.
#![tactic(auto)]

use input::read_full;
use std::io;
use trial_counts_beside::{PLANS_SUM, small_jobs};
use trial_counts_calls::{AGREED, DIFFERED, LEAST, WHERE};
use trial_counts_rows::row_on_sheet;
use trial_parts::kept::{AIRED, AT, FESTIVALS, LIST, LISTED, NODE_SUMS, ROOM, WITH};
use trial_parts::{
    EQUALS, first_bytes, get, line_end, next, next_run, put, read, reads_job, times,
};

// Numbers kept from `from` on.
fn print_run(rt: &impl Print, kept: &[usize], from: usize, m: usize) -> io::Result<()> {
    for i in 0..m {
        print!(rt; " {}", get(kept, from.wrapping_add(i)))?;
    }
    println!(rt; "")
}

fn print_nodes(rt: &impl Print, kept: &[usize], choice: usize) -> io::Result<()> {
    print!(rt; "nodes under filter numbers 0 to 7, choice {choice}:")?;
    print_run(rt, kept, NODE_SUMS.wrapping_add(times(8, choice)), 8)
}

fn print_jobs(rt: &impl Print, job: &[usize], m: usize) -> io::Result<()> {
    println!(rt;
        "small jobs: {m}; with a plan: {}; with channels on air: {}; plans: {}; calls again with form 3: {}",
        get(job, WITH),
        get(job, AIRED),
        get(job, PLANS_SUM),
        get(job, FESTIVALS)
    )?;
    for choice in 0..3 {
        print_nodes(rt, job, choice)?;
    }
    Ok(())
}

// The calls counted, and where the first differed.
fn keep_calls(kept: &mut [usize], job: &[usize]) {
    for what in AGREED..LEAST {
        put(kept, what, get(job, what));
    }
}

// `random`: so many small jobs, in a table of their own.
fn random_row(rt: &impl Print, kept: &mut [usize]) -> io::Result<()> {
    let mut job = [0usize; ROOM];
    let m = next(kept);
    small_jobs(&mut job, m);
    print_jobs(rt, &job, m)?;
    keep_calls(kept, &job);
    Ok(())
}

// The setting of the first call that differed, and the counts lent to it.
fn print_where(rt: &impl Print, kept: &[usize]) -> io::Result<()> {
    if get(kept, DIFFERED) == 0 {
        return Ok(());
    }
    print!(rt; "first difference under filter number, choice, limit, with counts lent:")?;
    print_run(rt, kept, WHERE, 4)
}

// A line that begins with `=`: its text, and the calls beside plans counted apart since the last such line.
fn print_line(rt: &impl Print, words: &[u8], kept: &mut [usize]) -> io::Result<()> {
    let from = next(kept);
    if let Some(text) = words.get(from..line_end(words, from)) {
        rt.write_all(text)?;
    }
    println!(rt;
        "; calls that agreed: {}, that differed: {}",
        get(kept, AGREED),
        get(kept, DIFFERED)
    )?;
    print_where(rt, kept)?;
    put(kept, AGREED, 0);
    put(kept, DIFFERED, 0);
    Ok(())
}

fn read_list(kept: &mut [usize]) {
    let m = next(kept);
    next_run(kept, LIST, m);
    put(kept, LISTED, m);
}

// A row, by the first byte of its word.
fn row(rt: &impl Print, kept: &mut [usize], word: usize) -> io::Result<()> {
    if reads_job(kept, word) {
        return Ok(());
    }
    match u8::try_from(word) {
        Ok(b'l') => {
            read_list(kept);
            Ok(())
        }
        Ok(b'r') => random_row(rt, kept),
        _ => row_on_sheet(rt, kept, word),
    }
}

// A row, or a line to print.
fn row_or_line(rt: &impl Print, words: &[u8], kept: &mut [usize]) -> io::Result<()> {
    let word = next(kept);
    if word == EQUALS {
        print_line(rt, words, kept)
    } else {
        row(rt, kept, word)
    }
}

// The rows of an input of m words and numbers.
fn rows_of(rt: &impl Print, words: &[u8], kept: &mut [usize], m: usize) -> io::Result<()> {
    for _ in 0..m {
        if m <= get(kept, AT) {
            return Ok(());
        }
        row_or_line(rt, words, kept)?;
    }
    Ok(())
}

fn main(rt: HostRuntime) -> io::Result<()> {
    let mut words = [0u8; 16384];
    let mut kept = [0usize; ROOM];
    let n = read_full(&mut rt.stdin(), &mut words)?;
    let m = read(first_bytes(&words, n), &mut kept);
    rows_of(&rt, first_bytes(&words, n), &mut kept, m)
}
