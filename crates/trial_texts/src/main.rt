// The test program of the texts: export and import beside the rows of its input, and beside texts and sheets that are
// formed apart from them. It prints what it compared, and stops at the first difference.
#![tactic(auto)]

mod job_rows;
mod text_rows;

use input::read_full;
use job_rows::job_row;
use std::io;
use text_rows::{bytes_row, counts_row};
use trial_parts::kept::{AT, CALLS, ROOM, ROWS};
use trial_parts::{EQUALS, first_bytes, get, line_end, more, next, put, read};
use trial_texts_calls::{EXPORTS, IMPORTS};
use trial_texts_there::small_sheets;

// A line that begins with `=`: its text, and the calls since the last such line.
fn print_line(rt: &impl Print, words: &[u8], kept: &mut [usize]) -> io::Result<()> {
    let from = next(kept);
    if let Some(text) = words.get(from..line_end(words, from)) {
        rt.write_all(text)?;
    }
    println!(rt;
        "; exports: {}, imports: {}, calls of planning: {}",
        get(kept, EXPORTS),
        get(kept, IMPORTS),
        get(kept, CALLS)
    )?;
    for what in [EXPORTS, IMPORTS, CALLS, ROWS] {
        put(kept, what, 0);
    }
    Ok(())
}

// A row, by the first byte of its word. Says whether all was as wanted.
fn row(rt: &impl Print, words: &[u8], kept: &mut [usize], word: usize) -> io::Result<bool> {
    match u8::try_from(word) {
        Ok(b'c') => counts_row(rt, kept),
        Ok(b'b') => bytes_row(rt, words, kept),
        Ok(b'r') => {
            let m = next(kept);
            small_sheets(rt, kept, m)
        }
        _ => job_row(rt, kept, word),
    }
}

// A row, or a line to print.
fn row_or_line(rt: &impl Print, words: &[u8], kept: &mut [usize]) -> io::Result<bool> {
    let word = next(kept);
    if word == EQUALS {
        print_line(rt, words, kept)?;
        return Ok(true);
    }
    more(kept, ROWS);
    row(rt, words, kept, word)
}

// The rows of an input of m words and numbers, up to a difference.
fn rows_of(rt: &impl Print, words: &[u8], kept: &mut [usize], m: usize) -> io::Result<bool> {
    for _ in 0..m {
        if m <= get(kept, AT) {
            return Ok(true);
        }
        if !row_or_line(rt, words, kept)? {
            return Ok(false);
        }
    }
    Ok(true)
}

fn run(rt: &impl Print, words: &[u8], kept: &mut [usize]) -> io::Result<()> {
    let m = read(words, kept);
    if rows_of(rt, words, kept, m)? {
        return println!(rt; "no difference");
    }
    println!(rt; "stopped in row {} after the last line", get(kept, ROWS))
}

fn main(rt: HostRuntime) -> io::Result<()> {
    let mut words = [0u8; 65536];
    let mut kept = [0usize; ROOM];
    let n = read_full(&mut rt.stdin(), &mut words)?;
    run(&rt, first_bytes(&words, n), &mut kept)
}
