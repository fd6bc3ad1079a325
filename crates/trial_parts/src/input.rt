// The input's words and numbers. A word stands as its first byte, `-` as `SKIP`, and a line that begins with `=` as
// that byte and the place of the text after it and a space. From `#` to the end of its line the input is passed over.
ghost use Rattle.std.specs.Prelude.{◌≡◌, ◌+◌, ◌%◌, ◌^◌, ◌≤◌, get_or, length, set};

use trial_tables::kept::{AT, INPUT};
use trial_tables::{get, put};

// Numbers, as the table of the input has numbers alone.
pub const SKIP: usize = 1_000_000_000_000;

pub const EQUALS: usize = b'=' as usize;

// What a byte of the input belongs to.
#[derive(Clone, Copy, PartialEq, Eq, Debug)]
enum Part {
    Between,
    Number,
    Word,
    Rest,
}

// What a byte belongs to, after a byte that belongs to `before`.
fn part_of(b: u8, before: Part) -> Part {
    match b {
        b'\n' => Part::Between,
        _ if before == Part::Rest => Part::Rest,
        b'#' | b'=' => Part::Rest,
        0..=b' ' => Part::Between,
        b'0'..=b'9' => Part::Number,
        _ => Part::Word,
    }
}

// One more word or number after m. Gives how many there are.
fn begin(kept: &mut [usize], m: usize, x: usize) -> usize {
    put(kept, INPUT.wrapping_add(m), x);
    m.wrapping_add(1)
}

// One digit more of the last of m.
fn go_on(kept: &mut [usize], m: usize, digit: usize) -> usize {
    let at = INPUT.wrapping_add(m.saturating_sub(1));
    let x = get(kept, at) % 1_000_000_000_000 * 10;
    put(kept, at, x.wrapping_add(digit));
    m
}

// Byte b at place i, where m words and numbers are begun before it. Gives how many are begun after it.
fn take_byte(kept: &mut [usize], m: usize, i: usize, b: u8, now: Part, before: Part) -> usize {
    let digit = usize::from(b.saturating_sub(b'0'));
    match now {
        Part::Number if before == Part::Number => go_on(kept, m, digit),
        _ if before == now => m,
        Part::Number => begin(kept, m, digit),
        Part::Word if b == b'-' => begin(kept, m, SKIP),
        Part::Word => begin(kept, m, usize::from(b)),
        Part::Rest if b == b'=' => {
            let next = begin(kept, m, EQUALS);
            begin(kept, next, i.wrapping_add(2))
        }
        _ => m,
    }
}

// Reads the input. Gives how many words and numbers it has.
pub fn read(text: &[u8], kept: &mut [usize]) -> usize
    ensures { length kept.new ≡ length kept.old }
{
    let mut m = 0;
    let mut before = Part::Between;
    for (i, b) in text.iter().enumerate() {
        let now = part_of(*b, before);
        m = take_byte(kept, m, i, *b, now, before);
        before = now;
    }
    m
}

// The next word or number.
pub fn next(kept: &mut [usize]) -> usize
    ensures { (kept.new ≡ set kept.old 0 ((get_or kept.old 0 0 + 1) % 2 ^ 64)) ×
        (result ≡ get_or kept.new ((29058 + get_or kept.old 0 0) % 2 ^ 64) 0) }
{
    let at = get(kept, AT);
    put(kept, AT, at.wrapping_add(1));
    get(kept, INPUT.wrapping_add(at))
}

// The next m numbers, to places from `from` on.
pub fn next_run(kept: &mut [usize], from: usize, m: usize)
    ensures { length kept.new ≡ length kept.old }
{
    for i in 0..m {
        let x = next(kept);
        put(kept, from.wrapping_add(i), x);
    }
}

// The place of the first newline from `from` on, or the end.
pub fn line_end(text: &[u8], from: usize) -> usize
    ensures { result ≤ length text.now }
{
    for i in from..text.len() {
        if text[i] == b'\n' {
            return i;
        }
    }
    text.len()
}
