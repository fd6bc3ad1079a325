// The two texts of a graph. Each writer puts its bytes at a place and gives the place after them; a length is the place
// after the whole text.
ghost use Rattle.std.specs.Prelude.{◌≡◌, length};

use trial_parts::kept::K;
use trial_parts::{count, get, put};

// The digit of a unit, unless it is a leading zero.
fn put_digit(out: &mut [u8], at: usize, x: usize, unit: usize) -> usize {
    if unit == 0 || x < unit {
        return at;
    }
    put(out, at, x / unit % 10 + 48);
    at.wrapping_add(1)
}

// A number below 1,000,000 and the byte after it.
fn put_number(out: &mut [u8], at: usize, x: usize, end: u8) -> usize {
    let mut i = at;
    for unit in [100000, 10000, 1000, 100, 10] {
        i = put_digit(out, i, x, unit);
    }
    put(out, i, x % 10 + 48);
    put(out, i.wrapping_add(1), usize::from(end));
    i.wrapping_add(2)
}

fn put_words(out: &mut [u8], at: usize, words: &[u8]) -> usize {
    for (i, b) in words.iter().enumerate() {
        put(out, at.wrapping_add(i), usize::from(*b));
    }
    at.wrapping_add(words.len())
}

// A line of a word and two numbers.
fn put_line(out: &mut [u8], at: usize, words: &[u8], a: usize, b: usize) -> usize {
    let i = put_words(out, at, words);
    let j = put_number(out, i, a, b' ');
    put_number(out, j, b, b'\n')
}

// `p edge n m`.
pub fn put_head(out: &mut [u8], n: usize, m: usize) -> usize
    ensures { length out.new ≡ length out.old }
{
    put_line(out, 0, b"p edge ", n, m)
}

// A line of the count text.
pub fn put_count(out: &mut [u8], at: usize, x: usize) -> usize
    ensures { length out.new ≡ length out.old }
{
    put_number(out, at, x, b'\n')
}

// The number of edges.
fn edges(table: &[u8]) -> usize {
    table.iter().filter(|cell| **cell != 0).count()
}

// The line `e u v` of place p of the table.
fn put_edge(n: usize, out: &mut [u8], at: usize, p: usize) -> usize {
    if n == 0 {
        return at;
    }
    put_line(out, at, b"e ", (p / n).wrapping_add(1), p % n + 1)
}

// The graph text of a table of n vertices. Gives its length.
pub fn put_graph_text(table: &[u8], n: usize, out: &mut [u8]) -> usize
    ensures { length out.new ≡ length out.old }
{
    let mut at = put_head(out, n, edges(table));
    for (p, cell) in table.iter().enumerate() {
        if *cell != 0 {
            at = put_edge(n, out, at, p);
        }
    }
    at
}

// The count text of a job. Gives its length.
pub fn put_count_text(job: &[usize], out: &mut [u8]) -> usize
    ensures { length out.new ≡ length out.old }
{
    let mut at = 0;
    for l in 0..get(job, K) {
        at = put_count(out, at, count(job, l));
    }
    at
}
