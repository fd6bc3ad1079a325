// Texts that the rows of the input say.
ghost use Rattle.std.specs.Prelude.{◌≡◌, length};

use crate::texts::put_count;
use trial_parts::put;

// A count text of l lines of one number. Gives its length.
pub fn put_equal_counts(out: &mut [u8], l: usize, x: usize) -> usize
    ensures { length out.new ≡ length out.old }
{
    let mut at = 0;
    for _line in 0..l {
        at = put_count(out, at, x);
    }
    at
}

// A byte of a quoted text: a bar is a newline, a caret a carriage return, an underscore nothing. Gives the place after.
fn put_meant(out: &mut [u8], at: usize, b: u8) -> usize {
    let meant = match b {
        b'_' => return at,
        b'|' => b'\n',
        b'^' => b'\r',
        _ => b,
    };
    put(out, at, usize::from(meant));
    at.wrapping_add(1)
}

// The text that is quoted from one place of the input to another. Gives its length.
pub fn put_quoted(words: &[u8], from: usize, end: usize, out: &mut [u8]) -> usize
    ensures { length out.new ≡ length out.old }
{
    let mut at = 0;
    for i in from..end {
        at = put_meant(out, at, words.get(i).copied().unwrap_or(0));
    }
    at
}
