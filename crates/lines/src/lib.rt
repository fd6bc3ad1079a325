// Numbers in decimal and lines of text, put into a lent output. The contracts say by `Puts` of the crate `output` that
// the bytes of specs/Lines.antt were put.
#![tactic(auto)]

ghost use Rattle.std.specs.Prelude.{◌≡◌, ◌+◌, ◌%◌, ◌≤◌, ◌<◌, length};
ghost use Rattle.output.specs.Output.{most_text};
ghost use Rattle.output.specs.Puts.{Puts};
ghost use Rattle.lines.specs.Lines.{decimal, ending, line};

use output::Output;

// The byte of a number's last digit.
fn last_digit(n: u32) -> u8
    ensures { result ≡ 48 + n % 10 }
{
    b'0' + (n % 10) as u8
}

// Puts a number of one to three digits in decimal.
fn put_small(out: &mut Output, n: u32)
    requires { (n < 1000) × (out.old.end + length (decimal n) ≤ most_text) }
    ensures { Puts (decimal n) out.old out.new }
{
    let last = last_digit(n);
    if n < 10 {
        out.put_byte(last);
        return;
    }
    let middle = last_digit(n / 10);
    if n < 100 {
        out.put_word(&[middle, last]);
        return;
    }
    out.put_word(&[last_digit(n / 100), middle, last]);
}

// Puts a number in decimal: its earlier digits, then the last.
pub fn put_decimal(out: &mut Output, n: u32)
    requires { out.old.end + length (decimal n) ≤ most_text }
    ensures { Puts (decimal n) out.old out.new }
{
    if n < 1000 {
        put_small(out, n);
        return;
    }
    put_decimal(out, n / 10);
    out.put_byte(last_digit(n));
}

// Puts what follows a line's first word: a space, a number and a newline.
pub fn put_ending(out: &mut Output, n: u32)
    requires { out.old.end + 12 ≤ most_text }
    ensures { Puts (ending n) out.old out.new × (out.new.end ≤ out.old.end + 12) }
{
    out.put_byte(b' ');
    put_decimal(out, n);
    out.put_byte(b'\n');
}

// Puts a line of a word and a number.
pub fn put_line(out: &mut Output, word: &[u8], n: u32)
    requires { out.old.end + length word.now + 12 ≤ most_text }
    ensures { Puts (line word.now n) out.old out.new
        × (out.new.end ≤ out.old.end + length word.now + 12) }
{
    out.put_word(word);
    put_ending(out, n);
}
