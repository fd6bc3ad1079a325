// Comparisons that print a difference.
ghost use Rattle.std.specs.Prelude.{◌≡◌, ◌≢◌, eqb, IfOk, OnErr};

use std::io;
use trial_parts::get;
use trial_texts_parts::first_difference;

// Two numbers that differ.
fn print_difference(rt: &impl Print, words: &[u8], got: usize, wanted: usize) -> io::Result<()> {
    print!(rt; "difference: ")?;
    rt.write_all(words)?;
    println!(rt; ": {got}, wanted {wanted}")
}

// Whether a number is the one wanted.
pub fn is_same(rt: &impl Print, words: &[u8], got: usize, wanted: usize) -> io::Result<bool>
    ensures ok { IfOk result (λ r. r ≡ eqb got wanted) }
    ensures err { OnErr result (got ≢ wanted) }
{
    if got == wanted {
        return Ok(true);
    }
    print_difference(rt, words, got, wanted)?;
    Ok(false)
}

// Whether bytes are those wanted, and zero after them.
pub fn holds(rt: &impl Print, words: &[u8], got: &[u8], wanted: &[u8]) -> io::Result<bool> {
    let at = first_difference(got, wanted);
    if at == got.len() {
        return Ok(true);
    }
    print!(rt; "at byte {at} ")?;
    print_difference(rt, words, get(got, at), get(wanted, at))?;
    Ok(false)
}
