// Reads a sheet from standard input and prints its plan.
#![tactic(auto)]

ghost use Rattle.std.specs.Prelude.{◌≡◌, IfSome, OnOk, length};
ghost use Rattle.std.specs.Io.KnownBytes.{Appends};
ghost use Rattle.text.specs.Text.{printed};
ghost use Rattle.text.specs.Written.{printed_in};

use input::read_full;
use std::io;
use std::io::{Read, Write};
use text::put_text;

// Prints the text for a sheet.
fn print<W: Write>(out: &mut W, sheet: &[u8], text: &mut [u8]) -> io::Result<()>
    ensures { OnOk result (Appends (W.contents out.old) (W.contents out.new)
        (printed_in (length text.old) sheet.now)) }
{
    let m = put_text(sheet, text);
    out.write_all(&text[..m])
}

// Reads a sheet and prints its text. No sheet has more than 62,120 bytes: what follows 65,536 changes nothing
// (`same_text` in the crate text).
fn run<R: Read, W: Write>(input: &mut R, out: &mut W) -> io::Result<()>
    ensures { OnOk result (IfSome (R.remaining input.old)
        (λ sheet. Appends (W.contents out.old) (W.contents out.new) (printed sheet))) }
{
    let mut sheet = [0u8; 65536];
    let mut text = [0u8; 2048];
    let n = read_full(input, &mut sheet)?;
    print(out, &sheet[..n], &mut text)
}

fn main(rt: HostRuntime) -> io::Result<()> {
    run(&mut rt.stdin(), &mut rt.stdout())
}
