// The lines of a plan's links. The contracts say by `Puts` of the crate `output` that they were put.
ghost use Rattle.std.specs.Prelude.{◌+◌, ◌≤◌, length};
ghost use Rattle.output.specs.Output.{most_text};
ghost use Rattle.output.specs.Puts.{Puts};
ghost use Rattle.lines.specs.Lines.{decimal, line};
ghost use Rattle.text.specs.Written.{PutLines};

use lines::{put_decimal, put_ending};
use output::Output;

// Puts a line `link kHz`.
fn put_link_line(out: &mut Output, link: u32, khz: u32)
    requires { out.old.end + 22 ≤ most_text }
    ensures { Puts (line (decimal link) khz) out.old out.new
        × (out.new.end ≤ out.old.end + 22) }
{
    put_decimal(out, link);
    put_ending(out, khz);
}

// Puts such a line for each of the first k cells.
pub fn put_link_lines(out: &mut Output, cells: &[u32], k: usize)
    requires { (out.old.end ≤ 17) × (k ≤ length cells.now) × (k ≤ 64) }
    ensures { PutLines k cells.now out.old out.new }
{
    for l in 0..k {
        put_link_line(out, l as u32, cells[l]);
    }
}
