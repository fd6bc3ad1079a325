// Little-endian fields, put into a lent output that may be too short.
// The contracts say by `Puts` of the crate `output` that the bytes of 16 and 32 bits were put: `bytes16` of the crate
// `wire`, and `full` and `fulls` of specs/Puts.antt.
#![tactic(auto)]

ghost use Rattle.std.specs.Prelude.{◌++◌, ◌+◌, ◌*◌, ◌≤◌, ◌<◌, length};
ghost use Rattle.wire.specs.Fields.{bytes16};
ghost use Rattle.output.specs.Output.{most_text};
ghost use Rattle.output.specs.Puts.{Puts};
ghost use Rattle.wire_put.specs.Puts.{full, fulls};

use output::Output;

// Puts a number of 16 bits.
pub fn put_half(out: &mut Output, x: usize)
    requires { (x < 65536) × (out.old.end + 2 ≤ most_text) }
    ensures { Puts (bytes16 x) out.old out.new }
{
    out.put_word(&(x as u16).to_le_bytes());
}

// Puts two numbers of 16 bits.
pub fn put_halves(out: &mut Output, x: usize, y: usize)
    requires { (x < 65536) × (y < 65536) × (out.old.end + 4 ≤ most_text) }
    ensures { Puts (bytes16 x ++ bytes16 y) out.old out.new }
{
    put_half(out, x);
    put_half(out, y);
}

// Puts a number of 32 bits.
pub fn put_full(out: &mut Output, x: u32)
    requires { out.old.end + 4 ≤ most_text }
    ensures { Puts (full x) out.old out.new }
{
    out.put_word(&x.to_le_bytes());
}

// Puts numbers of 32 bits.
pub fn put_fulls(out: &mut Output, xs: &[u32])
    requires { out.old.end + 4 * length xs.now ≤ most_text }
    ensures { Puts (fulls xs.now) out.old out.new }
{
    for x in xs {
        put_full(out, *x);
    }
}
