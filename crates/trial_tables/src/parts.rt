// Parts of the test program, each one equation: sums of any numbers, and bytes and fields of a sheet.
ghost use Rattle.std.specs.Prelude.{◌≡◌, ◌+◌, ◌*◌, ◌/◌, ◌%◌, ◌^◌, length, take, slice_index, slice_set};
ghost use Rattle.trial_tables.specs.Fields.{half_at, word_at};

use crate::cell::{Cell, get, put};

pub fn narrow(x: usize) -> u32
    ensures { result ≡ x % 4294967296 }
{
    u32::cut(x)
}

// One more at place i.
pub fn more(s: &mut [usize], i: usize)
    ensures { s.new ≡ slice_set s.old i ((slice_index s.old i + 1) % 2 ^ 64) }
{
    let n = get(s, i).wrapping_add(1);
    put(s, i, n);
}

pub fn times(a: usize, b: usize) -> usize
    ensures { result ≡ a % 65536 * (b % 65536) }
{
    (a % 65536) * (b % 65536)
}

// The first n bytes, or all where there are fewer.
pub fn first_bytes(s: &[u8], n: usize) -> &[u8]
    ensures { result.now ≡ take n s.now }
{
    s.get(..n).unwrap_or(s)
}

// Numbers of a table from `from` on, as bytes.
pub fn put_bytes(s: &[usize], from: usize, out: &mut [u8])
    ensures { length out.new ≡ length out.old }
{
    for (i, b) in out.iter_mut().enumerate() {
        *b = u8::cut(get(s, from.wrapping_add(i)));
    }
}

pub fn put_half(out: &mut [u8], at: usize, x: usize)
    ensures { out.new ≡ half_at out.old at x }
{
    put(out, at, x);
    put(out, at.wrapping_add(1), x / 256);
}

pub fn put_word(out: &mut [u8], at: usize, x: usize)
    ensures { out.new ≡ word_at out.old at x }
{
    put_half(out, at, x);
    put_half(out, at.wrapping_add(2), x / 65536);
}

// The number after x of a fixed pseudo-random sequence: a Lehmer generator.
pub fn after(x: usize) -> usize
    ensures { result ≡ x % 2147483647 * 48271 % 2147483647 }
{
    x % 2147483647 * 48271 % 2147483647
}
