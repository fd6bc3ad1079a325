// Bytes filled, and compared.
ghost use Rattle.std.specs.Prelude.{◌≡◌, ◌≤◌, length};

use trial_parts::{Cell, get};

// One number in every byte.
pub fn fill_bytes(s: &mut [u8], x: usize)
    ensures { length s.new ≡ length s.old }
{
    s.fill(u8::cut(x));
}

// The place of the first byte that is not the one wanted, which is 0 past the end of what is wanted; or the end, which
// callers compare with the length.
pub fn first_difference(got: &[u8], wanted: &[u8]) -> usize
    ensures { result ≤ length got.now }
{
    (0..got.len())
        .find(|i| get(got, *i) != get(wanted, *i))
        .unwrap_or(got.len())
}
