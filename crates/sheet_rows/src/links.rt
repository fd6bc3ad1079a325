// The fields of link rows: of a section whose rows have so many bytes, and of a sheet, whose form says how many.
ghost use Rattle.std.specs.Prelude.{◌≡◌, ◌<◌, ◌≤◌};
ghost use Rattle.sheet_rows.specs.Rows.{HasRow, HasLink, row_first, row_count, row_width};
ghost use Rattle.sheet_rows.specs.Rows.{link_first, link_count, link_width};

use crate::forms::link_bytes;
use wire::{half, word};

// The first frequency of row l.
pub fn row_first(p: &[u8], bytes: usize, l: usize) -> usize
    requires { HasRow bytes p.now l × (4 ≤ bytes) }
    ensures { (result ≡ row_first bytes p.now l) × (result < 65536) }
{
    half(p, bytes * l)
}

// How many frequencies row l has.
pub fn row_count(p: &[u8], bytes: usize, l: usize) -> usize
    requires { HasRow bytes p.now l × (4 ≤ bytes) }
    ensures { (result ≡ row_count bytes p.now l) × (result < 65536) }
{
    half(p, bytes * l + 2)
}

// The width of row l, or 0 where the rows have none.
pub fn row_width(p: &[u8], bytes: usize, l: usize) -> usize
    requires { HasRow bytes p.now l }
    ensures { (result ≡ row_width bytes p.now l) × (result < 4294967296) }
{
    if bytes < 8 {
        return 0;
    }
    word(p, bytes * l + 4)
}

// Of a sheet, three calls that differ in the row's reader alone: a shared one would need it as a closure.

// The first frequency of link l of the sheet s.
pub fn link_first(s: &[u8], l: usize) -> usize
    requires { HasLink s.now l }
    ensures { (result ≡ link_first s.now l) × (result < 65536) }
{
    row_first(&s[40..], link_bytes(s), l)
}

// How many frequencies link l of the sheet s has.
pub fn link_count(s: &[u8], l: usize) -> usize
    requires { HasLink s.now l }
    ensures { (result ≡ link_count s.now l) × (result < 65536) }
{
    row_count(&s[40..], link_bytes(s), l)
}

// The width of link l of the sheet s, or 0 where its form has none.
pub fn link_width(s: &[u8], l: usize) -> usize
    requires { HasLink s.now l }
    ensures { (result ≡ link_width s.now l) × (result < 4294967296) }
{
    row_width(&s[40..], link_bytes(s), l)
}
