// The header's causes, 1 to 4.
ghost use Rattle.std.specs.Prelude.{◌≡◌, ◌≤◌, length};
ghost use Rattle.sheet_rows.specs.Rows.{header_bytes};
ghost use Rattle.sheet.specs.Refusal.{form_ok, link_count_ok, counts_ok, offsets_ok};

use crate::places::{end_at, freqs_at, freqs_of, links_of, pairs_at, pairs_of, rules_at, rules_of};
use sheet_rows::form_of;
use wire::word;

const MOST_RULES: usize = 2016;

const MOST_PAIRS: usize = 8192;

pub const MOST_WIDTH: usize = 20000;

// Cause 1: under 40 bytes, or no form of this number.
pub fn form_ok(s: &[u8]) -> bool
    ensures { result ≡ form_ok s.now }
{
    if s.len() < 40 {
        return false;
    }
    let form = form_of(s);
    form.known
}

// Cause 2: k, by the form.
pub fn link_count_ok(s: &[u8]) -> bool
    requires { header_bytes ≤ length s.now }
    ensures { result ≡ link_count_ok s.now }
{
    let form = form_of(s);
    let k = links_of(s);
    (0 < k) & (k <= form.links)
}

// Cause 3: n, by the form, q and t.
pub fn counts_ok(s: &[u8]) -> bool
    requires { header_bytes ≤ length s.now }
    ensures { result ≡ counts_ok s.now }
{
    let form = form_of(s);
    let n = freqs_of(s);
    (0 < n) & (n <= form.freqs) & (rules_of(s) <= MOST_RULES) & (pairs_of(s) <= MOST_PAIRS)
}

// Cause 4: the offsets and the length.
pub fn offsets_ok(s: &[u8]) -> bool
    requires { header_bytes ≤ length s.now }
    ensures { result ≡ offsets_ok s.now }
{
    let end = end_at(s);
    let offsets = (word(s, 20) == 40)
        & (word(s, 24) == freqs_at(s))
        & (word(s, 28) == rules_at(s))
        & (word(s, 32) == pairs_at(s));
    offsets & (word(s, 36) == end) & (s.len() == end)
}
