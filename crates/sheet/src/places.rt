// The header's counts, and where the sections begin.
ghost use Rattle.std.specs.Prelude.{◌≡◌, ◌<◌, ◌≤◌, length};
ghost use Rattle.sheet_rows.specs.Rows.{header_bytes, link_bytes};
ghost use Rattle.sheet.specs.Sheet.{k_of, n_of, q_of, t_of, freqs_at, rules_at, pairs_at, end_at};

use sheet_rows::link_bytes;
use wire::word;

// Each count is one field of the header, under the name that callers use.

// The number of links, k.
pub fn links_of(s: &[u8]) -> usize
    requires { header_bytes ≤ length s.now }
    ensures { (result ≡ k_of s.now) × (result < 4294967296) }
{
    word(s, 4)
}

// The number of frequencies, n.
pub fn freqs_of(s: &[u8]) -> usize
    requires { header_bytes ≤ length s.now }
    ensures { (result ≡ n_of s.now) × (result < 4294967296) }
{
    word(s, 8)
}

// The number of rules, q.
pub fn rules_of(s: &[u8]) -> usize
    requires { header_bytes ≤ length s.now }
    ensures { (result ≡ q_of s.now) × (result < 4294967296) }
{
    word(s, 12)
}

// The number of pairs, t.
pub fn pairs_of(s: &[u8]) -> usize
    requires { header_bytes ≤ length s.now }
    ensures { (result ≡ t_of s.now) × (result < 4294967296) }
{
    word(s, 16)
}

// Where the frequency section begins.
pub fn freqs_at(s: &[u8]) -> usize
    requires { header_bytes ≤ length s.now }
    ensures { (result ≡ freqs_at (link_bytes s.now) (k_of s.now)) × (result < 68719476736) }
{
    40 + link_bytes(s) * links_of(s)
}

// Where the rule section begins.
pub fn rules_at(s: &[u8]) -> usize
    requires { header_bytes ≤ length s.now }
    ensures { (result ≡ rules_at (link_bytes s.now) (k_of s.now) (n_of s.now))
        × (result < 137438953472) }
{
    freqs_at(s) + 4 * freqs_of(s)
}

// Where the pair section begins.
pub fn pairs_at(s: &[u8]) -> usize
    requires { header_bytes ≤ length s.now }
    ensures { (result ≡ pairs_at (link_bytes s.now) (k_of s.now) (n_of s.now)
        (q_of s.now)) × (result < 274877906944) }
{
    rules_at(s) + 12 * rules_of(s)
}

// Where the sheet ends.
pub fn end_at(s: &[u8]) -> usize
    requires { header_bytes ≤ length s.now }
    ensures { (result ≡ end_at (link_bytes s.now) (k_of s.now) (n_of s.now)
        (q_of s.now) (t_of s.now)) × (result < 549755813888) }
{
    pairs_at(s) + 4 * pairs_of(s)
}
