// The frequency section, cause 6.
ghost use Rattle.std.specs.Prelude.{◌≡◌, ◌+◌, ◌*◌, ◌≤◌, length};
ghost use Rattle.sets.specs.Below.{all};
ghost use Rattle.sheet_rows.specs.Rows.{HasRow, freq_bytes};
ghost use Rattle.sheet.specs.Sheet.{freq_ok, freqs_ok};
ghost use Rattle.sheet.specs.Read.{LinksRead};

use rule_sections::MOST_KHZ;
use sheet_rows::{freq, link_count, link_first};

// The i-th frequency of a link whose first is at base.
fn freq_ok(p: &[u8], base: usize, i: usize) -> bool
    requires { HasRow freq_bytes p.now (base + i) }
    ensures { result ≡ freq_ok p.now base i }
{
    let f = freq(p, base + i);
    let in_range = (0 < f) & (f <= MOST_KHZ);
    if i == 0 {
        return in_range;
    }
    in_range & (freq(p, base + i - 1) < f)
}

// The frequencies of one link.
fn rising(p: &[u8], base: usize, count: usize) -> bool
    requires { freq_bytes * (base + count) ≤ length p.now }
    ensures { result ≡ all count (freq_ok p.now base) }
{
    for i in 0..count {
        if !freq_ok(p, base, i) {
            return false;
        }
    }
    true
}

// The frequency section `p` of the sheet s, after its link section was accepted.
pub fn freqs(s: &[u8], p: &[u8], k: usize) -> bool
    requires { LinksRead s.now p.now k }
    ensures { result ≡ freqs_ok s.now p.now k }
{
    for l in 0..k {
        let first = link_first(s, l);
        let count = link_count(s, l);
        if !rising(p, first, count) {
            return false;
        }
    }
    true
}
