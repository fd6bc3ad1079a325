// The pair section, cause 8.
ghost use Rattle.std.specs.Prelude.{◌≡◌, ◌+◌, ◌*◌, ◌<◌, ◌≤◌, length};
ghost use Rattle.sets.specs.Below.{all};
ghost use Rattle.sheet_rows.specs.Rows.{HasRow, pair_bytes};
ghost use Rattle.rule_sections.specs.Rules.{pair_rises, pair_ok, rule_pairs_ok, pairs_ok};
ghost use Rattle.rule_sections.specs.Read.{RuleRead, RulesRead};

use crate::rule_rows::{comes_before, listed};
use sheet_rows::{link_count, pair_first, pair_second, rule_a, rule_b, rule_value};

// Pair row i comes after the row before it.
fn pair_rises(p: &[u8], i: usize) -> bool
    requires { (0 < i) × HasRow pair_bytes p.now i }
    ensures { result ≡ pair_rises p.now i }
{
    let h = i - 1;
    comes_before(
        pair_first(p, h),
        pair_second(p, h),
        pair_first(p, i),
        pair_second(p, i),
    )
}

// The i-th pair of a rule whose pairs start at base, between links of m and n frequencies.
fn pair_ok(p: &[u8], base: usize, m: usize, n: usize, i: usize) -> bool
    requires { HasRow pair_bytes p.now (base + i) }
    ensures { result ≡ pair_ok p.now base m n i }
{
    let at = base + i;
    let listed = (pair_first(p, at) < m) & (pair_second(p, at) < n);
    if i == 0 {
        return listed;
    }
    listed & pair_rises(p, at)
}

// The pairs of a rule.
fn pairs_rise(p: &[u8], base: usize, m: usize, n: usize, count: usize) -> bool
    requires { pair_bytes * (base + count) ≤ length p.now }
    ensures { result ≡ all count (pair_ok p.now base m n) }
{
    for i in 0..count {
        if !pair_ok(p, base, m, n, i) {
            return false;
        }
    }
    true
}

// The pairs of rule j of the sheet s, after the rule section `rs` was accepted.
fn rule_pairs(s: &[u8], rs: &[u8], p: &[u8], j: usize) -> bool
    requires { RuleRead s.now rs.now p.now j }
    ensures { result ≡ rule_pairs_ok s.now rs.now p.now j }
{
    let count = listed(rs, j);
    if count == 0 {
        return true;
    }
    let a = rule_a(rs, j);
    let b = rule_b(rs, j);
    let base = rule_value(rs, j);
    let m = link_count(s, a);
    let n = link_count(s, b);
    pairs_rise(p, base, m, n, count)
}

// The pair section `p` of the sheet s, after its link section and its rule section `rs` were accepted.
pub fn pairs(s: &[u8], rs: &[u8], p: &[u8], q: usize) -> bool
    requires { RulesRead s.now rs.now p.now q }
    ensures { result ≡ pairs_ok s.now rs.now p.now q }
{
    for j in 0..q {
        if !rule_pairs(s, rs, p, j) {
            return false;
        }
    }
    true
}
