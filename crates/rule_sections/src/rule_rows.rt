// The rule section, cause 7.
ghost use Rattle.std.specs.Prelude.{◌≡◌, ◌*◌, ◌<◌, ◌≤◌, length};
ghost use Rattle.sheet_rows.specs.Rows.{HasRow, rule_bytes};
ghost use Rattle.rule_sections.specs.Rules.{most_rules, before as comes_before, plain_ok, kind_ok};
ghost use Rattle.rule_sections.specs.Rules.{listed as listed_by, rule_rises, rule_row_ok, rules_ok};

use crate::MOST_KHZ;
use sheet_rows::{rule_a, rule_b, rule_count, rule_kind, rule_value};

// (a, b) comes before (c, d).
pub fn comes_before(a: usize, b: usize, c: usize, d: usize) -> bool
    ensures { result ≡ comes_before a b c d }
{
    (a, b) < (c, d)
}

// Count and value of a rule of kind 1 or 2.
fn plain_ok(count: usize, value: usize) -> bool
    ensures { result ≡ plain_ok count value }
{
    (count == 0) & (0 < value) & (value <= MOST_KHZ)
}

// Kind, count and value of a rule; `sum` is the sum of the earlier kind 3 counts.
// The kind is a number, as the bytes of a sheet may hold any.
fn kind_ok(kind: usize, count: usize, value: usize, sum: usize) -> bool
    ensures { result ≡ kind_ok kind count value sum }
{
    if kind == 3 {
        return (0 < count) & (value == sum);
    }
    ((kind == 1) | (kind == 2)) & plain_ok(count, value)
}

// Rule row j comes after the row before it.
fn rule_rises(p: &[u8], j: usize) -> bool
    requires { HasRow rule_bytes p.now j }
    ensures { result ≡ rule_rises p.now j }
{
    if j == 0 {
        return true;
    }
    let i = j - 1;
    comes_before(rule_a(p, i), rule_b(p, i), rule_a(p, j), rule_b(p, j))
}

// Rule row j; `sum` is the sum of the earlier kind 3 counts.
fn rule_row_ok(p: &[u8], k: usize, sum: usize, j: usize) -> bool
    requires { HasRow rule_bytes p.now j }
    ensures { result ≡ rule_row_ok p.now k sum j }
{
    let a = rule_a(p, j);
    let b = rule_b(p, j);
    let kind = kind_ok(rule_kind(p, j), rule_count(p, j), rule_value(p, j), sum);
    (a < b) & (b < k) & rule_rises(p, j) & kind
}

// How many pairs rule j lists.
pub fn listed(p: &[u8], j: usize) -> usize
    requires { HasRow rule_bytes p.now j }
    ensures { (result ≡ listed_by p.now j) × (result < 65536) }
{
    if rule_kind(p, j) == 3 {
        rule_count(p, j)
    } else {
        0
    }
}

// The rule section.
pub fn rules(p: &[u8], k: usize, q: usize, t: usize) -> bool
    requires { (q ≤ most_rules) × (rule_bytes * q ≤ length p.now) }
    ensures { result ≡ rules_ok p.now k q t }
{
    let mut sum = 0;
    for j in 0..q {
        if !rule_row_ok(p, k, sum, j) {
            return false;
        }
        sum += listed(p, j);
    }
    sum == t
}
