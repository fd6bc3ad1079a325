// The place of the rule of two links: "Rows rise strictly by (a, b)".
ghost use Rattle.std.specs.Prelude.{◌≡◌, ◌≤◌};
ghost use Rattle.sheet_rows.specs.Rows.{HasRow, rule_bytes, rule_a, rule_b};
ghost use Rattle.rule_sections.specs.Rules.{before};
ghost use Rattle.sheet.specs.Sheet.{q_of, rule_part};
ghost use Rattle.sheet.specs.Accepted.{Accepted};
ghost use Rattle.pair_test.specs.Asked.{ComeBefore, Sought};

use crate::parts::rule_part;
use sheet::rules_of;
use sheet_rows::{rule_a, rule_b};

// Whether rule row j comes before the links a and b.
fn comes_before(rs: &[u8], j: usize, a: usize, b: usize) -> bool
    requires { HasRow rule_bytes rs.now j }
    ensures { result ≡ before (rule_a rs.now j) (rule_b rs.now j) a b }
{
    rule_sections::comes_before(rule_a(rs, j), rule_b(rs, j), a, b)
}

// The first rule row that does not come before the links a and b, or the number of rules; `from` is at or before it.
pub fn seek_rule(s: &[u8], a: usize, b: usize, from: usize) -> usize
    requires { Accepted s.now × (from ≤ q_of s.now) × ComeBefore (rule_part s.now) a b from }
    ensures { Sought (rule_part s.now) (q_of s.now) a b result }
{
    let rs = rule_part(s);
    let q = rules_of(s);
    for j in from..q {
        if !comes_before(rs, j, a, b) {
            return j;
        }
    }
    q
}

// The same row, found by halving.
pub fn find_rule(s: &[u8], a: usize, b: usize) -> usize
    requires { Accepted s.now }
    ensures { Sought (rule_part s.now) (q_of s.now) a b result }
{
    let rs = rule_part(s);
    let mut low = 0;
    let mut high = rules_of(s);
    while low < high {
        let mid = low + (high - low) / 2;
        if comes_before(rs, mid, a, b) {
            low = mid + 1;
        } else {
            high = mid;
        }
    }
    low
}
