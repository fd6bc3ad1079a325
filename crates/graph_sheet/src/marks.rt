// The rules and the pairs of a graph, and a mark for every two links: 0 where they get no rule, else one more than the
// pairs that join them. The writers look them up.
ghost use Rattle.std.specs.Prelude.{◌≡◌, cond, is_some, unwrap_or, ◌+◌, ◌≤◌, ◌<◌, length, get_or};
ghost use Rattle.graph_sheet.specs.Pairs.{GraphIn, FirstsTo, GraphLaid, counts_in, adjacent_in, Tallied};
ghost use Rattle.graph_sheet.specs.Marks.{rule_in, RulesKept};

use crate::joins::{Totals, keep_firsts, rule_at};
use graph_read::GraphSizes;

// The mark of two links.
fn mark_of(r: Option<usize>) -> u64
    requires { unwrap_or r 0 ≤ 262144 }
    ensures { result ≡ cond (is_some r) (unwrap_or r 0 + 1) 0 }
{
    match r {
        Some(pairs) => pairs as u64 + 1,
        None => 0,
    }
}

// What the mark of the code z says.
pub fn rule_in(marks: &[u64], z: usize) -> Option<usize>
    requires { z < length marks.now }
    ensures { result ≡ rule_in (get_or marks.now z 0) }
{
    (marks[z] as usize).checked_sub(1)
}

// The totals with one rule more, if it is one.
pub fn tallied(t: Totals, r: Option<usize>) -> Totals
    requires { (t.rules ≤ 4096) × (t.pairs ≤ 1073741824) × (unwrap_or r 0 ≤ 262144) }
    ensures { Tallied t r result }
{
    match r {
        Some(pairs) => Totals {
            rules: t.rules + 1,
            pairs: t.pairs + pairs,
        },
        None => t,
    }
}

// Sets the marks, and counts the rules and their pairs.
fn mark_rules(
    counts: &[u64],
    firsts: &[u64],
    codes: &[u64],
    s: GraphSizes,
    marks: &mut [u64],
) -> Totals
    requires { GraphLaid counts.now firsts.now s (length codes.now) × (length marks.old ≡ 4096) }
    ensures { RulesKept (counts_in counts.now s) (adjacent_in codes.now s)
        marks.new result }
{
    let most = s.links * s.links;
    let mut t = Totals { rules: 0, pairs: 0 };
    for z in 0..most {
        let r = rule_at(counts, firsts, codes, s, z);
        marks[z] = mark_of(r);
        t = tallied(t, r);
    }
    t
}

// The rules of a graph, and their pairs; the first vertices of the links and the marks are left in the words lent.
pub fn count_rules(
    counts: &[u64],
    firsts: &mut [u64],
    codes: &[u64],
    s: GraphSizes,
    marks: &mut [u64],
) -> Totals
    requires { GraphIn counts.now s (length codes.now) × (length firsts.old ≡ 64)
        × (length marks.old ≡ 4096) }
    ensures { FirstsTo (counts_in counts.now s) firsts.new s.links
        × RulesKept (counts_in counts.now s) (adjacent_in codes.now s) marks.new result }
{
    keep_firsts(counts, s, firsts);
    mark_rules(counts, firsts, codes, s, marks)
}
