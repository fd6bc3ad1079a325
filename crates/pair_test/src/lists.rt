// The pairs of positions that rules of kind 3 list.
ghost use Rattle.std.specs.Prelude.{◌≡◌, ◌+◌, ◌*◌, ◌<◌, ◌≤◌, length};
ghost use Rattle.sheet_rows.specs.Rows.{HasRow, pair_bytes, rule_kind};
ghost use Rattle.sheet.specs.Sheet.{rule_part};
ghost use Rattle.pair_test.specs.Pairs.{same_pair, lists_pair};
ghost use Rattle.pair_test.specs.Asked.{RowAt, row_lists};

use crate::parts::{pair_part, rule_part};
use sheet_rows::{link_first, pair_first, pair_second, rule_a, rule_b, rule_count, rule_value};

// Whether pair row i is the pair of positions.
fn is_pair(p: &[u8], i: usize, x: usize, y: usize) -> bool
    requires { HasRow pair_bytes p.now i }
    ensures { result ≡ same_pair p.now x y i }
{
    (pair_first(p, i) == x) & (pair_second(p, i) == y)
}

// Whether the pair of positions stands among `count` rows from `base` on.
fn lists_pair(p: &[u8], base: usize, count: usize, x: usize, y: usize) -> bool
    requires { 0 < count → pair_bytes * (base + count) ≤ length p.now }
    ensures { result ≡ lists_pair p.now base count x y }
{
    for i in 0..count {
        if is_pair(p, base + i, x, y) {
            return true;
        }
    }
    false
}

// Whether rule row j, of kind 3, lists the positions of u and v.
pub fn lists_vertices(s: &[u8], j: usize, u: usize, v: usize) -> bool
    requires { RowAt s.now j u v × (rule_kind (rule_part s.now) j ≡ 3) }
    ensures { result ≡ row_lists s.now j u v }
{
    let rs = rule_part(s);
    let x = u - link_first(s, rule_a(rs, j));
    let y = v - link_first(s, rule_b(rs, j));
    let ps = pair_part(s);
    let base = rule_value(rs, j);
    let count = rule_count(rs, j);
    lists_pair(ps, base, count, x, y)
}
