// The pair test: how much spacing two vertices of different links of an accepted sheet have to spare.
ghost use Rattle.std.specs.Prelude.{◌≡◌, ◌&&◌, ltb};
ghost use Rattle.sheet_rows.specs.Rows.{HasRow, HasLink, rule_bytes, rule_a, rule_b};
ghost use Rattle.sheet.specs.Sheet.{q_of, rule_part};
ghost use Rattle.sheet.specs.Accepted.{Accepted};
ghost use Rattle.pair_test.specs.Pairs.{rule_widths, of_links};
ghost use Rattle.pair_test.specs.Asked.{RowAt, PairAt, TwoAt, spare_of_row, spare_in};

use crate::lists::lists_vertices;
use crate::parts::{freq_part, rule_part};
use crate::seek::find_rule;
use sheet::rules_of;
use sheet_rows::{freq, link_width, rule_a, rule_b, rule_kind, rule_value};
use spacing::{distance, spare_by, spare_without};

// The widths of the two links of rule row j together.
fn rule_widths(s: &[u8], rs: &[u8], j: usize) -> usize
    requires { HasRow rule_bytes rs.now j × HasLink s.now (rule_a rs.now j)
        × HasLink s.now (rule_b rs.now j) }
    ensures { result ≡ rule_widths s.now rs.now j }
{
    link_width(s, rule_a(rs, j)) + link_width(s, rule_b(rs, j))
}

// What rule row j leaves vertex u, of its link a, and vertex v, of its link b.
fn spare_of_row(s: &[u8], j: usize, u: usize, v: usize) -> i64
    requires { RowAt s.now j u v }
    ensures { result ≡ spare_of_row s.now j u v }
{
    let rs = rule_part(s);
    let kind = rule_kind(rs, j);
    let value = rule_value(rs, j) as u32;
    if kind == 3 {
        return spare_by(kind, value, 0, 0, lists_vertices(s, j, u, v));
    }
    let fs = freq_part(s);
    let apart = distance(freq(fs, u), freq(fs, v)) as u32;
    let widths = rule_widths(s, rs, j) as u32;
    spare_by(kind, value, widths, apart, false)
}

// Whether there is a rule row j, and it is of the links a and b.
fn is_of(s: &[u8], j: usize, a: usize, b: usize) -> bool
    requires { Accepted s.now }
    ensures { result ≡ (ltb j (q_of s.now) && of_links (rule_part s.now) a b j) }
{
    if rules_of(s) <= j {
        return false;
    }
    let rs = rule_part(s);
    (rule_a(rs, j) == a) & (rule_b(rs, j) == b)
}

// What vertex u of link a and vertex v of a higher link b have to spare; their rule, if there is one, is row j.
pub fn spare_at(s: &[u8], j: usize, a: usize, b: usize, u: usize, v: usize) -> i64
    requires { PairAt s.now j a b u v }
    ensures { result ≡ spare_in s.now a b u v }
{
    if is_of(s, j, a, b) {
        return spare_of_row(s, j, u, v);
    }
    let fs = freq_part(s);
    let apart = distance(freq(fs, u), freq(fs, v)) as u32;
    spare_without(apart)
}

// What vertex u of link a and vertex v of another link b have to spare.
pub fn spare(s: &[u8], a: usize, b: usize, u: usize, v: usize) -> i64
    requires { TwoAt s.now a b u v }
    ensures { result ≡ spare_in s.now a b u v }
{
    if a < b {
        return spare_at(s, find_rule(s, a, b), a, b, u, v);
    }
    spare_at(s, find_rule(s, b, a), b, a, v, u)
}
