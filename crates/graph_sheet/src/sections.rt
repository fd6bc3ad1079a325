// The header and the sections of a sheet.
ghost use Rattle.std.specs.Prelude.{◌≡◌, Bool, true, cond, is_some, unwrap_or, List, [], ℕ, ◌+◌, ◌*◌, ◌/◌, ◌%◌, ◌≤◌, ◌<◌, eqb, length, take};
ghost use Rattle.vset.specs.Words.{has};
ghost use Rattle.rule_sections.specs.Rules.{most_khz};
ghost use Rattle.dimacs.specs.Lists.{for_each, join_to};
ghost use Rattle.dimacs.specs.Made.{joined, header, link_rows, freq_row, pair_row, rule_rows, pair_rows, sheet_of};
ghost use Rattle.output.specs.Output.{Wrote, most_text};
ghost use Rattle.output.specs.Puts.{Puts};
ghost use Rattle.graph_read.specs.Graphs.{Links, CodesFit};
ghost use Rattle.graph_sheet.specs.Pairs.{GraphIn, FirstsTo, GraphLaid, counts_in, adjacent_in};
ghost use Rattle.graph_sheet.specs.Pairs.{Among, pairs_in, RuleTold};
ghost use Rattle.graph_sheet.specs.Marks.{MarkedTo, RulesKept, FewPairs, FewPairsOfSome};
ghost use Rattle.graph_sheet.specs.Rows.{rule_row_bytes, pair_row_in, pair_rows_in, pair_rows_at};

use crate::joins::{Totals, Two, two_links};
use crate::marks::{rule_in, tallied};
use graph_read::{GraphSizes, is_joined};
use output::Output;
use wire_put::{put_full, put_fulls, put_halves};

// Puts the header.
fn put_header(out: &mut Output, k: u32, n: u32, q: u32, t: u32)
    requires { (k ≤ 64) × (n ≤ 512) × (q ≤ 4096) × (t ≤ 8192) × (out.old.end ≡ 0) }
    ensures { Puts (header k n q t) out.old out.new }
{
    let freqs_at = 40 + 4 * k;
    let rules_at = freqs_at + 4 * n;
    let pairs_at = rules_at + 12 * q;
    let end = pairs_at + 4 * t;
    let fields = [1, k, n, q, t, 40, freqs_at, rules_at, pairs_at, end];
    put_fulls(out, &fields);
}

// Puts the link rows.
fn put_links(out: &mut Output, counts: &[u64], k: usize)
    requires { Links counts.now k × (out.old.end ≤ 100000) }
    ensures { Puts (link_rows (take k counts.now)) out.old out.new
        × (out.new.end ≤ out.old.end + 256) }
{
    let mut first = 0;
    for count in &counts[..k] {
        let count = *count as usize;
        put_halves(out, first, count);
        first += count;
    }
}

// Puts the frequencies: the vertices from 1.
fn put_freqs(out: &mut Output, n: usize)
    requires { (n ≤ 512) × (out.old.end ≤ 100000) }
    ensures { Puts (join_to n freq_row) out.old out.new
        × (out.new.end ≤ out.old.end + 2048) }
{
    for v in 0..n {
        put_full(out, (v + 1) as u32);
    }
}

// The kind of a rule between links that are joined by so many pairs.
fn kind_of(pairs: usize) -> usize
    ensures { result ≡ cond (eqb pairs 0) 1 3 }
{
    if pairs == 0 { 1 } else { 3 }
}

// Its value.
fn value_of(pairs: usize, before: usize) -> usize
    ensures { result ≡ cond (eqb pairs 0) most_khz before }
{
    if pairs == 0 { 9999999 } else { before }
}

// Puts a rule row.
fn put_rule(out: &mut Output, a: usize, b: usize, pairs: usize, before: usize)
    requires { (a < 64) × (b < 64) × (pairs ≤ 8192) × (before ≤ 8192) × (out.old.end + 12 ≤ most_text) }
    ensures { Puts (rule_row_bytes a b pairs before) out.old out.new }
{
    let kind = kind_of(pairs);
    let value = value_of(pairs, before);
    put_halves(out, a, b);
    put_halves(out, kind, pairs);
    put_full(out, value as u32);
}

// Puts the rule row of the links with the code z, if they get one.
fn put_rule_at(out: &mut Output, k: usize, z: usize, r: Option<usize>, before: usize)
    requires { (k ≤ 64) × (z < k * k) × (is_some r ≡ true → (unwrap_or r 0 ≤ 8192) × (before ≤ 8192))
        × (out.old.end + 12 ≤ most_text) }
    ensures { Puts (cond (is_some r) (rule_row_bytes (z / k) (z % k) (unwrap_or r 0) before) [])
        out.old out.new
        × (out.new.end ≤ out.old.end + 12) }
{
    let Some(pairs) = r else {
        return;
    };
    put_rule(out, z / k, z % k, pairs, before);
}

// Puts the rule rows, by the marks.
fn put_rules(out: &mut Output, k: usize, marks: &[u64])
    requires { FewPairsOfSome k marks.now × (out.old.end ≤ 100000) }
    ensures { ((cs : List ℕ) (adj : ℕ → ℕ → Bool) → FewPairs cs adj k marks.now
        → Puts (rule_rows cs adj) out.old out.new) × (out.new.end ≤ 200000) }
{
    let most = k * k;
    let mut t = Totals { rules: 0, pairs: 0 };
    for z in 0..most {
        let r = rule_in(marks, z);
        put_rule_at(out, k, z, r, t.pairs);
        t = tallied(t, r);
    }
}

// Puts the pair row of positions x and y of two links, if they are adjacent.
fn put_pair(out: &mut Output, codes: &[u64], n: usize, p: Two, x: usize, y: usize)
    requires { CodesFit n (length codes.now) × Among n p × (x < p.count) × (y < p.width)
        × (out.old.end + 4 ≤ most_text) }
    ensures { Puts (pair_row_in (joined n (has codes.now)) p x y) out.old out.new
        × (out.new.end ≤ out.old.end + 4) }
{
    if !is_joined(codes, n, p.first + x, p.second + y) {
        return;
    }
    put_halves(out, x, y);
}

// Puts the pair rows of position x of the first of two links.
fn put_row(out: &mut Output, codes: &[u64], n: usize, p: Two, x: usize)
    requires { CodesFit n (length codes.now) × Among n p × (x < p.count) × (out.old.end + 2048 ≤ most_text) }
    ensures { Puts (pair_rows_in (joined n (has codes.now)) p x) out.old out.new
        × (out.new.end ≤ out.old.end + 2048) }
{
    for y in 0..p.width {
        put_pair(out, codes, n, p, x, y);
    }
}

// Puts the pair rows of two links.
fn put_joined(out: &mut Output, codes: &[u64], n: usize, p: Two)
    requires { CodesFit n (length codes.now) × Among n p × (out.old.end + 1048576 ≤ most_text) }
    ensures { Puts (for_each (pair_row p.width) (pairs_in (joined n (has codes.now)) p)) out.old out.new
        × (out.new.end ≤ out.old.end + 1048576) }
{
    for x in 0..p.count {
        put_row(out, codes, n, p, x);
    }
}

// Puts the pair rows of the links with the code z, which r tells, if they get a rule and are joined.
fn put_pairs_at(
    out: &mut Output,
    counts: &[u64],
    firsts: &[u64],
    codes: &[u64],
    s: GraphSizes,
    z: usize,
    r: Option<usize>,
)
    requires { GraphLaid counts.now firsts.now s (length codes.now) × (z < s.links * s.links)
        × RuleTold (counts_in counts.now s) (adjacent_in codes.now s) z r × (out.old.end + 1048576 ≤ most_text) }
    ensures { Puts (pair_rows_at (counts_in counts.now s) (adjacent_in codes.now s) z) out.old out.new
        × (out.new.end ≤ out.old.end + 1048576) }
{
    let Some(pairs) = r else {
        return;
    };
    if pairs == 0 {
        return;
    }
    let k = s.links;
    let p = two_links(counts, firsts, s, z / k, z % k);
    put_joined(out, codes, s.vertices, p);
}

// Puts the pair rows.
fn put_pairs(
    out: &mut Output,
    counts: &[u64],
    firsts: &[u64],
    codes: &[u64],
    s: GraphSizes,
    marks: &[u64],
)
    requires { GraphLaid counts.now firsts.now s (length codes.now)
        × MarkedTo (counts_in counts.now s) (adjacent_in codes.now s) marks.now (s.links * s.links)
        × (out.old.end ≤ 200000) }
    ensures { Puts (pair_rows (counts_in counts.now s) (adjacent_in codes.now s)) out.old out.new }
{
    let most = s.links * s.links;
    for z in 0..most {
        let r = rule_in(marks, z);
        put_pairs_at(out, counts, firsts, codes, s, z, r);
    }
}

// Puts the sheet of a graph with so many rules and pairs.
pub fn put_sheet(
    out: &mut [u8],
    counts: &[u64],
    firsts: &[u64],
    codes: &[u64],
    s: GraphSizes,
    marks: &[u64],
    t: Totals,
) -> usize
    requires { GraphIn counts.now s (length codes.now)
        × FirstsTo (counts_in counts.now s) firsts.now s.links
        × RulesKept (counts_in counts.now s) (adjacent_in codes.now s) marks.now t × (t.pairs ≤ 8192) }
    ensures { Wrote (sheet_of (counts_in counts.now s) (adjacent_in codes.now s))
        out.old 0 out.new result }
{
    let mut sheet = Output::new(out);
    put_header(
        &mut sheet,
        s.links as u32,
        s.vertices as u32,
        t.rules as u32,
        t.pairs as u32,
    );
    put_links(&mut sheet, counts, s.links);
    put_freqs(&mut sheet, s.vertices);
    put_rules(&mut sheet, s.links, marks);
    put_pairs(&mut sheet, counts, firsts, codes, s, marks);
    sheet.end
}
