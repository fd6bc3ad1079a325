// What a rule row bars is struck from the rows of its links, or what it lists is written to them.
ghost use Rattle.std.specs.Prelude.{◌≡◌, ◌+◌, ◌-◌, ◌*◌, ◌^◌, ◌<◌, ◌≤◌, length};
ghost use Rattle.sets.specs.Sets.{◌⊆◌, ◌∩◌, ◌∪◌, ◌∖◌, just};
ghost use Rattle.sheet_rows.specs.Rows.{HasRow, HasLink, freq_bytes, rule_bytes, pair_bytes};
ghost use Rattle.rows.specs.Rows.{set_at, row_at, Put};
ghost use Rattle.rule_strikes.specs.Rows.{RowsFit};
ghost use Rattle.rule_strikes.specs.Strikes.{stretch, side_of, own_place, other_place, partner, partners, clashing};
ghost use Rattle.rule_strikes.specs.Strikes.{allowed, under_rule, NumbersFit, PairsFit, SideFits, Full, Rewritten};

use crate::Side;
use crate::span::take_span;
use cliques::Place;
use sheet_rows::{
    freq, link_count, link_first, link_width, pair_first, pair_second, rule_count, rule_kind,
    rule_value,
};
use spacing::{distance, is_allowed, spare_by};

// Rule row j seen from its link a to its link b.
pub fn side_of(sheet: &[u8], rs: &[u8], j: usize, turned: bool, a: usize, b: usize) -> Side
    requires { HasLink sheet.now a × HasLink sheet.now b × HasRow rule_bytes rs.now j }
    ensures { result ≡ side_of sheet.now rs.now j turned a b }
{
    let from = link_first(sheet, a);
    let first = link_first(sheet, b);
    Side {
        kind: rule_kind(rs, j),
        value: rule_value(rs, j),
        count: rule_count(rs, j),
        widths: link_width(sheet, a) + link_width(sheet, b),
        turned,
        from,
        upto: from + link_count(sheet, a),
        first,
        end: first + link_count(sheet, b),
    }
}

// Whether a rule of kind 1 or 2 does not allow vertex v with the frequency x.
fn clashes(fs: &[u8], s: Side, x: usize, v: usize) -> bool
    requires { HasRow freq_bytes fs.now v × NumbersFit s × (x < 2 ^ 32) }
    ensures { result ≡ clashing fs.now s x v }
{
    let value = s.value as u32;
    let widths = s.widths as u32;
    let apart = distance(x, freq(fs, v)) as u32;
    !is_allowed(spare_by(s.kind, value, widths, apart, false))
}

// Vertex v is struck from row `to`, where it clashes with the frequency x.
fn strike_one(part: &mut [u64], w: usize, to: usize, fs: &[u8], s: Side, x: usize, v: usize)
    requires { (to + w ≤ length part.old) × (v < 64 * w) × HasRow freq_bytes fs.now v × NumbersFit s
        × (x < 2 ^ 32) }
    ensures { Put (set_at part.old w to ∖ (just v ∩ clashing fs.now s x))
        w to part.old part.new }
{
    if !clashes(fs, s, x, v) {
        return;
    }
    rows::remove(part, w, to, v);
}

// The other link's vertices that a rule of kind 1 or 2 does not allow with the frequency x are struck from row `to`.
fn strike_near(part: &mut [u64], w: usize, to: usize, fs: &[u8], s: Side, x: usize)
    requires { (to + w ≤ length part.old) × (s.first ≤ s.end) × (s.end ≤ 64 * w)
        × (freq_bytes * s.end ≤ length fs.now) × NumbersFit s × (x < 2 ^ 32) }
    ensures { Put
        (set_at part.old w to
        ∖ (stretch s.first s.end ∩ clashing fs.now s x))
        w to part.old part.new }
{
    for v in s.first..s.end {
        strike_one(part, w, to, fs, s, x, v);
    }
}

// The position of pair row i in the list of the changed rows' link.
fn own_place(ps: &[u8], turned: bool, i: usize) -> usize
    requires { pair_bytes * i + pair_bytes ≤ length ps.now }
    ensures { result ≡ own_place ps.now turned i }
{
    if turned {
        pair_second(ps, i)
    } else {
        pair_first(ps, i)
    }
}

// The position of pair row i in the other link's list.
fn other_place(ps: &[u8], turned: bool, i: usize) -> usize
    requires { pair_bytes * i + pair_bytes ≤ length ps.now }
    ensures { result ≡ other_place ps.now turned i }
{
    own_place(ps, !turned, i)
}

// The partner of position x by pair row i, if it has one there, is added to row `to`.
fn add_partner(
    part: &mut [u64],
    w: usize,
    to: usize,
    ps: &[u8],
    turned: bool,
    first: usize,
    x: usize,
    i: usize,
)
    requires { (to + w ≤ length part.old) × (pair_bytes * i + pair_bytes ≤ length ps.now)
        × (first + other_place ps.now turned i < 64 * w) × (64 * w < 2 ^ 64) }
    ensures { Put (set_at part.old w to ∪ partner ps.now turned first x i)
        w to part.old part.new }
{
    if own_place(ps, turned, i) != x {
        return;
    }
    rows::insert(part, w, to, first + other_place(ps, turned, i));
}

// Row `to` gets of the other link just the partners that the pair rows of the rule, of kind 3, give position x. A
// listed pair may be on one frequency.
fn write_listed(part: &mut [u64], w: usize, to: usize, ps: &[u8], s: Side, x: usize)
    requires { PairsFit ps.now s × (s.first ≤ s.end) × (s.end ≤ 64 * w) × (64 * w < 2 ^ 64)
        × (to + w ≤ length part.old) }
    ensures { Put
        ((set_at part.old w to ∖ stretch s.first s.end)
        ∪ partners ps.now s.turned s.first x s.value s.count)
        w to part.old part.new }
{
    take_span(part, w, to, s.first, s.end);
    for i in 0..s.count {
        add_partner(part, w, to, ps, s.turned, s.first, x, s.value + i);
    }
}

// Row u under the rule: one of kind 3 by its pairs, any other by the frequencies.
fn rule_row(part: &mut [u64], place: Place, fs: &[u8], ps: &[u8], s: Side, u: usize)
    requires { SideFits fs.now ps.now place.n s
        × RowsFit place.w place.graph place.n (length part.old) × (s.from ≤ u) × (u < place.n)
        × ((s.kind ≡ 3 → ⊥) → allowed fs.now ps.now s u ⊆ row_at part.old place.w place.graph u) }
    ensures { Rewritten (under_rule fs.now ps.now s) u (u + 1)
        place.w place.graph place.n part.old part.new }
{
    let w = place.w;
    let row = rows::row_at(place.graph, w, u, place.n);
    let kind = s.kind;
    if kind == 3 {
        write_listed(part, w, row, ps, s, u - s.from);
        return;
    }
    strike_near(part, w, row, fs, s, freq(fs, u));
}

// The rows of one of the rule's links under it.
pub fn rule_side(part: &mut [u64], place: Place, fs: &[u8], ps: &[u8], s: Side)
    requires { SideFits fs.now ps.now place.n s
        × RowsFit place.w place.graph place.n (length part.old)
        × (s.from ≤ s.upto) × Full fs.now ps.now s place.w place.graph part.old }
    ensures { Rewritten (under_rule fs.now ps.now s) s.from s.upto
        place.w place.graph place.n part.old part.new }
{
    for u in s.from..s.upto {
        rule_row(part, place, fs, ps, s, u);
    }
}
