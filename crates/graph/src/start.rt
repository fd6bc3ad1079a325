// The rows before frequencies and rules: the vertices of other links.
ghost use Rattle.std.specs.Prelude.{ℕ, ◌+◌, ◌*◌, ◌-◌, ◌<◌, ◌≤◌, ◌≡◌, length};
ghost use Rattle.sets.specs.Sets.{Set, ◌∖◌, whole};
ghost use Rattle.sheet_rows.specs.Rows.{link_first, link_count};
ghost use Rattle.rows.specs.Rows.{set_at, row_at, Begins, Reads, Put};
ghost use Rattle.pair_test.specs.Parts.{LinkRows};
ghost use Rattle.graph.specs.Graph.{links_differ};
ghost use Rattle.rule_strikes.specs.Rows.{RowsFit};
ghost use Rattle.graph.specs.Rows.{Built};
ghost use Rattle.rule_strikes.specs.Strikes.{stretch, Rewritten};

use cliques::Place;
use rule_strikes::{add_span, take_span};
use sheet_rows::{link_count, link_first};

// Row `to` becomes the row at `full` without the vertices from `first` up to `end`.
fn start_row(part: &mut [u64], w: usize, to: usize, full: usize, first: usize, end: usize)
    requires { (to + w ≤ length part.old) × Reads w to full (length part.old) × (first ≤ end) × (end ≤ 64 * w) }
    ensures { Put (set_at part.old w full ∖ stretch first end) w to part.old
        part.new }
{
    rows::copy(part, w, to, full);
    take_span(part, w, to, first, end);
}

// Row `first` is written to the rows after it up to `end` as well.
fn repeat_row(part: &mut [u64], place: Place, first: usize, end: usize)
    requires { RowsFit place.w place.graph place.n (length part.old) × (first < end) × (end ≤ place.n) }
    ensures { Rewritten (λ (u : ℕ) (S : Set). row_at part.old place.w place.graph first)
        (first + 1) end place.w place.graph place.n part.old part.new }
{
    let w = place.w;
    let from = rows::row_at(place.graph, w, first, place.n);
    for u in first + 1..end {
        let row = rows::row_at(place.graph, w, u, place.n);
        rows::copy(part, w, row, from);
    }
}

// The rows of link l, which are equal. The last row of all, at `full`, has every vertex until it is written.
fn start_link(part: &mut [u64], place: Place, full: usize, sheet: &[u8], l: usize)
    requires { LinkRows sheet.now place.k place.n
        × RowsFit place.w place.graph place.n (length part.old)
        × (l < place.k) × Begins place.graph place.w (place.n - 1) place.n full
        × (set_at part.old place.w full ≡ whole place.n) }
    ensures { Rewritten (λ (u : ℕ) (S : Set). links_differ sheet.now place.k place.n u)
        (link_first sheet.now l) (link_first sheet.now l + link_count sheet.now l)
        place.w place.graph place.n part.old part.new }
{
    let first = link_first(sheet, l);
    let end = first + link_count(sheet, l);
    let row = rows::row_at(place.graph, place.w, first, place.n);
    start_row(part, place.w, row, full, first, end);
    repeat_row(part, place, first, end);
}

// All rows, link by link.
pub fn start_rows(part: &mut [u64], place: Place, sheet: &[u8])
    requires { LinkRows sheet.now place.k place.n
        × RowsFit place.w place.graph place.n (length part.old) }
    ensures { Built (links_differ sheet.now place.k place.n)
        place.w place.graph place.n part.old part.new }
{
    let w = place.w;
    let n = place.n;
    let last = rows::row_at(place.graph, w, n - 1, n);
    rows::clear(part, w, last);
    add_span(part, w, last, 0, n);
    for l in 0..place.k {
        start_link(part, place, last, sheet, l);
    }
}
