// Unit steps. The lone vertex of a class strikes its non-neighbours; classes are visited in rising order, pass after
// pass, until one strikes nothing. What is left is the same in any order of the strikes, so that no class taken has to
// be kept. A step gives None where a remaining class is empty, and otherwise whether it struck a vertex.
ghost use Rattle.std.specs.Prelude.{◌≡◌, true, ℕ, ◌+◌, ◌*◌, ◌<◌, ◌≤◌, length};
ghost use Rattle.sets.specs.Below.{count};
ghost use Rattle.cliques.specs.Words.{own_row, Room, two_rows};
ghost use Rattle.filters.specs.Filtered.{Filtered};
ghost use Rattle.filters.specs.Step.{Stepped, StruckOthers, Calm, Rests};
ghost use Rattle.filters.specs.Unit.{unit};

use cliques::Place;

// Strikes from the own row whoever is neither a neighbour of v nor in row m: whether there was one.
fn strike_others(part: &mut [u64], w: usize, m: usize, graph: usize, n: usize, v: usize) -> bool
    requires { (w + w ≤ m) × (m + w ≤ length part.old) × (w + w ≤ graph) × (graph + n * w ≤ length part.old)
        × (v < n) }
    ensures { StruckOthers w m graph v part.old part.new result }
{
    let g = rows::row_at(graph, w, v, n);
    // row 1: who may stay, then who is to be struck
    rows::join(part, w, w, g, m);
    rows::cut(part, w, w, 0, w);
    if rows::is_empty_common(part, w, w, w) {
        return false;
    }
    rows::cut(part, w, 0, 0, w);
    true
}

// A visit to class c: where it has one live vertex, that strikes its non-neighbours in other classes.
fn visit(part: &mut [u64], place: Place, c: usize) -> Option<bool>
    requires { Room (two_rows place) place (length part.old) × (c < place.k) }
    ensures { (d : ℕ) → d ≤ c
        → Stepped unit (λ G. Calm G d c) (two_rows place) d place part.old part.new result }
{
    let Place { w, masks, n, k, .. } = place;
    let m = rows::row_at(masks, w, c, k);
    let live = rows::size_common(part, w, 0, m);
    if live == 0 {
        return None;
    }
    if live > 1 {
        return Some(false);
    }
    let v = rows::next_common(part, w, 0, m, 0);
    // never at a node: there each live vertex is below n
    if v >= n {
        return Some(false);
    }
    Some(strike_others(part, w, m, place.graph, n, v))
}

// A pass: each remaining class is visited once.
fn pass(part: &mut [u64], place: Place, d: usize) -> Option<bool>
    requires { Room (two_rows place) place (length part.old) × (d ≤ place.k) }
    ensures { Stepped unit (λ G. Rests G d) (two_rows place) d place part.old part.new result }
{
    let mut struck = false;
    for c in d..place.k {
        struck |= visit(part, place, c)?;
    }
    Some(struck)
}

// Unit steps: whether they leave no remaining class empty.
pub fn unit_steps(part: &mut [u64], place: Place, d: usize) -> bool
    requires { Room (two_rows place) place (length part.old) × (d ≤ place.k) }
    ensures filtered { Filtered unit (two_rows place) d place part.old part.new result }
    ensures no_more { result ≡ true → count (64 * place.w) (own_row place part.new)
        ≤ count (64 * place.w) (own_row place part.old) }
{
    loop {
        match pass(part, place, d) {
            None => return false,
            Some(false) => return true,
            Some(true) => {}
        }
    }
}
