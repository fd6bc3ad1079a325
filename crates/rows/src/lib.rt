// Rows of w words inside one part of the work words. A row is named by the place of its first word.
// The contracts cite `set_at` of specs/Rows.antt, the set in the row at a place, and `Put`: a row was written, and no
// other word.
#![tactic(auto)]

ghost use Rattle.std.specs.Prelude.{◌≡◌, ◌+◌, ◌*◌, ◌^◌, ◌<◌, ◌≤◌, length};
ghost use Rattle.sets.specs.Below.{count};
ghost use Rattle.sets.specs.Sets.{◌∩◌, ◌∪◌, ◌∖◌, just, nothing};
ghost use Rattle.vset.specs.Words.{Least, Emptiness};
ghost use Rattle.rows.specs.Rows.{set_at, Begins, Reads, Put, Combined};

// Where row v begins, of n rows of w words from `at` on.
pub fn row_at(at: usize, w: usize, v: usize, n: usize) -> usize
    requires { (v < n) × (at + n * w < 2 ^ 64) }
    ensures { Begins at w v n result }
{
    at + v * w
}

// Row `to` becomes, word by word, what `of` makes of the words of rows a and b.
fn combine<F: Fn(u64, u64) -> u64>(part: &mut [u64], w: usize, to: usize, a: usize, b: usize, of: F)
    requires w_in_bounds { to + w ≤ length part.old }
    requires reads { Reads w to a (length part.old) × Reads w to b (length part.old) }
    requires callable { F.IsAlwaysCallable of }
    ensures { Combined (F.post of) to a b part.old part.new w }
{
    for i in 0..w {
        part[to + i] = of(part[a + i], part[b + i]);
    }
}

// Row `to` becomes what rows a and b have in common.
pub fn meet(part: &mut [u64], w: usize, to: usize, a: usize, b: usize)
    requires w_in_bounds { to + w ≤ length part.old }
    requires reads { Reads w to a (length part.old) × Reads w to b (length part.old) }
    ensures { Put (set_at part.old w a ∩ set_at part.old w b) w to part.old part.new }
{
    combine(part, w, to, a, b, |x, y| x & y);
}

// Row `to` becomes what row a or row b has.
pub fn join(part: &mut [u64], w: usize, to: usize, a: usize, b: usize)
    requires w_in_bounds { to + w ≤ length part.old }
    requires reads { Reads w to a (length part.old) × Reads w to b (length part.old) }
    ensures { Put (set_at part.old w a ∪ set_at part.old w b) w to part.old part.new }
{
    combine(part, w, to, a, b, |x, y| x | y);
}

// Row `to` becomes what row a has and row b has not.
pub fn cut(part: &mut [u64], w: usize, to: usize, a: usize, b: usize)
    requires w_in_bounds { to + w ≤ length part.old }
    requires reads { Reads w to a (length part.old) × Reads w to b (length part.old) }
    ensures { Put (set_at part.old w a ∖ set_at part.old w b) w to part.old part.new }
{
    combine(part, w, to, a, b, |x, y| x & !y);
}

// Row `to` becomes row a.
pub fn copy(part: &mut [u64], w: usize, to: usize, a: usize)
    requires w_in_bounds { to + w ≤ length part.old }
    requires reads { Reads w to a (length part.old) }
    ensures { Put (set_at part.old w a) w to part.old part.new }
{
    combine(part, w, to, a, a, |x, _| x);
}

// Row `to` becomes empty.
pub fn clear(part: &mut [u64], w: usize, to: usize)
    requires { to + w ≤ length part.old }
    ensures { Put nothing w to part.old part.new }
{
    part[to..to + w].fill(0);
}

// Vertex v is added to row `to`.
pub fn insert(part: &mut [u64], w: usize, to: usize, v: usize)
    requires { (to + w ≤ length part.old) × (v < 64 * w) }
    ensures { Put (set_at part.old w to ∪ just v) w to part.old part.new }
{
    vset::insert(&mut part[to..to + w], v);
}

// Vertex v is taken from row `to`.
pub fn remove(part: &mut [u64], w: usize, to: usize, v: usize)
    requires { (to + w ≤ length part.old) × (v < 64 * w) }
    ensures { Put (set_at part.old w to ∖ just v) w to part.old part.new }
{
    vset::remove(&mut part[to..to + w], v);
}

// Whether rows a and b have nothing in common.
pub fn is_empty_common(part: &[u64], w: usize, a: usize, b: usize) -> bool
    requires { (a + w ≤ length part.now) × (b + w ≤ length part.now) }
    ensures { Emptiness (set_at part.now w a ∩ set_at part.now w b) result }
{
    vset::is_empty_common(&part[a..a + w], &part[b..b + w])
}

// How many vertices rows a and b have in common.
pub fn size_common(part: &[u64], w: usize, a: usize, b: usize) -> usize
    requires { (a + w ≤ length part.now) × (b + w ≤ length part.now) × (64 * w < 2 ^ 64) }
    ensures { result ≡ count (64 * w) (set_at part.now w a ∩ set_at part.now w b) }
{
    vset::size_common(&part[a..a + w], &part[b..b + w])
}

// The least vertex of row a from `from` on, or 64 * w where there is none.
pub fn next_member(part: &[u64], w: usize, a: usize, from: usize) -> usize
    requires { (a + w ≤ length part.now) × (64 * w < 2 ^ 64) × (from ≤ 64 * w) }
    ensures { Least (set_at part.now w a) from (64 * w) result }
{
    vset::next_member(&part[a..a + w], from)
}

// The least vertex from `from` on that is in both rows a and b, or 64 * w where there is none.
pub fn next_common(part: &[u64], w: usize, a: usize, b: usize, from: usize) -> usize
    requires { (a + w ≤ length part.now) × (b + w ≤ length part.now) × (64 * w < 2 ^ 64) × (from ≤ 64 * w) }
    ensures { Least (set_at part.now w a ∩ set_at part.now w b) from (64 * w) result }
{
    vset::next_common(&part[a..a + w], &part[b..b + w], from)
}
