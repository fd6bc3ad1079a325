// Sets of vertices, kept in words of 64 bits. A row of words is a set: vertex v is bit v % 64 of word v / 64.
// A row is a slice, of any number of words; rows inside one slice are in the crate `rows`.
// The contracts cite `has` of specs/Words.antt, the set that a row keeps, and the set operations of the crate `sets`.
#![tactic(auto)]

ghost use Rattle.std.specs.Prelude.{◌≡◌, ℕ, ◌*◌, ◌^◌, ◌<◌, ◌≤◌, length};
ghost use Rattle.sets.specs.Below.{count};
ghost use Rattle.sets.specs.Sets.{Set, ◌∩◌, ◌∪◌, ◌∖◌, just};
ghost use Rattle.vset.specs.Words.{has, Kept, Least, Emptiness};

// Whether v is in the set.
pub fn contains(row: &[u64], v: usize) -> bool
    requires { v < 64 * length row.now }
    ensures { result ≡ has row.now v }
{
    let i = v / 64;
    let k = v % 64;
    (row[i] >> k) % 2 == 1
}

// Adds v to the set.
pub fn insert(row: &mut [u64], v: usize)
    requires { v < 64 * length row.old }
    ensures { has row.new ≡ has row.old ∪ just v }
{
    let i = v / 64;
    let k = v % 64;
    row[i] |= 1 << k;
}

// Takes v out of the set.
pub fn remove(row: &mut [u64], v: usize)
    requires { v < 64 * length row.old }
    ensures { has row.new ≡ has row.old ∖ just v }
{
    let i = v / 64;
    let k = v % 64;
    row[i] &= !(1 << k);
}

// How many members a set has whose n words `word` gives: "count_ones over a row's words gives the degree".
fn size_by<F: Fn(usize) -> u64>(n: usize, word: F) -> usize
    requires n_bound { 64 * n < 2 ^ 64 }
    requires callable { (i : ℕ) → i < n → F.pre word i }
    ensures { (S : Set) → Kept S n (F.post word) → result ≡ count (64 * n) S }
{
    let mut members = 0;
    for i in 0..n {
        members += word(i).count_ones() as usize;
    }
    members
}

// How many members the set has.
pub fn size(row: &[u64]) -> usize
    requires { 64 * length row.now < 2 ^ 64 }
    ensures { result ≡ count (64 * length row.now) (has row.now) }
{
    size_by(row.len(), |i| row[i])
}

// How many vertices are in both sets.
pub fn size_common(a: &[u64], b: &[u64]) -> usize
    requires a_len { length a.now ≡ length b.now }
    requires a_bound { 64 * length a.now < 2 ^ 64 }
    ensures { result ≡ count (64 * length a.now) (has a.now ∩ has b.now) }
{
    size_by(a.len(), |i| a[i] & b[i])
}

// The least member from `from` on of a set whose n words `word` gives, or 64 * n where there is none: "trailing zeros
// give the next vertex".
fn next_by<F: Fn(usize) -> u64>(n: usize, from: usize, word: F) -> usize
    requires n_bound { 64 * n < 2 ^ 64 }
    requires from_bound { from ≤ 64 * n }
    requires callable { (i : ℕ) → i < n → F.pre word i }
    ensures { (S : Set) → Kept S n (F.post word) → Least S from (64 * n) result }
{
    let at = from / 64;
    if at >= n {
        return from;
    }
    let first = word(at) >> (from % 64);
    if first != 0 {
        return from + first.trailing_zeros() as usize;
    }
    for i in at + 1..n {
        let w = word(i);
        if w != 0 {
            return 64 * i + w.trailing_zeros() as usize;
        }
    }
    64 * n
}

// The least member from `from` on, or 64 times the number of words where there is none.
pub fn next_member(row: &[u64], from: usize) -> usize
    requires row_bound { 64 * length row.now < 2 ^ 64 }
    requires from_bound { from ≤ 64 * length row.now }
    ensures { Least (has row.now) from (64 * length row.now) result }
{
    next_by(row.len(), from, |i| row[i])
}

// The least vertex from `from` on that is in both sets, or 64 times the number of words where there is none.
pub fn next_common(a: &[u64], b: &[u64], from: usize) -> usize
    requires a_len { length a.now ≡ length b.now }
    requires a_bound { 64 * length a.now < 2 ^ 64 }
    requires from_bound { from ≤ 64 * length a.now }
    ensures { Least (has a.now ∩ has b.now) from (64 * length a.now) result }
{
    next_by(a.len(), from, |i| a[i] & b[i])
}

// Whether no vertex is in both sets.
pub fn is_empty_common(a: &[u64], b: &[u64]) -> bool
    requires { length a.now ≡ length b.now }
    ensures { Emptiness (has a.now ∩ has b.now) result }
{
    for i in 0..a.len() {
        if a[i] & b[i] != 0 {
            return false;
        }
    }
    true
}
