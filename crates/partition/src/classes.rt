// Choice 1: classes filled one after another, or the layers where more than k arise.
// The part has n degrees, then n places of the order, then the row of the class that is filled, then the graph's rows
// from `graph` on.
ghost use Rattle.std.specs.Prelude.{◌≡◌, ℕ, ◌+◌, ◌*◌, ◌<◌, ◌≤◌, ltb, length, get_or, set};
ghost use Rattle.sets.specs.Below.{all, tabulate};
ghost use Rattle.sets.specs.Sets.{◌∪◌, just};
ghost use Rattle.rows.specs.Rows.{set_at, Put};
ghost use Rattle.partition.specs.Partition.{class_of};
ghost use Rattle.partition.specs.Words.{BuilderRoom, Joined, ClassFilled, ClassesFilled, Kept, ClassesBuilt};

use super::degrees::{put_degrees, put_order};
use cliques::Place;

// Class c takes v: v is added to the class's row, at `own`, and its class is c.
fn take_in(part: &mut [u64], w: usize, own: usize, c: usize, v: usize, cls: &mut [u8])
    requires { (own + w ≤ length part.old) × (v < 64 * w) × (v < length cls.old) × (c < 256) }
    ensures { Put (set_at part.old w own ∪ just v) w own part.old part.new
        × (cls.new ≡ set cls.old v c) }
{
    rows::insert(part, w, own, v);
    cls[v] = c as u8;
}

// Class c takes v, if it is unplaced, which is written k, and adjacent to none of the class's row.
fn try_join(part: &mut [u64], place: Place, c: usize, v: usize, cls: &mut [u8])
    requires { BuilderRoom place (length part.old) × (length cls.old ≡ place.n) × (c < 256) }
    ensures { Joined place c v
        part.old part.new cls.old cls.new }
{
    let w = place.w;
    let n = place.n;
    let k = place.k;
    if v >= n {
        return;
    }
    if usize::from(cls[v]) != k {
        return;
    }
    let a = rows::row_at(place.graph, w, v, n);
    let own = n + n;
    if !rows::is_empty_common(part, w, a, own) {
        return;
    }
    take_in(part, w, own, c, v, cls);
}

// Class c, which has no member, takes what it can of the m vertices of the order.
fn fill_class(part: &mut [u64], place: Place, m: usize, c: usize, cls: &mut [u8])
    requires { BuilderRoom place (length part.old) × (length cls.old ≡ place.n) × (m ≤ place.n) × (c < 256) }
    ensures { ClassFilled place m c
        part.old part.new cls.old cls.new }
{
    let n = place.n;
    rows::clear(part, place.w, n + n);
    for i in 0..m {
        let v = part[n + i] as usize;
        try_join(part, place, c, v, cls);
    }
}

// k classes are filled from the m vertices of the order. A vertex that is not placed has class k.
fn fill_classes(part: &mut [u64], place: Place, m: usize, cls: &mut [u8])
    requires { BuilderRoom place (length part.old) × (length cls.old ≡ place.n) × (m ≤ place.n)
        × (place.k < 256) }
    ensures { ClassesFilled place m part.old part.new cls.new }
{
    cls.fill(place.k as u8);
    for c in 0..place.k {
        fill_class(part, place, m, c, cls);
    }
}

// The class list is written into the first words.
fn keep_classes(cls: &[u8], part: &mut [u64])
    requires { length cls.now ≤ length part.old }
    ensures { Kept cls.now part.old part.new }
{
    for (v, class) in cls.iter().enumerate() {
        part[v] = u64::from(*class);
    }
}

// The class list that the first words keep.
fn put_back(part: &[u64], cls: &mut [u8])
    requires { (length cls.old ≤ length part.now) × ((v : ℕ) → v < length cls.old → get_or part.now v 0 < 256) }
    ensures { cls.new ≡ tabulate (length cls.old) (λ v. get_or part.now v 0) }
{
    for (v, class) in cls.iter_mut().enumerate() {
        *class = part[v] as u8;
    }
}

// Whether each of n vertices has a class below k.
pub fn is_placed(n: usize, k: usize, cls: &[u8]) -> bool
    requires { n ≤ length cls.now }
    ensures { result ≡ all n (λ v. ltb (class_of cls.now v) k) }
{
    cls[..n].iter().all(|class| usize::from(*class) < k)
}

// The classes of choice 1, where cls has the layers.
pub fn build_classes(part: &mut [u64], place: Place, cls: &mut [u8])
    requires { BuilderRoom place (length part.old) × (length cls.old ≡ place.n) × (place.k < 256) }
    ensures { ClassesBuilt place
        part.old part.new cls.old cls.new }
{
    put_degrees(part, place);
    let m = put_order(part, place.n);
    keep_classes(cls, part);
    fill_classes(part, place, m, cls);
    if is_placed(place.n, place.k, cls) {
        return;
    }
    put_back(part, cls);
}
