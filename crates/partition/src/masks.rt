// The classes as rows of words: the mask of class c has the vertices of class c.
ghost use Rattle.std.specs.Prelude.{◌+◌, ◌*◌, ◌<◌, ◌≤◌, length};
ghost use Rattle.partition.specs.Words.{Masks, Marked};

use cliques::Place;

// Vertex v is added to the mask of class c, if c is below k.
fn add_member(part: &mut [u64], place: Place, at: usize, c: usize, v: usize)
    requires { (at + place.k * place.w ≤ length part.old) × (v < 64 * place.w) }
    ensures { Marked c v place.k place.w at part.old part.new }
{
    let k = place.k;
    if c >= k {
        return;
    }
    let to = rows::row_at(at, place.w, c, k);
    rows::insert(part, place.w, to, v);
}

// The masks of k classes of n vertices are written, row after row from `at` on.
pub fn put_masks(part: &mut [u64], place: Place, at: usize, cls: &[u8])
    requires { (place.n ≤ length cls.now) × (at + place.k * place.w ≤ length part.old)
        × (place.n ≤ 64 * place.w) }
    ensures { Masks place.n place.k cls.now place.w at
        part.old part.new }
{
    rows::clear(part, place.k * place.w, at);
    for v in 0..place.n {
        add_member(part, place, at, usize::from(cls[v]), v);
    }
}
