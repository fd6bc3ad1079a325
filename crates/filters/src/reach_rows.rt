// What a class strikes in the own row: whoever is beside none of its live vertices. The neighbours of a class are the
// union of its vertices' rows.
ghost use Rattle.std.specs.Prelude.{◌+◌, ◌*◌, ◌^◌, ◌<◌, ◌≤◌, length};
ghost use Rattle.sets.specs.Sets.{◌∪◌};
ghost use Rattle.rows.specs.Rows.{set_at, Put};
ghost use Rattle.filters.specs.Reach.{beside, StruckBy};

// To row u are added the neighbours of each vertex of row a below n.
fn add_neighbours(part: &mut [u64], w: usize, a: usize, u: usize, graph: usize, n: usize)
    requires { (a + w ≤ u) × (u + w ≤ graph) × (graph + n * w ≤ length part.old) × (n ≤ 64 * w)
        × (64 * w < 2 ^ 64) }
    ensures { Put (set_at part.old w u ∪ beside part.old w (set_at part.old w a)
        graph n) w u part.old part.new }
{
    let mut v = rows::next_member(part, w, a, 0);
    while v < n {
        let g = rows::row_at(graph, w, v, n);
        rows::join(part, w, u, u, g);
        v = rows::next_member(part, w, a, v + 1);
    }
}

// The class with its mask at m strikes in the own row whoever has no neighbour among its live vertices, and is not in
// row 2.
pub fn strike_unreached(part: &mut [u64], w: usize, m: usize, graph: usize, n: usize)
    requires { (w + w + w ≤ m) × (m + w ≤ length part.old) × (w + w + w ≤ graph)
        × (graph + n * w ≤ length part.old) × (n ≤ 64 * w) × (64 * w < 2 ^ 64) }
    ensures { StruckBy w m graph n part.old part.new }
{
    let u = w + w;
    rows::meet(part, w, w, 0, m);
    add_neighbours(part, w, w, u, graph, n);
    rows::meet(part, w, 0, 0, u);
}
