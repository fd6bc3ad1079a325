// The edges of a graph, by the rows of its adjacency in words.
ghost use Rattle.std.specs.Prelude.{◌+◌, ◌*◌, ◌≤◌, ◌<◌, length};
ghost use Rattle.rows.specs.Rows.{row_at};
ghost use Rattle.vset.specs.Words.{Least};
ghost use Rattle.graph_export.specs.Rows.{row_words, RowsIn, EdgesCounted};

use vset::next_member;

// The next neighbour of u from `from` on, or n.
pub fn next_neighbour(part: &[u64], n: usize, u: usize, from: usize) -> usize
    requires { RowsIn n (length part.now) × (u < n) × (from ≤ n) }
    ensures { Least (row_at part.now row_words 0 u) from n result }
{
    let a = rows::row_at(0, 16, u, n);
    let e = a + 16;
    let v = next_member(&part[a..e], from);
    if v < n { v } else { n }
}

// The edges of u with higher vertices.
fn row_count(part: &[u64], n: usize, u: usize) -> usize
    requires { RowsIn n (length part.now) × (u < n) }
    ensures { EdgesCounted n (u * n) (u * n + n) part.now result × (result ≤ n) }
{
    let mut m: usize = 0;
    let mut v = next_neighbour(part, n, u, u + 1);
    while v < n {
        m += 1;
        v = next_neighbour(part, n, u, v + 1);
    }
    m
}

// The number of edges.
pub fn edge_count(part: &[u64], n: usize) -> usize
    requires { RowsIn n (length part.now) }
    ensures { EdgesCounted n 0 (n * n) part.now result × (result ≤ n * n) }
{
    let mut m = 0;
    for u in 0..n {
        m += row_count(part, n, u);
    }
    m
}
