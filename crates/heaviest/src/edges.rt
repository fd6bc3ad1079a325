// The graph of the heaviest job in words: the counts of its links, and the codes of its edges.
ghost use Rattle.std.specs.Prelude.{◌≡◌, ◌&&◌, ◌+◌, ◌*◌, ◌<◌, length, take};
ghost use Rattle.sets.specs.Sets.{nothing};
ghost use Rattle.vset.specs.Words.{has};
ghost use Rattle.dimacs.specs.Made.{joined};
ghost use Rattle.heaviest_sheet.specs.Written.{links, is_last, is_edge, edges, graph};
ghost use Rattle.heaviest_sheet.specs.Call.{SizesFit};
ghost use Rattle.heaviest.specs.Words.{up_to};

use vset::insert;

// Sets the count of each link.
pub fn set_counts(counts: &mut [u64], k: usize, m: usize)
    requires { SizesFit k m × (length counts.old ≡ 64) }
    ensures { take k counts.new ≡ links k m }
{
    counts[..k].fill(m as u64);
}

// Whether each of two vertices is the last of its link.
fn both_last(m: usize, u: usize, v: usize) -> bool
    requires { (0 < m) × (u < 512) × (v < 512) }
    ensures { result ≡ (is_last m u && is_last m v) }
{
    u % m + 1 == m && v % m + 1 == m
}

// Whether u is of an earlier link than v, and they are adjacent.
fn is_edge(k: usize, m: usize, u: usize, v: usize) -> bool
    requires { SizesFit k m × (u < 512) × (v < 512) }
    ensures { result ≡ is_edge k m u v }
{
    let a = u / m;
    let b = v / m;
    if a >= b {
        return false;
    }
    if b + 1 < k {
        return true;
    }
    if both_last(m, u, v) {
        return true;
    }
    if a + 2 >= k {
        return false;
    }
    v % m == 0
}

// Keeps the code z, if it is that of an edge; those below it are kept.
fn keep_edge(codes: &mut [u64], k: usize, m: usize, z: usize)
    requires { SizesFit k m × (length codes.old ≡ 4096) × (z < k * m * (k * m))
        × (has codes.old ≡ up_to z (edges k m)) }
    ensures { has codes.new ≡ up_to (z + 1) (edges k m) }
{
    let n = k * m;
    if is_edge(k, m, z / n, z % n) {
        insert(codes, z);
    }
}

// Keeps the codes of the edges.
pub fn keep_edges(codes: &mut [u64], k: usize, m: usize)
    requires { SizesFit k m × (length codes.old ≡ 4096) × (has codes.old ≡ nothing) }
    ensures { joined (k * m) (has codes.new) ≡ graph k m }
{
    let n = k * m;
    for z in 0..n * n {
        keep_edge(codes, k, m, z);
    }
}
