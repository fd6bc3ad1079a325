// The links of a graph, by the counts of their vertices.
ghost use Rattle.std.specs.Prelude.{◌≡◌, ◌≤◌, length, take};
ghost use Rattle.sets.specs.Below.{tabulate};
ghost use Rattle.dimacs.specs.Reading.{first_of, layer_by};
ghost use Rattle.graph_read.specs.Graphs.{Links};

// The first vertex of link l, and with l = k the number of vertices.
pub fn first_of(counts: &[u64], k: usize, l: usize) -> usize
    requires { Links counts.now k × (l ≤ k) }
    ensures { result ≡ first_of (take k counts.now) l }
{
    let mut first: usize = 0;
    for count in &counts[..l] {
        first += *count as usize;
    }
    first
}

// The link of vertex v, of n vertices.
fn layer_by(counts: &[u64], k: usize, n: usize, v: usize) -> usize
    requires { Links counts.now k × (n ≡ first_of (take k counts.now) k) }
    ensures { result ≡ layer_by (take k counts.now) k v }
{
    let mut first = n;
    for l in (0..k).rev() {
        first -= counts[l] as usize;
        if first <= v {
            return l;
        }
    }
    0
}

// The link of each vertex, for the vertices below the table's length.
pub fn fill_layers(counts: &[u64], k: usize, n: usize, layers: &mut [u8])
    requires { Links counts.now k × (n ≡ first_of (take k counts.now) k) }
    ensures { layers.new
        ≡ tabulate (length layers.old) (layer_by (take k counts.now) k) }
{
    for (v, layer) in layers.iter_mut().enumerate() {
        *layer = layer_by(counts, k, n, v) as u8;
    }
}
