// The layer of a vertex.
ghost use Rattle.std.specs.Prelude.{◌≡◌};
ghost use Rattle.sheet_rows.specs.Rows.{HasLinks};
ghost use Rattle.pair_test.specs.Layers.{layer_of};

use sheet_rows::link_first;

// The link of vertex v, among k links of the sheet s.
pub fn layer(s: &[u8], k: usize, v: usize) -> usize
    requires { HasLinks s.now k }
    ensures { result ≡ layer_of s.now k v }
{
    for m in (0..k).rev() {
        if link_first(s, m) <= v {
            return m;
        }
    }
    0
}
