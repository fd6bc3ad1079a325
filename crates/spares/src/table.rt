// The table of a plan, place by place.
ghost use Rattle.std.specs.Prelude.{◌≡◌, pos, length};
ghost use Rattle.sheet.specs.Sheet.{k_of};
ghost use Rattle.rules.specs.Asked.{Taken};
ghost use Rattle.spares.specs.Table.{spare_at, Tabled};

use rules::cells_spare;
use sheet::links_of;

// Place i of the table of a plan of k links.
fn place_spare(s: &[u8], cells: &[u32], k: usize, i: usize) -> i32
    requires { Taken s.now cells.now × (k ≡ k_of s.now) }
    ensures { result ≡ spare_at s.now cells.now i }
{
    if i >= k * k {
        return 0;
    }
    let a = i / k;
    let b = i % k;
    if a == b {
        return 0;
    }
    cells_spare(s, cells, a, b) as i32
}

// The table of a plan.
pub fn fill(s: &[u8], cells: &[u32], table: &mut [i32])
    requires { Taken s.now cells.now }
    ensures { Tabled (spare_at s.now cells.now) (length table.old)
        table.new }
{
    let k = links_of(s);
    for (i, place) in table.iter_mut().enumerate() {
        *place = place_spare(s, cells, k, i);
    }
}
