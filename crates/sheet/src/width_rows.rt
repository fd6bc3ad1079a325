// The widths of the link section, cause 16.
ghost use Rattle.std.specs.Prelude.{◌≡◌, ◌*◌, ◌≤◌, length};
ghost use Rattle.sheet_rows.specs.Rows.{HasRow};
ghost use Rattle.sheet.specs.Sheet.{width_ok, width_rows_ok};

use crate::header::MOST_WIDTH;
use sheet_rows::row_width;

// The width of link row l, where the rows have one.
fn width_ok(p: &[u8], bytes: usize, l: usize) -> bool
    requires { HasRow bytes p.now l }
    ensures { result ≡ width_ok bytes p.now l }
{
    let width = row_width(p, bytes, l);
    (bytes < 8) | ((0 < width) & (width <= MOST_WIDTH))
}

// The widths of the k link rows.
pub fn widths(p: &[u8], bytes: usize, k: usize) -> bool
    requires { bytes * k ≤ length p.now }
    ensures { result ≡ width_rows_ok bytes p.now k }
{
    for l in 0..k {
        if !width_ok(p, bytes, l) {
            return false;
        }
    }
    true
}
