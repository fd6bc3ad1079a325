// The link section, cause 5, and 16 after all of it.
ghost use Rattle.std.specs.Prelude.{◌≡◌, ◌*◌, ◌≤◌, length};
ghost use Rattle.sheet_rows.specs.Form.{most_links};
ghost use Rattle.sheet_rows.specs.Rows.{HasRow};
ghost use Rattle.sheet.specs.Sheet.{link_rows_ok, link_row, row_read};
ghost use Rattle.sheet.specs.Refusal.{number_of, passing, unless};

use crate::{Cause, Row};
use sheet_rows::{row_count, row_first};

// Link row l, where it keeps its rule; `sum` is the sum of the earlier counts.
fn link_row(p: &[u8], bytes: usize, l: usize, sum: usize) -> Option<Row>
    requires { HasRow bytes p.now l × (4 ≤ bytes) }
    ensures { row_read result ≡ link_row bytes p.now l sum }
{
    let first = row_first(p, bytes, l);
    let count = row_count(p, bytes, l);
    if first != sum || count == 0 {
        return None;
    }
    Some(Row { first, count })
}

// The link section, of k rows of so many bytes: each row, the sum, and last `wide`, whether the widths are right.
pub fn links(p: &[u8], bytes: usize, k: usize, n: usize, wide: bool) -> Result<(), Cause>
    requires { (k ≤ most_links) × (bytes * k ≤ length p.now) × (4 ≤ bytes) }
    ensures { number_of result ≡ (passing (link_rows_ok bytes p.now k n) 5 λ _. unless wide 16) }
{
    let mut sum = 0;
    for l in 0..k {
        let Some(row) = link_row(p, bytes, l, sum) else {
            return Err(Cause::LinkRow);
        };
        sum += row.count;
    }
    if sum != n {
        return Err(Cause::LinkRow);
    }
    if !wide {
        return Err(Cause::Width);
    }
    Ok(())
}
