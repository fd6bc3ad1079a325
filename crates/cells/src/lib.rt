// The plan cells of a found plan, in link order, by the vertex that the search has chosen for each class.
// The contract of `put_plan` cites `plan_cells` of specs/Cells.antt.
#![tactic(auto)]

ghost use Rattle.std.specs.Prelude.{◌≡◌, ◌≤◌, ◌<◌, Some, eqb, length};
ghost use Rattle.sets.specs.Below.{first};
ghost use Rattle.sheet_rows.specs.Rows.{freq as freq_of};
ghost use Rattle.sheet.specs.Sheet.{k_of, n_of, freq_part};
ghost use Rattle.sheet.specs.Accepted.{Accepted};
ghost use Rattle.rules.specs.Job.{job_of};
ghost use Rattle.graph.specs.Graph.{link_of};
ghost use Rattle.zeros.specs.Zeros.{zeros};
ghost use Rattle.cells.specs.Cells.{chosen_by, plan_cells, Chosen};

use sheet::{freqs_at, links_of};
use sheet_rows::{freq, link_count, link_first};

// Whether vertex v is one of link l.
fn in_link(sheet: &[u8], l: usize, v: usize) -> bool
    requires { Accepted sheet.now × (l < k_of sheet.now) × (v < n_of sheet.now) }
    ensures { result ≡ eqb (link_of (job_of sheet.now) v) l }
{
    let from = link_first(sheet, l);
    if v < from {
        return false;
    }
    v - from < link_count(sheet, l)
}

// The class whose chosen vertex is one of link l.
fn class_in_link(sheet: &[u8], chosen: &[u32], l: usize) -> Option<usize>
    requires { Chosen sheet.now chosen.now × (l < k_of sheet.now) }
    ensures { result ≡ Some (first (k_of sheet.now)
        (λ j. eqb (link_of (job_of sheet.now) (chosen_by chosen.now j)) l)) }
{
    let k = links_of(sheet);
    for (c, v) in chosen[..k].iter().enumerate() {
        if in_link(sheet, l, *v as usize) {
            return Some(c);
        }
    }
    None
}

// The frequency of vertex v.
fn khz(sheet: &[u8], v: usize) -> u32
    requires { Accepted sheet.now × (v < n_of sheet.now) }
    ensures { result ≡ freq_of (freq_part sheet.now) v }
{
    let at = freqs_at(sheet);
    freq(&sheet[at..], v) as u32
}

// Fills the first k cells, which are zero, by the vertex chosen for each class.
pub fn put_plan(sheet: &[u8], chosen: &[u32], cells: &mut [u32])
    requires { Chosen sheet.now chosen.now × (k_of sheet.now ≤ length cells.old)
        × (cells.old ≡ zeros (length cells.old)) }
    ensures { cells.new
        ≡ plan_cells (job_of sheet.now) (chosen_by chosen.now) (length cells.old) }
{
    let k = links_of(sheet);
    for l in 0..k {
        if let Some(c) = class_in_link(sheet, chosen, l) {
            cells[l] = khz(sheet, chosen[c] as usize);
        }
    }
}
