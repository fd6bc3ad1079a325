// The graph of a sheet, its microstructure: its adjacency rows in the work words.
// The contracts cite `Built` of specs/Rows.antt, and `build_graph` that the rows are `edge` of specs/Graph.antt.
#![tactic(auto)]

mod buckets;
mod start;

ghost use Rattle.std.specs.Prelude.{◌≡◌, ℕ, ◌+◌, ◌<◌, length};
ghost use Rattle.rows.specs.Rows.{row_at};
ghost use Rattle.rules.specs.Job.{job_of};
ghost use Rattle.pair_test.specs.Parts.{RuleRow, Sections};
ghost use Rattle.graph.specs.Graph.{adjacent, edge};
ghost use Rattle.rule_strikes.specs.Rows.{RowsFit};
ghost use Rattle.graph.specs.Rows.{RowsAsked, Built};

use buckets::separate_rows;
use cliques::Place;
use rule_strikes::{rule_side, side_of};
use sheet::{freqs_at, pairs_at, rules_at, rules_of};
use sheet_rows::{rule_a, rule_b};
use start::start_rows;

// Rule row j: in the rows of each of its links, of the other link what it allows.
fn apply_rule(
    part: &mut [u64],
    place: Place,
    sheet: &[u8],
    fs: &[u8],
    rs: &[u8],
    ps: &[u8],
    j: usize,
)
    requires rule_row { RuleRow sheet.now fs.now rs.now ps.now place.k place.n j
        × RowsFit place.w place.graph place.n (length part.old) }
    requires by_index { (u : ℕ) → u < place.n → row_at part.old place.w place.graph u
        ≡ adjacent sheet.now fs.now rs.now ps.now place.k place.n j u }
    ensures { Built (adjacent sheet.now fs.now rs.now ps.now
        place.k place.n (j + 1)) place.w place.graph place.n part.old part.new }
{
    let a = rule_a(rs, j);
    let b = rule_b(rs, j);
    let lower = side_of(sheet, rs, j, false, a, b);
    rule_side(part, place, fs, ps, lower);
    let higher = side_of(sheet, rs, j, true, b, a);
    rule_side(part, place, fs, ps, higher);
}

// The rows of the graph, under q rules.
fn build_rows(
    part: &mut [u64],
    place: Place,
    sheet: &[u8],
    fs: &[u8],
    rs: &[u8],
    ps: &[u8],
    q: usize,
)
    requires { Sections sheet.now fs.now rs.now ps.now place.k place.n q
        × RowsFit place.w place.graph place.n (length part.old) }
    ensures { Built (adjacent sheet.now fs.now rs.now ps.now
        place.k place.n q) place.w place.graph place.n part.old part.new }
{
    start_rows(part, place, sheet);
    separate_rows(part, place, fs);
    for j in 0..q {
        apply_rule(part, place, sheet, fs, rs, ps, j);
    }
}

// The rows of the graph of an accepted sheet. Links are looked up in the sheet; each other section is the part of it
// that begins at its offset.
pub fn build_graph(part: &mut [u64], place: Place, sheet: &[u8])
    requires { RowsAsked sheet.now place (length part.old) }
    ensures { Built (edge (job_of sheet.now)) place.w place.graph place.n
        part.old part.new }
{
    let freqs = freqs_at(sheet);
    let rules = rules_at(sheet);
    let pairs = pairs_at(sheet);
    build_rows(
        part,
        place,
        sheet,
        &sheet[freqs..],
        &sheet[rules..],
        &sheet[pairs..],
        rules_of(sheet),
    );
}
