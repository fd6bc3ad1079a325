// Export of a sheet to the solver benches: its graph as DIMACS text, and the counts of its links as a second text.
// The contract cites `exported` of the crate `dimacs`, for every input.
#![tactic(auto)]

mod edges;
mod texts;

ghost use Rattle.std.specs.Prelude.{◌≡◌, length};
ghost use Rattle.sheet.specs.Accepted.{Accepted};
ghost use Rattle.zeros.specs.Zeros.{zeros};
ghost use Rattle.dimacs.specs.Export.{graph_text_of, counts_text_of, exported};
ghost use Rattle.graph_export.specs.declared.ExportRefusal.{ExportRefusal};
ghost use Rattle.graph_export.specs.Gives.{export_number, BothPut, ExportFinished, ExportGives};

use crate::texts::{put_counts, put_graph};
use cliques::Place;
use graph::build_graph;
use sheet::{Cause, check_sheet, freqs_of, links_of};
use zeros::zero;

// Why there are no texts: the sheet is refused, or an output is too short.
#[derive(Clone, Copy, Debug, PartialEq, Eq)]
pub enum ExportRefusal {
    Sheet(Cause),
    Short,
}

impl From<Cause> for ExportRefusal {
    ghost from_gives = { λ cause refusal. refusal ≡ ExportRefusal.Sheet cause };

    fn from(cause: Cause) -> ExportRefusal {
        ExportRefusal::Sheet(cause)
    }
}

// The lengths of the graph text and of the count text.
#[derive(Clone, Copy)]
pub struct Lengths {
    pub graph: usize,
    pub counts: usize,
}

// The paper's number for an answer.
pub fn export_number(r: Result<Lengths, ExportRefusal>) -> u32
    ensures { result ≡ export_number r }
{
    match r {
        Ok(_) => 0,
        Err(ExportRefusal::Sheet(cause)) => u32::from(cause),
        Err(ExportRefusal::Short) => 15,
    }
}

// Puts both texts of an accepted sheet, with room for the graph's rows.
fn put_both(sheet: &[u8], part: &mut [u64], graph: &mut [u8], counts: &mut [u8]) -> Lengths
    requires { Accepted sheet.now × (length part.old ≡ 16384) }
    ensures { BothPut (graph_text_of sheet.now) (counts_text_of sheet.now)
        graph.old graph.new counts.old counts.new result }
{
    let n = freqs_of(sheet);
    let k = links_of(sheet);
    let place = Place {
        w: 16,
        masks: 0,
        graph: 0,
        n,
        k,
    };
    build_graph(part, place, sheet);
    let g = put_graph(graph, part, n);
    let c = put_counts(counts, sheet, k);
    Lengths {
        graph: g,
        counts: c,
    }
}

// The same, with words of its own for the rows.
fn put_texts(sheet: &[u8], graph: &mut [u8], counts: &mut [u8]) -> Lengths
    requires { Accepted sheet.now }
    ensures { BothPut (graph_text_of sheet.now) (counts_text_of sheet.now)
        graph.old graph.new counts.old counts.new result }
{
    let mut part = [0u64; 16384];
    put_both(sheet, &mut part, graph, counts)
}

// Zeroes both outputs.
fn zero_both(graph: &mut [u8], counts: &mut [u8])
    ensures { (graph.new ≡ zeros (length graph.old))
        × (counts.new ≡ zeros (length counts.old)) }
{
    zero(graph);
    zero(counts);
}

// The answer once both texts were put: where one did not fit, both outputs are zeroed.
fn finish(lengths: Lengths, graph: &mut [u8], counts: &mut [u8]) -> Result<Lengths, ExportRefusal>
    ensures { ExportFinished lengths graph.old graph.new
        counts.old counts.new result }
{
    if graph.len() < lengths.graph || counts.len() < lengths.counts {
        zero_both(graph, counts);
        return Err(ExportRefusal::Short);
    }
    Ok(lengths)
}

// The causes in the order tested, and the texts. Both outputs are zero before.
fn export_zeroed(
    sheet: &[u8],
    graph: &mut [u8],
    counts: &mut [u8],
) -> Result<Lengths, ExportRefusal>
    requires { (graph.old ≡ zeros (length graph.old)) × (counts.old ≡ zeros (length counts.old)) }
    ensures { ExportGives (exported sheet.now (length graph.old)
        (length counts.old)) result graph.new counts.new }
{
    check_sheet(sheet)?;
    let lengths = put_texts(sheet, graph, counts);
    finish(lengths, graph, counts)
}

// The export call: the two texts of a sheet with their lengths, and zeros after each; on every other answer both
// outputs are zero.
pub fn export(sheet: &[u8], graph: &mut [u8], counts: &mut [u8]) -> Result<Lengths, ExportRefusal>
    ensures { ExportGives (exported sheet.now (length graph.old)
        (length counts.old)) result graph.new counts.new }
{
    zero_both(graph, counts);
    export_zeroed(sheet, graph, counts)
}
