// Exports beside the texts wanted.
ghost use Rattle.std.specs.Prelude.{◌≡◌, length};

use crate::counted::EXPORTS;
use crate::report::{holds, is_same};
use crate::wanted::{NO_TEXTS, Texts};
use graph_export::{ExportRefusal, Lengths, export, export_number};
use std::io;
use trial_parts::more;
use trial_texts_parts::fill_bytes;

// An export into outputs that are not zero before.
fn export_over(
    kept: &mut [usize],
    sheet: &[u8],
    graph: &mut [u8],
    counts: &mut [u8],
) -> Result<Lengths, ExportRefusal> {
    more(kept, EXPORTS);
    fill_bytes(graph, 7);
    fill_bytes(counts, 7);
    export(sheet, graph, counts)
}

// Whether an export says a number, and the lengths of texts, none where it is refused.
fn says(
    rt: &impl Print,
    exported: Result<Lengths, ExportRefusal>,
    number: usize,
    texts: Texts,
) -> io::Result<bool> {
    let got = export_number(exported) as usize;
    let graph = exported.map_or(0, |lengths| lengths.graph);
    let counts = exported.map_or(0, |lengths| lengths.counts);
    Ok(
        is_same(rt, b"number of the export", got, number)?
            && is_same(rt, b"length of the graph text", graph, texts.graph.len())?
            && is_same(rt, b"length of the count text", counts, texts.counts.len())?,
    )
}

// Whether an export gives a number, and both texts with zeros after them; for a refusal only zeros.
pub fn exports(
    rt: &impl Print,
    kept: &mut [usize],
    sheet: &[u8],
    graph: &mut [u8],
    counts: &mut [u8],
    number: usize,
    texts: Texts,
) -> io::Result<bool>
    ensures { length kept.new ≡ length kept.old }
{
    let wanted = if number == 0 { texts } else { NO_TEXTS };
    let exported = export_over(kept, sheet, graph, counts);
    Ok(
        says(rt, exported, number, wanted)?
            && holds(rt, b"in the graph text", graph, wanted.graph)?
            && holds(rt, b"in the count text", counts, wanted.counts)?,
    )
}

// The same in the first g and c bytes of the outputs: number 15 where they are too few.
fn exports_first(
    rt: &impl Print,
    kept: &mut [usize],
    sheet: &[u8],
    graph: &mut [u8],
    counts: &mut [u8],
    g: usize,
    c: usize,
    texts: Texts,
) -> io::Result<bool> {
    if graph.len() < g {
        return is_same(rt, b"room for the graph text", graph.len(), g);
    }
    if counts.len() < c {
        return is_same(rt, b"room for the count text", counts.len(), c);
    }
    let is_short = g < texts.graph.len() || c < texts.counts.len();
    let number = if is_short { 15 } else { 0 };
    exports(
        rt,
        kept,
        sheet,
        &mut graph[..g],
        &mut counts[..c],
        number,
        texts,
    )
}

// The same in outputs with room left, exactly long enough, and one byte too short in either.
pub fn exports_all(
    rt: &impl Print,
    kept: &mut [usize],
    sheet: &[u8],
    graph: &mut [u8],
    counts: &mut [u8],
    texts: Texts,
) -> io::Result<bool>
    ensures { length kept.new ≡ length kept.old }
{
    let g = texts.graph.len();
    let c = texts.counts.len();
    let less_g = g.saturating_sub(1);
    let less_c = c.saturating_sub(1);
    Ok(
        exports(rt, kept, sheet, graph, counts, 0, texts)?
            && exports_first(rt, kept, sheet, graph, counts, g, c, texts)?
            && exports_first(rt, kept, sheet, graph, counts, less_g, c, texts)?
            && exports_first(rt, kept, sheet, graph, counts, g, less_c, texts)?,
    )
}
