// The heaviest job: of all sheets of k links with m frequencies each, one whose tree is the largest under filter 0 and
// choice 0, into a lent buffer. The contract of `heaviest` cites `heaviest_of` of the crate `heaviest_sheet`, for every
// input; that the sheet is such a job is shown there.
#![tactic(auto)]

mod edges;

ghost use Rattle.std.specs.Prelude.{◌≡◌, ◌*◌, ◌<◌, length, take};
ghost use Rattle.vset.specs.Words.{has};
ghost use Rattle.output.specs.Output.{Wrote};
ghost use Rattle.dimacs.specs.Made.{joined};
ghost use Rattle.heaviest_sheet.specs.Written.{links, graph, sheet};
ghost use Rattle.heaviest_sheet.specs.Call.{sizes_ok, SizesFit, heaviest_of};
ghost use Rattle.heaviest.specs.Gives.{heaviest_number, HeaviestGives};

use edges::{keep_edges, set_counts};
use graph_read::GraphSizes;
use graph_sheet::{count_rules, put_sheet};
use zeros::zero;

// Why there is no sheet: a size or the buffer is out of range.
#[derive(Clone, Copy, Debug, PartialEq, Eq)]
pub enum HeaviestRefusal {
    OutOfRange,
}

// The paper's number for an answer.
pub fn heaviest_number(r: Result<usize, HeaviestRefusal>) -> u32
    ensures { result ≡ heaviest_number r }
{
    match r {
        Ok(_) => 0,
        Err(HeaviestRefusal::OutOfRange) => 18,
    }
}

// Whether there may be k links with m frequencies each.
fn sizes_ok(k: usize, m: usize) -> bool
    requires { m < 4294967296 }
    ensures { result ≡ sizes_ok k m }
{
    k != 0 && m != 0 && k <= 64 && k * m <= 512
}

// Puts the sheet of the graph in the words, with words for the first vertices of the links and for the rules.
fn put_graph(
    out: &mut [u8],
    k: usize,
    m: usize,
    counts: &[u64],
    firsts: &mut [u64],
    codes: &[u64],
    marks: &mut [u64],
) -> usize
    requires { SizesFit k m × (length counts.now ≡ 64) × (take k counts.now ≡ links k m)
        × (length firsts.old ≡ 64) × (length codes.now ≡ 4096) × (joined (k * m) (has codes.now) ≡ graph k m)
        × (length marks.old ≡ 4096) }
    ensures { Wrote (sheet k m) out.old 0 out.new result }
{
    let s = GraphSizes {
        links: k,
        vertices: k * m,
    };
    let t = count_rules(counts, firsts, codes, s, marks);
    put_sheet(out, counts, firsts, codes, s, marks, t)
}

// Puts the sheet, with words for the counts and the first vertices of the links, for the codes of the edges, and for
// the rules.
fn put_by(
    out: &mut [u8],
    k: usize,
    m: usize,
    counts: &mut [u64],
    firsts: &mut [u64],
    codes: &mut [u64],
    marks: &mut [u64],
) -> usize
    requires { SizesFit k m × (length counts.old ≡ 64) × (length firsts.old ≡ 64) × (length codes.old ≡ 4096)
        × (length marks.old ≡ 4096) }
    ensures { Wrote (sheet k m) out.old 0 out.new result }
{
    set_counts(counts, k, m);
    rows::clear(codes, 4096, 0);
    keep_edges(codes, k, m);
    put_graph(out, k, m, counts, firsts, codes, marks)
}

// The same, with words of its own.
fn put_heaviest(out: &mut [u8], k: usize, m: usize) -> usize
    requires { SizesFit k m }
    ensures { Wrote (sheet k m) out.old 0 out.new result }
{
    let mut counts = [0u64; 64];
    let mut firsts = [0u64; 64];
    let mut codes = [0u64; 4096];
    let mut marks = [0u64; 4096];
    put_by(out, k, m, &mut counts, &mut firsts, &mut codes, &mut marks)
}

// The call: the sheet of the heaviest job of k links with m frequencies each, with its length, and zeros after it; on
// a refusal the buffer is zero.
pub fn heaviest(k: u32, m: u32, buffer: &mut [u8]) -> Result<usize, HeaviestRefusal>
    ensures { HeaviestGives (heaviest_of k m (length buffer.old)) result buffer.new }
{
    zero(buffer);
    if !sizes_ok(k as usize, m as usize) {
        return Err(HeaviestRefusal::OutOfRange);
    }
    if buffer.len() < 65536 {
        return Err(HeaviestRefusal::OutOfRange);
    }
    Ok(put_heaviest(buffer, k as usize, m as usize))
}
