// Import of a graph text and a count text from the solver benches: the sheet of the graph that they say.
// The contract cites `imported` of the crate `dimacs`, for every input.
#![tactic(auto)]

ghost use Rattle.std.specs.Prelude.{◌≡◌, ◌≤◌, length};
ghost use Rattle.vset.specs.Words.{has};
ghost use Rattle.sheet.specs.Sheet.{end_at};
ghost use Rattle.dimacs.specs.Made.{made_bytes};
ghost use Rattle.zeros.specs.Zeros.{zeros};
ghost use Rattle.dimacs.specs.Reading.{texts};
ghost use Rattle.dimacs.specs.Import.{import_of, imported};
ghost use Rattle.graph_sheet.specs.Pairs.{GraphIn, counts_in};
ghost use Rattle.graph_import.specs.Gives.{of_texts, import_number, ImportGives};

use graph_read::{GraphSizes, TextsRefusal, read_texts};
use graph_sheet::{Totals, count_rules, put_sheet};
use zeros::zero;

// Why there is no sheet: a text is malformed or outside the limits, an edge is inside a link or repeated, or there are
// too many pairs or the output is too short.
#[derive(Clone, Copy, Debug, PartialEq, Eq)]
pub enum ImportRefusal {
    Malformed,
    Clashing,
    Short,
}

impl From<TextsRefusal> for ImportRefusal {
    ghost from_gives = { λ x e. e ≡ of_texts x };

    fn from(refusal: TextsRefusal) -> ImportRefusal {
        match refusal {
            TextsRefusal::Malformed => ImportRefusal::Malformed,
            TextsRefusal::Clashing => ImportRefusal::Clashing,
        }
    }
}

// The paper's number for an answer.
pub fn import_number(r: Result<usize, ImportRefusal>) -> u32
    ensures { result ≡ import_number r }
{
    match r {
        Ok(_) => 0,
        Err(ImportRefusal::Malformed) => 13,
        Err(ImportRefusal::Clashing) => 14,
        Err(ImportRefusal::Short) => 15,
    }
}

// The bytes of the sheet of a graph with so many rules and pairs.
fn sheet_bytes(s: GraphSizes, t: Totals) -> usize
    requires { (s.links ≤ 64) × (s.vertices ≤ 512) × (t.rules ≤ 4096) × (t.pairs ≤ 8192) }
    ensures { result ≡ end_at made_bytes s.links s.vertices t.rules t.pairs }
{
    40 + 4 * s.links + 4 * s.vertices + 12 * t.rules + 4 * t.pairs
}

// The sheet of the graph that was read, if it fits, with words for the links and for the rules. The output is zero
// before.
fn write_graph(
    counts: &[u64],
    firsts: &mut [u64],
    codes: &[u64],
    s: GraphSizes,
    marks: &mut [u64],
    sheet: &mut [u8],
) -> Result<usize, ImportRefusal>
    requires { GraphIn counts.now s (length codes.now) × (length firsts.old ≡ 64)
        × (length marks.old ≡ 4096) × (sheet.old ≡ zeros (length sheet.old)) }
    ensures { ImportGives (import_of (texts (counts_in counts.now s) (has codes.now))
        (length sheet.old)) result sheet.new }
{
    let t = count_rules(counts, firsts, codes, s, marks);
    if t.pairs > 8192 {
        return Err(ImportRefusal::Short);
    }
    if sheet.len() < sheet_bytes(s, t) {
        return Err(ImportRefusal::Short);
    }
    Ok(put_sheet(sheet, counts, firsts, codes, s, marks, t))
}

// The causes in the order tested, and the sheet, with words for the counts, for the codes of the edges, and for the
// links and the rules. The output is zero before.
fn import_read(
    text: &[u8],
    sizes: &[u8],
    counts: &mut [u64],
    firsts: &mut [u64],
    codes: &mut [u64],
    marks: &mut [u64],
    sheet: &mut [u8],
) -> Result<usize, ImportRefusal>
    requires { (length counts.old ≡ 64) × (length firsts.old ≡ 64) × (length codes.old ≡ 4096)
        × (length marks.old ≡ 4096) × (sheet.old ≡ zeros (length sheet.old)) }
    ensures { ImportGives (imported text.now sizes.now (length sheet.old))
        result sheet.new }
{
    let s = read_texts(text, sizes, counts, codes)?;
    write_graph(counts, firsts, codes, s, marks, sheet)
}

// The same, with words of its own.
fn import_zeroed(text: &[u8], sizes: &[u8], sheet: &mut [u8]) -> Result<usize, ImportRefusal>
    requires { sheet.old ≡ zeros (length sheet.old) }
    ensures { ImportGives (imported text.now sizes.now (length sheet.old))
        result sheet.new }
{
    let mut counts = [0u64; 64];
    let mut firsts = [0u64; 64];
    let mut codes = [0u64; 4096];
    let mut marks = [0u64; 4096];
    import_read(
        text,
        sizes,
        &mut counts,
        &mut firsts,
        &mut codes,
        &mut marks,
        sheet,
    )
}

// The import call: the sheet of a graph text and of a text of the links' sizes, with its length, and zeros after it; on
// every other answer the output is zero.
pub fn import(text: &[u8], sizes: &[u8], sheet: &mut [u8]) -> Result<usize, ImportRefusal>
    ensures { ImportGives (imported text.now sizes.now (length sheet.old))
        result sheet.new }
{
    zero(sheet);
    import_zeroed(text, sizes, sheet)
}
