// Imports beside the sheet wanted.
ghost use Rattle.std.specs.Prelude.{◌≡◌, length};

use crate::counted::IMPORTS;
use crate::report::{holds, is_same};
use crate::wanted::Texts;
use graph_import::{ImportRefusal, import, import_number};
use std::io;
use trial_parts::more;
use trial_texts_parts::fill_bytes;

// An import into an output that is not zero before: the length of the sheet.
fn import_over(kept: &mut [usize], texts: Texts, sheet: &mut [u8]) -> Result<usize, ImportRefusal> {
    more(kept, IMPORTS);
    fill_bytes(sheet, 7);
    import(texts.graph, texts.counts, sheet)
}

fn has_number(
    rt: &impl Print,
    imported: Result<usize, ImportRefusal>,
    number: usize,
) -> io::Result<bool> {
    let got = import_number(imported) as usize;
    is_same(rt, b"number of the import", got, number)
}

// Whether an import gives a number, and the sheet with zeros after it. For a refusal the sheet is empty.
pub fn imports(
    rt: &impl Print,
    kept: &mut [usize],
    texts: Texts,
    sheet: &mut [u8],
    number: usize,
    wanted: &[u8],
) -> io::Result<bool>
    ensures { length kept.new ≡ length kept.old }
{
    let imported = import_over(kept, texts, sheet);
    let length = imported.unwrap_or(0);
    Ok(
        has_number(rt, imported, number)?
            && is_same(rt, b"length of the imported sheet", length, wanted.len())?
            && holds(rt, b"in the imported sheet", sheet, wanted)?,
    )
}

// The same in the first m bytes of the output: number 15 where they are too few.
fn imports_first(
    rt: &impl Print,
    kept: &mut [usize],
    texts: Texts,
    sheet: &mut [u8],
    m: usize,
    wanted: &[u8],
) -> io::Result<bool> {
    if sheet.len() < m {
        return is_same(rt, b"room for the imported sheet", sheet.len(), m);
    }
    if m < wanted.len() {
        return imports(rt, kept, texts, &mut sheet[..m], 15, b"");
    }
    imports(rt, kept, texts, &mut sheet[..m], 0, wanted)
}

// The same in outputs one byte too short, exactly long enough, and with room left.
pub fn imports_all(
    rt: &impl Print,
    kept: &mut [usize],
    texts: Texts,
    sheet: &mut [u8],
    wanted: &[u8],
) -> io::Result<bool>
    ensures { length kept.new ≡ length kept.old }
{
    let m = wanted.len();
    let less = m.saturating_sub(1);
    Ok(
        imports_first(rt, kept, texts, sheet, less, wanted)?
            && imports_first(rt, kept, texts, sheet, m, wanted)?
            && imports(rt, kept, texts, sheet, 0, wanted)?,
    )
}

// The length of the sheet of texts that are taken.
pub fn imported_length(
    rt: &impl Print,
    kept: &mut [usize],
    texts: Texts,
    sheet: &mut [u8],
) -> io::Result<Option<usize>>
    ensures { length kept.new ≡ length kept.old }
{
    let imported = import_over(kept, texts, sheet);
    Ok(if has_number(rt, imported, 0)? {
        imported.ok()
    } else {
        None
    })
}
