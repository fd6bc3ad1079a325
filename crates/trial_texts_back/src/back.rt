// The two texts imported again, by the sheet that the graph asks for.
ghost use Rattle.std.specs.Prelude.{◌≡◌, length};

use crate::runs::runs_agree;
use std::io;
use trial_parts::kept::{INPUT, K, N, T};
use trial_parts::{SKIP, encode, first_bytes, get};
use trial_texts_calls::{Texts, exports, imports, imports_all, is_same};
use trial_texts_parts::put_back;

// The place of the import's number that a row names.
pub const CAUSE: usize = 18;

// Whether the number that the graph's pairs ask of an import is the one that the row names, if any.
fn has_cause(rt: &impl Print, kept: &[usize], number: usize) -> io::Result<bool> {
    let wanted = get(kept, CAUSE);
    Ok(
        wanted == SKIP
            || is_same(
                rt,
                b"number that the pairs ask of the import",
                number,
                wanted,
            )?,
    )
}

// Whether the texts give back a sheet, the same texts again, and the same runs.
fn returns(
    rt: &impl Print,
    kept: &mut [usize],
    sheet: &[u8],
    texts: Texts,
    graph: &mut [u8],
    counts: &mut [u8],
    back: &[u8],
) -> io::Result<bool> {
    let mut again = [0u8; 60000];
    if !imports_all(rt, kept, texts, &mut again, back)? {
        return Ok(false);
    }
    let imported = first_bytes(&again, back.len());
    Ok(
        exports(rt, kept, imported, graph, counts, 0, texts)?
            && runs_agree(rt, kept, sheet, imported)?,
    )
}

// Texts that are refused by this number.
fn is_refused(
    rt: &impl Print,
    kept: &mut [usize],
    texts: Texts,
    number: usize,
) -> io::Result<bool> {
    let mut again = [0u8; 60000];
    Ok(has_cause(rt, kept, number)? && imports(rt, kept, texts, &mut again, number, b"")?)
}

// Whether a job has more links or frequencies than a sheet of form 1 holds.
fn is_festival(job: &[usize]) -> bool {
    64 < get(job, K) || 512 < get(job, N)
}

// The way back, by the sheet that the graph asks for, of form 1: the table ends before a job's widths and form.
pub fn comes_back(
    rt: &impl Print,
    kept: &mut [usize],
    sheet: &[u8],
    table: &[u8],
    texts: Texts,
    graph: &mut [u8],
    counts: &mut [u8],
) -> io::Result<bool>
    ensures { length kept.new ≡ length kept.old }
{
    let mut job = [0usize; INPUT];
    let mut back = [0u8; 60000];
    if is_festival(kept) {
        return is_refused(rt, kept, texts, 13);
    }
    put_back(kept, table, &mut job);
    if 8192 < get(&job, T) {
        return is_refused(rt, kept, texts, 15);
    }
    if !has_cause(rt, kept, 0)? {
        return Ok(false);
    }
    let length = encode(&job, &mut back);
    returns(
        rt,
        kept,
        sheet,
        texts,
        graph,
        counts,
        first_bytes(&back, length),
    )
}
