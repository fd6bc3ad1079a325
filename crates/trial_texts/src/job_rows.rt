// The rows with a job, and on its sheet. Each says whether all was as wanted.
use std::io;
use trial_parts::{encode, first_bytes, next, reads_job};
use trial_texts_calls::{NO_TEXTS, exports};
use trial_texts_there::comes_there;

// `answer`: the number of the export of a sheet that is refused.
fn answer_row(rt: &impl Print, kept: &mut [usize], sheet: &[u8]) -> io::Result<bool> {
    let mut graph = [0u8; 4096];
    let mut counts = [0u8; 256];
    let number = next(kept);
    exports(rt, kept, sheet, &mut graph, &mut counts, number, NO_TEXTS)
}

// `there`: the edges of the graph, and the number of the import.
fn there_row(rt: &impl Print, kept: &mut [usize], sheet: &[u8]) -> io::Result<bool> {
    let edges = next(kept);
    let number = next(kept);
    comes_there(rt, kept, sheet, edges, number)
}

// A row with the sheet, by the first byte of its word.
fn called_row(rt: &impl Print, kept: &mut [usize], word: usize, sheet: &[u8]) -> io::Result<bool> {
    match u8::try_from(word) {
        Ok(b'a') => answer_row(rt, kept, sheet),
        Ok(b't') => there_row(rt, kept, sheet),
        _ => Ok(false),
    }
}

// A row on the job's sheet.
fn row_on_sheet(rt: &impl Print, kept: &mut [usize], word: usize) -> io::Result<bool> {
    let mut sheet = [0u8; 62400];
    let length = encode(kept, &mut sheet);
    called_row(rt, kept, word, first_bytes(&sheet, length))
}

// A row with a job, or on the job's sheet.
pub fn job_row(rt: &impl Print, kept: &mut [usize], word: usize) -> io::Result<bool> {
    Ok(reads_job(kept, word) || row_on_sheet(rt, kept, word)?)
}
