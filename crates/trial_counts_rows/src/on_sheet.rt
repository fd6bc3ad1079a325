// The rows on a job's sheet.
ghost use Rattle.std.specs.Prelude.{◌≡◌, length};

use std::io;
use trial_counts_beside::beside_apart;
use trial_counts_calls::{MOST, ask_counts};
use trial_counts_causes::with_faults;
use trial_job::fill;
use trial_parts::kept::{CELLS, CHOICE, FILTER, LIMIT, LIST, LISTED, N, NODES};
use trial_parts::{encode, first_bytes, get, next, put, put_bytes};

fn print_counts(rt: &impl Print, counts: &[u64], n: usize) -> io::Result<()> {
    if counts.len() < n {
        return Ok(());
    }
    for count in &counts[..n] {
        print!(rt; " {count}")?;
    }
    println!(rt; "")
}

// One filter number of a row `plans`.
fn plans_under(
    rt: &impl Print,
    kept: &mut [usize],
    sheet: &[u8],
    list: &[u8],
    filter: usize,
) -> io::Result<()> {
    let mut cells = [7u32; 136];
    let mut counts = [7u64; 1100];
    let mut work = [7u64; 32768];
    put(kept, FILTER, filter);
    put(kept, LIMIT, MOST);
    let told = ask_counts(kept, sheet, list, &mut cells, &mut counts, &mut work);
    print!(rt;
        "filter number {filter}: answer {told}, nodes {}, plans left",
        get(kept, NODES)
    )?;
    print_counts(rt, &counts, get(kept, N))
}

// `plans`: the choice.
fn plans_row(rt: &impl Print, kept: &mut [usize], sheet: &[u8], list: &[u8]) -> io::Result<()> {
    let choice = next(kept);
    put(kept, CHOICE, choice);
    for filter in 0..8 {
        plans_under(rt, kept, sheet, list, filter)?;
    }
    Ok(())
}

// `causes`: every fault at once, and then mended one after another from the first tested on.
fn causes_row(rt: &impl Print, kept: &mut [usize], sheet: &[u8], list: &[u8]) -> io::Result<()> {
    print!(rt; "causes, each with all later ones:")?;
    for mended in 0..8 {
        print!(rt; " {}", with_faults(kept, sheet, list, mended))?;
    }
    println!(rt; "")
}

// `beside`: the sheet and the list beside plans counted apart, and beside planning.
fn beside_row(kept: &mut [usize], sheet: &[u8], list: &[u8]) {
    let mut graph = [0usize; CELLS];
    fill(kept, &mut graph);
    beside_apart(kept, &graph, sheet, list);
}

// A row with the sheet and the list, by the first byte of its word.
fn called_row(
    rt: &impl Print,
    kept: &mut [usize],
    word: usize,
    sheet: &[u8],
    list: &[u8],
) -> io::Result<()> {
    match u8::try_from(word) {
        Ok(b'b') => {
            beside_row(kept, sheet, list);
            Ok(())
        }
        Ok(b'c') => causes_row(rt, kept, sheet, list),
        Ok(b'p') => plans_row(rt, kept, sheet, list),
        _ => println!(rt; "no row begins so: {word}"),
    }
}

// A row on the job's sheet, with the caller's list.
pub fn row_on_sheet(rt: &impl Print, kept: &mut [usize], word: usize) -> io::Result<()>
    ensures { length kept.new ≡ length kept.old }
{
    let mut sheet = [0u8; 8192];
    let mut list = [0u8; 1100];
    let length = encode(kept, &mut sheet);
    put_bytes(kept, LIST, &mut list);
    let m = get(kept, LISTED);
    called_row(
        rt,
        kept,
        word,
        first_bytes(&sheet, length),
        first_bytes(&list, m),
    )
}
