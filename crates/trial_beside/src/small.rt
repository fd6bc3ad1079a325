// Small jobs and class lists of a pseudo-random sequence, beside the brute-force solver.
ghost use Rattle.std.specs.Prelude.{◌≡◌, length};

use crate::choices::beside;
use std::io;
use trial_job::{fill, make_channels, make_job, make_list};
use trial_parts::kept::{AIRED, CELLS, ON_AIR, SEED};
use trial_parts::{encode, first_bytes, get, more, put};

// The job's sheet beside the brute-force solver, with a list of the sequence.
fn listed_beside(
    rt: &impl Print,
    job: &mut [usize],
    graph: &[usize],
    sheet: &[u8],
) -> io::Result<bool> {
    let mut list = [0u8; 40];
    let m = make_list(job, graph, &mut list);
    beside(rt, job, graph, sheet, first_bytes(&list, m))
}

// The next job of the sequence, with its channels on air.
fn make_next(job: &mut [usize]) {
    make_channels(job);
    make_job(job);
    if get(job, ON_AIR) != 0 {
        more(job, AIRED);
    }
}

// One job of the sequence.
fn small_sheet(rt: &impl Print, job: &mut [usize]) -> io::Result<bool> {
    let mut sheet = [0u8; 1200];
    let mut graph = [0usize; CELLS];
    make_next(job);
    fill(job, &mut graph);
    let length = encode(job, &mut sheet);
    listed_beside(rt, job, &graph, first_bytes(&sheet, length))
}

// So many sheets, up to a difference.
pub fn small_sheets(rt: &impl Print, job: &mut [usize], m: usize) -> io::Result<bool>
    ensures { length job.new ≡ length job.old }
{
    put(job, SEED, 1);
    for _ in 0..m {
        if !small_sheet(rt, job)? {
            return Ok(false);
        }
    }
    Ok(true)
}
