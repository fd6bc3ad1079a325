// A job beside plans counted apart, and small jobs and class lists of a pseudo-random sequence.
ghost use Rattle.std.specs.Prelude.{◌≡◌, length};

use crate::settings::beside;
use trial_counts_apart::{LEFT, PLANS, count_apart, nodes_apart};
use trial_job::{fill, make_channels, make_job, make_list};
use trial_parts::kept::{AIRED, CELLS, ON_AIR, SEED, WITH};
use trial_parts::{encode, first_bytes, get, more, put};

// The plans of all small jobs.
pub const PLANS_SUM: usize = 48;

// A job and its graph beside plans counted apart. Gives how many there are.
pub fn beside_apart(job: &mut [usize], graph: &[usize], sheet: &[u8], callers: &[u8]) -> usize
    ensures { length job.new ≡ length job.old }
{
    let mut left = [0usize; LEFT];
    count_apart(job, graph, &mut left);
    let nodes = nodes_apart(job, graph);
    beside(job, sheet, callers, &left, nodes);
    get(&left, PLANS)
}

// The job's sheet so, with a list of the sequence.
fn listed(job: &mut [usize], graph: &[usize], sheet: &[u8]) {
    let mut list = [0u8; 40];
    let m = make_list(job, graph, &mut list);
    let plans = beside_apart(job, graph, sheet, first_bytes(&list, m));
    let sum = get(job, PLANS_SUM).wrapping_add(plans);
    put(job, PLANS_SUM, sum);
    if plans != 0 {
        more(job, WITH);
    }
}

// The next job of the sequence.
fn small_job(job: &mut [usize]) {
    let mut sheet = [0u8; 1200];
    let mut graph = [0usize; CELLS];
    make_channels(job);
    make_job(job);
    fill(job, &mut graph);
    let length = encode(job, &mut sheet);
    if get(job, ON_AIR) != 0 {
        more(job, AIRED);
    }
    listed(job, &graph, first_bytes(&sheet, length));
}

// So many of them.
pub fn small_jobs(job: &mut [usize], m: usize)
    ensures { length job.new ≡ length job.old }
{
    put(job, SEED, 1);
    for _ in 0..m {
        small_job(job);
    }
}
