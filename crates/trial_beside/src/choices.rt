// A job's sheet under every filter number and choice, beside the brute-force solver.
ghost use Rattle.std.specs.Prelude.{◌≡◌, length};

use std::io;
use trial_calls::{MOST, checks, plans, under_filters, want};
use trial_job::{
    best_plan, codes, fits_greedy, keeps_apart, keeps_rules, none_empty, pick, put_layers,
};
use trial_parts::kept::{CHOICE, EMPTIED, K, LAYERED, N, PLAN, REFUSED, WITH};
use trial_parts::{get, khz, more, narrow, put};

// The frequency that an assignment takes for a link; 0 past the links.
fn khz_taken(job: &[usize], picks: &[usize], link: usize) -> usize {
    if link < get(job, K) {
        khz(job, get(picks, link))
    } else {
        0
    }
}

// The frequencies that an assignment takes, as the plan wanted.
fn want_plan(job: &mut [usize], picks: &[usize]) {
    for l in 0..136 {
        let f = khz_taken(job, picks, l);
        put(job, PLAN + l, f);
    }
}

// The same as cells.
fn put_cells(job: &[usize], picks: &[usize], cells: &mut [u32]) {
    for (l, cell) in cells.iter_mut().enumerate() {
        *cell = narrow(khz_taken(job, picks, l));
    }
}

// The number wanted under a partition, with the first plan where there is one.
fn wanted(job: &mut [usize], graph: &[usize], classes: &[u8]) -> usize {
    let Some(code) = best_plan(job, graph, classes) else {
        return 101;
    };
    let mut picks = [0usize; 8];
    pick(job, code, &mut picks);
    want_plan(job, &picks);
    100
}

// The nodes that are known of every tree: none where a layer or a class is left empty.
fn known_nodes(kept: &[usize], graph: &[usize], classes: &[u8]) -> Option<usize> {
    let can_fill = none_empty(graph, get(kept, N), get(kept, K), classes);
    (!can_fill).then_some(0)
}

// Counts a sheet with a plan, or with a link left empty, once for all choices.
fn count_sheet(kept: &mut [usize], number: usize, known: Option<usize>) {
    if get(kept, CHOICE) != 0 {
        return;
    }
    if number == 100 {
        more(kept, WITH);
    } else if known == Some(0) {
        more(kept, EMPTIED);
    }
}

// One choice: the partition is `classes`, and the caller lends `callers`.
fn under_choice(
    rt: &impl Print,
    kept: &mut [usize],
    graph: &[usize],
    sheet: &[u8],
    classes: &[u8],
    callers: &[u8],
) -> io::Result<bool> {
    let number = wanted(kept, graph, classes);
    let known = known_nodes(kept, graph, classes);
    count_sheet(kept, number, known);
    under_filters(rt, kept, sheet, callers, number, known)
}

// Choice 0.
fn under_layers(
    rt: &impl Print,
    kept: &mut [usize],
    graph: &[usize],
    sheet: &[u8],
    callers: &[u8],
) -> io::Result<bool> {
    let mut list = [0u8; 40];
    put(kept, CHOICE, 0);
    put_layers(graph, get(kept, N), get(kept, K), 0, &mut list);
    under_choice(rt, kept, graph, sheet, &list, callers)
}

fn put_classes(kept: &mut [usize], graph: &[usize], list: &mut [u8]) {
    if !fits_greedy(graph, get(kept, N), get(kept, K), list) {
        more(kept, LAYERED);
    }
}

// Choice 1.
fn under_greedy(
    rt: &impl Print,
    kept: &mut [usize],
    graph: &[usize],
    sheet: &[u8],
    callers: &[u8],
) -> io::Result<bool> {
    let mut list = [255u8; 40];
    put(kept, CHOICE, 1);
    put_classes(kept, graph, &mut list);
    under_choice(rt, kept, graph, sheet, &list, callers)
}

// Whether a list of the caller is a partition of the vertices in classes below k.
fn is_partition(kept: &[usize], graph: &[usize], list: &[u8]) -> bool {
    let n = get(kept, N);
    list.len() == n && keeps_apart(graph, n, get(kept, K), list)
}

// Choice 2, with a list that may be no partition.
fn under_callers(
    rt: &impl Print,
    kept: &mut [usize],
    graph: &[usize],
    sheet: &[u8],
    callers: &[u8],
) -> io::Result<bool> {
    put(kept, CHOICE, 2);
    if is_partition(kept, graph, callers) {
        return under_choice(rt, kept, graph, sheet, callers, callers);
    }
    more(kept, REFUSED);
    want(kept, MOST, 12, Some(0));
    plans(rt, kept, sheet, callers)
}

// An assignment: the check says yes exactly if it keeps every rule.
fn check_code(
    rt: &impl Print,
    job: &mut [usize],
    graph: &[usize],
    sheet: &[u8],
    code: usize,
) -> io::Result<bool> {
    let mut picks = [0usize; 8];
    let mut cells = [0u32; 8];
    pick(job, code, &mut picks);
    put_cells(job, &picks, &mut cells);
    let is_plan = keeps_rules(graph, get(job, K), &picks);
    let number = if is_plan { 100 } else { 0 };
    checks(rt, job, sheet, &cells, number)
}

// All assignments.
fn check_codes(
    rt: &impl Print,
    job: &mut [usize],
    graph: &[usize],
    sheet: &[u8],
) -> io::Result<bool> {
    for code in 0..codes(job) {
        if !check_code(rt, job, graph, sheet, code)? {
            return Ok(false);
        }
    }
    Ok(true)
}

// All three choices, and the check.
pub fn beside(
    rt: &impl Print,
    job: &mut [usize],
    graph: &[usize],
    sheet: &[u8],
    callers: &[u8],
) -> io::Result<bool>
    ensures { length job.new ≡ length job.old }
{
    Ok(
        under_layers(rt, job, graph, sheet, callers)?
            && under_greedy(rt, job, graph, sheet, callers)?
            && under_callers(rt, job, graph, sheet, callers)?
            && check_codes(rt, job, graph, sheet)?,
    )
}
