// The places of a table: those of the call, and those wanted, from the tables of the job.
use crate::report::is_place;
use std::io;
use trial_job::{ZERO, spare};
use trial_parts::kept::K;
use trial_parts::{count, first, get, khz, put, times};

// A number of half kHz as it is kept: ZERO larger.
fn above(x: i32) -> usize {
    x.abs_diff(i32::MIN) as usize
}

// Place i; past the end a number that no place has.
pub fn get_spare(table: &[i32], i: usize) -> usize {
    table.get(i).map_or(0, |x| above(*x))
}

// The vertex past the list of link l.
pub fn list_end(job: &[usize], l: usize) -> usize {
    first(job, l).wrapping_add(count(job, l))
}

// The vertex of link l that has the frequency f.
fn vertex(job: &[usize], l: usize, f: usize) -> Option<usize> {
    (first(job, l)..list_end(job, l)).find(|v| khz(job, *v) == f)
}

// Puts the vertices of the cells, up to one that is not in its link's list. Says whether there is no such cell.
fn puts_vertices(job: &[usize], cells: &[u32], vertices: &mut [usize]) -> bool {
    for l in 0..get(job, K) {
        let Some(v) = vertex(job, l, get(cells, l)) else {
            return false;
        };
        put(vertices, l, v);
    }
    true
}

// An answer that is no refusal: no or yes.
pub fn is_judged(number: usize) -> bool {
    matches!(number, 0 | 100)
}

// The links that the table shows with an answer: all, with the vertices of their cells, or none.
pub fn links_shown(job: &[usize], cells: &[u32], number: usize, vertices: &mut [usize]) -> usize {
    if is_judged(number) && puts_vertices(job, cells, vertices) {
        get(job, K)
    } else {
        0
    }
}

// Place i that is wanted of a table that shows k links.
fn place(job: &[usize], vertices: &[usize], k: usize, i: usize) -> usize {
    if k == 0 || times(k, k) <= i {
        return ZERO;
    }
    let (a, b) = (i / k, i % k);
    if a == b {
        ZERO
    } else {
        spare(job, a, b, get(vertices, a), get(vertices, b))
    }
}

// Whether each place is as wanted. The first that is not is printed.
pub fn is_table(
    rt: &impl Print,
    job: &[usize],
    vertices: &[usize],
    k: usize,
    table: &[i32],
) -> io::Result<bool> {
    for (i, x) in table.iter().enumerate() {
        if !is_place(rt, i, above(*x), place(job, vertices, k, i))? {
            return Ok(false);
        }
    }
    Ok(true)
}
