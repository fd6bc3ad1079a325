// Class lists from the fixed pseudo-random sequence.
ghost use Rattle.std.specs.Prelude.{◌+◌, ◌≤◌, get_or};

use crate::classes::{has_neighbour_in, put_layers};
use trial_draws::draw;
use trial_parts::kept::{K, N};
use trial_parts::{get, put};

// Moves a vertex to a class of the sequence that has none of its neighbours.
fn move_vertex(graph: &[usize], n: usize, k: usize, list: &mut [u8], kept: &mut [usize], v: usize) {
    let class = draw(kept, k);
    if !has_neighbour_in(graph, n, list, v, class) {
        put(list, v, class);
    }
}

// Moves the vertices so, one after another, in three lists of four.
fn move_vertices(graph: &[usize], n: usize, k: usize, list: &mut [u8], kept: &mut [usize]) {
    if draw(kept, 4) == 0 {
        return;
    }
    for v in 0..n {
        move_vertex(graph, n, k, list, kept, v);
    }
}

// A list that is one vertex or length away from a partition, mostly: a vertex in any class or in class k, or a wrong
// length. Gives the length.
fn spoil_list(n: usize, k: usize, list: &mut [u8], kept: &mut [usize]) -> usize
    ensures { result ≤ n + 1 }
{
    let fault = draw(kept, 24);
    let v = draw(kept, n);
    match fault {
        0 => {
            let class = draw(kept, k);
            put(list, v, class);
            n
        }
        1 => {
            put(list, v, k);
            n
        }
        2 => n.wrapping_add(1),
        3 => n.saturating_sub(1),
        _ => n,
    }
}

// A class list for the caller, a partition mostly. Gives its length.
pub fn make_list(job: &mut [usize], graph: &[usize], list: &mut [u8]) -> usize
    ensures { result ≤ get_or job.old 1301 0 + 1 }
{
    let n = get(job, N);
    let k = get(job, K);
    let by = draw(job, k);
    put_layers(graph, n, k, by, list);
    move_vertices(graph, n, k, list, job);
    spoil_list(n, k, list, job)
}
