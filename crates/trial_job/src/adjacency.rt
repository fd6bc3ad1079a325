// A small job's graph, read off its rules and its channels on air: the layer of each of 32 vertices, k where it is in
// none, and after these a row of 32 for each, 1 where two are adjacent: numbers, as they stand in one table.
ghost use Rattle.std.specs.Prelude.{◌≡◌, ◌+◌, ◌*◌, ◌%◌, ◌^◌, ◌<◌, ◌↔◌, IsTrue, length, slice_index};
ghost use Rattle.trial_job.specs.Graph.{edge};

use trial_parts::kept::{CHANNELS, K, N, ON_AIR, PAIRS};
use trial_parts::{count, first, get, khz, put, rule_of, times, widths};

// A number of half kHz, which may be below zero, is kept without a sign: so much larger. A job's numbers may be any, and
// what is printed of their sums is as these wrap.
pub const ZERO: usize = 2147483648;

pub fn layer(graph: &[usize], v: usize) -> usize
    ensures { result ≡ slice_index graph.now v }
{
    get(graph, v)
}

// The place of vertex v in the row of vertex u.
fn cell(u: usize, v: usize) -> usize
    ensures { result ≡ ((32 * (u % 65536) + 32) % 2 ^ 64 + v) % 2 ^ 64 }
{
    times(32, u).wrapping_add(32).wrapping_add(v)
}

// Whether two vertices are adjacent.
pub fn is_edge(graph: &[usize], u: usize, v: usize) -> bool
    ensures { IsTrue result ↔ (edge graph.now u v ≡ 1) }
{
    get(graph, cell(u, v)) == 1
}

// The link whose list has a vertex.
fn link_of(job: &[usize], v: usize) -> Option<usize> {
    (0..get(job, K)).find(|l| v < first(job, *l).wrapping_add(count(job, *l)))
}

// Whether a channel covers a frequency: 470,000 + 8,000(c - 21) kHz up to, but without, 8,000 more.
fn covers(channel: usize, f: usize) -> bool {
    let low = times(8000, channel.saturating_sub(21)) + 470000;
    low <= f && f < low + 8000
}

// Whether a channel on air covers a frequency.
fn is_covered(job: &[usize], f: usize) -> bool {
    (0..get(job, ON_AIR)).any(|i| covers(get(job, CHANNELS.wrapping_add(i)), f))
}

// The link whose layer a vertex is in; a struck one is in none.
fn layer_of(job: &[usize], v: usize) -> Option<usize> {
    if is_covered(job, khz(job, v)) {
        None
    } else {
        link_of(job, v)
    }
}

// Whether the m pairs from pair `from` on have one of places i and j.
fn is_listed(job: &[usize], from: usize, m: usize, i: usize, j: usize) -> bool {
    (0..m).any(|p| {
        let pair = from.wrapping_add(p);
        let at = PAIRS.wrapping_add(pair.wrapping_add(pair));
        get(job, at) == i && get(job, at.wrapping_add(1)) == j
    })
}

// What vertices u and v of the links a < b have to spare. Kind 1 is between edges, all else between centres.
fn spare_upward(job: &[usize], a: usize, b: usize, u: usize, v: usize) -> usize {
    let apart = khz(job, u).abs_diff(khz(job, v));
    let reached = ZERO.wrapping_add(apart.wrapping_add(apart));
    let Some(at) = rule_of(job, a, b) else {
        return reached.saturating_sub(1);
    };
    let value = get(job, at.wrapping_add(4));
    match get(job, at.wrapping_add(2)) {
        1 => {
            let asked = value.wrapping_add(value).wrapping_add(widths(job, a, b));
            reached.saturating_sub(asked)
        }
        2 => {
            let off = apart.abs_diff(value);
            ZERO.saturating_sub(off.wrapping_add(off))
        }
        _ => {
            let i = u.saturating_sub(first(job, a));
            let j = v.saturating_sub(first(job, b));
            let m = get(job, at.wrapping_add(3));
            if is_listed(job, value, m, i, j) {
                ZERO
            } else {
                ZERO - 1
            }
        }
    }
}

// What vertices u and v of two links a and b have to spare, a number of half kHz that 32 bits hold.
pub fn spare(job: &[usize], a: usize, b: usize, u: usize, v: usize) -> usize
    ensures { result < 2 ^ 32 }
{
    let upward = if a < b {
        spare_upward(job, a, b, u, v)
    } else {
        spare_upward(job, b, a, v, u)
    };
    upward % 4294967296
}

// Whether two vertices are adjacent: of two links, with no less than zero to spare. A struck one has no neighbours.
fn adjacent(job: &[usize], u: usize, v: usize) -> bool {
    match (layer_of(job, u), layer_of(job, v)) {
        (Some(a), Some(b)) => a != b && ZERO <= spare(job, a, b, u, v),
        _ => false,
    }
}

// Vertex u's layer, and whether it is adjacent to v.
fn fill_cell(job: &[usize], graph: &mut [usize], u: usize, v: usize) {
    let n = get(job, N);
    if u < n && v < n {
        put(graph, u, layer_of(job, u).unwrap_or(get(job, K)));
        put(graph, cell(u, v), usize::from(adjacent(job, u, v)));
    }
}

// The graph, over a table that is zero.
pub fn fill(job: &[usize], graph: &mut [usize])
    ensures { length graph.new ≡ length graph.old }
{
    for p in 0..1024 {
        fill_cell(job, graph, p / 32, p % 32);
    }
}
