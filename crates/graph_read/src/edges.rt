// The graph text: its first line, then the `e` lines.
ghost use Rattle.std.specs.Prelude.{◌≡◌, false, ◌||◌, List, ℕ, ◌+◌, ◌*◌, ◌≤◌, ◌<◌, length, drop};
ghost use Rattle.sets.specs.Sets.{nothing};
ghost use Rattle.vset.specs.Words.{has};
ghost use Rattle.dimacs.specs.Reading.{edge_line, clashes, edges_from, edges_of};
ghost use Rattle.graph_read.specs.Graphs.{CodesFit, EdgesFit, LayersTold, IsVertex, LineTold, EdgesTold, OfLines};

use crate::read_field;
use vset::{contains, insert};

// An edge by its vertices from 0, and the place after its line.
#[derive(Clone, Copy)]
pub struct Edge {
    pub u: usize,
    pub v: usize,
    pub next: usize,
}

// The `e` lines: how many, and whether one is inside a link or repeated.
#[derive(Clone, Copy)]
pub struct EdgeLines {
    pub count: usize,
    pub clash: bool,
}

// Whether a number that was read is a vertex.
fn is_vertex(n: usize, value: usize) -> bool
    requires { n ≤ 512 }
    ensures { IsVertex n value result }
{
    value != 0 && value <= n
}

// The `e` line at a place.
fn read_edge(text: &[u8], at: usize, n: usize) -> Option<Edge>
    requires { (at < length text.now) × (n ≤ 512) }
    ensures { LineTold text.now at n (edge_line n (drop at text.now)) result }
{
    let u = read_field(text, at, b"e ", b' ')?;
    let v = read_field(text, u.next, b"", b'\n')?;
    if !is_vertex(n, u.value) {
        return None;
    }
    if !is_vertex(n, v.value) {
        return None;
    }
    Some(Edge {
        u: u.value - 1,
        v: v.value - 1,
        next: v.next,
    })
}

// Whether u and v are joined, either way round.
#[tactic(auto, using(crate::proofs::EdgeLines::code_few))]
pub fn is_joined(codes: &[u64], n: usize, u: usize, v: usize) -> bool
    requires { CodesFit n (length codes.now) × (u < n) × (v < n) }
    ensures { result ≡ (has codes.now (u * n + v) || has codes.now (v * n + u)) }
{
    contains(codes, u * n + v) || contains(codes, v * n + u)
}

// Whether an edge is inside a link or repeated.
fn is_clash(layers: &[u8], n: usize, codes: &[u64], u: usize, v: usize) -> bool
    requires { EdgesFit n (length layers.now) (length codes.now) × (u < n) × (v < n) }
    ensures { (cs : List ℕ) → LayersTold cs n layers.now
        → result ≡ clashes cs (has codes.now) u v }
{
    layers[u] == layers[v] || is_joined(codes, n, u, v)
}

// The `e` lines from a place to the end, over n vertices whose links are in the table.
fn read_edges(
    text: &[u8],
    at: usize,
    layers: &[u8],
    n: usize,
    codes: &mut [u64],
) -> Option<EdgeLines>
    requires { (at ≤ length text.now) × EdgesFit n (length layers.now) (length codes.old)
        × (has codes.old ≡ nothing) }
    ensures { (cs : List ℕ) → LayersTold cs n layers.now
        → EdgesTold (edges_from cs (length (drop at text.now) + 1) 0 nothing false
        (drop at text.now)) codes.new result }
{
    let mut count: usize = 0;
    let mut clash = false;
    let mut place = at;
    while place < text.len() {
        let Some(e) = read_edge(text, place, n) else {
            return None;
        };
        clash |= is_clash(layers, n, codes, e.u, e.v);
        insert(codes, e.u * n + e.v);
        count += 1;
        place = e.next;
    }
    Some(EdgeLines { count, clash })
}

// What was read, if it is so many lines.
fn of_lines(m: usize, e: Option<EdgeLines>) -> Option<EdgeLines>
    ensures { OfLines m e result }
{
    let lines = e?;
    (lines.count == m).then_some(lines)
}

// The graph text, over n vertices whose links are in the table.
pub fn read_graph(text: &[u8], layers: &[u8], n: usize, codes: &mut [u64]) -> Option<EdgeLines>
    requires { EdgesFit n (length layers.now) (length codes.old) × (has codes.old ≡ nothing) }
    ensures { (cs : List ℕ) → LayersTold cs n layers.now
        → EdgesTold (edges_of cs text.now) codes.new result }
{
    let head = read_field(text, 0, b"p edge ", b' ')?;
    if head.value != n {
        return None;
    }
    let m = read_field(text, head.next, b"", b'\n')?;
    of_lines(m.value, read_edges(text, m.next, layers, n, codes))
}
