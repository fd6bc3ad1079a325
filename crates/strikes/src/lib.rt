// The strikes of the channels on air in the work words: the root row gets the vertices that are left, and rows are cut
// to it. The contracts cite specs/Struck.antt, and `strike_graph` that the rows are `edge` of the job.
#![tactic(auto)]

ghost use Rattle.std.specs.Prelude.{◌≡◌, true, ℕ, ◌+◌, ◌*◌, ◌<◌, ◌≤◌, length};
ghost use Rattle.sets.specs.Sets.{Set, ◌∩◌, ◌∖◌, just, whole};
ghost use Rattle.channels.specs.Channels.{channels_ok};
ghost use Rattle.sheet.specs.Sheet.{n_of};
ghost use Rattle.sheet.specs.Accepted.{Accepted};
ghost use Rattle.rules.specs.Job.{job_of, job_with, struck, unstruck};
ghost use Rattle.rows.specs.Rows.{set_at, row_at, Put};
ghost use Rattle.graph.specs.Graph.{edge};
ghost use Rattle.graph.specs.Rows.{Built};
ghost use Rattle.rule_strikes.specs.Strikes.{Rewritten};
ghost use Rattle.strikes.specs.Struck.{StrikesAsked, left_of};

use channels::is_on_air;
use cliques::Place;
use rule_strikes::add_span;
use sheet::{freqs_at, freqs_of};
use sheet_rows::freq;

// Whether vertex v is struck: a channel on air covers its frequency.
fn is_struck(sheet: &[u8], channels: &[u8], v: usize) -> bool
    requires { Accepted sheet.now × (channels_ok channels.now ≡ true) × (v < n_of sheet.now) }
    ensures { result ≡ struck (job_with sheet.now channels.now) v }
{
    let at = freqs_at(sheet);
    is_on_air(channels, freq(&sheet[at..], v))
}

// The root row gets every vertex.
fn put_all(part: &mut [u64], w: usize, n: usize)
    requires { (w ≤ length part.old) × (n ≤ 64 * w) }
    ensures { Put (whole n) w 0 part.old part.new }
{
    rows::clear(part, w, 0);
    add_span(part, w, 0, 0, n);
}

// Vertex v leaves the root row, if it is struck.
fn strike_vertex(part: &mut [u64], w: usize, sheet: &[u8], channels: &[u8], v: usize)
    requires { Accepted sheet.now × (channels_ok channels.now ≡ true) × (v < n_of sheet.now)
        × (w ≤ length part.old) × (v < 64 * w) }
    ensures { Put (set_at part.old w 0
        ∖ (just v ∩ struck (job_with sheet.now channels.now))) w 0
        part.old part.new }
{
    if !is_struck(sheet, channels, v) {
        return;
    }
    rows::remove(part, w, 0, v);
}

// The root row gets the vertices that are left.
pub fn put_unstruck(part: &mut [u64], w: usize, sheet: &[u8], channels: &[u8])
    requires { Accepted sheet.now × (channels_ok channels.now ≡ true) × (w ≤ length part.old)
        × (n_of sheet.now ≤ 64 * w) }
    ensures { Put (unstruck (job_with sheet.now channels.now)) w 0
        part.old part.new }
{
    let n = freqs_of(sheet);
    put_all(part, w, n);
    for v in 0..n {
        strike_vertex(part, w, sheet, channels, v);
    }
}

// Row u of the graph: a struck vertex has no neighbours, and no other has a struck one.
fn strike_row(part: &mut [u64], place: Place, sheet: &[u8], channels: &[u8], u: usize)
    requires { StrikesAsked sheet.now channels.now place (length part.old) × (u < place.n)
        × (set_at part.old place.w 0 ≡ unstruck (job_with sheet.now channels.now)) }
    ensures { Rewritten (left_of (job_with sheet.now channels.now)) u (u + 1)
        place.w place.graph place.n part.old part.new }
{
    let row = rows::row_at(place.graph, place.w, u, place.n);
    if is_struck(sheet, channels, u) {
        rows::clear(part, place.w, row);
        return;
    }
    rows::meet(part, place.w, row, row, 0);
}

// The rows of the sheet's graph become those of the job's, where the root row has the vertices that are left.
pub fn strike_graph(part: &mut [u64], place: Place, sheet: &[u8], channels: &[u8])
    requires { StrikesAsked sheet.now channels.now place (length part.old)
        × (set_at part.old place.w 0 ≡ unstruck (job_with sheet.now channels.now))
        × ((u : ℕ) → u < place.n → row_at part.old place.w place.graph u ≡ edge (job_of sheet.now) u) }
    ensures { Built (edge (job_with sheet.now channels.now))
        place.w place.graph place.n part.old part.new }
{
    for u in 0..place.n {
        strike_row(part, place, sheet, channels, u);
    }
}

// Each of m rows from `at` on is cut to the root row.
pub fn cut_rows(part: &mut [u64], w: usize, at: usize, m: usize)
    requires { (w ≤ at) × (at + m * w ≤ length part.old) }
    ensures { Rewritten (λ (c : ℕ) (S : Set). S ∩ set_at part.old w 0) 0 m w at m
        part.old part.new }
{
    for c in 0..m {
        let row = rows::row_at(at, w, c, m);
        rows::meet(part, w, row, row, 0);
    }
}
