// Reading a graph text and a count text from the solver benches.
// The contracts cite `Reading` of the crate `dimacs`, through specs/Read.antt (numbers and counts) and
// specs/Graphs.antt (edges).
#![tactic(auto)]

mod edges;
mod links;

ghost use Rattle.std.specs.Prelude.{◌≡◌, Some, [], ◌+◌, ◌*◌, ◌≤◌, ◌<◌, length, take, drop};
ghost use Rattle.dimacs.specs.Reading.{Number, read_number, ended_by, field, counts_from};
ghost use Rattle.dimacs.specs.Reading.{edges_of, texts_over, texts_of};
ghost use Rattle.graph_read.specs.Read.{most_value, Pushed, DigitsRead, Told, Fits, CountsTold};
ghost use Rattle.graph_read.specs.Graphs.{Links, TextsOf, TextsTold};

pub use edges::is_joined;
use edges::{EdgeLines, read_graph};
use links::{fill_layers, first_of};

// A number that was read: its value, as far as it can matter, and the place after it.
#[derive(Clone, Copy)]
pub struct Digits {
    pub value: usize,
    pub next: usize,
}

// The links and the vertices of a graph.
#[derive(Clone, Copy)]
pub struct GraphSizes {
    pub links: usize,
    pub vertices: usize,
}

// Why there is no graph: one of the texts is malformed, or an edge is inside a link or repeated.
#[derive(Clone, Copy, Debug, PartialEq, Eq)]
pub enum TextsRefusal {
    Malformed,
    Clashing,
}

// The value with a digit more; no text has as many lines as the most.
fn push(value: usize, digit: usize) -> usize
    requires { (value ≤ most_value) × (digit < 10) }
    ensures { Pushed value digit result }
{
    if value >= 1000000000000000000 {
        return 10000000000000000000;
    }
    10 * value + digit
}

// The digits from a place on, after a first digit.
fn read_digits(text: &[u8], at: usize, first: usize) -> Digits
    requires { (at ≤ length text.now) × (first < 10) }
    ensures { DigitsRead text.now at first result }
{
    let mut value = first;
    for i in at..text.len() {
        let b = text[i];
        if !b.is_ascii_digit() {
            return Digits { value, next: i };
        }
        value = push(value, usize::from(b - b'0'));
    }
    Digits {
        value,
        next: text.len(),
    }
}

// The number at a place: 0, or digits of which the first is another.
fn read_number(text: &[u8], at: usize) -> Option<Digits>
    ensures { Told text.now (read_number (drop at text.now)) result }
{
    if at >= text.len() {
        return None;
    }
    let b = text[at];
    if b == b'0' {
        return Some(Digits {
            value: 0,
            next: at + 1,
        });
    }
    if !b.is_ascii_digit() {
        return None;
    }
    Some(read_digits(text, at + 1, usize::from(b - b'0')))
}

// The number that was read, if a byte follows it.
fn ended_by(text: &[u8], d: Digits, end: u8) -> Option<Digits>
    ensures { (m : Number) → Told text.now m (Some d) → Told text.now (ended_by end m) result }
{
    if d.next >= text.len() {
        return None;
    }
    if text[d.next] != end {
        return None;
    }
    Some(Digits {
        value: d.value,
        next: d.next + 1,
    })
}

// A word, a number right after it, and the byte that ends it.
fn read_field(text: &[u8], at: usize, word: &[u8], end: u8) -> Option<Digits>
    requires { at ≤ length text.now }
    ensures { Told text.now (field word.now end (drop at text.now)) result }
{
    if !text[at..].starts_with(word) {
        return None;
    }
    let d = read_number(text, at + word.len())?;
    ended_by(text, d, end)
}

// Whether a count may follow k counts that sum to `total`.
fn count_fits(k: usize, total: usize, count: usize) -> bool
    requires { total ≤ 512 }
    ensures { Fits k total count result }
{
    k < 64 && count != 0 && count <= 512 - total
}

// The counts, one a line to the end.
fn read_counts(text: &[u8], counts: &mut [u64]) -> Option<usize>
    requires { length counts.old ≡ 64 }
    ensures { CountsTold (counts_from (length text.now + 1) [] text.now)
        counts.new result }
{
    let mut k = 0;
    let mut total: usize = 0;
    let mut at = 0;
    while at < text.len() {
        let line = read_field(text, at, b"", b'\n')?;
        if !count_fits(k, total, line.value) {
            return None;
        }
        counts[k] = line.value as u64;
        k += 1;
        total += line.value;
        at = line.next;
    }
    Some(k)
}

// What the lines of a graph say.
fn texts_of(e: Option<EdgeLines>, links: usize, vertices: usize) -> Result<GraphSizes, TextsRefusal>
    ensures { TextsOf links vertices e result }
{
    let Some(lines) = e else {
        return Err(TextsRefusal::Malformed);
    };
    if lines.clash {
        return Err(TextsRefusal::Clashing);
    }
    Ok(GraphSizes { links, vertices })
}

// The graph text, after the counts of k links, with words for the table of links.
fn read_by(
    text: &[u8],
    counts: &[u64],
    k: usize,
    layers: &mut [u8],
    codes: &mut [u64],
) -> Result<GraphSizes, TextsRefusal>
    requires { Links counts.now k × (length layers.old ≡ 512) × (length codes.old ≡ 4096) }
    ensures { TextsTold
        (texts_over (take k counts.now) (edges_of (take k counts.now) text.now))
        counts.now codes.new result }
{
    let n = first_of(counts, k, k);
    fill_layers(counts, k, n, layers);
    rows::clear(codes, 4096, 0);
    let e = read_graph(text, layers, n, codes);
    texts_of(e, k, n)
}

// The same, with a table of its own.
fn read_over(
    text: &[u8],
    counts: &[u64],
    k: usize,
    codes: &mut [u64],
) -> Result<GraphSizes, TextsRefusal>
    requires { Links counts.now k × (length codes.old ≡ 4096) }
    ensures { TextsTold
        (texts_over (take k counts.now) (edges_of (take k counts.now) text.now))
        counts.now codes.new result }
{
    let mut layers = [0u8; 512];
    read_by(text, counts, k, &mut layers, codes)
}

// Both texts. The counts and the codes of the edges are left in the words lent.
pub fn read_texts(
    text: &[u8],
    sizes: &[u8],
    counts: &mut [u64],
    codes: &mut [u64],
) -> Result<GraphSizes, TextsRefusal>
    requires { (length counts.old ≡ 64) × (length codes.old ≡ 4096) }
    ensures { TextsTold (texts_of text.now sizes.now)
        counts.new codes.new result }
{
    let Some(k) = read_counts(sizes, counts) else {
        return Err(TextsRefusal::Malformed);
    };
    if k == 0 {
        return Err(TextsRefusal::Malformed);
    }
    read_over(text, counts, k, codes)
}
