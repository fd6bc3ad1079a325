// A job's fields, read and written one by one, and as the bytes of its sheet.
ghost use Rattle.std.specs.Prelude.{◌≡◌, ◌+◌, ◌*◌, ◌%◌, ◌^◌, slice_index, slice_set, IfSome};
ghost use Rattle.trial_tables.specs.Fields.{link_bytes, pair_at, rule_at, sheet_length, widths_of};

use crate::cell::{get, put};
use crate::kept::{FESTIVAL, FREQUENCIES, K, LINKS, N, PAIRS, Q, RULES, T, WIDE, WIDTHS};
use crate::parts::{put_half, put_word, times};

// The bytes before the links' rows.
const HEADER: usize = 40;

pub fn first(job: &[usize], link: usize) -> usize
    ensures { result ≡ slice_index job.now ((1304 + (link + link) % 2 ^ 64) % 2 ^ 64) }
{
    get(job, LINKS.wrapping_add(link.wrapping_add(link)))
}

pub fn count(job: &[usize], link: usize) -> usize
    ensures { result ≡ slice_index job.now ((1305 + (link + link) % 2 ^ 64) % 2 ^ 64) }
{
    get(job, (LINKS + 1).wrapping_add(link.wrapping_add(link)))
}

pub fn khz(job: &[usize], v: usize) -> usize
    ensures { result ≡ slice_index job.now ((1562 + v) % 2 ^ 64) }
{
    get(job, FREQUENCIES.wrapping_add(v))
}

fn width(job: &[usize], link: usize) -> usize
    ensures { result ≡ slice_index job.now ((49538 + link) % 2 ^ 64) }
{
    get(job, WIDTHS.wrapping_add(link))
}

// The widths of two links together, at most 40,000; 0 in form 1.
pub fn widths(job: &[usize], a: usize, b: usize) -> usize
    ensures { result ≡ widths_of job.now a b }
{
    times(get(job, WIDE), width(job, a).wrapping_add(width(job, b)))
}

// The place of a rule's row.
pub fn rule_at(rule: usize) -> usize
    ensures { result ≡ (2587 + 5 * (rule % 65536)) % 2 ^ 64 }
{
    RULES.wrapping_add(times(5, rule))
}

pub fn put_link(job: &mut [usize], link: usize, start: usize, m: usize)
    ensures { job.new ≡
        pair_at job.old ((1304 + (link + link) % 2 ^ 64) % 2 ^ 64) start m }
{
    let at = LINKS.wrapping_add(link.wrapping_add(link));
    put(job, at, start);
    put(job, at.wrapping_add(1), m);
}

pub fn put_rule(
    job: &mut [usize],
    rule: usize,
    a: usize,
    b: usize,
    kind: usize,
    m: usize,
    value: usize,
)
    ensures { job.new ≡
        rule_at job.old ((2587 + 5 * (rule % 65536)) % 2 ^ 64) a b kind m value }
{
    let at = rule_at(rule);
    put(job, at, a);
    put(job, at.wrapping_add(1), b);
    put(job, at.wrapping_add(2), kind);
    put(job, at.wrapping_add(3), m);
    put(job, at.wrapping_add(4), value);
}

pub fn put_pair(job: &mut [usize], pair: usize, i: usize, j: usize)
    ensures { job.new ≡
        pair_at job.old ((12672 + (pair + pair) % 2 ^ 64) % 2 ^ 64) i j }
{
    let at = PAIRS.wrapping_add(pair.wrapping_add(pair));
    put(job, at, i);
    put(job, at.wrapping_add(1), j);
}

// One rule more.
pub fn add_rule(job: &mut [usize], a: usize, b: usize, kind: usize, m: usize, value: usize)
    ensures { let q = slice_index job.old 1302 in
        job.new ≡ slice_set (rule_at job.old ((2587 + 5 * (q % 65536)) % 2 ^ 64) a b kind m value)
        1302 ((q + 1) % 2 ^ 64) }
{
    let q = get(job, Q);
    put_rule(job, q, a, b, kind, m, value);
    put(job, Q, q.wrapping_add(1));
}

// One pair more.
pub fn add_pair(job: &mut [usize], i: usize, j: usize)
    ensures { let t = slice_index job.old 1303 in
        job.new ≡ slice_set (pair_at job.old ((12672 + (t + t) % 2 ^ 64) % 2 ^ 64) i j)
        1303 ((t + 1) % 2 ^ 64) }
{
    let t = get(job, T);
    put_pair(job, t, i, j);
    put(job, T, t.wrapping_add(1));
}

// The place of the row of the rule of links a and b, where there is one.
pub fn rule_of(job: &[usize], a: usize, b: usize) -> Option<usize>
    ensures { IfSome result (λ at. (slice_index job.now at ≡ a)
        × (slice_index job.now ((at + 1) % 2 ^ 64) ≡ b)) }
{
    (0..get(job, Q)).map(rule_at).find(|at| get(job, *at) == a && get(job, at.wrapping_add(1)) == b)
}

// A field of the sheet.
#[derive(Clone, Copy, PartialEq, Eq, Debug)]
enum Field {
    Half,
    Word,
}

impl Field {
    fn size(self) -> usize {
        match self {
            Field::Half => 2,
            Field::Word => 4,
        }
    }

    fn put(self, out: &mut [u8], at: usize, x: usize) {
        match self {
            Field::Half => put_half(out, at, x),
            Field::Word => put_word(out, at, x),
        }
    }
}

// The bytes of a link's row.
fn link_bytes(job: &[usize]) -> usize
    ensures { result ≡ link_bytes job.now }
{
    times(4, get(job, WIDE)).wrapping_add(4)
}

// A link's row.
fn put_link_row(job: &[usize], out: &mut [u8], link: usize) {
    let row = HEADER.wrapping_add(times(link_bytes(job), link));
    put_run(
        job,
        LINKS.wrapping_add(link.wrapping_add(link)),
        2,
        out,
        Field::Half,
        row,
    );
    if get(job, WIDE) == 1 {
        put_word(out, row.wrapping_add(4), width(job, link));
    }
}

fn put_link_rows(job: &[usize], out: &mut [u8]) {
    let k = get(job, K);
    for l in 0..k {
        put_link_row(job, out, l);
    }
}

// So many numbers of the job as fields of one kind.
fn put_run(job: &[usize], from: usize, m: usize, out: &mut [u8], field: Field, at: usize) {
    for i in 0..m {
        let x = get(job, from.wrapping_add(i));
        field.put(out, at.wrapping_add(times(field.size(), i)), x);
    }
}

fn put_rules(job: &[usize], out: &mut [u8], at: usize) {
    let q = get(job, Q);
    for j in 0..q {
        let from = rule_at(j);
        let row = at.wrapping_add(times(12, j));
        put_run(job, from, 4, out, Field::Half, row);
        put_word(out, row.wrapping_add(8), get(job, from.wrapping_add(4)));
    }
}

fn put_offsets(out: &mut [u8], frequencies: usize, rules: usize, pairs: usize, end: usize) {
    put_word(out, 20, HEADER);
    put_word(out, 24, frequencies);
    put_word(out, 28, rules);
    put_word(out, 32, pairs);
    put_word(out, 36, end);
}

fn put_sections(job: &[usize], out: &mut [u8], frequencies: usize, rules: usize, pairs: usize) {
    put_link_rows(job, out);
    put_run(job, FREQUENCIES, get(job, N), out, Field::Word, frequencies);
    put_rules(job, out, rules);
    put_run(job, PAIRS, times(2, get(job, T)), out, Field::Half, pairs);
}

// Writes the sheet but for its form and counts, and gives its length.
fn put_rest(job: &[usize], out: &mut [u8]) -> usize
    ensures { result ≡ sheet_length job.now }
{
    let frequencies = HEADER.wrapping_add(times(link_bytes(job), get(job, K)));
    let rules = frequencies.wrapping_add(times(4, get(job, N)));
    let pairs = rules.wrapping_add(times(12, get(job, Q)));
    let end = pairs.wrapping_add(times(4, get(job, T)));
    put_offsets(out, frequencies, rules, pairs, end);
    put_sections(job, out, frequencies, rules, pairs);
    end
}

fn form(job: &[usize]) -> usize {
    get(job, WIDE)
        .wrapping_add(1)
        .wrapping_add(get(job, FESTIVAL))
}

// Writes the sheet, and gives its length.
pub fn encode(job: &[usize], out: &mut [u8]) -> usize
    ensures { result ≡ sheet_length job.now }
{
    put_word(out, 0, form(job));
    put_run(job, K, 4, out, Field::Word, 4);
    put_rest(job, out)
}
