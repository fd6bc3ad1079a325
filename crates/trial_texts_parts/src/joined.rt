// A job's graph, link pair by link pair, as a table of bytes: that of vertices u < v stands at u * n + v, and is 1
// where they are joined.
ghost use Rattle.std.specs.Prelude.{◌≡◌, ◌+◌, ◌*◌, ◌%◌, ◌^◌, length, slice_index};

use trial_parts::kept::{K, N, PAIRS};
use trial_parts::{count, first, get, khz, put, rule_of, times, widths};

// Whether the rule at a place joins frequencies so far apart: kind 1 by their edges. Without a rule those that differ
// are joined. The pairs of kind 3 are put afterwards.
fn joins(job: &[usize], rule: Option<usize>, apart: usize) -> bool {
    let Some(at) = rule else {
        return apart != 0;
    };
    let value = get(job, at.wrapping_add(4));
    match get(job, at.wrapping_add(2)) {
        1 => {
            let both = widths(job, get(job, at), get(job, at.wrapping_add(1)));
            value.wrapping_add(value).wrapping_add(both) <= apart.wrapping_add(apart)
        }
        2 => value == apart,
        _ => false,
    }
}

// The place of vertices u < v in the table.
pub fn cell(job: &[usize], u: usize, v: usize) -> usize
    ensures { result ≡ (u % 65536 * (slice_index job.now 1301 % 65536) + v) % 2 ^ 64 }
{
    times(u, get(job, N)).wrapping_add(v)
}

// Two vertices of links whose rule is at a place.
fn put_cell(job: &[usize], table: &mut [u8], rule: Option<usize>, u: usize, v: usize) {
    let apart = khz(job, u).abs_diff(khz(job, v));
    put(table, cell(job, u, v), usize::from(joins(job, rule, apart)));
}

// All vertices of links a and b.
fn put_cells(job: &[usize], table: &mut [u8], rule: Option<usize>, a: usize, b: usize) {
    let width = count(job, b);
    if width == 0 {
        return;
    }
    for x in 0..times(count(job, a), width) {
        let u = first(job, a).wrapping_add(x / width);
        let v = first(job, b).wrapping_add(x % width);
        put_cell(job, table, rule, u, v);
    }
}

// A listed pair of links a and b.
fn put_listed(job: &[usize], table: &mut [u8], a: usize, b: usize, pair: usize) {
    let at = PAIRS.wrapping_add(pair.wrapping_add(pair));
    let u = first(job, a).wrapping_add(get(job, at));
    let v = first(job, b).wrapping_add(get(job, at.wrapping_add(1)));
    put(table, cell(job, u, v), 1);
}

// The m pairs from pair `from` on.
fn put_list(job: &[usize], table: &mut [u8], a: usize, b: usize, from: usize, m: usize) {
    for p in 0..m {
        put_listed(job, table, a, b, from.wrapping_add(p));
    }
}

// The vertices of links a and b, if a < b.
fn put_links(job: &[usize], table: &mut [u8], a: usize, b: usize) {
    if b <= a {
        return;
    }
    let rule = rule_of(job, a, b);
    put_cells(job, table, rule, a, b);
    if let Some(at) = rule {
        let from = get(job, at.wrapping_add(4));
        put_list(job, table, a, b, from, get(job, at.wrapping_add(3)));
    }
}

// The whole graph, over a table that is zero.
pub fn put_joined(job: &[usize], table: &mut [u8])
    ensures { length table.new ≡ length table.old }
{
    let k = get(job, K);
    if k == 0 {
        return;
    }
    for p in 0..times(k, k) {
        put_links(job, table, p / k, p % k);
    }
}
