// Jobs at the limits: each link has the frequencies 1, 2, ..; the rules are those of the first pairs of links, all of
// kind 3, and each lists the first pairs of places, until they are made rules of kind 1. So with a rule for every two
// links the first plan takes the first frequencies, which are equal, in k + 1 nodes. With frequencies of their own, no
// two equal, it does so with any rules of kind 3.
ghost use Rattle.std.specs.Prelude.{◌≡◌, length};

use trial_tables::kept::{FREQUENCIES, K, N, PLAN, Q, T, WIDTHS};
use trial_tables::{first, get, khz, put, put_link, put_pair, put_rule, rule_at};

// Part i of a total in equal parts, the first ones one larger where it does not come out even.
fn share(total: usize, parts: usize, i: usize) -> usize {
    if parts == 0 {
        return 0;
    }
    (total / parts).wrapping_add(usize::from(i < total % parts))
}

fn put_frequencies(job: &mut [usize], start: usize, m: usize) {
    for i in 0..m {
        put(job, FREQUENCIES.wrapping_add(start.wrapping_add(i)), i + 1);
    }
}

fn put_links(job: &mut [usize], k: usize, n: usize) {
    let mut start = 0;
    for l in 0..k {
        let m = share(n, k, l);
        put_link(job, l, start, m);
        put_frequencies(job, start, m);
        start = start.wrapping_add(m);
    }
}

// The first m pairs of places in dictionary order, as pairs `from` on.
fn put_pairs(job: &mut [usize], from: usize, m: usize, width: usize) {
    if width == 0 {
        return;
    }
    for p in 0..m {
        put_pair(job, from.wrapping_add(p), p / width, p % width);
    }
}

fn put_rules(job: &mut [usize], k: usize, q: usize, t: usize, width: usize) {
    let mut a = 0;
    let mut b = 1;
    let mut from = 0;
    for j in 0..q {
        let m = share(t, q, j);
        put_rule(job, j, a, b, 3, m, from);
        put_pairs(job, from, m, width);
        from = from.wrapping_add(m);
        let next = b.wrapping_add(1);
        (a, b) = if next < k {
            (a, next)
        } else {
            (a.wrapping_add(1), a.wrapping_add(2))
        };
    }
}

// The job of the counts that are kept.
pub fn make_even(job: &mut [usize])
    ensures { length job.new ≡ length job.old }
{
    let k = get(job, K);
    let n = get(job, N);
    put_links(job, k, n);
    put_rules(job, k, get(job, Q), get(job, T), share(n, k, k));
}

// Every vertex has its own frequency: 1 to n.
pub fn put_own(job: &mut [usize])
    ensures { length job.new ≡ length job.old }
{
    let n = get(job, N);
    for v in 0..n {
        put(job, FREQUENCIES.wrapping_add(v), v + 1);
    }
}

// Every rule becomes one of kind 1 with the same spacing.
pub fn put_gaps(job: &mut [usize], spacing: usize)
    ensures { length job.new ≡ length job.old }
{
    let q = get(job, Q);
    put(job, T, 0);
    for j in 0..q {
        put_gap(job, rule_at(j), spacing);
    }
}

fn put_gap(job: &mut [usize], at: usize, spacing: usize) {
    put(job, at.wrapping_add(2), 1);
    put(job, at.wrapping_add(3), 0);
    put(job, at.wrapping_add(4), spacing);
}

// Every link has the same width.
pub fn put_widths(job: &mut [usize], width: usize)
    ensures { length job.new ≡ length job.old }
{
    let k = get(job, K);
    for l in 0..k {
        put(job, WIDTHS.wrapping_add(l), width);
    }
}

// The plan wanted: the first frequencies of the first m links, and zeros after them.
pub fn want_firsts(job: &mut [usize], m: usize)
    ensures { length job.new ≡ length job.old }
{
    for l in 0..136 {
        let f = if l < m { khz(job, first(job, l)) } else { 0 };
        put(job, PLAN + l, f);
    }
}
