// The job whose sheet import is to give of a graph: every vertex has its own number as frequency, links joined by some
// pairs have a rule of kind 3, those joined by none one of kind 1, and those joined by all none.
ghost use Rattle.std.specs.Prelude.{◌≡◌, length};

use crate::joined::cell;
use trial_parts::kept::{K, N, T};
use trial_parts::{add_pair, add_rule, count, first, get, put, put_link, put_own, times};

// The links, as they are.
fn put_links(job: &[usize], back: &mut [usize]) {
    let k = get(job, K);
    put(back, K, k);
    put(back, N, get(job, N));
    for l in 0..k {
        put_link(back, l, first(job, l), count(job, l));
    }
}

// Whether place i of link a and place j of link b are joined.
fn is_joint(job: &[usize], table: &[u8], a: usize, b: usize, i: usize, j: usize) -> bool {
    let u = first(job, a).wrapping_add(i);
    let v = first(job, b).wrapping_add(j);
    get(table, cell(job, u, v)) != 0
}

// Lists the pairs of links a and b that are joined, in dictionary order. Gives how many.
fn add_pairs(job: &[usize], table: &[u8], back: &mut [usize], a: usize, b: usize) -> usize {
    let width = count(job, b);
    if width == 0 {
        return 0;
    }
    let mut m = 0;
    for x in 0..times(count(job, a), width) {
        let (i, j) = (x / width, x % width);
        if is_joint(job, table, a, b, i, j) {
            add_pair(back, i, j);
            m += 1;
        }
    }
    m
}

// The rule of links a and b, if a < b. Where all are joined the pairs listed are taken back.
fn put_links_rule(job: &[usize], table: &[u8], back: &mut [usize], a: usize, b: usize) {
    if b <= a {
        return;
    }
    let from = get(back, T);
    let m = add_pairs(job, table, back, a, b);
    if m == 0 {
        add_rule(back, a, b, 1, 0, 9999999);
    } else if m == times(count(job, a), count(job, b)) {
        put(back, T, from);
    } else {
        add_rule(back, a, b, 3, m, from);
    }
}

fn put_rules(job: &[usize], table: &[u8], back: &mut [usize]) {
    let k = get(job, K);
    if k == 0 {
        return;
    }
    for p in 0..times(k, k) {
        put_links_rule(job, table, back, p / k, p % k);
    }
}

// The job that comes back, over a table that is zero. Of more pairs than fit only the number is kept.
pub fn put_back(job: &[usize], table: &[u8], back: &mut [usize])
    ensures { length back.new ≡ length back.old }
{
    put_links(job, back);
    put_own(back);
    put_rules(job, table, back);
}
