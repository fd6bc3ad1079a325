// Small jobs from a fixed pseudo-random sequence.
ghost use Rattle.std.specs.Prelude.{◌≡◌, length};

use crate::sequence::{draw, draw_steps};
use trial_tables::kept::{BELOW, FESTIVAL, FREQUENCIES, K, N, Q, T, WIDE, WIDTHS};
use trial_tables::{add_pair, add_rule, count, get, put, put_link, times};

// One link of one to four frequencies, each one to four steps above the one before.
fn make_link(job: &mut [usize], l: usize) {
    let m = draw(job, 4) + 1;
    let n = get(job, N);
    put_link(job, l, n, m);
    put(job, N, n.wrapping_add(m));
    let mut f = get(job, BELOW);
    for i in 0..m {
        f = f.wrapping_add(draw_steps(job, 4));
        put(job, FREQUENCIES.wrapping_add(n.wrapping_add(i)), f);
    }
}

// One to five links, two to four mostly.
fn make_links(job: &mut [usize]) {
    let k = draw(job, 3) + draw(job, 3) + 1;
    put(job, K, k);
    put(job, N, 0);
    for l in 0..k {
        make_link(job, l);
    }
}

// The form: in about half the jobs each link has a width, of one to four steps.
fn make_widths(job: &mut [usize]) {
    let wide = draw(job, 2);
    put(job, WIDE, wide);
    let m = times(wide, get(job, K));
    for l in 0..m {
        let w = draw_steps(job, 4);
        put(job, WIDTHS.wrapping_add(l), w);
    }
}

// Lists the pair of places i and j of links a and b, if both are in the lists, with a chance of `chance` in eight.
fn make_pair(job: &mut [usize], a: usize, b: usize, i: usize, j: usize, chance: usize) {
    if i < count(job, a) && j < count(job, b) && draw(job, 8) < chance {
        add_pair(job, i, j);
    }
}

// Lists some of the pairs of links a and b.
fn make_pairs(job: &mut [usize], a: usize, b: usize, chance: usize) {
    for x in 0..16 {
        make_pair(job, a, b, x / 4, x % 4, chance);
    }
}

// The rule of links a < b: none, of kind 1, of kind 2, or mostly of kind 3.
fn make_rule(job: &mut [usize], a: usize, b: usize) {
    if b <= a || get(job, K) <= b {
        return;
    }
    match draw(job, 10) {
        0 => {}
        1..=3 => {
            let value = draw_steps(job, 5);
            add_rule(job, a, b, 1, 0, value);
        }
        4..=5 => {
            let value = draw_steps(job, 4);
            add_rule(job, a, b, 2, 0, value);
        }
        _ => make_listed(job, a, b),
    }
}

// The rule of kind 3 of links a < b, if it lists a pair.
fn make_listed(job: &mut [usize], a: usize, b: usize) {
    let from = get(job, T);
    let chance = draw(job, 4) + 3;
    make_pairs(job, a, b, chance);
    let m = get(job, T).saturating_sub(from);
    if m != 0 {
        add_rule(job, a, b, 3, m, from);
    }
}

// Every rule: p runs over eight links by eight.
fn make_rules(job: &mut [usize]) {
    put(job, Q, 0);
    put(job, T, 0);
    for p in 0..64 {
        make_rule(job, p / 8, p % 8);
    }
}

// The next job of the sequence.
pub fn make_job(job: &mut [usize])
    ensures { length job.new ≡ length job.old }
{
    put(job, FESTIVAL, 0);
    make_links(job);
    make_widths(job);
    make_rules(job);
}
