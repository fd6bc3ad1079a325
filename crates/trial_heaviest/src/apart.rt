// The heaviest job, formed apart from the planner: a rule of kind 3 for each link with the last one.
ghost use Rattle.std.specs.Prelude.{◌≡◌, length};

use trial_parts::kept::{FESTIVAL, K, N, ON_AIR, Q, T, WIDE};
use trial_parts::{put, put_link, put_own, put_pair, put_rule, times};

fn put_links(job: &mut [usize], k: usize, m: usize) {
    for l in 0..k {
        put_link(job, l, times(l, m), m);
    }
}

// Each place with the first place of the last link, as pairs `from` on.
fn put_firsts(job: &mut [usize], from: usize, m: usize) {
    for i in 0..m {
        put_pair(job, from.wrapping_add(i), i, 0);
    }
}

// The rule of link l: the last places go together; and, unless it is the link before the last, each place goes with the
// first place of the last link.
fn put_own_rule(job: &mut [usize], k: usize, m: usize, l: usize) {
    let from = times(l, m.wrapping_add(1));
    let firsts = if l.wrapping_add(2) == k { 0 } else { m };
    put_rule(
        job,
        l,
        l,
        k.saturating_sub(1),
        3,
        firsts.wrapping_add(1),
        from,
    );
    put_firsts(job, from, firsts);
    put_pair(
        job,
        from.wrapping_add(firsts),
        m.saturating_sub(1),
        m.saturating_sub(1),
    );
}

fn put_rules(job: &mut [usize], k: usize, m: usize, q: usize) {
    for l in 0..q {
        put_own_rule(job, k, m, l);
    }
}

fn put_counts(job: &mut [usize], k: usize, n: usize, q: usize, t: usize)
    ensures { length job.new ≡ length job.old }
{
    put(job, K, k);
    put(job, N, n);
    put(job, Q, q);
    put(job, T, t);
}

// A sheet of form 1, and no channel on air.
fn put_plain(job: &mut [usize])
    ensures { length job.new ≡ length job.old }
{
    put(job, WIDE, 0);
    put(job, FESTIVAL, 0);
    put(job, ON_AIR, 0);
}

// The job of k links with m frequencies each: 1, 2, .., no two equal. Links of one frequency need no rule.
pub fn make_heaviest(job: &mut [usize], k: usize, m: usize)
    ensures { length job.new ≡ length job.old }
{
    let q = if m < 2 { 0 } else { k.saturating_sub(1) };
    let t = if q == 0 {
        0
    } else {
        times(k.saturating_sub(2), m.wrapping_add(1)).wrapping_add(1)
    };
    put_plain(job);
    put_counts(job, k, times(k, m), q, t);
    put_links(job, k, m);
    put_own(job);
    put_rules(job, k, m, q);
}
