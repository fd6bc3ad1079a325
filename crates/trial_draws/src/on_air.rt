// Channels on air from the sequence.
ghost use Rattle.std.specs.Prelude.{◌≡◌, length};

use crate::sequence::draw;
use trial_tables::kept::{BELOW, CHANNELS, ON_AIR, STEP};
use trial_tables::{get, put};

// Puts a channel on air with a chance of `chance` in eight.
fn make_channel(job: &mut [usize], c: usize, chance: usize) {
    if draw(job, 8) < chance {
        let m = get(job, ON_AIR);
        put(job, CHANNELS.wrapping_add(m), c);
        put(job, ON_AIR, m.wrapping_add(1));
    }
}

fn put_on_air(job: &mut [usize], chance: usize) {
    for c in 21..49 {
        make_channel(job, c, chance);
    }
}

// The frequencies of the next job: so many steps above `below`.
fn space(job: &mut [usize], below: usize, step: usize) {
    put(job, BELOW, below);
    put(job, STEP, step.saturating_sub(1));
}

// The channels of the next job: about half the jobs have some. Then a step is half a channel, so that a frequency is
// the lowest of a channel or its middle; or one kHz lower, the highest of a channel or below its middle.
pub fn make_channels(job: &mut [usize])
    ensures { length job.new ≡ length job.old }
{
    put(job, ON_AIR, 0);
    space(job, 0, 1);
    if draw(job, 2) == 0 {
        return;
    }
    let lower = draw(job, 2);
    space(job, 466000 - lower, 4000);
    let chance = draw(job, 4) + 1;
    put_on_air(job, chance);
}
