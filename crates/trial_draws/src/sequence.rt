// The fixed pseudo-random sequence.
ghost use Rattle.std.specs.Prelude.{◌≡◌, ◌-◌, ◌≤◌, length};

use trial_tables::kept::{SEED, STEP};
use trial_tables::{after, get, put, times};

// The next number of the sequence, below m, or 0 where m is 0.
pub fn draw(kept: &mut [usize], m: usize) -> usize
    ensures kept { length kept.new ≡ length kept.old }
    ensures below { result ≤ m - 1 }
{
    let x = after(get(kept, SEED));
    put(kept, SEED, x);
    if m == 0 { 0 } else { x / 64 % m }
}

// One to m steps, in kHz.
pub fn draw_steps(kept: &mut [usize], m: usize) -> usize {
    let d = draw(kept, m);
    times(get(kept, STEP).wrapping_add(1), d + 1)
}
