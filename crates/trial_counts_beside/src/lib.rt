// Jobs of the test program of the counts, under every filter number and choice, beside plans counted apart and beside
// planning: a job of the input, and small jobs of a pseudo-random sequence.
#![tactic(auto)]

mod settings;
mod small;

pub use small::{PLANS_SUM, beside_apart, small_jobs};
