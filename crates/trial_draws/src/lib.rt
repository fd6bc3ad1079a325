// Jobs of the test program from a fixed pseudo-random sequence.
#![tactic(auto)]

mod making;
mod on_air;
mod sequence;

pub use making::make_job;
pub use on_air::make_channels;
pub use sequence::draw;
