// Ways of the test program of the texts: a job's sheet to its texts and back, with the runs of both sheets; small jobs
// of a pseudo-random sequence so; and texts that are given. A difference is printed.
#![tactic(auto)]

mod given;
mod there;

pub use given::gives;
pub use there::{comes_there, small_sheets};
