// The way back of the test program of the texts: the import of a sheet's texts, the same texts again, and the runs of
// both sheets. A difference is printed.
#![tactic(auto)]

mod back;
mod runs;

pub use back::{CAUSE, comes_back};
pub use runs::is_accepted;
