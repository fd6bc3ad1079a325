// The rows of the test program with a heaviest job: the call that writes it beside the sheet formed apart.
#![tactic(auto)]

mod apart;
mod calls;

pub use calls::{HEAVIEST, heaviest_row};
