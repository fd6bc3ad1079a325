// Calls of the test program: the planner and the plan check beside what is wanted of them, one by one and under every
// filter number. A difference is printed.
#![tactic(auto)]

mod calls;
mod trees;

pub use calls::{ACCEPTED, ANY, checks, plans, plans_in, want};
pub use trees::{MOST, under_filters};
