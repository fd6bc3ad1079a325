// Calls of counting beside what is wanted of them: the answer, the nodes, the plan, and the plans left for each vertex.
#![tactic(auto)]

mod calls;
mod held;

pub use calls::{AGREED, ANY, DIFFERED, LEAST, MOST, WHERE, ask_counts, ask_plan, counts_in};
pub use held::are_zero;
