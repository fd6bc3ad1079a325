// Of a small job, apart from the planner, by trying every assignment: its plans, those with each vertex, and the nodes
// of the longer tree without a filter.
#![tactic(auto)]

mod plans;
mod tree;

pub use plans::{LEFT, PLANS, count_apart};
pub use tree::nodes_apart;
