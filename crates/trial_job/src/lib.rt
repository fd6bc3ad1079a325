// Jobs of the test program, written apart from the planner: a small job's graph, greedy classes, a brute-force solver,
// and jobs and class lists of a pseudo-random sequence. All of it works on plain numbers in tables, and on any numbers.
#![tactic(auto)]

mod adjacency;
mod brute;
mod classes;
mod lists;

pub use adjacency::{ZERO, fill, is_edge, layer, spare};
pub use brute::{best_plan, codes, keeps_rules, pick};
pub use classes::{fits_greedy, keeps_apart, none_empty, put_layers};
pub use lists::make_list;
pub use trial_draws::{make_channels, make_job};
