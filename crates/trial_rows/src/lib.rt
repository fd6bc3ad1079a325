// Rows of the test program on a job's sheet: calls of the planner, of the check and for a rack display, and
// the sheet beside the brute-force solver.
#![tactic(auto)]

mod lines;

pub use lines::row_on_sheet;
