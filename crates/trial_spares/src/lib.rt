// The call for a rack display beside what the test program computes: the answer and the table, with enough places and
// too few, with a cell that is not in its list, and where it is refused. A difference is printed.
#![tactic(auto)]

mod calls;
mod display;
mod places;
mod report;

pub use calls::shows;
pub use display::display_row;
