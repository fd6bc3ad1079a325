// Sheets of the test program beside the brute-force solver: a job's sheet under every filter number and choice, and so
// many small jobs. A difference is printed.
#![tactic(auto)]

mod choices;
mod small;

pub use choices::beside;
pub use small::small_sheets;
