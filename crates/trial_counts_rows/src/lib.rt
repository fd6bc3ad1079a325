// Rows of the test program of the counts on a job's sheet: what the counting call gives is printed, or compared.
#![tactic(auto)]

mod on_sheet;

pub use on_sheet::row_on_sheet;
