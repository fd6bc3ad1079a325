// What is counted in the table that the test program keeps: exports and imports since the last line printed.
pub const EXPORTS: usize = 15;

pub const IMPORTS: usize = 16;
