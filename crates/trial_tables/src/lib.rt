// Tables of the test program: reads, writes and sums at any place and of any numbers, the fields of a job in a table,
// and the sheet that says them.
#![tactic(auto)]

mod cell;
mod job;
pub mod kept;
mod parts;

pub use cell::{Cell, copy_cells, get, put};
pub use job::{
    add_pair, add_rule, count, encode, first, khz, put_link, put_pair, put_rule, rule_at, rule_of,
    widths,
};
pub use parts::{after, first_bytes, more, narrow, put_bytes, put_half, put_word, times};
