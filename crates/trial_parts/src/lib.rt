// Parts of the test program: the words and numbers of the input, the jobs that its rows say, jobs at the limits, and
// all of `trial_tables`.
#![tactic(auto)]

mod even;
mod input;
mod reading;

pub use even::{put_own, want_firsts};
pub use input::{EQUALS, SKIP, line_end, next, next_run, read};
pub use reading::reads_job;
pub use trial_tables::{
    Cell, add_pair, add_rule, after, copy_cells, count, encode, first, first_bytes, get, kept, khz,
    more, narrow, put, put_bytes, put_half, put_link, put_pair, put_rule, put_word, rule_at,
    rule_of, times, widths,
};
