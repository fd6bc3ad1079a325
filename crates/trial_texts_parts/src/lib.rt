// Parts of the test program of the texts, written apart from export and import: a job's graph as a table, the two
// texts that are wanted of it, the job whose sheet import is to give back, texts of the rows, and the comparison of
// bytes. All of it works on any numbers.
#![tactic(auto)]

mod back;
mod joined;
mod matching;
mod row_texts;
mod texts;

pub use back::put_back;
pub use joined::put_joined;
pub use matching::{fill_bytes, first_difference};
pub use row_texts::{put_equal_counts, put_quoted};
pub use texts::{put_count_text, put_graph_text, put_head};
