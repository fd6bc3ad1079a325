// The rule section and the pair section of a job sheet.
// The contracts cite `Rules`, what their rows have to say.
#![tactic(auto)]

mod pair_rows;
mod rule_rows;

pub use pair_rows::pairs;
pub use rule_rows::{comes_before, rules};

// The largest number of kHz, of a frequency and of a rule.
pub const MOST_KHZ: usize = 9999999;
