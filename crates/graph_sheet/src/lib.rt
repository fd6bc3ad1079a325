// The sheet of a graph that is kept in words: the counts of its links, and the codes of its edges.
// The contracts cite `Made` of the crate `dimacs`: `rule_total`, `pair_total` and `sheet_of`.
#![tactic(auto)]

mod joins;
mod marks;
mod sections;

pub use joins::Totals;
pub use marks::count_rules;
pub use sections::put_sheet;
