// What one rule row leaves in the adjacency rows of its links, and stretches of vertices in a row.
// The contracts cite specs/Strikes.antt.
#![tactic(auto)]

mod span;
mod strike;

pub use span::{add_span, take_span};
pub use strike::{rule_side, side_of};

// One side of a rule row: its kind, value and count; the widths of its links together; the vertices of one of its
// links, from `from` up to `upto`, whose rows it changes; and those of its other link, from `first` up to `end`, of
// which it leaves there what it allows. `turned` where the other link is the lower one.
#[derive(Clone, Copy)]
pub struct Side {
    // a number, as the sheet has it and the spacing's laws read it
    pub kind: usize,
    pub value: usize,
    pub count: usize,
    pub widths: usize,
    pub turned: bool,
    pub from: usize,
    pub upto: usize,
    pub first: usize,
    pub end: usize,
}
