// An accepted sheet's sections and layers, and the pair test of two of its vertices.
// The contracts cite `Layers`, `Parts`, `Pairs` and `Asked`.
#![tactic(auto)]

mod layers;
mod lists;
mod pairs;
mod parts;
mod seek;

pub use layers::layer;
pub use pairs::{spare, spare_at};
pub use parts::freq_part;
pub use seek::seek_rule;
