// A graph whose vertices are parted into classes: live sets, cliques, and how a k-clique is listed by class and by
// layer. Definitions and their laws; the graph of a sheet is one of these graphs. And `Place`, where a graph stands in
// the work words.
#![tactic(auto)]

// Where the rows lie in a part of the work words: a row is w words; the masks of the k classes stand from `masks` on,
// the rows of the n vertices from `graph` on.
#[derive(Clone, Copy)]
pub struct Place {
    pub w: usize,
    pub masks: usize,
    pub graph: usize,
    pub n: usize,
    pub k: usize,
}
