// What is wanted of an export, and given to an import.

// The two texts of a graph: its edges, and the counts of its links.
#[derive(Clone, Copy)]
pub struct Texts<'a> {
    pub graph: &'a [u8],
    pub counts: &'a [u8],
}

pub const NO_TEXTS: Texts<'static> = Texts {
    graph: b"",
    counts: b"",
};
