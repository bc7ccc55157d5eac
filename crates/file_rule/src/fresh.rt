//! What is drawn for files.

/// What may be drawn next: the next synthetic uid and the next number of a name; and how many data servers there are.
#[derive(Clone, Copy, Debug, PartialEq, Eq)]
pub struct Fresh {
    pub uid: u32,
    pub name: u64,
    pub servers: u32,
}
