// Places in a text.

/// A place in a text: its line and its column, both from 1, the column in bytes.
#[derive(Clone, Copy, Debug, PartialEq, Eq)]
pub struct Place {
    pub line: u64,
    pub column: u64,
}

/// A piece of a source text: its bytes `from..to` in the file of this number. Files are numbered
/// from 0 in the order in which they were loaded, and a query's text is file 0.
#[derive(Clone, Copy, Debug, PartialEq, Eq)]
pub struct Spot {
    pub file: u32,
    pub from: usize,
    pub to: usize,
    /// Where the piece begins.
    pub at: Place,
}
