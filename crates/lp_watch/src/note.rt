// The notes of a search, and what a watcher answers to one.

/// What a search tells its watchers.
#[derive(Clone, Copy, Debug, PartialEq, Eq)]
pub enum Note<'a> {
    /// A goal is taken up, whose head has this name.
    Goal(&'a [u8]),
    /// The search goes back to an alternative.
    Back,
    /// The answer of this number was found, counted from 1.
    Answer(u64),
    /// A cut is carried out.
    Cut,
}

/// Whether a watcher takes more notes.
#[derive(Clone, Copy, Debug, PartialEq, Eq)]
pub enum Go {
    On,
    Done,
}
