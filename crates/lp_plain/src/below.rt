// Terms below binders.

/// A term by its number, below so many binders.
#[derive(PartialEq, Eq, Hash, Drop)]
pub(crate) struct Below {
    pub(crate) term: usize,
    pub(crate) depth: u64,
}
