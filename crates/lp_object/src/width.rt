// How wide numbers of constants and kinds are.

/// The bytes of a constant's or a kind's number: two in an object and in an image of version 1, four in an image of version 2.
#[derive(Clone, Copy, Debug, PartialEq, Eq)]
pub(crate) enum Width {
    Two,
    Four,
}
