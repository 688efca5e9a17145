// Where the numbers of names end.

/// Where the numbers of the kinds and the constants of a program end, as those of an image: each is below this. (Those of one module are below lp_base's
/// `END_OF_NUMBERS`.)
pub const END_OF_IMAGE_NUMBERS: u32 = 1_048_576;
