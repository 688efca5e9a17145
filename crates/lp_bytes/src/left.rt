// What is left to read.
ghost use Rattle.std.specs.Prelude.{◌+◌, ◌≤◌, ◌^◌, length};

/// The bytes that are left, and the offset of the first of them.
#[derive(Clone, Copy)]
pub struct Reader<'a> {
    pub(crate) rest: &'a [u8],
    pub(crate) at: u64,
    ghost few: { at + length rest.now ≤ 2 ^ 62 },
}
