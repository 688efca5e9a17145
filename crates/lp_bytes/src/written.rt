// What has been written.
ghost use Rattle.std.specs.Prelude.{◌≤◌, length};

/// The bytes so far, as long as there are at most 16 MiB; or that there would be more.
#[derive(Drop)]
pub struct Writer {
    pub(crate) bytes: Vec<u8>,
    pub(crate) full: bool,
    ghost few: { length bytes.items ≤ 16777216 },
}
