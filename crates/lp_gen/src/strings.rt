// Strings as instructions have them.
ghost use Rattle.std.specs.Prelude.{◌≡◌, length, min, true, nat_lt, IfOk};

use lp_base::{MAX_TEXT_BYTES, Memory};
use std::alloc::Global;

/// The string as an instruction has it: none that is longer comes here.
pub(crate) fn string_of(alloc: Global, bytes: &[u8]) -> Result<Vec<u8>, Memory>
    ensures short { IfOk result (λ text. nat_lt (length text.items) 65536 ≡ true) }
    ensures count { IfOk result (λ text. length text.items ≡ min (length bytes.now) 65535) }
    ensures whole { IfOk result (λ text. nat_lt (length bytes.now) 65536 ≡ true → text.items ≡ bytes.now) }
{
    let mut text = Vec::from_slice(alloc, bytes)?;
    text.truncate(MAX_TEXT_BYTES as usize);
    Ok(text)
}
