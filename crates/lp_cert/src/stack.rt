// Stacks, of which the last one comes first.
ghost use Rattle.std.specs.Prelude.{◌≡◌, ◌++◌, reverse, OnOk};

use lp_base::Memory;
use std::alloc::Global;

// The items are put on the stack, the first one last.
pub(crate) fn push_last_first<T: Copy>(
    alloc: Global,
    stack: &mut Vec<T>,
    items: &[T],
) -> Result<(), Memory>
    ensures { OnOk result (stack.new.items ≡ stack.old.items ++ reverse items.now) }
{
    let mut last_first = Vec::from_slice(alloc, items)?;
    last_first.reverse();
    stack.extend_from_slice(last_first.as_slice())?;
    Ok(())
}
