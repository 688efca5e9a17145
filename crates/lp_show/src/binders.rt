ghost use Rattle.std.specs.Prelude.{◌≡◌, ◌++◌, IfOk, OnOk};
ghost use Rattle.lp_model.specs.Shown.{binder_name, binder_number};
ghost use Rattle.lp_show.specs.Named.{all, AreBinders, IsReady};

use crate::leaves::push_number;
use crate::names::Names;
use lp_base::Memory;

/// The number in the name of the binder under so many others. The numbers so far, from the outside, are kept.
fn binder(names: &Names<'_>, binders: &mut Vec<u64>, depth: u64) -> Result<u64, Memory>
    requires ready { IsReady names.now }
    requires binders { AreBinders (all names.now) binders.old.items }
    ensures number { IfOk result (λ number. number ≡ binder_number (all names.now) depth) }
    ensures binders { OnOk result (AreBinders (all names.now) binders.new.items) }
{
    'names: while binders.len() as u64 <= depth {
        let from = match binders.last() {
            None => 1,
            Some(last) => last.checked_add(1).ok_or(Memory)?,
        };
        let number = names.next_free(from)?;
        binders.push(number)?;
    }
    Ok(binders[depth as usize])
}

/// Writes the name of the binder under so many others.
pub(crate) fn push_binder(
    names: &Names<'_>,
    binders: &mut Vec<u64>,
    depth: u64,
    out: &mut Vec<u8>,
) -> Result<(), Memory>
    requires ready { IsReady names.now }
    requires binders { AreBinders (all names.now) binders.old.items }
    ensures text { OnOk result (out.new.items ≡ out.old.items ++ binder_name (all names.now) depth) }
    ensures binders { OnOk result (AreBinders (all names.now) binders.new.items) }
{
    let number = binder(names, binders, depth)?;
    out.extend_from_slice(b"x")?;
    push_number(number, out)
}
