// The brackets that are open, by the numbers of their tokens, innermost last.
ghost use Rattle.std.specs.Prelude.{◌≡◌, IfOk};
ghost use Rattle.lp_syntax.specs.Tokens.{open_behind};
ghost use Rattle.lp_syntax.specs.Faults.{innermost};

use crate::class::Class;
use std::alloc::AllocError;

/// Takes a token of this class and number.
pub fn follow(opens: &mut Vec<usize>, class: Class, at: usize) -> Result<(), AllocError>
    ensures { IfOk result (λ _. opens.new.items ≡ open_behind at class opens.old.items) }
{
    match class {
        Class::Open => opens.push(at)?,
        Class::OpenList => opens.push(at)?,
        Class::Close => {
            opens.pop();
        }
        Class::CloseList => {
            opens.pop();
        }
        _ => {}
    }
    Ok(())
}

/// The innermost one.
pub fn innermost(opens: &Vec<usize>) -> Option<usize>
    ensures { result ≡ innermost opens.now.items }
{
    opens.last().copied()
}
