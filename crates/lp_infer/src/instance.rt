// Instances of declared types, in the bank in which a text is typed.
ghost use Rattle.std.specs.Prelude.{◌≡◌, ◌<◌, length, IfOk};
ghost use Rattle.lp_calculus.specs.Types.{instance as put_in};
ghost use Rattle.lp_calculus.specs.Typing.{type_at};
ghost use Rattle.lp_term.specs.Nodes.{Extends, type_tree};
ghost use Rattle.lp_term.specs.Within.{AreTypesOf};
ghost use Rattle.lp_infer.specs.Copies.{trees_of, by_arguments, IsType};

use lp_base::Memory;
use lp_term::{Bank, Changed, Mapping, TermChange, TypeChange, TypeId, put_constructor};
use std::alloc::Global;

// Types for the type variables of a declared type; the other one for a variable that is not declared.
#[derive(Clone, Copy)]
struct TypeArguments<'a> {
    args: &'a [TypeId],
    other: TypeId,
}

impl Mapping for TypeArguments<'_> {
    ghost told = { by_arguments };

    fn kind(&self, kind: u32) -> u32 {
        kind
    }

    fn constant(&self, constant: u32) -> u32 {
        constant
    }

    fn type_variable(&self, variable: u64) -> TypeChange {
        match self.args.get(variable as usize) {
            Some(id) => TypeChange::Is(*id),
            None => TypeChange::Is(self.other),
        }
    }

    fn logic_variable(&self, _variable: u64) -> TermChange {
        TermChange::Stays
    }
}

// A type of one bank, with types of another for its variables.
pub(crate) fn instance(
    alloc: Global,
    from: &Bank,
    body: TypeId,
    args: &[TypeId],
    to: &mut Bank,
) -> Result<TypeId, Memory>
    ensures kept { Extends to.old to.new }
    ensures tree { AreTypesOf to.old args.now → IfOk result (λ id. IsType to.new id (put_in (type_at (trees_of to.old args.now)) (type_tree from.now body.0))) }
{
    let other = put_constructor(to, 0, &[])?;
    let arguments = TypeArguments { args, other };
    Changed::new(alloc).copy_type(alloc, &arguments, from, body, to)
}
