// Equations of types within a limit, and without one.

use lp_base::Memory;
use lp_term::{Bank, TypeNode};
use lp_type_unify::{Bindings, EquationRefusal, Pair, unify, unify_within};
use std::alloc::Global;

// What `variable = p X0 X0` comes to within a limit, and without one.
fn outcome(
    alloc: Global,
    variable: u64,
    limit: u64,
) -> Result<(Result<u64, EquationRefusal>, bool), Memory> {
    let mut bank = Bank::new(alloc);
    let part = bank.put_type(TypeNode::Var(0))?;
    let left = bank.put_type(TypeNode::Var(variable))?;
    let right = bank.put_type(TypeNode::Con(8, &[part, part]))?;
    let mut bindings = Bindings::new(alloc);
    let within = unify_within(alloc, &bank, &mut bindings, &[Pair { left, right }], limit);
    let found = unify(alloc, &bank, &[Pair { left, right }])?;
    Ok((within, found.is_some()))
}

// A unit for the pair, and one for each node up to the first occurrence.
#[test]
fn counts_units(rt: HostRuntime) {
    for (variable, limit, want, found) in [
        (1, 10, Ok(6), true),
        (1, 4, Ok(0), true),
        (1, 3, Err(EquationRefusal::Deep), true),
        (0, 3, Err(EquationRefusal::Fails), false),
        (0, 2, Err(EquationRefusal::Deep), false),
    ] {
        let got = outcome(rt.alloc(), variable, limit);
        assert!(rt; got == Ok((want, found)), "X{variable} within {limit}");
    }
}
