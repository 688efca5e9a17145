// Unification from nothing and under bindings, and what a type comes to by it.

use lp_model::Pair;
use lp_pattern::{Bindings, PatternRefusal, filled_type, solve, solve_under};
use lp_term::{
    Bank, TypeId, TypeNode, put_constant, put_constructor, put_logic, put_type_variable,
};
use std::alloc::Global;

// Equates a variable with a constant, from nothing. Tells the number of pairs that are left, and of variables that are bound.
fn solved(alloc: Global) -> Result<(usize, usize), PatternRefusal> {
    let mut bank = Bank::new(alloc);
    let left = put_logic(&mut bank, 0, 0)?;
    let right = put_constant(&mut bank, 32, &[])?;
    let pairs = [Pair {
        left,
        right,
        level: 0,
    }];
    let mut next = 1;
    let found = solve(alloc, &mut bank, &[], &pairs, &[], &mut next, 100)?;
    Ok((found.residual.len(), found.bindings.len()))
}

// Whether the type is a list of these.
fn is_list(bank: &Bank, list: TypeId, of: TypeId) -> bool {
    match bank.type_node(list) {
        TypeNode::Con(3, [part]) => *part == of,
        _ => false,
    }
}

// Equates a type variable with `int`, under bindings. Tells whether a list over the variable comes to one over `int`.
fn typed(alloc: Global) -> Result<bool, PatternRefusal> {
    let mut bank = Bank::new(alloc);
    let of = put_type_variable(&mut bank, 0)?;
    let int = put_constructor(&mut bank, 1, &[])?;
    let list = put_constructor(&mut bank, 3, &[of])?;
    let mut bindings = Bindings::new(alloc);
    let mut next = 1;
    solve_under(
        alloc,
        &mut bank,
        &mut bindings,
        &[(of, int)],
        &[],
        &[],
        &mut next,
        100,
    )?;
    let filled = filled_type(alloc, &mut bank, &bindings, list)?;
    Ok(is_list(&bank, filled, int))
}

#[test]
fn equations_are_solved(rt: HostRuntime) {
    let pairs = solved(rt.alloc());
    assert!(rt; pairs == Ok((0, 1)));
    let types = typed(rt.alloc());
    assert!(rt; types == Ok(true));
}
