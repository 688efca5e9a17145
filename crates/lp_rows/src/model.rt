// Goals in one another, a million deep.

use lp_base::Memory;
use lp_model::Goal;
use lp_term::{TermId, TypeId};
use std::alloc::Global;

// As many `Some` in one another.
fn chain(alloc: Global, length: u64) -> Result<Goal, Memory> {
    let mut goal = Goal::Atom(TermId(0));
    for _ in 0..length {
        let mut goals = Vec::new(alloc);
        goals.push(Goal::Cut)?;
        goals.push(goal)?;
        goal = Goal::Some(TypeId(0), goals);
    }
    Ok(goal)
}

#[test]
fn long_chains_are_dropped(rt: HostRuntime) {
    let goal = chain(rt.alloc(), 1_000_000);
    assert!(&rt; goal.is_ok());
}
