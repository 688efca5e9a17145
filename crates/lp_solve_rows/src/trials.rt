// Generated queries.

use crate::asking::generated;
use lp_base::Memory;

#[test]
fn trials_take_so_many_steps(rt: HostRuntime) -> Result<(), Memory> {
    let alloc = rt.alloc();
    for (size, written) in [
        (1, "trial 1\nsteps 3\nanswers 1\nno more answers\n"),
        (2, "trial 2\nsteps 5\nanswers 1\nno more answers\n"),
        (3, "trial 3\nsteps 6\nanswers 1\nno more answers\n"),
        (50, "trial 50\nsteps 77\nanswers 1\nno more answers\n"),
        (200, "trial 200\nsteps 302\nanswers 1\nno more answers\n"),
        (400, "trial 400\nsteps 602\nanswers 1\nno more answers\n"),
    ] {
        generated(&rt, alloc, size, written)?;
    }
    Ok(())
}
