// Facts and rules on constants and variables.

use crate::asking::check;
use lp_base::{Memory, Status};

#[test]
fn facts_and_rules(rt: HostRuntime) -> Result<(), Memory> {
    let alloc = rt.alloc();
    for (module, query, status, written) in [
        (
            "fam",
            "anc ann X",
            Status::Done,
            "answer 1\n  X = bob\nanswer 2\n  X = cal\nno more answers\n",
        ),
        (
            "fam",
            "anc X Y",
            Status::Done,
            "answer 1\n  X = ann\n  Y = bob\nanswer 2\n  X = bob\n  Y = cal\nanswer 3\n  X = ann\n  Y = cal\nno more answers\n",
        ),
        ("fam", "anc X ann", Status::Done, "no more answers\n"),
        (
            "fam",
            "any X, any Y",
            Status::Done,
            "answer 1\n  X = _1\n  Y = _2\nno more answers\n",
        ),
        (
            "fam",
            "any X, par X Y, any Z",
            Status::Done,
            "answer 1\n  X = ann\n  Y = bob\n  Z = _1\nanswer 2\n  X = bob\n  Y = cal\n  Z = _1\nno more answers\n",
        ),
        ("fam", "par X X", Status::Done, "no more answers\n"),
        ("loop", "r", Status::Steps, "stopped: steps\n"),
        ("loop", "q, q.", Status::Done, "answer 1\nno more answers\n"),
    ] {
        check(&rt, alloc, module, query, status, written)?;
    }
    Ok(())
}
