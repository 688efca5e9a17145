// Queries and their answers.

use crate::asking::{check, within};
use lp_base::{Memory, Status};
use lp_given::FILES;

#[test]
fn queries_are_answered(rt: HostRuntime) -> Result<(), Memory> {
    let alloc = rt.alloc();
    for (module, query, status, written) in [
        (
            "fam",
            "anc ann X",
            Status::Done,
            "answer 1\n  X = bob\nanswer 2\n  X = cal\nno more answers\n",
        ),
        ("fam", "anc X ann", Status::Done, "no more answers\n"),
        (
            "fam",
            "any Y.",
            Status::Done,
            "answer 1\n  Y = _1\nno more answers\n",
        ),
        ("loop", "r", Status::Steps, "stopped: steps\n"),
        ("loop", "q, q", Status::Done, "answer 1\nno more answers\n"),
        (
            "lists",
            "append (1 :: nil) (2 :: nil) X",
            Status::Done,
            "answer 1\n  X = 1 :: 2 :: nil\nno more answers\n",
        ),
        (
            "lists",
            "append X Y (1 :: nil)",
            Status::Done,
            "answer 1\n  X = nil\n  Y = 1 :: nil\nanswer 2\n  X = 1 :: nil\n  Y = nil\nno more answers\n",
        ),
        ("e", "true", Status::Done, "answer 1\nno more answers\n"),
        (
            "hyp",
            "pi x\\ (q x => q x)",
            Status::Done,
            "answer 1\nno more answers\n",
        ),
        ("e", "pi x\\ (X = x)", Status::Done, "no more answers\n"),
        (
            "fun",
            "pi x\\ (F x = f x x)",
            Status::Done,
            "answer 1\n  F = x1\\ f x1 x1\nno more answers\n",
        ),
        (
            "e",
            "pi x\\ pi y\\ (F x y = G y x)",
            Status::Done,
            "answer 1\n  F = x1\\ x2\\ _1 x2 x1\n  G = _1\nno more answers\n",
        ),
        (
            "fun",
            "F a = a",
            Status::Done,
            "answer 1\n  F = _1\n  where _1 a == a\nno more answers\n",
        ),
        ("fun", "X = f X a", Status::Done, "no more answers\n"),
        (
            "stlc",
            "of (abs x\\ x) T",
            Status::Done,
            "answer 1\n  T = arr _1 _1\nno more answers\n",
        ),
        (
            "stlc",
            "of (abs x\\ app x x) T",
            Status::Done,
            "no more answers\n",
        ),
        (
            "poly",
            "ints X, tag X S",
            Status::Done,
            "answer 1\n  X = nil\n  S = \"ints\"\nno more answers\n",
        ),
        (
            "fun",
            "(pi x\\ F x = x), (pi y\\ G y = f y y)",
            Status::Done,
            "answer 1\n  F = x1\\ x1\n  G = x1\\ f x1 x1\nno more answers\n",
        ),
        (
            "m",
            "geta X, getb Y",
            Status::Done,
            "answer 1\n  X = k$1\n  Y = k$2\nno more answers\n",
        ),
        ("m", "geta X, getb X", Status::Done, "no more answers\n"),
        (
            "once",
            "one X",
            Status::Done,
            "answer 1\n  X = a\nno more answers; some were cut away\n",
        ),
        ("once", "one b", Status::Done, "answer 1\nno more answers\n"),
        (
            "e",
            "X is 9223372036854775807 + 1",
            Status::Arithmetic,
            "stopped: arithmetic: overflow\n",
        ),
        (
            "e",
            "X is 1 div 0",
            Status::Arithmetic,
            "stopped: arithmetic: zero divisor\n",
        ),
        (
            "e",
            "X is Y + 1",
            Status::Arithmetic,
            "stopped: arithmetic: not closed\n",
        ),
        (
            "e",
            "X is ~ 7 div 2, Y is ~ 7 mod 2, S is \"ab\" ^ \"c\", N is size S",
            Status::Done,
            "answer 1\n  X = -3\n  Y = -1\n  S = \"abc\"\n  N = 3\nno more answers\n",
        ),
        ("fun", "P a", Status::Flexible, "stopped: flexible goal\n"),
        (
            "once",
            "P = p, P b",
            Status::Done,
            "answer 1\n  P = p\nno more answers\n",
        ),
        (
            "age",
            "X age 30",
            Status::Done,
            "answer 1\n  X = ann\nno more answers\n",
        ),
        (
            "fun",
            "(x\\ F x) = (x\\ f x x)",
            Status::Done,
            "answer 1\n  F = x1\\ f x1 x1\nno more answers\n",
        ),
        (
            "fun",
            "(x\\ X) = (x\\ x)",
            Status::Done,
            "no more answers\n",
        ),
        (
            "fun",
            "A1 = f A2 A2, A2 = f A3 A3, A3 = f A4 A4, A4 = f A5 A5, A5 = f A6 A6, A6 = f A7 A7, A7 = f A8 A8, A8 = f A9 A9, A9 = f A10 A10, A10 = f A11 A11, A11 = f A12 A12, A12 = f A13 A13, A13 = f A14 A14, A14 = f A15 A15, A15 = f A16 A16, A16 = f A17 A17, A17 = f A18 A18, A18 = f A19 A19, A19 = f A20 A20, A20 = f a a",
            Status::Deep,
            "stopped: term too deep\n",
        ),
    ] {
        check(&rt, alloc, module, query, status, written)?;
    }
    Ok(())
}

#[test]
fn goals_of_all_forms_are_proved(rt: HostRuntime) -> Result<(), Memory> {
    let alloc = rt.alloc();
    for (module, query, written) in [
        ("forms", "r", "answer 1\nanswer 2\nno more answers\n"),
        ("forms", "q", "answer 1\nno more answers\n"),
        (
            "forms",
            "p X",
            "answer 1\n  X = _1\nanswer 2\n  X = a\nno more answers\n",
        ),
        (
            "calls",
            "q (p X ; p b)",
            "answer 1\n  X = a\nanswer 2\n  X = b\nanswer 3\n  X = _1\nno more answers\n",
        ),
        (
            "calls",
            "q (sigma y\\ (p y, true))",
            "answer 1\nanswer 2\nno more answers\n",
        ),
        ("calls", "q (pi y\\ X = f y)", "no more answers\n"),
        (
            "calls",
            "s a => (s b => s X)",
            "answer 1\n  X = b\nanswer 2\n  X = a\nno more answers\n",
        ),
        (
            "calls",
            "p X, !",
            "answer 1\n  X = a\nno more answers; some were cut away\n",
        ),
        (
            "once",
            "one X ; one X",
            "answer 1\n  X = a\nanswer 2\n  X = a\nno more answers; some were cut away\n",
        ),
        ("e", "pi x\\ (x => x)", "answer 1\nno more answers\n"),
        ("e", "1 < 2, 2 >= 2", "answer 1\nno more answers\n"),
        ("e", "2 < 1", "no more answers\n"),
        (
            "e",
            "X is 2 + 3 * 4",
            "answer 1\n  X = 14\nno more answers\n",
        ),
    ] {
        check(&rt, alloc, module, query, Status::Done, written)?;
    }
    Ok(())
}

#[test]
fn terms_are_unified_and_shown(rt: HostRuntime) -> Result<(), Memory> {
    let alloc = rt.alloc();
    for (module, query, shown) in [
        ("fun", "pi x\\ sigma y\\ X = f y y", "  X = f _1 _1\n"),
        (
            "fun",
            "pi x\\ pi y\\ pi z\\ f (F x y) a = f (F x z) a",
            "  F = x1\\ x2\\ _1 x1\n",
        ),
        (
            "fun",
            "pi x\\ F (y\\ x y) = f (x a) a",
            "  F = x1\\ f (x1 a) a\n",
        ),
        ("fun", "F a = a, F = (x\\ x)", "  F = x1\\ x1\n"),
        (
            "fun",
            "pi x\\ X = f (Y x) a",
            "  X = f _1 a\n  Y = x1\\ _1\n",
        ),
        ("shown", "F = (x\\ y\\ f x1 y)", "  F = x2\\ f x1\n"),
        ("shown", "X = (no no (a up))", "  X = no no (a up)\n"),
        ("shown", "X = ((g a) up)", "  X = g a up\n"),
        ("shown", "X = f (g a) (no a)", "  X = f (g a) (no a)\n"),
        ("shown", "X = h (y\\ y up)", "  X = h (up)\n"),
        ("e", "X = 1 + 2 - (3 - ~ 4)", "  X = 1 + 2 - (3 - ~ 4)\n"),
        ("e", "X = (1 :: nil) :: nil", "  X = (1 :: nil) :: nil\n"),
        (
            "e",
            "X = \"a\\\"b\\\\\\n\\t!\"",
            "  X = \"a\\\"b\\\\\\n\\t!\"\n",
        ),
        ("e", "X = (+)", "  X = (+)\n"),
    ] {
        let mut written = String::from_str(alloc, "answer 1\n")?;
        written.push_str(shown)?;
        written.push_str("no more answers\n")?;
        check(&rt, alloc, module, query, Status::Done, written.as_str())?;
    }
    Ok(())
}

#[test]
fn a_reversal_takes_so_many_steps(rt: HostRuntime) -> Result<(), Memory> {
    let alloc = rt.alloc();
    for (steps, status, written) in [
        (
            15,
            Status::Done,
            "answer 1\n  X = 4 :: 3 :: 2 :: 1 :: nil\nno more answers\n",
        ),
        (14, Status::Steps, "stopped: steps\n"),
    ] {
        within(
            &rt,
            alloc,
            &FILES,
            ("rev", "rev [1, 2, 3, 4] X", steps),
            status,
            written,
        )?;
    }
    Ok(())
}
