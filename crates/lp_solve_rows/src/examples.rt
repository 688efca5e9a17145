// The examples, each with its queries. This file is written by `examples/check.py --write`.

// The modules of the examples.
mod texts;

use crate::asking::with_files;
use lp_base::{Memory, Status};
use texts::FILES;

#[test]
fn examples_are_answered(rt: HostRuntime) -> Result<(), Memory> {
    let alloc = rt.alloc();
    for (module, query, status, written) in [
        (
            "checker",
            "theorem \"two\" A P, checks P A",
            Status::Done,
            "answer 1\n  A = zero less succ (succ zero)\n  P = less_trans (less_succ zero) (less_succ (succ zero))\nno more answers\n",
        ),
        (
            "checker",
            "checks (all_i x\\ less_succ x) A",
            Status::Done,
            "answer 1\n  A = all (x1\\ x1 less succ x1)\nno more answers\n",
        ),
        (
            "checker",
            "holds N",
            Status::Done,
            "answer 1\n  N = \"two\"\nanswer 2\n  N = \"swap\"\nanswer 3\n  N = \"above\"\nno more answers\n",
        ),
        (
            "checker",
            "checks (all_i x\\ some_i (succ x) (y\\ x less y) (less_succ x)) (some y\\ all x\\ x less y)",
            Status::Done,
            "no more answers\n",
        ),
        (
            "compiler",
            "compile (let (num 2) x\\ x times x plus num 1) C, runs C V",
            Status::Done,
            "answer 1\n  C = push 2 :: store :: load 0 :: load 0 :: mul :: push 1 :: add :: drop :: nil\n  V = 5\nno more answers\n",
        ),
        (
            "compiler",
            "value (let (num 2) x\\ let (x plus num 1) y\\ x times y minus num 4) V",
            Status::Done,
            "answer 1\n  V = 2\nno more answers\n",
        ),
        (
            "compiler",
            "compile (let (num 2) x\\ let (x plus num 1) y\\ x times y minus num 4) C, runs C V",
            Status::Done,
            "answer 1\n  C = push 2 :: store :: load 0 :: push 1 :: add :: store :: load 1 :: load 0 :: mul :: push 4 :: sub :: drop :: drop :: nil\n  V = 2\nno more answers\n",
        ),
        (
            "lists",
            "append X Y (1 :: 2 :: nil)",
            Status::Done,
            "answer 1\n  X = nil\n  Y = 1 :: 2 :: nil\nanswer 2\n  X = 1 :: nil\n  Y = 2 :: nil\nanswer 3\n  X = 1 :: 2 :: nil\n  Y = nil\nno more answers\n",
        ),
        (
            "lists",
            "reverse [1, 2, 3] X",
            Status::Done,
            "answer 1\n  X = 3 :: 2 :: 1 :: nil\nno more answers\n",
        ),
        (
            "lists",
            "each (x\\ x + 1) [1, 2] X",
            Status::Done,
            "answer 1\n  X = 1 + 1 :: 2 + 1 :: nil\nno more answers\n",
        ),
        (
            "lists",
            "map (x\\ y\\ y is x * x) [1, 2, 3] X",
            Status::Done,
            "answer 1\n  X = 1 :: 4 :: 9 :: nil\nno more answers\n",
        ),
        (
            "lists",
            "fold (x\\ y\\ x + y) 0 [1, 2, 3] S, T is S",
            Status::Done,
            "answer 1\n  S = 1 + (2 + (3 + 0))\n  T = 6\nno more answers\n",
        ),
        (
            "lists",
            "sorted [3, 1, 2] X",
            Status::Done,
            "answer 1\n  X = 1 :: 2 :: 3 :: nil\nno more answers; some were cut away\n",
        ),
        (
            "miniml",
            "of (let (fn x\\ x) id\\ pair (app id (int 1)) (app id id)) T",
            Status::Done,
            "answer 1\n  T = num prod (_1 arr _1)\nno more answers\n",
        ),
        (
            "miniml",
            "of (app (fn id\\ pair (app id (int 1)) (app id id)) (fn x\\ x)) T",
            Status::Done,
            "no more answers\n",
        ),
        (
            "miniml",
            "eval (app (fix sum\\ fn n\\ zero n (int 0) (plus n (app sum (plus n (int (~ 1)))))) (int 4)) V",
            Status::Done,
            "answer 1\n  V = int 10\nno more answers; some were cut away\n",
        ),
        (
            "natural",
            "shows (lambda x\\ x) A",
            Status::Done,
            "answer 1\n  A = _1 imp _1\nno more answers\n",
        ),
        (
            "natural",
            "shows (lambda x\\ pair (second x) (first x)) (p conj q imp q conj p)",
            Status::Done,
            "answer 1\nno more answers\n",
        ),
        (
            "natural",
            "provable ((p imp q imp r) imp (p imp q) imp p imp r)",
            Status::Done,
            "answer 1\nno more answers; some were cut away\n",
        ),
        (
            "natural",
            "provable (((p imp q) imp p) imp p)",
            Status::Done,
            "no more answers; some were cut away\n",
        ),
        (
            "natural",
            "provable ((p disj (p imp falsum) imp falsum) imp falsum)",
            Status::Done,
            "answer 1\nno more answers; some were cut away\n",
        ),
        (
            "prenex",
            "prenex ((all x\\ path x a) conj (some y\\ path a y)) B",
            Status::Done,
            "answer 1\n  B = all (x1\\ some (x2\\ path x1 a conj path a x2))\nanswer 2\n  B = some (x1\\ all (x2\\ path x2 a conj path a x1))\nno more answers\n",
        ),
        (
            "prenex",
            "prenex ((all x\\ path x a) conj (all y\\ path a y)) (all C)",
            Status::Done,
            "answer 1\n  C = x1\\ path x1 a conj path a x1\nanswer 2\n  C = x1\\ all (x2\\ path x1 a conj path a x2)\nanswer 3\n  C = x1\\ all (x2\\ path x2 a conj path a x1)\nno more answers\n",
        ),
        (
            "prenex",
            "prenex ((some x\\ path x a) imp path a b) B",
            Status::Done,
            "answer 1\n  B = all (x1\\ path x1 a imp path a b)\nno more answers\n",
        ),
        (
            "processes",
            "one (sent a b null par taken a (x\\ sent x c null)) tau Q",
            Status::Done,
            "answer 1\n  Q = null par sent b c null\nno more answers\n",
        ),
        (
            "processes",
            "one (taken a x\\ null) A Q",
            Status::Done,
            "no more answers\n",
        ),
        (
            "processes",
            "bound (taken a x\\ sent x b null) A Q",
            Status::Done,
            "answer 1\n  A = down a\n  Q = x1\\ sent x1 b null\nno more answers\n",
        ),
        (
            "processes",
            "one ((new n\\ sent a n (sent n b null)) par taken a (x\\ taken x (y\\ null))) tau Q",
            Status::Done,
            "answer 1\n  Q = new (x1\\ sent x1 b null par taken x1 (x2\\ null))\nno more answers\n",
        ),
        (
            "processes",
            "one (new n\\ sent n a null) A Q",
            Status::Done,
            "no more answers\n",
        ),
        (
            "stlc",
            "of (abs x\\ abs y\\ x) T",
            Status::Done,
            "answer 1\n  T = _1 arr _2 arr _1\nno more answers\n",
        ),
        (
            "stlc",
            "of (abs x\\ app x x) T",
            Status::Done,
            "no more answers\n",
        ),
        (
            "stlc",
            "eval (app (abs x\\ app x tt) (abs y\\ if y ff tt)) V",
            Status::Done,
            "answer 1\n  V = ff\nno more answers\n",
        ),
        (
            "stlc",
            "norm (abs x\\ app (abs y\\ y) x) N",
            Status::Done,
            "answer 1\n  N = abs (x1\\ x1)\nno more answers\n",
        ),
    ] {
        with_files(&rt, alloc, &FILES, module, query, status, written)?;
    }
    Ok(())
}
