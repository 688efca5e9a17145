// Why texts are refused.

use crate::asking::{check, with_files};
use lp_base::{Memory, Status};
use std::alloc::Global;
use std::process::Abort;

#[test]
fn queries_are_refused(rt: HostRuntime) -> Result<(), Memory> {
    let alloc = rt.alloc();
    for (module, query, written) in [
        ("lists", "append 1 nil X", "source: query:1:1: no typing\n"),
        ("lists", "foo X", "source: query:1:1: undeclared name foo\n"),
        ("fam", "foo X", "source: query:1:1: undeclared name foo\n"),
        (
            "e",
            "X = Y = Z",
            "source: query:1:7: ambiguous operator =\n",
        ),
        (
            "e",
            "X = 9223372036854775808",
            "source: query:1:5: number past 64 bits\n",
        ),
        ("e", "X = \"abc", "source: query:1:5: unclosed string\n"),
        ("e", "true /* x", "source: query:1:6: unclosed comment\n"),
        ("e", "X = ?", "source: query:1:5: bad byte\n"),
        ("e", ", true", "source: query:1:1: unexpected token\n"),
        ("e", "", "source: query:1:1: unexpected token\n"),
        ("e", "(true", "source: query:1:1: unclosed bracket\n"),
        ("e", "print X", "source: query:1:1: unsupported print\n"),
        ("e", "X = 1.5", "source: query:1:5: unsupported 1.5\n"),
        (
            "loop",
            "X = (q => q)",
            "source: query:1:1: implication or cut in a term\n",
        ),
        ("e", "true => true", "source: query:1:1: not a clause\n"),
        ("e", "f (g [a", "source: query:1:6: unclosed bracket\n"),
        ("e", "f (a]", "source: query:1:5: unexpected token\n"),
        (
            "e",
            "p, import q",
            "source: query:1:4: unsupported import\n",
        ),
        (
            "e",
            "[true ; true]",
            "source: query:1:7: unexpected token\n",
        ),
        ("e", "f div\\ x", "source: query:1:6: unexpected token\n"),
        ("e", "div\\ x", "source: query:1:1: unexpected token\n"),
        ("e", "x : i", "source: query:1:6: unexpected token\n"),
        ("e", "(x : (i", "source: query:1:6: unclosed bracket\n"),
        ("e", "(x : i", "source: query:1:1: unclosed bracket\n"),
        (
            "e",
            "(f a) : i\\ x",
            "source: query:1:7: unexpected token\n",
        ),
        ("e", "p. q", "source: query:1:4: unexpected token\n"),
        ("e", "[a | b, c", "source: query:1:1: unclosed bracket\n"),
        ("e", "[a | b | c]", "source: query:1:8: unexpected token\n"),
        ("e", "a ->", "source: query:1:3: unexpected token\n"),
        (
            "e",
            "pi x : k\\ q x",
            "source: query:1:8: undeclared name k\n",
        ),
        ("e", "X X", "source: query:1:1: no typing\n"),
        ("e", "1", "source: query:1:1: no typing\n"),
        ("e", "pi x : list\\ x = x", "source: query:1:1: no typing\n"),
        (
            "fun",
            "a = b, c = d",
            "source: query:1:5: undeclared name b\n",
        ),
        ("loop", "q :- X", "source: query:1:1: not a clause\n"),
        ("forms", "some => true", "source: query:1:1: not a clause\n"),
        ("loop", "(q ; q) => q", "source: query:1:1: not a clause\n"),
    ] {
        check(&rt, alloc, module, query, Status::Source, written)?;
    }
    Ok(())
}

// Solves `true` on a module of these two texts.
fn check_texts(
    rt: &impl Abort,
    alloc: Global,
    texts: [(&str, &str); 2],
    module: &str,
    written: &str,
) -> Result<(), Memory> {
    with_files(rt, alloc, &texts, module, "true", Status::Source, written)
}

#[test]
fn modules_are_refused(rt: HostRuntime) -> Result<(), Memory> {
    let alloc = rt.alloc();
    for (module, texts, written) in [
        (
            "u1",
            [("u1.sig", "sig u1. type a kk."), ("u1.mod", "module u1.")],
            "source: u1.sig:1:16: unknown kind kk\n",
        ),
        (
            "u2",
            [("u2.sig", "sig u2. type a list."), ("u2.mod", "module u2.")],
            "source: u2.sig:1:16: wrong number of type arguments list\n",
        ),
        (
            "u3",
            [
                ("u3.sig", "sig u3. kind k type. type a k. type a o."),
                ("u3.mod", "module u3."),
            ],
            "source: u3.sig:1:37: declared otherwise a\n",
        ),
        (
            "u4",
            [
                ("u4.sig", "sig u4. typeabbrev t list t."),
                ("u4.mod", "module u4."),
            ],
            "source: u4.sig:1:20: cyclic abbreviation t\n",
        ),
        (
            "u5",
            [
                ("u5.sig", "sig u5. accum_sig u5."),
                ("u5.mod", "module u5."),
            ],
            "source: u5.sig:1:19: cyclic accum_sig u5\n",
        ),
        (
            "u6",
            [
                ("u6.sig", "sig u6."),
                ("u6.mod", "module u6. accumulate u6."),
            ],
            "source: u6.mod:1:23: cyclic accumulate u6\n",
        ),
        (
            "u7",
            [("u7.sig", "sig other."), ("u7.mod", "module u7.")],
            "source: u7.sig:1:5: header name differs\n",
        ),
        (
            "u8",
            [("u8.sig", "sig u8."), ("u8.mod", "module other.")],
            "source: u8.mod:1:8: header name differs\n",
        ),
        (
            "u9",
            [
                ("u9.sig", "sig u9. kind k type. type a k."),
                ("u9.mod", "module u9. type a o."),
            ],
            "source: u9.mod:1:17: signature name declared otherwise a\n",
        ),
        (
            "v1",
            [
                ("v1.sig", "sig v1. type p o. infix p 256."),
                ("v1.mod", "module v1."),
            ],
            "source: v1.sig:1:25: operator number above 255\n",
        ),
        (
            "v2",
            [
                ("v2.sig", "sig v2. type p o. infix p 5."),
                ("v2.mod", "module v2. infix p 6."),
            ],
            "source: v2.mod:1:18: operator declared otherwise p\n",
        ),
        (
            "v3",
            [
                ("v3.sig", "sig v3. type p int -> o."),
                ("v3.mod", "module v3. p X :- foo X."),
            ],
            "source: v3.mod:1:19: undeclared name foo\n",
        ),
        (
            "v4",
            [
                ("v4.sig", "sig v4. type p int -> o."),
                ("v4.mod", "module v4. p \"x\"."),
            ],
            "source: v4.mod:1:12: no typing\n",
        ),
        (
            "v5",
            [
                ("v5.sig", "sig v5. type p o."),
                ("v5.mod", "module v5. p ; p."),
            ],
            "source: v5.mod:1:12: not a clause\n",
        ),
        (
            "v6",
            [
                ("v6.sig", "sig v6. type p o -> o."),
                ("v6.mod", "module v6. p (p true => true)."),
            ],
            "source: v6.mod:1:12: implication or cut in a term\n",
        ),
        (
            "v7",
            [("v7.sig", "sig v7. local a int."), ("v7.mod", "module v7.")],
            "source: v7.sig:1:9: unexpected token\n",
        ),
        (
            "v8",
            [("v8.sig", "sig v8."), ("v8.mod", "module v8. import e.")],
            "source: v8.mod:1:12: unsupported import\n",
        ),
    ] {
        check_texts(&rt, alloc, texts, module, written)?;
    }
    Ok(())
}
