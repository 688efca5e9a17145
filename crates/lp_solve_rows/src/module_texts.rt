// Why the texts of one module are refused: what they declare, and what their sentences say.

use crate::asking::with_files;
use lp_base::{Memory, Status};
use std::alloc::Global;
use std::process::Abort;

// What the module `m` of these texts comes to.
fn check_texts(
    rt: &impl Abort,
    alloc: Global,
    signature: &str,
    module: &str,
    written: &str,
) -> Result<(), Memory> {
    let files = [("m.sig", signature), ("m.mod", module)];
    with_files(rt, alloc, &files, "m", "true", Status::Source, written)
}

#[test]
fn signatures_are_refused(rt: HostRuntime) -> Result<(), Memory> {
    let alloc = rt.alloc();
    for (signature, written) in [
        (
            "sig m. type f A -> B. type f A -> A.",
            "source: m.sig:1:28: declared otherwise f\n",
        ),
        (
            "sig m. type pi A -> o.",
            "source: m.sig:1:13: declared otherwise pi\n",
        ),
        (
            "sig m. kind list type.",
            "source: m.sig:1:13: declared otherwise list\n",
        ),
        (
            "sig m. typeabbrev (p A A) int.",
            "source: m.sig:1:24: declared otherwise A\n",
        ),
        (
            "sig m. typeabbrev (p A) B.",
            "source: m.sig:1:25: unknown kind B\n",
        ),
        (
            "sig m. typeabbrev a b. typeabbrev b list a.",
            "source: m.sig:1:19: cyclic abbreviation a\n",
        ),
        (
            "sig m. typeabbrev a b. typeabbrev b int. typeabbrev b string.",
            "source: m.sig:1:53: declared otherwise b\n",
        ),
        (
            "sig m. kind b type. typeabbrev b k.",
            "source: m.sig:1:32: declared otherwise b\n",
        ),
        (
            "sig m. type c i. p.",
            "source: m.sig:1:18: unexpected token\n",
        ),
        ("sig import.", "source: m.sig:1:5: unsupported import\n"),
    ] {
        check_texts(&rt, alloc, signature, "module m.", written)?;
    }
    Ok(())
}

#[test]
fn module_texts_are_refused(rt: HostRuntime) -> Result<(), Memory> {
    let alloc = rt.alloc();
    let signature =
        "sig m. kind i type. type a i. type p i -> o. type q o. type r o -> i -> o. type f A -> B.";
    for (module, written) in [
        (
            "module m. type a i -> i.",
            "source: m.mod:1:16: signature name declared otherwise a\n",
        ),
        (
            "module m. local a.",
            "source: m.mod:1:17: signature name declared otherwise a\n",
        ),
        (
            "module m. local b.",
            "source: m.mod:1:17: undeclared name b\n",
        ),
        (
            "module m. local b k.",
            "source: m.mod:1:19: unknown kind k\n",
        ),
        (
            "module m. localkind j.",
            "source: m.mod:1:21: unknown kind j\n",
        ),
        (
            "module m. type b list.",
            "source: m.mod:1:18: wrong number of type arguments list\n",
        ),
        (
            "module m. type nil int.",
            "source: m.mod:1:16: declared otherwise nil\n",
        ),
        ("module m. X. p 1.", "source: m.mod:1:14: no typing\n"),
        ("module m. q. X.", "source: m.mod:1:14: not a clause\n"),
        (
            "module m. !.",
            "source: m.mod:1:11: implication or cut in a term\n",
        ),
        (
            "module m. q ; (q => q).",
            "source: m.mod:1:11: implication or cut in a term\n",
        ),
        (
            "module m. sigma x\\ p x.",
            "source: m.mod:1:11: not a clause\n",
        ),
        (
            "module m. q :- sigma x\\ x => q.",
            "source: m.mod:1:11: not a clause\n",
        ),
        (
            "module m. r (q => q) a.",
            "source: m.mod:1:11: implication or cut in a term\n",
        ),
        ("module m. f 1.", "source: m.mod:1:11: not a clause\n"),
        ("module m. q", "source: m.mod:1:12: unexpected token\n"),
        (
            "module m. foo ( . q.",
            "source: m.mod:1:17: unexpected token\n",
        ),
        (
            "module m. infix o 5. infix p, o 6.",
            "source: m.mod:1:31: operator declared otherwise o\n",
        ),
        (
            "module m. infixr p 110. prefix q 20. 1 + q 2.",
            "source: m.mod:1:42: unexpected token\n",
        ),
        (
            "module m. infixl l 130. a => b l c.",
            "source: m.mod:1:32: ambiguous operator l\n",
        ),
        (
            "module m. prefix p 130. p a = b.",
            "source: m.mod:1:29: ambiguous operator =\n",
        ),
        (
            "module m. postfix s 20. a s = b.",
            "source: m.mod:1:29: unexpected token\n",
        ),
        (
            "module m. kind i o.",
            "source: m.mod:1:18: unexpected token\n",
        ),
        (
            "module m. type c i ->.",
            "source: m.mod:1:22: unexpected token\n",
        ),
        (
            "module m. type c (i -> o",
            "source: m.mod:1:18: unclosed bracket\n",
        ),
        (
            "module m. typeabbrev (p A i.",
            "source: m.mod:1:27: unexpected token\n",
        ),
        ("sig m.", "source: m.mod:1:1: unexpected token\n"),
    ] {
        check_texts(&rt, alloc, signature, module, written)?;
    }
    Ok(())
}
