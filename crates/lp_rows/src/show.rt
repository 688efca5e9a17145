// A shown term, and the last lines.

use lp_model::{Ending, Fault};
use lp_show::{Glossary, ending, term};
use lp_term::{Bank, TermNode, TermRefusal};
use std::alloc::Global;

// An abstraction that gives an eigenconstant.
fn shown(alloc: Global) -> Result<Vec<u8>, TermRefusal> {
    let mut bank = Bank::new(alloc);
    let glossary = Glossary {
        entries: Vec::new(alloc),
    };
    let body = bank.put_term(TermNode::Eigen(2))?;
    let whole = bank.put_term(TermNode::Abs(body))?;
    if !bank.is_known_below(whole, 4_294_967_296) {
        return Err(TermRefusal::Memory);
    }
    term(alloc, whole, &mut bank, &glossary)
}

#[test]
fn a_term_is_shown(rt: HostRuntime) {
    match shown(rt.alloc()) {
        Ok(text) => assert_eq!(rt; text.as_slice(), b"x1\\ #2".as_slice()),
        Err(_) => assert!(rt; false),
    }
}

#[test]
fn endings_have_their_lines(rt: HostRuntime) {
    for (end, line) in [
        (Ending::NoMore, "no more answers"),
        (Ending::NoMoreCut, "no more answers; some were cut away"),
        (Ending::Enough, "stopped: answers"),
        (Ending::Steps, "stopped: steps"),
        (Ending::Flexible, "stopped: flexible goal"),
        (
            Ending::Arithmetic(Fault::Overflow),
            "stopped: arithmetic: overflow",
        ),
        (
            Ending::Arithmetic(Fault::ZeroDivisor),
            "stopped: arithmetic: zero divisor",
        ),
        (
            Ending::Arithmetic(Fault::NotClosed),
            "stopped: arithmetic: not closed",
        ),
        (Ending::OpenNot, "stopped: open negation"),
        (Ending::Deep, "stopped: term too deep"),
    ] {
        assert_eq!(rt; ending(end), line);
    }
}
