// The standard table, and each answer of a declaration.

use lp_fixity::{FixFault, Fixity, Table};
use std::alloc::Global;

fn standard(alloc: Global) -> bool {
    let Ok(table) = Table::standard(alloc) else {
        return false;
    };
    table.of(b":-") == Some((Fixity::Infixl, 1))
        && table.of(b",") == Some((Fixity::Infixr, 110))
        && table.of(b"is") == Some((Fixity::Infix, 130))
        && table.of(b"mod") == Some((Fixity::Infixl, 160))
        && table.of(b"~") == Some((Fixity::Prefix, 200))
        && table.of(b":") == None
        && table.of(b"") == None
}

fn declared(alloc: Global) -> bool {
    let Ok(mut table) = Table::standard(alloc) else {
        return false;
    };
    table.declare(b"times", Fixity::Postfixl, 256) == Err(FixFault::TooHigh(256))
        && table.of(b"times") == None
        && table.declare(b"times", Fixity::Postfixl, 255) == Ok(())
        && table.declare(b"times", Fixity::Postfixl, 255) == Ok(())
        && table.declare(b"times", Fixity::Postfix, 255) == Err(FixFault::Otherwise)
        && table.declare(b"=", Fixity::Infix, 131) == Err(FixFault::Otherwise)
        && table.declare(b"=", Fixity::Infix, 4294967295) == Err(FixFault::TooHigh(4294967295))
        && table.of(b"times") == Some((Fixity::Postfixl, 255))
        && table.of(b"=") == Some((Fixity::Infix, 130))
}

#[test]
fn entries_and_refusals(rt: HostRuntime) {
    assert!(rt; standard(rt.alloc()), "standard");
    assert!(rt; declared(rt.alloc()), "declared");
}
