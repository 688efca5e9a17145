// Rows that bench/church.sh and bench/store.sh time.

use crate::term::is_taken;
use lp_base::Memory;
use lp_term::{
    Bank, TermId, TermRefusal, beta_normal, head_reduce, normal_form, put_abstraction,
    put_abstractions, put_applied, put_eigen, put_index,
};
use std::alloc::Global;

// \f\ \x\ f (f .. x) with n uses of f.
fn numeral(bank: &mut Bank, n: u64) -> Result<TermId, Memory> {
    let f = put_index(bank, 1)?;
    let mut body = put_index(bank, 0)?;
    for _ in 0..n {
        body = put_applied(bank, f, body)?;
    }
    put_abstractions(bank, 2, body)
}

// The product \f\ m (n f) of two numerals.
fn product(bank: &mut Bank, m: u64, n: u64) -> Result<TermId, Memory> {
    let left = numeral(bank, m)?;
    let right = numeral(bank, n)?;
    let f = put_index(bank, 0)?;
    let times = put_applied(bank, right, f)?;
    let body = put_applied(bank, left, times)?;
    put_abstraction(bank, body)
}

// (\x1\ .. \xn\ c) a .. a
fn spine(bank: &mut Bank, n: u64) -> Result<TermId, Memory> {
    let a = put_eigen(bank, 1)?;
    let c = put_eigen(bank, 2)?;
    let mut term = put_abstractions(bank, n, c)?;
    for _ in 0..n {
        term = put_applied(bank, term, a)?;
    }
    Ok(term)
}

// \x1\ .. \xn\ \y\ y y
fn deep(bank: &mut Bank, n: u64) -> Result<TermId, Memory> {
    let y = put_index(bank, 0)?;
    let twice = put_applied(bank, y, y)?;
    put_abstractions(bank, n, twice)
}

// Whether the product has a normal form of at most so many nodes in so many contractions.
fn product_fits(
    alloc: Global,
    m: u64,
    n: u64,
    contractions: u64,
    most: u64,
) -> Result<bool, TermRefusal> {
    let mut bank = Bank::new(alloc);
    let term = product(&mut bank, m, n)?;
    if !is_taken(&bank, term) {
        return Ok(false);
    }
    beta_normal(alloc, &mut bank, term, contractions, most)?;
    Ok(true)
}

fn spine_reduces(alloc: Global, n: u64) -> Result<bool, TermRefusal> {
    let mut bank = Bank::new(alloc);
    let term = spine(&mut bank, n)?;
    if !is_taken(&bank, term) {
        return Ok(false);
    }
    head_reduce(alloc, &mut bank, term, n)?;
    Ok(true)
}

fn deep_is_its_form(alloc: Global, n: u64) -> Result<bool, TermRefusal> {
    let mut bank = Bank::new(alloc);
    let term = deep(&mut bank, n)?;
    if !is_taken(&bank, term) {
        return Ok(false);
    }
    let id = normal_form(alloc, &mut bank, term, 0, 1_000_002)?;
    Ok(id == term)
}

fn is_so(got: Result<bool, TermRefusal>) -> bool {
    matches!(got, Ok(true))
}

#[test]
fn a_product_of_1_and_1(rt: HostRuntime) {
    assert!(rt; is_so(product_fits(rt.alloc(), 1, 1, 3, 4)));
}

// 81 contractions each
#[test]
fn twenty_products_of_40_and_40(rt: HostRuntime) {
    for _ in 0..20 {
        assert!(rt; is_so(product_fits(rt.alloc(), 40, 40, 81, 1603)));
    }
}

// 121 contractions each
#[test]
fn twenty_products_of_60_and_60(rt: HostRuntime) {
    for _ in 0..20 {
        assert!(rt; is_so(product_fits(rt.alloc(), 60, 60, 121, 3603)));
    }
}

#[test]
fn a_spine_of_10000(rt: HostRuntime) {
    assert!(rt; is_so(spine_reduces(rt.alloc(), 10_000)));
}

#[test]
fn a_spine_of_100000(rt: HostRuntime) {
    assert!(rt; is_so(spine_reduces(rt.alloc(), 100_000)));
}

#[test]
fn abstractions_100000(rt: HostRuntime) {
    assert!(rt; is_so(deep_is_its_form(rt.alloc(), 100_000)));
}
