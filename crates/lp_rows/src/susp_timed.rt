// Rows that bench/store.sh times.
ghost use Rattle.std.specs.Prelude.{◌<◌, ◌≤◌, length, IfOk};

use lp_base::Memory;
use lp_store::{Cell, CellId, Store};
use lp_susp::read_back;
use lp_term::Bank;
use std::alloc::Global;

fn on(store: &mut Store, f: CellId, x: CellId) -> Result<CellId, Memory>
    requires f { f.0 < length store.old.cells }
    requires x { x.0 < length store.old.cells }
    ensures more { length store.old.cells ≤ length store.new.cells }
    ensures within { IfOk result (λ id. id.0 < length store.new.cells) }
{
    let list = store.list(&[x])?;
    let id = store.push(Cell::App(f, list))?;
    Ok(id)
}

// \f\ \x\ f (f .. x) with n uses of f.
fn numeral(store: &mut Store, n: u64) -> Result<CellId, Memory>
    ensures more { length store.old.cells ≤ length store.new.cells }
    ensures within { IfOk result (λ id. id.0 < length store.new.cells) }
{
    let f = store.push(Cell::Index(1))?;
    let mut body = store.push(Cell::Index(0))?;
    'uses: for _ in 0..n {
        body = on(store, f, body)?;
    }
    let inner = store.push(Cell::Abs(body))?;
    let outer = store.push(Cell::Abs(inner))?;
    Ok(outer)
}

// The product \f\ m (n f) of two numerals.
fn product(store: &mut Store, m: u64, n: u64) -> Result<CellId, Memory>
    ensures within { IfOk result (λ id. id.0 < length store.new.cells) }
{
    let left = numeral(store, m)?;
    let right = numeral(store, n)?;
    let f = store.push(Cell::Index(0))?;
    let times = on(store, right, f)?;
    let body = on(store, left, times)?;
    let whole = store.push(Cell::Abs(body))?;
    Ok(whole)
}

fn product_fits(alloc: Global, m: u64, n: u64, limit: u64) -> bool {
    let mut store = Store::new(alloc);
    let Ok(cell) = product(&mut store, m, n) else {
        return false;
    };
    let mut bank = Bank::new(alloc);
    read_back(alloc, &mut store, cell, &mut bank, limit).is_ok()
}

// A reference in an abstraction, n times over.
fn tower(store: &mut Store, n: u64) -> Result<CellId, Memory>
    ensures within { IfOk result (λ id. id.0 < length store.new.cells) }
{
    let mut term = store.push(Cell::Eigen(1))?;
    'levels: for _ in 0..n {
        let to = store.push(Cell::Ref(term))?;
        term = store.push(Cell::Abs(to))?;
    }
    Ok(term)
}

fn tower_fits(alloc: Global, n: u64, limit: u64) -> bool {
    let mut store = Store::new(alloc);
    let Ok(cell) = tower(&mut store, n) else {
        return false;
    };
    let mut bank = Bank::new(alloc);
    read_back(alloc, &mut store, cell, &mut bank, limit).is_ok()
}

#[test]
fn a_product_of_1_and_1(rt: HostRuntime) {
    let alloc = rt.alloc();
    assert!(rt; product_fits(alloc, 1, 1, 4));
}

#[test]
fn twenty_products_of_60_and_60(rt: HostRuntime) {
    let alloc = rt.alloc();
    for _ in 0..20 {
        assert!(rt; product_fits(alloc, 60, 60, 3603));
    }
}

// 0 f is one redex, which 60 places share: 62 contractions, and 121 where each has its own.
#[test]
fn a_shared_redex_is_contracted_once(rt: HostRuntime) {
    let alloc = rt.alloc();
    assert!(rt; product_fits(alloc, 60, 0, 62));
    assert!(rt; !product_fits(alloc, 60, 0, 61));
}

#[test]
fn abstractions_1000000(rt: HostRuntime) {
    let alloc = rt.alloc();
    assert!(rt; tower_fits(alloc, 1_000_000, 1_000_001));
    assert!(rt; !tower_fits(alloc, 1_000_000, 1_000_000));
}
