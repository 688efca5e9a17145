ghost use Rattle.std.specs.Prelude.{◌<◌, length, IfOk};

use lp_base::Memory;
use lp_store::{Cell, CellId, Store};
use lp_susp::{head_normal, read_back};
use lp_term::{Bank, TermNode, TermRefusal};

// (\x\ y\ x) on the eigenconstants of levels 5 and 6, as two applications.
fn first_of_two(store: &mut Store) -> Result<CellId, Memory>
    ensures { IfOk result (λ id. id.0 < length store.new.cells) }
{
    let x = store.push(Cell::Index(1))?;
    let inner = store.push(Cell::Abs(x))?;
    let outer = store.push(Cell::Abs(inner))?;
    let five = store.push(Cell::Eigen(5))?;
    let six = store.push(Cell::Eigen(6))?;
    let fives = store.list(&[five])?;
    let sixes = store.list(&[six])?;
    let one = store.push(Cell::App(outer, fives))?;
    let two = store.push(Cell::App(one, sixes))?;
    Ok(two)
}

#[test]
fn reads_the_first(rt: HostRuntime) {
    let mut store = Store::new(rt.alloc());
    let Ok(two) = first_of_two(&mut store) else {
        return;
    };
    let mark = store.mark();
    let done = head_normal(rt.alloc(), &mut store, two, 10);
    assert!(rt; done.is_ok());
    let Ok(id) = done else {
        return;
    };
    let reached = matches!(store.cell(id), Cell::Eigen(5));
    assert!(rt; reached);
    let written = matches!(store.cell(two), Cell::Ref(_));
    assert!(rt; written);
    store.undo(mark);
    let back = matches!(store.cell(two), Cell::App(_, _));
    assert!(rt; back);
}

#[test]
fn reads_back_what_it_reduces_to(rt: HostRuntime) {
    let mut store = Store::new(rt.alloc());
    let Ok(two) = first_of_two(&mut store) else {
        return;
    };
    let mut bank = Bank::new(rt.alloc());
    let read = read_back(rt.alloc(), &mut store, two, &mut bank, 10);
    assert!(rt; read.is_ok());
    let Ok(id) = read else {
        return;
    };
    let reached = matches!(bank.term_node(id), TermNode::Eigen(5));
    assert!(rt; reached);
}

// A term of 2^60 leaves, all of them one cell.
fn doubled(store: &mut Store) -> Result<CellId, Memory>
    ensures { IfOk result (λ id. id.0 < length store.new.cells) }
{
    let mut term = store.push(Cell::Eigen(1))?;
    'doublings: for _ in 0..60 {
        let list = store.list(&[term])?;
        term = store.push(Cell::App(term, list))?;
    }
    Ok(term)
}

#[test]
fn a_form_of_too_many_nodes_is_refused(rt: HostRuntime) {
    let mut store = Store::new(rt.alloc());
    let Ok(term) = doubled(&mut store) else {
        return;
    };
    let mut bank = Bank::new(rt.alloc());
    let read = read_back(rt.alloc(), &mut store, term, &mut bank, 1000);
    let stopped = matches!(read, Err(TermRefusal::Deep(1000)));
    assert!(rt; stopped);
}
