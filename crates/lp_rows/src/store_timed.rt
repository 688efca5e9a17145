// Rows that bench/store.sh times.
ghost use Rattle.std.specs.Prelude.{◌≡◌, ◌<◌, ◌≤◌, length, OnOk};
ghost use Rattle.lp_store.specs.Contents.{cell_at};
ghost use Rattle.lp_store.specs.Change.{KeepsMarks};

use lp_base::Memory;
use lp_store::{Cell, CellId, Store};
use std::alloc::Global;

// A new variable, bound to the eigenconstant.
fn bind_new(store: &mut Store, eigen: CellId) -> Result<(), Memory>
    requires eigen { cell_at store.old eigen.0 ≡ Cell.Eigen 5 }
    requires within { eigen.0 < length store.old.cells }
    ensures eigen { OnOk result (cell_at store.new eigen.0 ≡ Cell.Eigen 5) }
    ensures within { OnOk result (eigen.0 < length store.new.cells) }
    ensures marks { KeepsMarks store.old store.new }
{
    let _mark = store.mark();
    let variable = store.push(Cell::Logic(0))?;
    store.bind(variable, eigen)?;
    Ok(())
}

fn binds_and_undoes(alloc: Global, n: u64) -> bool {
    let mut store = Store::new(alloc);
    let Ok(eigen) = store.push(Cell::Eigen(5)) else {
        return false;
    };
    let mark = store.mark();
    'bindings: for _ in 0..n {
        let Ok(()) = bind_new(&mut store, eigen) else {
            return false;
        };
    }
    store.undo(mark);
    true
}

#[test]
fn a_binding_and_undo(rt: HostRuntime) {
    let alloc = rt.alloc();
    assert!(rt; binds_and_undoes(alloc, 1));
}

#[test]
fn bindings_100000_and_undo(rt: HostRuntime) {
    let alloc = rt.alloc();
    assert!(rt; binds_and_undoes(alloc, 100_000));
}

#[test]
fn bindings_1000000_and_undo(rt: HostRuntime) {
    let alloc = rt.alloc();
    assert!(rt; binds_and_undoes(alloc, 1_000_000));
}
