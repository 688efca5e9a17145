ghost use Rattle.std.specs.Prelude.{◌≡◌, ◌<◌, length, IfOk};
ghost use Rattle.lp_store.specs.Contents.{cell_at};

use lp_base::Memory;
use lp_store::{Cell, CellId, Env, EnvEntry, Store};

// A variable, and an eigenconstant that it can be bound to.
fn pair(store: &mut Store) -> Result<(CellId, CellId), Memory>
    ensures variable { IfOk result (λ p. cell_at store.new p.0.0 ≡ Cell.Logic 0) }
    ensures eigen { IfOk result (λ p. cell_at store.new p.1.0 ≡ Cell.Eigen 5) }
    ensures first { IfOk result (λ p. p.0.0 < length store.new.cells) }
    ensures second { IfOk result (λ p. p.1.0 < length store.new.cells) }
{
    let variable = store.push(Cell::Logic(0))?;
    let eigen = store.push(Cell::Eigen(5))?;
    Ok((variable, eigen))
}

#[test]
fn undo_takes_back_a_binding(rt: HostRuntime) {
    let mut store = Store::new(rt.alloc());
    let Ok((variable, eigen)) = pair(&mut store) else {
        return;
    };
    let mark = store.mark();
    let bound = store.bind(variable, eigen).is_ok();
    assert!(rt; bound);
    store.undo(mark);
}

#[test]
fn lists_texts_and_environments_are_told(rt: HostRuntime) {
    let mut store = Store::new(rt.alloc());
    let Ok(variable) = store.push(Cell::TypeVar) else {
        return;
    };
    let Ok(list) = store.list(&[variable]) else {
        return;
    };
    let Ok(text) = store.text(b"ab") else {
        return;
    };
    let Ok(env) = store.env(EnvEntry::Dummy(3), Env::nil()) else {
        return;
    };
    let items = store.items(list).len();
    assert!(rt; items == 1);
    let bytes = store.bytes(text).len();
    assert!(rt; bytes == 2);
    let dummy = matches!(store.entry(env), Some((EnvEntry::Dummy(3), _)));
    assert!(rt; dummy);
    let none = store.entry(Env::nil()).is_none();
    assert!(rt; none);
}
