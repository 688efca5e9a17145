ghost use Rattle.std.specs.Prelude.{◌≡◌, ℕ, suc, ◌+◌, ◌<◌, ◌≤◌, length, List, [], ◌∷◌, IfOk, IfSome, All, map, Some, None};
ghost use Rattle.lp_calculus.specs.Term.{Term, index, abs, apply, replace};
ghost use Rattle.lp_store.specs.Contents.{Contents, cell_at, span, env_list};
ghost use Rattle.lp_store.specs.Reading.{Avoids, AvoidsAll, parts, Reads, ReadAll, values, carried, FitsEntry};
ghost use Rattle.lp_store.specs.Sound.{Stands, StandsEntry};
ghost use Rattle.lp_store.specs.Change.{Extends, KeepsMarks};
ghost use Rattle.lp_susp.specs.Pending.{IsPending, Carries, Raises, entry_of};
ghost use Rattle.lp_susp.specs.Kept.{IsExposed};

use lp_base::Memory;
use lp_store::{Cell, CellId, Env, EnvEntry, Span, Store};
use std::alloc::Global;

/// A suspension without its term.
#[derive(Clone, Copy)]
pub(crate) struct Pending {
    pub(crate) ol: u64,
    pub(crate) nl: u64,
    pub(crate) env: Env,
}

// The entry of this number, if there are as many.
fn entry_at(store: &Store, env: Env, number: u64) -> Option<EnvEntry>
    requires { env.0 ≤ length store.now.envs }
    ensures entry { result ≡ entry_of (env_list store.now.envs env.0) number }
    ensures stands { IfSome result (StandsEntry (length store.now.cells)) }
{
    let mut at = env;
    let mut left = number;
    'entries: loop {
        let Some((entry, rest)) = store.entry(at) else {
            return None;
        };
        if left == 0 {
            return Some(entry);
        }
        left -= 1;
        at = rest;
    }
}

fn suspend(store: &mut Store, term: CellId, pending: Pending) -> Result<CellId, Memory>
    requires term { term.0 < length store.old.cells }
    requires pending { IsPending store.old pending }
    ensures reads { IfOk result (λ id. (m r : Term) → Reads store.old term.0 m → Carries store.old pending m r → Reads store.new id.0 r) }
    ensures avoids { IfOk result (λ id. (c : ℕ) → c < length store.old.cells → Avoids store.old c term.0 → AvoidsAll store.old c (values (env_list store.old.envs pending.env.0)) → Avoids store.new c id.0) }
    ensures within { IfOk result (λ id. id.0 < length store.new.cells) }
    ensures kept { Extends store.old store.new }
    ensures marks { KeepsMarks store.old store.new }
{
    let id = store.push(Cell::Susp(term, pending.ol, pending.nl, pending.env))?;
    Ok(id)
}

fn carry_index(
    store: &mut Store,
    cell: CellId,
    index: u64,
    pending: Pending,
) -> Result<CellId, Memory>
    requires cell { cell.0 < length store.old.cells }
    requires index { cell_at store.old cell.0 ≡ Cell.Index index }
    requires pending { IsPending store.old pending }
    ensures reads { IfOk result (λ id. (m r : Term) → Reads store.old cell.0 m → Carries store.old pending m r → Reads store.new id.0 r) }
    ensures avoids { IfOk result (λ id. (c : ℕ) → c < length store.old.cells → AvoidsAll store.old c (values (env_list store.old.envs pending.env.0)) → Avoids store.new c id.0) }
    ensures within { IfOk result (λ id. id.0 < length store.new.cells) }
    ensures kept { Extends store.old store.new }
    ensures marks { KeepsMarks store.old store.new }
{
    match entry_at(store, pending.env, index) {
        None => {
            let Some(raised) = (index - pending.ol).checked_add(pending.nl) else {
                return Err(Memory);
            };
            let above = store.push(Cell::Index(raised))?;
            Ok(above)
        }
        Some(EnvEntry::Dummy(level)) => {
            let bound = store.push(Cell::Index(pending.nl - level - 1))?;
            Ok(bound)
        }
        Some(EnvEntry::Value(value, level)) => {
            if level == pending.nl {
                return Ok(value);
            }
            let raise = Pending {
                ol: 0,
                nl: pending.nl - level,
                env: Env::nil(),
            };
            let id = suspend(store, value, raise)?;
            Ok(id)
        }
    }
}

// The environment, with the value in front of it raised in a cell of its own to stand below so many abstractions: all that
// take the value there share that cell.
fn raise_first(store: &mut Store, env: Env, nl: u64) -> Result<Env, Memory>
    requires env { env.0 ≤ length store.old.envs }
    requires fits { All (FitsEntry nl) (env_list store.old.envs env.0) }
    ensures raises { IfOk result (λ made. Raises store.old store.new nl (env_list store.old.envs env.0) (env_list store.new.envs made.0)) }
    ensures avoids { IfOk result (λ made. (c : ℕ) → c < length store.old.cells → AvoidsAll store.old c (values (env_list store.old.envs env.0)) → AvoidsAll store.new c (values (env_list store.new.envs made.0))) }
    ensures within { IfOk result (λ made. made.0 ≤ length store.new.envs) }
    ensures kept { Extends store.old store.new }
    ensures marks { KeepsMarks store.old store.new }
{
    let _mark = store.mark();
    let Some((first, rest)) = store.entry(env) else {
        return Ok(env);
    };
    let EnvEntry::Value(value, level) = first else {
        return Ok(env);
    };
    let raise = Pending {
        ol: 0,
        nl: nl - level,
        env: Env::nil(),
    };
    let raised = suspend(store, value, raise)?;
    let made = store.env(EnvEntry::Value(raised, nl), rest)?;
    Ok(made)
}

// The suspension below one more abstraction.
fn below(store: &mut Store, pending: Pending) -> Result<Pending, Memory>
    requires pending { IsPending store.old pending }
    ensures pending { IfOk result (IsPending store.new) }
    ensures carries { IfOk result (λ inner. (m r : Term) → Carries store.old pending (abs m) r → (n : Term) × Carries store.new inner m n × (abs n ≡ r)) }
    ensures avoids { IfOk result (λ inner. (c : ℕ) → c < length store.old.cells → AvoidsAll store.old c (values (env_list store.old.envs pending.env.0)) → AvoidsAll store.new c (values (env_list store.new.envs inner.env.0))) }
    ensures kept { Extends store.old store.new }
    ensures marks { KeepsMarks store.old store.new }
{
    if pending.nl == u64::MAX || pending.ol == u64::MAX {
        return Err(Memory);
    }
    let nl = pending.nl + 1;
    let raised = raise_first(store, pending.env, nl)?;
    let _mark = store.mark();
    let env = store.env(EnvEntry::Dummy(pending.nl), raised)?;
    Ok(Pending {
        ol: pending.ol + 1,
        nl,
        env,
    })
}

fn carry_abstraction(store: &mut Store, body: CellId, pending: Pending) -> Result<CellId, Memory>
    requires body { body.0 < length store.old.cells }
    requires pending { IsPending store.old pending }
    ensures reads { IfOk result (λ id. (m r : Term) → Reads store.old body.0 m → Carries store.old pending (abs m) r → Reads store.new id.0 r) }
    ensures avoids { IfOk result (λ id. (c : ℕ) → c < length store.old.cells → Avoids store.old c body.0 → AvoidsAll store.old c (values (env_list store.old.envs pending.env.0)) → Avoids store.new c id.0) }
    ensures within { IfOk result (λ id. id.0 < length store.new.cells) }
    ensures kept { Extends store.old store.new }
    ensures marks { KeepsMarks store.old store.new }
{
    let _mark = store.mark();
    let inner = below(store, pending)?;
    let inside = suspend(store, body, inner)?;
    let id = store.push(Cell::Abs(inside))?;
    Ok(id)
}

fn suspend_all(
    alloc: Global,
    store: &mut Store,
    terms: &[CellId],
    pending: Pending,
) -> Result<Vec<CellId>, Memory>
    requires terms { All (λ t. t.0 < length store.old.cells) terms.now }
    requires pending { IsPending store.old pending }
    ensures reads { IfOk result (λ made. (us ws : List Term) → ReadAll store.old (values (env_list store.old.envs pending.env.0)) us → ReadAll store.old (map (λ t. t.0) terms.now) ws →
        ReadAll store.new (map (λ t. t.0) made.items) (map (replace (carried pending.nl (env_list store.old.envs pending.env.0) us) 0) ws)) }
    ensures avoids { IfOk result (λ id. (c : ℕ) → c < length store.old.cells → AvoidsAll store.old c (map (λ t. t.0) terms.now) → AvoidsAll store.old c (values (env_list store.old.envs pending.env.0)) → AvoidsAll store.new c (map (λ t. t.0) id.items)) }
    ensures within { IfOk result (λ made. All (λ t. t.0 < length store.new.cells) made.items) }
    ensures count { IfOk result (λ made. length made.items ≡ length terms.now) }
    ensures kept { Extends store.old store.new }
    ensures marks { KeepsMarks store.old store.new }
{
    let _mark = store.mark();
    let mut made = Vec::new(alloc);
    for term in terms {
        let id = suspend(store, *term, pending)?;
        made.push(id)?;
    }
    Ok(made)
}

fn carry_application(
    alloc: Global,
    store: &mut Store,
    head: CellId,
    arguments: Span,
    pending: Pending,
) -> Result<CellId, Memory>
    requires app { Stands store.old (Cell.App head arguments) }
    requires pending { IsPending store.old pending }
    ensures reads { IfOk result (λ id. (m r : Term) (ws : List Term) → Reads store.old head.0 m → ReadAll store.old (map (λ t. t.0) (span store.old.items arguments.from arguments.count)) ws → Carries store.old pending (apply m ws) r → Reads store.new id.0 r) }
    ensures avoids { IfOk result (λ id. (c : ℕ) → c < length store.old.cells → AvoidsAll store.old c (parts store.old (Cell.App head arguments)) → AvoidsAll store.old c (values (env_list store.old.envs pending.env.0)) → Avoids store.new c id.0) }
    ensures within { IfOk result (λ id. id.0 < length store.new.cells) }
    ensures kept { Extends store.old store.new }
    ensures marks { KeepsMarks store.old store.new }
{
    let _mark = store.mark();
    let terms = Vec::from_slice(alloc, store.items(arguments))?;
    let made = suspend_all(alloc, store, terms.as_slice(), pending)?;
    let list = store.list(made.as_slice())?;
    let inside = suspend(store, head, pending)?;
    let id = store.push(Cell::App(inside, list))?;
    Ok(id)
}

/// The suspension of an exposed cell, carried one node inwards.
pub(crate) fn carry(
    alloc: Global,
    store: &mut Store,
    cell: CellId,
    pending: Pending,
) -> Result<CellId, Memory>
    requires cell { cell.0 < length store.old.cells }
    requires exposed { IsExposed (cell_at store.old cell.0) }
    requires pending { IsPending store.old pending }
    ensures reads { IfOk result (λ id. (m r : Term) → Reads store.old cell.0 m → Carries store.old pending m r → Reads store.new id.0 r) }
    ensures avoids { IfOk result (λ id. (c : ℕ) → c < length store.old.cells → Avoids store.old c cell.0 → AvoidsAll store.old c (values (env_list store.old.envs pending.env.0)) → Avoids store.new c id.0) }
    ensures within { IfOk result (λ id. id.0 < length store.new.cells) }
    ensures kept { Extends store.old store.new }
    ensures marks { KeepsMarks store.old store.new }
{
    match store.cell(cell) {
        Cell::Index(index) => {
            let id = carry_index(store, cell, index, pending)?;
            Ok(id)
        }
        Cell::Abs(body) => {
            let id = carry_abstraction(store, body, pending)?;
            Ok(id)
        }
        Cell::App(head, arguments) => {
            let id = carry_application(alloc, store, head, arguments, pending)?;
            Ok(id)
        }
        _ => Ok(cell),
    }
}
