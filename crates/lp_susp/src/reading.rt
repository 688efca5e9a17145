ghost use Rattle.std.specs.Prelude.{◌≡◌, ℕ, ◌+◌, ◌<◌, ◌≤◌, length, List, [], ◌∷◌, ◌++◌, slice_index_or, IfOk, IfErr, OnOk, All, IfSome, None};
ghost use Rattle.lp_calculus.specs.Term.{Term};
ghost use Rattle.lp_calculus.specs.Convert.{head_step, leftmost_step, Reduces};
ghost use Rattle.lp_calculus.specs.Normal.{nodes};
ghost use Rattle.lp_store.specs.Contents.{Contents, cell_at, span};
ghost use Rattle.lp_store.specs.Reading.{Reads};
ghost use Rattle.lp_store.specs.Change.{KeepsMarks};
ghost use Rattle.lp_term.specs.Nodes.{Nodes, tree, Extends};
ghost use Rattle.lp_susp.specs.Kept.{IsExposed, Reduced};
ghost use Rattle.lp_susp.specs.Counted.{IsDeepBeta, StaysLarge};
ghost use Rattle.lp_susp.specs.Frames.{Plugged, FrameStands, StateStands, StateOf, nodes_around, nodes_built};

use crate::exposing::expose;
use crate::reducing::{Budget, reduce};
use crate::type_reading::read_types;
use lp_base::Memory;
use lp_store::{Cell, CellId, Span, Store};
use lp_term::{Bank, TermId, TermNode, TermRefusal};
use std::alloc::Global;

// What stands around the part that is read: an abstraction, a head whose arguments follow, or an argument of what is built
// so far with the arguments that follow.
#[derive(Clone, Copy)]
pub(crate) enum Frame {
    Under,
    Head(Span),
    Argument(TermId, Span),
}

// The part that is read: a cell, a cell that reads head-normal, or what was built for one.
#[derive(Clone, Copy)]
pub(crate) enum State {
    Fresh(CellId),
    Known(CellId),
    Built(TermId),
}

// The leaf in the bank.
fn put_leaf(alloc: Global, store: &Store, leaf: CellId, bank: &mut Bank) -> Result<TermId, Memory>
    requires leaf { leaf.0 < length store.now.cells }
    requires exposed { IsExposed (cell_at store.now leaf.0) }
    ensures kept { Extends bank.old bank.new }
    ensures within { IfOk result (λ id. id.0 < length bank.new.terms) }
    ensures tree { IfOk result (λ id. (x : Term) → Reads store.now leaf.0 x → (tree bank.new id.0 ≡ x) × (leftmost_step x ≡ None)) }
    ensures one { IfOk result (λ id. nodes (tree bank.new id.0) ≡ 1) }
{
    match store.cell(leaf) {
        Cell::Const(name, list) => {
            let types = read_types(alloc, store, list, bank)?;
            let id = bank.put_term(TermNode::Const(name, types.as_slice()))?;
            Ok(id)
        }
        Cell::Int(value) => {
            let id = bank.put_term(TermNode::Int(value))?;
            Ok(id)
        }
        Cell::Text(list) => {
            let id = bank.put_term(TermNode::Text(store.bytes(list)))?;
            Ok(id)
        }
        Cell::Eigen(level) => {
            let id = bank.put_term(TermNode::Eigen(level))?;
            Ok(id)
        }
        Cell::Logic(level) => {
            let id = bank.put_term(TermNode::Logic {
                id: leaf.0 as u64,
                level,
            })?;
            Ok(id)
        }
        Cell::Index(number) => {
            let id = bank.put_term(TermNode::Index(number))?;
            Ok(id)
        }
        _ => Err(Memory),
    }
}

// From an exposed cell that reads head-normal one node downwards. `Deep` where it is one node too many.
fn descend(
    alloc: Global,
    store: &Store,
    exposed: CellId,
    bank: &mut Bank,
    frames: &mut Vec<Frame>,
    room: &mut Budget,
) -> Result<State, TermRefusal>
    requires cell { exposed.0 < length store.now.cells }
    requires exposed { IsExposed (cell_at store.now exposed.0) }
    requires frames { All (FrameStands store.now bank.old) frames.old.items }
    requires counted { nodes_around bank.old frames.old.items + room.old.left ≡ room.old.limit }
    ensures kept { Extends bank.old bank.new }
    ensures frames { OnOk result (All (FrameStands store.now bank.new) frames.new.items) }
    ensures stands { IfOk result (StateStands store.now bank.new) }
    ensures state { IfOk result (λ state. (x w : Term) → Reads store.now exposed.0 x → (head_step x ≡ None) → Plugged store.now bank.old frames.old.items x w →
        (y : Term) × StateOf store.now bank.new state y × Plugged store.now bank.new frames.new.items y w) }
    ensures counted { IfOk result (λ state. nodes_built bank.new state + nodes_around bank.new frames.new.items + room.new.left ≡ room.new.limit) }
    ensures refused { IfErr result (λ e. (x w : Term) → Plugged store.now bank.old frames.old.items x w → StaysLarge room.old.limit w e) }
    ensures limit { room.new.limit ≡ room.old.limit }
{
    match store.cell(exposed) {
        Cell::Abs(body) => {
            if room.left == 0 {
                return Err(TermRefusal::Deep(room.limit));
            }
            frames.push(Frame::Under)?;
            room.left -= 1;
            Ok(State::Known(body))
        }
        Cell::App(head, arguments) => {
            frames.push(Frame::Head(arguments))?;
            Ok(State::Known(head))
        }
        _ => {
            if room.left == 0 {
                return Err(TermRefusal::Deep(room.limit));
            }
            let id = put_leaf(alloc, store, exposed, bank)?;
            room.left -= 1;
            Ok(State::Built(id))
        }
    }
}

// The next argument of what is built.
fn next_argument(
    store: &Store,
    built: TermId,
    arguments: Span,
    frames: &mut Vec<Frame>,
) -> Result<State, Memory>
    requires list { arguments.from + arguments.count ≤ length store.now.items }
    requires some { 0 < arguments.count }
    ensures put { OnOk result ((rest : Span) × (rest.from ≡ arguments.from + 1) × (rest.count + 1 ≡ arguments.count) × (frames.new.items ≡ frames.old.items ++ Frame.Argument built rest ∷ [])) }
    ensures next { IfOk result (λ state. (c : CellId) × (state ≡ State.Fresh c) × (c ≡ slice_index_or (span store.now.items arguments.from arguments.count) 0 c) × (c.0 < length store.now.cells)) }
{
    let rest = store.tail(arguments);
    let first = store.items(arguments)[0];
    frames.push(Frame::Argument(built, rest))?;
    Ok(State::Fresh(first))
}

// From what is built one node upwards, and on to the next argument. None where nothing stands around it.
fn ascend(
    store: &Store,
    built: TermId,
    bank: &mut Bank,
    frames: &mut Vec<Frame>,
) -> Result<Option<State>, Memory>
    requires built { built.0 < length bank.old.terms }
    requires frames { All (FrameStands store.now bank.old) frames.old.items }
    ensures kept { Extends bank.old bank.new }
    ensures frames { OnOk result (All (FrameStands store.now bank.new) frames.new.items) }
    ensures stands { IfOk result (λ next. IfSome next (StateStands store.now bank.new)) }
    ensures state { IfOk result (λ next. IfSome next (λ state. (x w : Term) → (x ≡ tree bank.old built.0) → (leftmost_step x ≡ None) → Plugged store.now bank.old frames.old.items x w →
        (y : Term) × StateOf store.now bank.new state y × Plugged store.now bank.new frames.new.items y w)) }
    ensures counted { IfOk result (λ next. IfSome next (λ state. nodes_built bank.new state + nodes_around bank.new frames.new.items ≡ nodes (tree bank.old built.0) + nodes_around bank.old frames.old.items)) }
    ensures ended { IfOk result (λ next. (next ≡ None) → (frames.old.items ≡ []) × (bank.new ≡ bank.old)) }
{
    let Some(frame) = frames.pop() else {
        return Ok(None);
    };
    match frame {
        Frame::Under => {
            let id = bank.put_term(TermNode::Abs(built))?;
            Ok(Some(State::Built(id)))
        }
        Frame::Head(arguments) => {
            let state = next_argument(store, built, arguments, frames)?;
            Ok(Some(state))
        }
        Frame::Argument(head, rest) => {
            let id = bank.put_term(TermNode::App(head, &[built]))?;
            if store.items(rest).is_empty() {
                return Ok(Some(State::Built(id)));
            }
            let state = next_argument(store, id, rest, frames)?;
            Ok(Some(state))
        }
    }
}

/// The beta-normal form of the cell's term in the bank, which its reading reduces to: a form of at most `limit` nodes, where a node is a head or an abstraction.
/// What is contracted on the way is contracted in the store, so that nothing is reduced twice. `Deep` comes only where leftmost reduction takes more than `limit`
/// steps, or where the form has more nodes.
pub fn read_back(
    alloc: Global,
    store: &mut Store,
    cell: CellId,
    bank: &mut Bank,
    limit: u64,
) -> Result<TermId, TermRefusal>
    requires { cell.0 < length store.old.cells }
    ensures term { IfOk result (λ id. (t : Term) → Reads store.old cell.0 t → Reduces t (tree bank.new id.0) × (leftmost_step (tree bank.new id.0) ≡ None)) }
    ensures nodes { IfOk result (λ id. nodes (tree bank.new id.0) ≤ limit) }
    ensures refused { IfErr result (λ e. (t : Term) → Reads store.old cell.0 t → IsDeepBeta limit t e) }
    ensures within { IfOk result (λ id. id.0 < length bank.new.terms) }
    ensures kept { Extends bank.old bank.new }
    ensures reduced { Reduced store.old store.new }
    ensures marks { KeepsMarks store.old store.new }
{
    let mut budget = Budget { limit, left: limit };
    let mut room = Budget { limit, left: limit };
    let mut frames: Vec<Frame> = Vec::new(alloc);
    let mut state = State::Fresh(cell);
    for _step in 0..u64::MAX {
        match state {
            State::Fresh(at) => {
                let id = match reduce(alloc, store, at, &mut budget) {
                    Ok(id) => id,
                    Err(refusal) => return Err(refusal),
                };
                match descend(alloc, store, id, bank, &mut frames, &mut room) {
                    Ok(next) => state = next,
                    Err(refusal) => return Err(refusal),
                }
                continue;
            }
            State::Known(at) => {
                let id = expose(alloc, store, at)?;
                match descend(alloc, store, id, bank, &mut frames, &mut room) {
                    Ok(next) => state = next,
                    Err(refusal) => return Err(refusal),
                }
                continue;
            }
            State::Built(id) => {
                let Some(next) = ascend(store, id, bank, &mut frames)? else {
                    return Ok(id);
                };
                state = next;
                continue;
            }
        }
    }
    Err(TermRefusal::Memory)
}
