// Terms as goals, keys, values and answers.
#![tactic(auto, using(crate::proofs::Marks::marks_kept, crate::proofs::Marks::goes_kept))]

ghost use Rattle.lp_goal.specs.Kinds.{IsList, StandsKind};

use super::Heap;
use super::tested::known;
use crate::key::GoalKey;
use crate::outcome::{faulted, refused};
use lp_arith::{Value, evaluate};
use lp_base::{Compare, Memory, RUN_LIMIT};
use lp_code::{Key, KeyRef};
use lp_goal::{GoalKind, kind_of_goal, spine_of};
use lp_impl::Head;
use lp_model::Ending;
use lp_store::{Cell, CellId, List, Store};
use lp_susp::{expose, read_back};
use lp_term::{Bank, TermId};

/// A goal that is known at run time only, by its head-normal form.
#[derive(Clone, Copy)]
pub(crate) enum Goal {
    True,
    And(CellId, CellId),
    Or(CellId, CellId),
    All(CellId),
    Some(CellId),
    Equal(CellId, CellId),
    Is(CellId, CellId),
    Order(Compare, CellId, CellId),
    // An atom that clauses may meet; its types and arguments are those of the goal at hand.
    Call(Head),
    Flexible,
}

// The cells of a list in the place of others.
fn load_list(store: &Store, list: List, out: &mut Vec<CellId>) -> Result<(), Memory>
    requires { IsList store.now list }
{
    out.clear();
    out.extend_from_slice(store.items(list))?;
    Ok(())
}

// The bytes of a string.
fn bytes_of(store: &Store, text: CellId) -> &[u8] {
    if !store.has(text) {
        return &[];
    }
    match store.cell(text) {
        Cell::Text(bytes) => store.bytes(bytes),
        _ => &[],
    }
}

// The parts of a type in front of others. Whether it is a variable.
fn put_parts(store: &Store, cell: CellId, stack: &mut Vec<CellId>) -> Result<bool, Memory> {
    if !store.has(cell) {
        return Ok(false);
    }
    match store.cell(cell) {
        Cell::TypeVar => return Ok(true),
        Cell::Ref(to) => stack.push(to)?,
        Cell::TypeCon(_, list) => stack.extend_from_slice(store.items(list))?,
        Cell::TypeArrow(from, to) => {
            stack.push(from)?;
            stack.push(to)?;
        }
        _ => {}
    }
    Ok(false)
}

// The goal by what it is; the types and arguments of an atom in the place of others.
fn goal_of(
    store: &Store,
    kind: GoalKind,
    types: &mut Vec<CellId>,
    arguments: &mut Vec<CellId>,
) -> Result<Goal, Memory>
    requires { StandsKind store.now kind }
{
    match kind {
        GoalKind::True => Ok(Goal::True),
        GoalKind::And(left, right) => Ok(Goal::And(left, right)),
        GoalKind::Or(left, right) => Ok(Goal::Or(left, right)),
        GoalKind::All(term) => Ok(Goal::All(term)),
        GoalKind::Some(term) => Ok(Goal::Some(term)),
        GoalKind::Equal(left, right) => Ok(Goal::Equal(left, right)),
        GoalKind::Is(left, right) => Ok(Goal::Is(left, right)),
        GoalKind::Order(order, left, right) => Ok(Goal::Order(order, left, right)),
        GoalKind::Flexible => Ok(Goal::Flexible),
        GoalKind::Call(head, of, on) => {
            load_list(store, of, types)?;
            load_list(store, on, arguments)?;
            Ok(Goal::Call(head))
        }
    }
}

impl Heap {
    /// What a goal is, or how the search ends.
    pub(crate) fn look_at_goal(&mut self, goal: CellId) -> Result<Result<Goal, Ending>, Memory> {
        let term = known(&mut self.store, goal)?;
        match kind_of_goal(self.alloc, &mut self.store, term) {
            Ok(kind) => {
                let goal = goal_of(&self.store, kind, &mut self.types, &mut self.arguments)?;
                Ok(Ok(goal))
            }
            Err(refusal) => Ok(Err(refused(refusal)?)),
        }
    }

    /// The key of a term, which is brought to its head-normal form; or how the search ends.
    pub(crate) fn look_at_key(&mut self, term: CellId) -> Result<Result<GoalKey, Ending>, Memory> {
        let there = known(&mut self.store, term)?;
        match spine_of(self.alloc, &mut self.store, there) {
            Ok(spine) => Ok(Ok(match self.store.cell(spine.head) {
                Cell::Const(constant, _) => GoalKey::Const(constant),
                Cell::Int(integer) => GoalKey::Int(integer),
                Cell::Text(_) => GoalKey::Text(spine.head),
                Cell::Eigen(_) => GoalKey::Eigen,
                _ => GoalKey::None,
            })),
            Err(refusal) => Ok(Err(refused(refusal)?)),
        }
    }

    /// Whether a goal with this key may meet a clause with that one.
    pub(crate) fn may_meet(&self, goal: GoalKey, clause: &Key) -> bool {
        match clause {
            Key::None => true,
            Key::Const(constant) => goal.is_constant(*constant),
            Key::Int(integer) => goal.is_integer(*integer),
            Key::Text(text) => match goal {
                GoalKey::None => true,
                GoalKey::Text(cell) => bytes_of(&self.store, cell) == text.as_slice(),
                _ => false,
            },
        }
    }

    /// The key of the clauses that a goal with this key meets besides those without one.
    pub(crate) fn clause_key(&self, goal: GoalKey) -> KeyRef<'_> {
        match goal {
            GoalKey::Const(constant) => KeyRef::Const(constant),
            GoalKey::Int(integer) => KeyRef::Int(integer),
            GoalKey::Text(cell) => KeyRef::Text(bytes_of(&self.store, cell)),
            GoalKey::None | GoalKey::Eigen => KeyRef::None,
        }
    }

    /// The level of the eigenconstant that a term is.
    pub(crate) fn look_at_eigen(&mut self, term: CellId) -> Result<Option<u64>, Memory> {
        let there = known(&mut self.store, term)?;
        let exposed = expose(self.alloc, &mut self.store, there)?;
        match self.store.cell(exposed) {
            Cell::Eigen(level) => Ok(Some(level)),
            _ => Ok(None),
        }
    }

    /// The value of an expression, or how the search ends.
    pub(crate) fn value_of(&mut self, expression: CellId) -> Result<Result<Value, Ending>, Memory> {
        let there = known(&mut self.store, expression)?;
        match evaluate(self.alloc, &mut self.store, there) {
            Ok(value) => Ok(Ok(value)),
            Err(refusal) => Ok(Err(faulted(refusal)?)),
        }
    }

    /// The beta-normal form of a term in a bank, or how the search ends.
    pub(crate) fn read_back(
        &mut self,
        term: CellId,
        bank: &mut Bank,
    ) -> Result<Result<TermId, Ending>, Memory> {
        let there = known(&mut self.store, term)?;
        match read_back(self.alloc, &mut self.store, there, bank, RUN_LIMIT) {
            Ok(id) => Ok(Ok(id)),
            Err(refusal) => Ok(Err(refused(refusal)?)),
        }
    }

    /// Whether a variable stands in a type; nothing where it takes too many nodes.
    pub(crate) fn is_open_type(&self, of: CellId) -> Result<Option<bool>, Memory> {
        let mut stack = Vec::new(self.alloc);
        stack.push(of)?;
        for _ in 0..RUN_LIMIT {
            let Some(at) = stack.pop() else {
                return Ok(Some(false));
            };
            if put_parts(&self.store, at, &mut stack)? {
                return Ok(Some(true));
            }
        }
        Ok(None)
    }
}
