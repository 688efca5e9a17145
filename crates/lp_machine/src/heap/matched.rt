// Arguments that heads are matched against.
#![tactic(auto, using(crate::proofs::Marks::marks_kept, crate::proofs::Marks::goes_kept))]

ghost use Rattle.lp_goal.specs.Spines.{IsThere};

use super::registers::at;
use super::sizes::followed;
use super::tested::known;
use super::{Heap, UNSET};
use crate::outcome::{Turn, refused, unified};
use lp_base::Memory;
use lp_goal::{Spine, spine_of};
use lp_model::Ending;
use lp_store::{Cell, CellId, Store};
use std::alloc::Global;

/// What the goal's argument is, for a head that wants a constant on arguments: these, and the cell of the constant; rigid, and not these; a variable, or what has to be
/// looked at as a term.
#[derive(Clone, Copy)]
pub(crate) enum Looked {
    Same(CellId),
    Differs,
    Other,
    Ended(Ending),
}

/// A constant on so many types and arguments.
#[derive(Clone, Copy)]
pub(crate) struct Wanted {
    pub(crate) constant: u32,
    pub(crate) types: usize,
    pub(crate) arguments: usize,
}

/// The types and the arguments of the goal's argument that a head is matched against.
#[derive(Drop)]
pub(crate) struct Matched {
    types: Vec<CellId>,
    arguments: Vec<CellId>,
}

impl Matched {
    pub(crate) fn new(alloc: Global) -> Matched {
        Matched {
            types: Vec::new(alloc),
            arguments: Vec::new(alloc),
        }
    }

    // These types and arguments in the place of others.
    fn load(&mut self, types: &[CellId], arguments: &[CellId]) -> Result<(), Memory> {
        self.types.clear();
        self.types.extend_from_slice(types)?;
        self.arguments.clear();
        self.arguments.extend_from_slice(arguments)?;
        Ok(())
    }
}

// What a head-normal term is for a head.
fn compared(
    store: &Store,
    spine: Spine,
    wanted: Wanted,
    matched: &mut Matched,
) -> Result<Looked, Memory>
    requires { IsThere store.now spine }
{
    match store.cell(spine.head) {
        Cell::Const(constant, list) => {
            let types = store.items(list);
            let arguments = spine.arguments(store);
            if constant != wanted.constant
                || types.len() != wanted.types
                || arguments.len() != wanted.arguments
            {
                return Ok(Looked::Differs);
            }
            matched.load(types, arguments)?;
            Ok(Looked::Same(spine.head))
        }
        Cell::Int(_) | Cell::Text(_) | Cell::Eigen(_) => Ok(Looked::Differs),
        _ => Ok(Looked::Other),
    }
}

// A type that has no parts, by its kind; a variable has none.
#[derive(Clone, Copy, PartialEq, Eq)]
enum Plain {
    Variable(usize),
    Kind(u32),
}

fn plain_of(store: &Store, cell: CellId) -> Option<Plain> {
    let (at, found) = followed(store, cell)?;
    match found {
        Cell::TypeVar => Some(Plain::Variable(at.0)),
        Cell::TypeCon(kind, list) => {
            if store.items(list).is_empty() {
                Some(Plain::Kind(kind))
            } else {
                None
            }
        }
        _ => None,
    }
}

// Whether two types are one kind without parts, or one variable.
fn are_plain(store: &Store, left: CellId, right: CellId) -> bool {
    match (plain_of(store, left), plain_of(store, right)) {
        (Some(one), Some(other)) => one == other,
        _ => false,
    }
}

impl Heap {
    /// What an argument of the goal at hand is for a head; its types and arguments are those that are matched then.
    pub(crate) fn look_at_argument(
        &mut self,
        number: u8,
        wanted: Wanted,
    ) -> Result<Looked, Memory> {
        let argument = self.argument(number);
        let there = known(&mut self.store, argument)?;
        match spine_of(self.alloc, &mut self.store, there) {
            Ok(spine) => {
                let looked = compared(&self.store, spine, wanted, &mut self.matched)?;
                Ok(looked)
            }
            Err(refusal) => Ok(Looked::Ended(refused(refusal)?)),
        }
    }

    /// The integer that an argument of the goal at hand is, where that needs no reduction to be seen.
    pub(crate) fn integer_at(&self, number: u8) -> Option<i64> {
        let (_, found) = followed(&self.store, self.argument(number))?;
        match found {
            Cell::Int(integer) => Some(integer),
            _ => None,
        }
    }

    /// A type that is matched.
    pub(crate) fn matched_type(&self, place: usize) -> CellId {
        at(&self.matched.types, place)
    }

    /// An argument that is matched.
    pub(crate) fn matched_argument(&self, place: usize) -> CellId {
        at(&self.matched.arguments, place)
    }

    /// Whether a register of those from a place on is set.
    pub(crate) fn is_set(&self, from: usize, number: u16) -> bool {
        self.register(from, number).0 != UNSET.0
    }

    /// Takes the unit of a pair, as a part of the unification at work.
    pub(crate) fn take_pair(&mut self) -> Result<Turn, Memory> {
        unified(self.round.pair())
    }

    /// A variable that stands nowhere else is a value of so many nodes, as a part of the unification at work.
    pub(crate) fn name(&mut self, nodes: u64) -> Result<Turn, Memory> {
        unified(self.round.name(nodes))
    }

    /// Whether a type is a kind without parts, or a variable.
    pub(crate) fn is_plain(&self, cell: CellId) -> bool {
        plain_of(&self.store, cell).is_some()
    }

    /// Makes two types one, as `pair_types` does.
    pub(crate) fn match_types(&mut self, left: CellId, right: CellId) -> Result<Turn, Memory> {
        if are_plain(&self.store, left, right) {
            return self.take_pair();
        }
        self.pair_types(left, right)
    }
}
