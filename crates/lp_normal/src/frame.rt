// What waits for the list in the making.

use crate::clauses::ClauseList;
use crate::goals::{GoalList, Waiting};
use lp_model::{Clause, Goal};
use lp_term::{TermId, TypeId};

/// What waits for a list of goals: a goal of another list, or a clause.
#[derive(Drop)]
pub(crate) enum Frame {
    /// The goals are the left ones of a `;`.
    Left(GoalList, Waiting),
    /// They are the right ones.
    Right(GoalList, Vec<Goal>),
    /// They are those of a `pi`.
    All(GoalList, TypeId),
    /// They are proved under clauses.
    Assume(GoalList, Vec<Clause>),
    /// They are denied.
    Not(GoalList),
    /// They are the body of a clause with this head.
    Body(ClauseList, Vec<TypeId>, TermId),
}

/// The list in the making.
#[derive(Drop)]
pub(crate) enum Inner {
    Goals(GoalList),
    Clauses(ClauseList),
}

/// The outermost list, when it is made.
#[derive(Drop)]
pub(crate) enum Made {
    Goals(Vec<Goal>),
    Clauses(Vec<Clause>),
}

/// The list to go on with, or the outermost one.
#[derive(Drop)]
pub(crate) enum Move {
    On(Inner),
    Done(Made),
}
