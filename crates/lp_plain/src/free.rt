// The variables that are written in goals and in clauses: by what they stand for, a negated goal is open or not.
ghost use Rattle.std.specs.Prelude.{◌≡◌, ℕ, [], ◌++◌, ◌⊎◌, ◌+◌, map, nat_eq, true, false, IfOk, OnOk};
ghost use Rattle.std.specs.List.{IsDistinct};
ghost use Rattle.lp_calculus.specs.Types.{var};
ghost use Rattle.lp_calculus.specs.Term.{index as loose};
ghost use Rattle.lp_term.specs.Nodes.{Nodes, tree, type_tree};
ghost use Rattle.lp_model.specs.Flat.{collect_goals, collect_clauses};
ghost use Rattle.lp_model.specs.Flattened.{goal_of, goals_of, clause_of, clauses_of};
ghost use Rattle.lp_plain.specs.declared.free.Part.{Part};
ghost use Rattle.lp_plain.specs.Collected.{is_in, AreCollected};
ghost use Rattle.lp_plain.specs.inner.Collecting.{Sought, Piece, in_goals, in_clauses, in_term, in_type, number_of, goal_passes, clause_passes, stands, goal_weight, clause_weight, piece, IsSplit, IsPutFor, IsOpened, has, found_of, is_marked};

use crate::below::Below;
use indexmap::IndexSet;
use lp_base::Memory;
use lp_model::{Clause, Goal};
use lp_term::{Bank, TermId, TermNode, TypeId, TypeNode};
use std::alloc::Global;

/// The indices that are loose in goals or clauses, counted from where these stand, and the type variables in the type arguments of
/// their constants and in the types of their parameters. Each is there once.
#[derive(Drop)]
pub(crate) struct Free {
    pub(crate) variables: Vec<u64>,
    pub(crate) types: Vec<u64>,
}

// What is still to be looked at, below so many binders.
#[derive(Clone, Copy)]
enum Part<'a> {
    Goals(&'a [Goal], u64),
    Clauses(&'a [Clause], u64),
    Term(TermId, u64),
    Type(TypeId),
}

// Shared terms and types are looked at once at each depth.
#[derive(Drop)]
struct Walk<'a> {
    left: Vec<Part<'a>>,
    terms: IndexSet<Below>,
    types: IndexSet<usize>,
    variables: IndexSet<u64>,
    type_variables: IndexSet<u64>,
}

// No memory holds more binders than fit.
fn deeper(depth: u64, binders: u64) -> Result<u64, Memory>
    ensures { IfOk result (λ inner. inner ≡ depth + binders) }
{
    match depth.checked_add(binders) {
        Some(inner) => Ok(inner),
        None => Err(Memory),
    }
}

// What is looked at for a goal.
fn push_goal<'a>(goal: &'a Goal, depth: u64, left: &mut Vec<Part<'a>>) -> Result<(), Memory>
    ensures { OnOk result ((b : Nodes) → IsSplit b left.old.items left.new.items (goal_weight (goal_of b goal.now)) (goal_passes depth (goal_of b goal.now))) }
{
    match goal {
        Goal::Atom(term) => {
            left.push(Part::Term(*term, depth))?;
            Ok(())
        }
        Goal::Cut => Ok(()),
        Goal::Either(one, other) => {
            left.push(Part::Goals(one.as_slice(), depth))?;
            left.push(Part::Goals(other.as_slice(), depth))?;
            Ok(())
        }
        Goal::Some(_, goals) => {
            let inner = deeper(depth, 1)?;
            left.push(Part::Goals(goals.as_slice(), inner))?;
            Ok(())
        }
        Goal::All(_, goals) => {
            let inner = deeper(depth, 1)?;
            left.push(Part::Goals(goals.as_slice(), inner))?;
            Ok(())
        }
        Goal::Assume(clauses, goals) => {
            left.push(Part::Clauses(clauses.as_slice(), depth))?;
            left.push(Part::Goals(goals.as_slice(), depth))?;
            Ok(())
        }
        Goal::Not(goals) => {
            left.push(Part::Goals(goals.as_slice(), depth))?;
            Ok(())
        }
    }
}

// The first goal, and the others behind it.
fn push_goals<'a>(goals: &'a [Goal], depth: u64, left: &mut Vec<Part<'a>>) -> Result<(), Memory>
    ensures { OnOk result ((b : Nodes) → IsPutFor b left.old.items left.new.items (in_goals depth (goals_of b goals.now))) }
{
    let Some((first, rest)) = goals.split_first() else {
        return Ok(());
    };
    push_goal(first, depth, left)?;
    left.push(Part::Goals(rest, depth))?;
    Ok(())
}

// A clause binds its variables in its head and its body.
fn push_clause<'a>(clause: &'a Clause, depth: u64, left: &mut Vec<Part<'a>>) -> Result<(), Memory>
    ensures { OnOk result ((b : Nodes) → IsSplit b left.old.items left.new.items (clause_weight (clause_of b clause.now)) (clause_passes depth (clause_of b clause.now))) }
{
    let inner = deeper(depth, clause.vars.len() as u64)?;
    left.push(Part::Term(clause.head, inner))?;
    left.push(Part::Goals(clause.body.as_slice(), inner))?;
    Ok(())
}

// The first clause, and the others behind it.
fn push_clauses<'a>(
    clauses: &'a [Clause],
    depth: u64,
    left: &mut Vec<Part<'a>>,
) -> Result<(), Memory>
    ensures { OnOk result ((b : Nodes) → IsPutFor b left.old.items left.new.items (in_clauses depth (clauses_of b clauses.now))) }
{
    let Some((first, rest)) = clauses.split_first() else {
        return Ok(());
    };
    push_clause(first, depth, left)?;
    left.push(Part::Clauses(rest, depth))?;
    Ok(())
}

fn push_terms<'a>(terms: &[TermId], depth: u64, left: &mut Vec<Part<'a>>) -> Result<(), Memory>
    ensures { OnOk result (left.new.items ≡ left.old.items ++ map (λ t. Part.Term t depth) terms.now) }
{
    for term in terms.iter().copied() {
        left.push(Part::Term(term, depth))?;
    }
    Ok(())
}

fn push_types<'a>(types: &[TypeId], left: &mut Vec<Part<'a>>) -> Result<(), Memory>
    ensures { OnOk result (left.new.items ≡ left.old.items ++ map (λ t. Part.Type t) types.now) }
{
    for of in types.iter().copied() {
        left.push(Part::Type(of))?;
    }
    Ok(())
}

impl<'a> Walk<'a> {
    fn new(alloc: Global) -> Walk<'a>
        ensures left { result.left.items ≡ [] }
        ensures found { (x : Sought) → has result x ≡ false }
        ensures marks { (i : Piece) → is_marked result i ≡ false }
    {
        Walk {
            left: Vec::new(alloc),
            terms: IndexSet::new(alloc),
            types: IndexSet::new(alloc),
            variables: IndexSet::new(alloc),
            type_variables: IndexSet::new(alloc),
        }
    }

    // Marks a term or a type. Whether it is new; goals and clauses are always.
    fn mark(&mut self, part: Part<'a>) -> Result<bool, Memory>
        ensures left { OnOk result (self.new.left ≡ self.old.left) }
        ensures found { OnOk result ((x : Sought) → has self.new x ≡ has self.old x) }
        ensures met { IfOk result (λ new. new ≡ false → (b : Nodes) → is_marked self.old (piece b part.entry) ≡ true) }
        ensures marks { OnOk result ((b : Nodes) → (i : Piece) → is_marked self.new i ≡ true → (i ≡ piece b part.entry) ⊎ (is_marked self.old i ≡ true)) }
    {
        match part {
            Part::Goals(_, _) => Ok(true),
            Part::Clauses(_, _) => Ok(true),
            Part::Term(term, depth) => {
                let new = self.terms.insert(Below {
                    term: term.0,
                    depth,
                })?;
                Ok(new)
            }
            Part::Type(of) => {
                let new = self.types.insert(of.0)?;
                Ok(new)
            }
        }
    }

    fn open_index(&mut self, index: u64, depth: u64) -> Result<(), Memory>
        ensures { OnOk result ((b : Nodes) (n : ℕ) → tree b n ≡ loose index → IsOpened b self.old self.new (in_term depth n)) }
    {
        if index < depth {
            return Ok(());
        }
        self.variables.insert(index - depth)?;
        Ok(())
    }

    fn open_term(&mut self, bank: &Bank, term: TermId, depth: u64) -> Result<(), Memory>
        ensures { OnOk result (IsOpened bank.now self.old self.new (in_term depth term.0)) }
    {
        match bank.term_node(term) {
            TermNode::Index(index) => self.open_index(index, depth),
            TermNode::Const(_, types) => push_types(types, &mut self.left),
            TermNode::Abs(body) => {
                let inner = deeper(depth, 1)?;
                self.left.push(Part::Term(body, inner))?;
                Ok(())
            }
            TermNode::App(head, args) => {
                self.left.push(Part::Term(head, depth))?;
                push_terms(args, depth, &mut self.left)
            }
            TermNode::Param(_, of) => {
                self.left.push(Part::Type(of))?;
                Ok(())
            }
            _ => Ok(()),
        }
    }

    fn open_variable(&mut self, number: u64) -> Result<(), Memory>
        ensures { OnOk result ((b : Nodes) (n : ℕ) → type_tree b n ≡ var number → IsOpened b self.old self.new (in_type n)) }
    {
        self.type_variables.insert(number)?;
        Ok(())
    }

    fn open_type(&mut self, bank: &Bank, of: TypeId) -> Result<(), Memory>
        ensures { OnOk result (IsOpened bank.now self.old self.new (in_type of.0)) }
    {
        match bank.type_node(of) {
            TypeNode::Var(number) => self.open_variable(number),
            TypeNode::Param(_) => Ok(()),
            TypeNode::Con(_, parts) => push_types(parts, &mut self.left),
            TypeNode::Arrow(from, to) => {
                self.left.push(Part::Type(from))?;
                self.left.push(Part::Type(to))?;
                Ok(())
            }
        }
    }

    // Puts what is looked at for a part behind the others, or finds a variable.
    fn open(&mut self, bank: &Bank, part: Part<'a>) -> Result<(), Memory>
        ensures { OnOk result (IsOpened bank.now self.old self.new (piece bank.now part.entry)) }
    {
        match part {
            Part::Goals(goals, depth) => push_goals(goals, depth, &mut self.left),
            Part::Clauses(clauses, depth) => push_clauses(clauses, depth, &mut self.left),
            Part::Term(term, depth) => self.open_term(bank, term, depth),
            Part::Type(of) => self.open_type(bank, of),
        }
    }

    // What was found.
    fn found(&self, alloc: Global) -> Result<Free, Memory>
        ensures same { IfOk result (λ free. (x : Sought) → is_in (number_of x) (found_of free x) ≡ has self.now x) }
        ensures once { IfOk result (λ free. (x : Sought) → IsDistinct nat_eq (found_of free x)) }
    {
        let variables = Vec::from_slice(alloc, self.variables.as_slice())?;
        let types = Vec::from_slice(alloc, self.type_variables.as_slice())?;
        Ok(Free { variables, types })
    }
}

// What is written in a part.
fn free_in(alloc: Global, bank: &Bank, part: Part<'_>) -> Result<Free, Memory>
    ensures same { IfOk result (λ free. (x : Sought) → is_in (number_of x) (found_of free x) ≡ stands bank.now x (piece bank.now part.entry)) }
    ensures once { IfOk result (λ free. (x : Sought) → IsDistinct nat_eq (found_of free x)) }
{
    let mut walk = Walk::new(alloc);
    walk.left.push(part)?;
    'parts: while let Some(next) = walk.left.pop() {
        if !walk.mark(next)? {
            continue;
        }
        walk.open(bank, next)?;
    }
    let free = walk.found(alloc)?;
    Ok(free)
}

/// What is written in goals.
pub(crate) fn free_in_goals(alloc: Global, bank: &Bank, goals: &[Goal]) -> Result<Free, Memory>
    ensures { IfOk result (λ free. AreCollected free (λ f. collect_goals f 0 (goals_of bank.now goals.now))) }
{
    let free = free_in(alloc, bank, Part::Goals(goals, 0))?;
    Ok(free)
}

/// What is written in clauses.
pub(crate) fn free_in_clauses(
    alloc: Global,
    bank: &Bank,
    clauses: &[Clause],
) -> Result<Free, Memory>
    ensures { IfOk result (λ free. AreCollected free (λ f. collect_clauses f 0 (clauses_of bank.now clauses.now))) }
{
    let free = free_in(alloc, bank, Part::Clauses(clauses, 0))?;
    Ok(free)
}

/// What is written in a term.
pub(crate) fn free_in_term(alloc: Global, bank: &Bank, term: TermId) -> Result<Free, Memory>
    ensures { IfOk result (λ free. AreCollected free (λ f. f 0 (tree bank.now term.0))) }
{
    let free = free_in(alloc, bank, Part::Term(term, 0))?;
    Ok(free)
}
