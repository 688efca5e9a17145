// What the walk over the proof works on.

use crate::bound::Bound;
use crate::forms::{Formed, applied, normal};
use crate::sorts::{Sorts, learn};
use lp_base::Memory;
use lp_model::ProofNode;
use lp_plain::{Act, Search, Try};
use lp_term::{Bank, Changed, TermId, TermRefusal, TypeId, put_type_variable};
use std::alloc::Global;
use std::collections::HashMap;

/// A formula that is assumed, with the number of the first assumption of its clauses, and how many they are. The first clause has the last assumption.
#[derive(Clone, Copy)]
pub(crate) struct Assumed {
    pub(crate) formula: TermId,
    pub(crate) first: usize,
    pub(crate) count: usize,
}

/// Which part of a clause is focused on, and how many of its variables are still to be given a value.
#[derive(Clone, Copy)]
pub(crate) struct Aim {
    pub(crate) tried: Try,
    pub(crate) part: usize,
    pub(crate) left: usize,
}

/// What is to be proved next. Goals and clauses are in normal form.
#[derive(Clone, Copy)]
pub(crate) enum Task {
    Goal(TermId),
    Focus(TermId, Aim),
    /// The newest eigenconstant is left.
    Leave,
    /// The newest assumption is given up.
    Forget,
}

/// The proof so far, in a bank of its own, and what is to be proved, the next one last.
#[derive(Drop)]
pub(crate) struct Walk {
    pub(crate) alloc: Global,
    pub(crate) bank: Bank,
    /// What the terms of the search have become with all bindings put in.
    filled: Changed,
    /// What clause formulas have become, and their normal forms, by their numbers.
    pub(crate) copied: Changed,
    pub(crate) formulas: HashMap<usize, Formed>,
    pub(crate) sorts: Sorts,
    pub(crate) eigens: Vec<TypeId>,
    pub(crate) assumed: Vec<Assumed>,
    /// How many acts of the search are passed.
    acts: usize,
    pub(crate) tasks: Vec<Task>,
    pub(crate) nodes: Vec<ProofNode>,
}

impl Walk {
    pub(crate) fn new(alloc: Global) -> Walk {
        Walk {
            alloc,
            bank: Bank::new(alloc),
            filled: Changed::new(alloc),
            copied: Changed::new(alloc),
            formulas: HashMap::new(alloc),
            sorts: HashMap::new(alloc),
            eigens: Vec::new(alloc),
            assumed: Vec::new(alloc),
            acts: 0,
            tasks: Vec::new(alloc),
            nodes: Vec::new(alloc),
        }
    }

    /// The next act of the search.
    pub(crate) fn next_act(&mut self, search: &Search) -> Result<Act, Memory> {
        let Some(act) = search.act(self.acts) else {
            return Err(Memory);
        };
        self.acts = self.acts.saturating_add(1);
        Ok(act)
    }

    /// One node more.
    pub(crate) fn put(&mut self, node: ProofNode) -> Result<(), Memory> {
        self.nodes.push(node)?;
        Ok(())
    }

    /// One task more, which is the next one.
    pub(crate) fn wait_for(&mut self, task: Task) -> Result<(), Memory> {
        self.tasks.push(task)?;
        Ok(())
    }

    /// A goal is next. Where it is not in normal form, it is taken as its form first.
    pub(crate) fn wait_for_goal(&mut self, goal: Formed) -> Result<(), Memory> {
        if goal.changed {
            self.put(ProofNode::Conv(goal.term))?;
        }
        self.wait_for(Task::Goal(goal.term))
    }

    /// A clause is next. Where it is not in normal form, it is taken as its form first.
    pub(crate) fn wait_for_clause(&mut self, clause: Formed, aim: Aim) -> Result<(), Memory> {
        if clause.changed {
            self.put(ProofNode::FocusConv(clause.term))?;
        }
        self.wait_for(Task::Focus(clause.term, aim))
    }

    /// A term of the search with all bindings put in.
    pub(crate) fn filled(&mut self, search: &Search, term: TermId) -> Result<TermId, Memory> {
        let bound = Bound { search };
        self.filled
            .copy(self.alloc, &bound, search.bank(), term, &mut self.bank)
    }

    /// A type of the search with all bindings put in.
    pub(crate) fn filled_type(&mut self, search: &Search, of: TypeId) -> Result<TypeId, Memory> {
        let bound = Bound { search };
        self.filled
            .copy_type(self.alloc, &bound, search.bank(), of, &mut self.bank)
    }

    /// The type that a type variable of the search stands for.
    pub(crate) fn type_at(&mut self, search: &Search, variable: u64) -> Result<TypeId, Memory> {
        match search.type_value(variable) {
            Some(of) => self.filled_type(search, of),
            None => put_type_variable(&mut self.bank, variable),
        }
    }

    /// The value that a term of the search stands for, in normal form. It has this type.
    pub(crate) fn value(
        &mut self,
        search: &Search,
        term: TermId,
        of: TypeId,
    ) -> Result<TermId, TermRefusal> {
        let whole = self.filled(search, term)?;
        let value = normal(self.alloc, &mut self.bank, whole)?;
        learn(
            self.alloc,
            &mut self.bank,
            &self.eigens,
            &mut self.sorts,
            value.term,
            of,
        )?;
        Ok(value.term)
    }

    /// The term on a value, in normal form.
    pub(crate) fn applied(&mut self, term: TermId, value: TermId) -> Result<Formed, TermRefusal> {
        applied(self.alloc, &mut self.bank, term, value)
    }
}
