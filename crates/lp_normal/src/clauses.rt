// Clauses in the making.
ghost use Rattle.std.specs.Prelude.{◌≡◌, ℕ, length, [], ◌∷◌, ◌++◌, map, IfOk, OnOk, List, reverse};
ghost use Rattle.lp_term.specs.Nodes.{Nodes, type_tree};
ghost use Rattle.lp_model.specs.Flat.{Goals};
ghost use Rattle.lp_normal.specs.Flats.{IsFlatList};
ghost use Rattle.lp_normal.specs.Within.{IsClauseListIn, IsScopeIn};
ghost use Rattle.lp_normal.specs.declared.clauses.Part.{Part};
ghost use Rattle.lp_normal.specs.declared.clauses.Link.{Link};
ghost use Rattle.lp_normal.specs.Making.{IsScopeOf, vars_in, body_in, Flatten};

use crate::goals::{GoalList, Waiting};
use lp_base::Memory;
use lp_model::Clause;
use lp_term::{TermId, TypeId};
use std::alloc::Global;

/// What stands around a part of a clause formula: a variable of the clauses, or a formula before their bodies.
#[derive(Clone, Copy)]
pub(crate) enum Link {
    Variable(TypeId),
    Guard(TermId),
}

/// A part of a clause formula is to be flattened, or the innermost link to be left.
#[derive(Clone, Copy)]
pub(crate) enum Part {
    Visit(TermId),
    Leave,
}

/// The goals for which clauses are assumed: the list in which they stand, and their formula.
#[derive(Drop)]
pub(crate) struct Assumed {
    pub(crate) outer: GoalList,
    pub(crate) goal: Waiting,
}

/// A list of clauses in the making: those so far, the parts that wait, the next one last, and what stands around the next one, the outermost first.
#[derive(Drop)]
pub(crate) struct ClauseList {
    pub(crate) type_vars: u32,
    pub(crate) assumed: Option<Assumed>,
    pub(crate) done: Vec<Clause>,
    pub(crate) waiting: Vec<Part>,
    pub(crate) around: Vec<Link>,
}

/// The variables of a clause, index 0 first, and the formulas of its body, the first one last. In the making both are the other way round.
#[derive(Drop)]
pub(crate) struct Scope {
    pub(crate) vars: Vec<TypeId>,
    pub(crate) body: Vec<Waiting>,
}

impl ClauseList {
    /// The list of the clauses of one formula.
    pub(crate) fn of(
        alloc: Global,
        formula: TermId,
        type_vars: u32,
        assumed: Option<Assumed>,
    ) -> Result<ClauseList, Memory>
        ensures type_vars { IfOk result (λ l. l.type_vars ≡ type_vars) }
        ensures assumed { IfOk result (λ l. l.assumed ≡ assumed) }
        ensures done { IfOk result (λ l. l.done.items ≡ []) }
        ensures waiting { IfOk result (λ l. l.waiting.items ≡ Part.Visit formula ∷ []) }
        ensures around { IfOk result (λ l. l.around.items ≡ []) }
    {
        let mut waiting = Vec::new(alloc);
        waiting.push(Part::Visit(formula))?;
        Ok(ClauseList {
            type_vars,
            assumed,
            done: Vec::new(alloc),
            waiting,
            around: Vec::new(alloc),
        })
    }

    /// Both parts in place of the one that they were joined to.
    pub(crate) fn wait_for(mut self, left: TermId, right: TermId) -> Result<ClauseList, Memory>
        ensures type_vars { IfOk result (λ l. l.type_vars ≡ self.type_vars) }
        ensures assumed { IfOk result (λ l. l.assumed ≡ self.assumed) }
        ensures done { IfOk result (λ l. l.done ≡ self.done) }
        ensures waiting { IfOk result (λ l. l.waiting.items ≡ (self.waiting.items ++ Part.Visit right ∷ []) ++ Part.Visit left ∷ []) }
        ensures around { IfOk result (λ l. l.around ≡ self.around) }
    {
        self.waiting.push(Part::Visit(right))?;
        self.waiting.push(Part::Visit(left))?;
        Ok(self)
    }

    /// The part with the link around it.
    pub(crate) fn enter(mut self, link: Link, part: TermId) -> Result<ClauseList, Memory>
        ensures type_vars { IfOk result (λ l. l.type_vars ≡ self.type_vars) }
        ensures assumed { IfOk result (λ l. l.assumed ≡ self.assumed) }
        ensures done { IfOk result (λ l. l.done ≡ self.done) }
        ensures waiting { IfOk result (λ l. l.waiting.items ≡ (self.waiting.items ++ Part.Leave ∷ []) ++ Part.Visit part ∷ []) }
        ensures around { IfOk result (λ l. l.around.items ≡ self.around.items ++ link ∷ []) }
    {
        self.waiting.push(Part::Leave)?;
        self.waiting.push(Part::Visit(part))?;
        self.around.push(link)?;
        Ok(self)
    }

    /// What the links around an atom are to its clause.
    pub(crate) fn scope(&self, alloc: Global) -> Result<Scope, Memory>
        ensures within { IfOk result (λ s. (b : Nodes) → IsClauseListIn b self.now → IsScopeIn b s) }
        ensures vars { IfOk result (λ s. (b : Nodes) → map (λ T. type_tree b T.0) s.vars.items ≡ vars_in b (reverse self.now.around.items)) }
        ensures body { IfOk result (λ s. (b : Nodes) (gs : Goals) → IsFlatList (body_in b (reverse self.now.around.items)) gs → Flatten b (length s.vars.items) (reverse s.body.items) gs) }
    {
        let mut scope = Scope {
            vars: Vec::new(alloc),
            body: Vec::new(alloc),
        };
        let around = self.around.as_slice();
        'links: for link in around {
            scope.enter(*link)?;
        }
        scope.vars.reverse();
        scope.body.reverse();
        Ok(scope)
    }

    /// One clause more.
    pub(crate) fn with(mut self, clause: Clause) -> Result<ClauseList, Memory>
        ensures type_vars { IfOk result (λ l. l.type_vars ≡ self.type_vars) }
        ensures assumed { IfOk result (λ l. l.assumed ≡ self.assumed) }
        ensures done { IfOk result (λ l. l.done.items ≡ self.done.items ++ clause ∷ []) }
        ensures waiting { IfOk result (λ l. l.waiting ≡ self.waiting) }
        ensures around { IfOk result (λ l. l.around ≡ self.around) }
    {
        self.done.push(clause)?;
        Ok(self)
    }
}

impl Scope {
    // Inside one link more.
    fn enter(&mut self, link: Link) -> Result<(), Memory>
        ensures { OnOk result ((around : List Link) → IsScopeOf around self.old → IsScopeOf (around ++ link ∷ []) self.new) }
    {
        match link {
            Link::Variable(bound) => {
                self.vars.push(bound)?;
                Ok(())
            }
            Link::Guard(formula) => {
                let level = self.vars.len() as u64;
                self.body.push(Waiting { formula, level })?;
                Ok(())
            }
        }
    }
}
