// Flattened goals and clauses by number. A goal's parts are named by numbers of lists.
ghost use Rattle.std.specs.Prelude.{◌≡◌, ℕ, suc, ◌+◌, ◌<◌, ◌≤◌, true, false, None, max, List, ◌++◌, ◌∷◌, [], length, map, Some, slice_get, IfOk, OnOk};
ghost use Rattle.lp_term.specs.Nodes.{Nodes};
ghost use Rattle.lp_model.specs.Flat.{Either, assuming, denied};
ghost use Rattle.lp_model.specs.Flattened.{goal_of, goals_of, clause_of, clauses_of};
ghost use Rattle.lp_normal.specs.Within.{AreClausesIn, AreGoalsIn, clause_term_bound, highest, term_bound};
ghost use Rattle.lp_plain.specs.Tables.{IsGoal, IsList, AreGoals, IsRule, AreRules, IsListOf, AreClausesOf, Never, shown};
ghost use Rattle.lp_plain.specs.Within.{IsFlatIn, IsTableIn};
ghost use Rattle.lp_plain.specs.inner.Collecting.{goal_weight, goals_weight, clause_weight, clauses_weight};
ghost use Rattle.lp_plain.specs.inner.Tabling.{AreTermsIn, Coming, LeadsTo, IsPut, Stays, up_to};

use crate::free::{Free, free_in_clauses, free_in_goals};
use crate::head::{HeadPair, Key, first_key, head_args};
use lp_base::Memory;
use lp_model::{Clause, Goal};
use lp_term::{Bank, TermId, spine_of};
use std::alloc::Global;

/// Numbers from one to before another.
#[derive(Clone, Copy)]
pub(crate) struct Span {
    pub(crate) from: usize,
    pub(crate) to: usize,
}

/// A flattened goal, with the numbers of its lists of goals and those of its clauses.
#[derive(Clone, Copy)]
pub(crate) enum Flat {
    Atom(TermId),
    Cut,
    Either(usize, usize),
    Some(usize),
    All(usize),
    /// With the number of what is written in the clauses.
    Assume(Span, usize, usize),
    /// With the number of what is written in the goals.
    Not(usize, usize),
}

/// A flattened clause.
#[derive(Drop)]
pub(crate) struct Rule {
    pub(crate) type_vars: u32,
    /// The constant or variable at the head.
    pub(crate) head: TermId,
    /// For each variable the head argument that it is, if it stands in no earlier one.
    pub(crate) slots: Vec<Option<usize>>,
    /// The other arguments.
    pub(crate) pairs: Vec<HeadPair>,
    pub(crate) key: Option<Key>,
    /// The number of the list of its goals.
    pub(crate) body: usize,
    /// The next program clause with this head.
    pub(crate) next: Option<usize>,
}

/// All flattened goals, lists of goals and clauses of a search, and what is written in those that are negated and assumed.
#[derive(Drop)]
pub(crate) struct Table {
    goals: Vec<Flat>,
    lists: Vec<Span>,
    pub(crate) rules: Vec<Rule>,
    frees: Vec<Free>,
}

impl Table {
    pub(crate) fn new(alloc: Global) -> Table
        ensures goals { result.goals.items ≡ [] }
        ensures rules { result.rules.items ≡ [] }
    {
        Table {
            goals: Vec::new(alloc),
            lists: Vec::new(alloc),
            rules: Vec::new(alloc),
            frees: Vec::new(alloc),
        }
    }

    /// The goal of a number.
    pub(crate) fn goal(&self, number: usize) -> Option<Flat>
        ensures { result ≡ slice_get self.now.goals.items number }
    {
        match self.goals.get(number) {
            Some(goal) => Some(*goal),
            None => None,
        }
    }

    /// The numbers of the goals of a list.
    pub(crate) fn list(&self, number: usize) -> Option<Span>
        ensures { result ≡ slice_get self.now.lists.items number }
    {
        match self.lists.get(number) {
            Some(span) => Some(*span),
            None => None,
        }
    }

    /// Whether there is a clause of this number.
    pub(crate) fn has_rule(&self, number: usize) -> bool
        ensures there { result ≡ true → number < length self.now.rules.items }
        ensures none { result ≡ false → slice_get self.now.rules.items number ≡ None }
    {
        let count = self.rules.len();
        if number < count {
            return true;
        }
        false
    }

    /// The clause of a number.
    pub(crate) fn rule(&self, number: usize) -> &Rule
        requires { number < length self.now.rules.items }
        ensures { slice_get self.now.rules.items number ≡ Some result.now }
    {
        let Some(rule) = self.rules.get(number) else {
            unreachable!()
        };
        rule
    }

    /// Whether something that is written has this number.
    pub(crate) fn has_free(&self, number: usize) -> bool
        ensures there { result ≡ true → number < length self.now.frees.items }
        ensures none { result ≡ false → slice_get self.now.frees.items number ≡ None }
    {
        let count = self.frees.len();
        if number < count {
            return true;
        }
        false
    }

    /// What is written in goals or clauses, by its number.
    pub(crate) fn free(&self, number: usize) -> &Free
        requires { number < length self.now.frees.items }
        ensures { slice_get self.now.frees.items number ≡ Some result.now }
    {
        let Some(free) = self.frees.get(number) else {
            unreachable!()
        };
        free
    }

    fn put_free(&mut self, free: Free) -> Result<usize, Memory>
        ensures number { IfOk result (λ number. slice_get self.new.frees.items number ≡ Some free) }
        ensures frees { OnOk result (self.new.frees.items ≡ self.old.frees.items ++ free ∷ []) }
        ensures goals { self.new.goals ≡ self.old.goals }
        ensures lists { self.new.lists ≡ self.old.lists }
        ensures rules { self.new.rules ≡ self.old.rules }
    {
        let number = self.frees.len();
        self.frees.push(free)?;
        Ok(number)
    }

    // The number of a list whose goals are still to come.
    fn wait<'a>(
        &mut self,
        goals: &'a [Goal],
        waiting: &mut Vec<&'a [Goal]>,
    ) -> Result<usize, Memory>
        ensures goals { self.new.goals ≡ self.old.goals }
        ensures rules { self.new.rules ≡ self.old.rules }
        ensures put { IfOk result (λ list. (b : Nodes) → IsPut b self.old self.new waiting.old.items waiting.new.items (suc (goals_weight (goals_of b goals.now))) (λ c t. IsList b c t list (goals_of b goals.now))) }
        ensures within { OnOk result ((n : ℕ) → Stays n (highest (map term_bound goals.now)) self.old self.new waiting.old.items waiting.new.items) }
    {
        let number = self.lists.len();
        self.lists.push(Span { from: 0, to: 0 })?;
        waiting.push(goals)?;
        Ok(number)
    }

    fn add_clause<'a>(
        &mut self,
        alloc: Global,
        bank: &Bank,
        clause: &'a Clause,
        waiting: &mut Vec<&'a [Goal]>,
    ) -> Result<(), Memory>
        ensures goals { self.new.goals ≡ self.old.goals }
        ensures one { OnOk result (length self.new.rules.items ≡ suc (length self.old.rules.items)) }
        ensures put { OnOk result (IsPut bank.now self.old self.new waiting.old.items waiting.new.items (clause_weight (clause_of bank.now clause.now)) (λ c t. IsRule bank.now c t (length self.old.rules.items) (clause_of bank.now clause.now))) }
        ensures within { OnOk result (Stays (length bank.now.terms) (clause_term_bound clause.now) self.old self.new waiting.old.items waiting.new.items) }
    {
        let spine = spine_of(alloc, bank, clause.head)?;
        let found = head_args(alloc, bank, clause.vars.len(), spine.args.as_slice())?;
        let key = first_key(bank, spine.args.as_slice());
        let body = self.wait(clause.body.as_slice(), waiting)?;
        self.rules.push(Rule {
            type_vars: clause.type_vars,
            head: spine.head,
            slots: found.slots,
            pairs: found.pairs,
            key,
            body,
            next: None,
        })?;
        Ok(())
    }

    fn add_clauses<'a>(
        &mut self,
        alloc: Global,
        bank: &Bank,
        clauses: &'a [Clause],
        waiting: &mut Vec<&'a [Goal]>,
    ) -> Result<Span, Memory>
        ensures goals { self.new.goals ≡ self.old.goals }
        ensures put { IfOk result (λ s. IsPut bank.now self.old self.new waiting.old.items waiting.new.items (clauses_weight (clauses_of bank.now clauses.now)) (λ c t. AreRules bank.now c t s.from s.to (clauses_of bank.now clauses.now))) }
        ensures within { OnOk result (Stays (length bank.now.terms) (highest (map clause_term_bound clauses.now)) self.old self.new waiting.old.items waiting.new.items) }
        ensures ends { IfOk result (λ s. s.to ≡ length self.new.rules.items) }
        ensures from { IfOk result (λ s. (s.from ≡ length self.old.rules.items) × (s.from ≤ s.to)) }
    {
        let from = self.rules.len();
        let mut rest = clauses;
        'clauses: while let Some((clause, others)) = rest.split_first() {
            self.add_clause(alloc, bank, clause, waiting)?;
            rest = others;
        }
        let to = self.rules.len();
        Ok(Span { from, to })
    }

    // Assumed clauses in front of goals, with what is written in the clauses.
    fn put_assume<'a>(
        &mut self,
        alloc: Global,
        bank: &Bank,
        clauses: &'a [Clause],
        goals: &'a [Goal],
        waiting: &mut Vec<&'a [Goal]>,
    ) -> Result<Flat, Memory>
        ensures goals { self.new.goals ≡ self.old.goals }
        ensures put { IfOk result (λ flat. IsPut bank.now self.old self.new waiting.old.items waiting.new.items (goal_weight (assuming (clauses_of bank.now clauses.now) (goals_of bank.now goals.now))) (λ c t. IsGoal bank.now c t flat (assuming (clauses_of bank.now clauses.now) (goals_of bank.now goals.now)))) }
        ensures within { OnOk result (Stays (length bank.now.terms) (max (highest (map clause_term_bound clauses.now)) (highest (map term_bound goals.now))) self.old self.new waiting.old.items waiting.new.items) }
        ensures flat { IfOk result (λ flat. (n : ℕ) → IsFlatIn n flat) }
    {
        let written = free_in_clauses(alloc, bank, clauses)?;
        let assumed = self.add_clauses(alloc, bank, clauses, waiting)?;
        let list = self.wait(goals, waiting)?;
        let free = self.put_free(written)?;
        Ok(Flat::Assume(assumed, list, free))
    }

    // Goals that are denied, with what is written in them.
    fn put_not<'a>(
        &mut self,
        alloc: Global,
        bank: &Bank,
        goals: &'a [Goal],
        waiting: &mut Vec<&'a [Goal]>,
    ) -> Result<Flat, Memory>
        ensures goals { self.new.goals ≡ self.old.goals }
        ensures put { IfOk result (λ flat. IsPut bank.now self.old self.new waiting.old.items waiting.new.items (goal_weight (denied (goals_of bank.now goals.now))) (λ c t. IsGoal bank.now c t flat (denied (goals_of bank.now goals.now)))) }
        ensures within { OnOk result (Stays (length bank.now.terms) (highest (map term_bound goals.now)) self.old self.new waiting.old.items waiting.new.items) }
        ensures flat { IfOk result (λ flat. (n : ℕ) → IsFlatIn n flat) }
    {
        let written = free_in_goals(alloc, bank, goals)?;
        let list = self.wait(goals, waiting)?;
        let free = self.put_free(written)?;
        Ok(Flat::Not(list, free))
    }

    fn put_either<'a>(
        &mut self,
        left: &'a [Goal],
        right: &'a [Goal],
        waiting: &mut Vec<&'a [Goal]>,
    ) -> Result<Flat, Memory>
        ensures goals { self.new.goals ≡ self.old.goals }
        ensures put { IfOk result (λ flat. (b : Nodes) → IsPut b self.old self.new waiting.old.items waiting.new.items (goal_weight (Either (goals_of b left.now) (goals_of b right.now))) (λ c t. IsGoal b c t flat (Either (goals_of b left.now) (goals_of b right.now)))) }
        ensures within { OnOk result ((n : ℕ) → Stays n (max (highest (map term_bound left.now)) (highest (map term_bound right.now))) self.old self.new waiting.old.items waiting.new.items) }
        ensures flat { IfOk result (λ flat. (n : ℕ) → IsFlatIn n flat) }
    {
        let one = self.wait(left, waiting)?;
        let other = self.wait(right, waiting)?;
        Ok(Flat::Either(one, other))
    }

    fn flattened<'a>(
        &mut self,
        alloc: Global,
        bank: &Bank,
        goal: &'a Goal,
        waiting: &mut Vec<&'a [Goal]>,
    ) -> Result<Flat, Memory>
        ensures goals { self.new.goals ≡ self.old.goals }
        ensures put { IfOk result (λ flat. IsPut bank.now self.old self.new waiting.old.items waiting.new.items (goal_weight (goal_of bank.now goal.now)) (λ c t. IsGoal bank.now c t flat (goal_of bank.now goal.now))) }
        ensures within { OnOk result (Stays (length bank.now.terms) (term_bound goal.now) self.old self.new waiting.old.items waiting.new.items) }
        ensures flat { IfOk result (λ flat. term_bound goal.now ≤ length bank.now.terms → IsFlatIn (length bank.now.terms) flat) }
    {
        match goal {
            Goal::Atom(term) => Ok(Flat::Atom(*term)),
            Goal::Cut => Ok(Flat::Cut),
            Goal::Either(left, right) => {
                let flat = self.put_either(left.as_slice(), right.as_slice(), waiting)?;
                Ok(flat)
            }
            Goal::Some(_, goals) => {
                let list = self.wait(goals.as_slice(), waiting)?;
                Ok(Flat::Some(list))
            }
            Goal::All(_, goals) => {
                let list = self.wait(goals.as_slice(), waiting)?;
                Ok(Flat::All(list))
            }
            Goal::Assume(clauses, goals) => {
                let flat = self.put_assume(
                    alloc,
                    bank,
                    clauses.as_slice(),
                    goals.as_slice(),
                    waiting,
                )?;
                Ok(flat)
            }
            Goal::Not(goals) => {
                let flat = self.put_not(alloc, bank, goals.as_slice(), waiting)?;
                Ok(flat)
            }
        }
    }

    // Adds the goals of a list. Their numbers.
    fn add_list<'a>(
        &mut self,
        alloc: Global,
        bank: &Bank,
        goals: &'a [Goal],
        waiting: &mut Vec<&'a [Goal]>,
    ) -> Result<Span, Memory>
        ensures put { IfOk result (λ s. IsPut bank.now self.old self.new waiting.old.items waiting.new.items (goals_weight (goals_of bank.now goals.now)) (λ c t. AreGoals bank.now c t s.from s.to (goals_of bank.now goals.now))) }
        ensures within { OnOk result (Stays (length bank.now.terms) (highest (map term_bound goals.now)) self.old self.new waiting.old.items waiting.new.items) }
    {
        let from = self.goals.len();
        let mut rest = goals;
        'goals: while let Some((goal, others)) = rest.split_first() {
            let flat = self.flattened(alloc, bank, goal, waiting)?;
            self.goals.push(flat)?;
            rest = others;
        }
        let to = self.goals.len();
        Ok(Span { from, to })
    }

    // Adds the goals of the lists that are to come, the first of which has this number, and of those that come with them.
    fn fill<'a>(
        &mut self,
        alloc: Global,
        bank: &Bank,
        first: usize,
        waiting: &mut Vec<&'a [Goal]>,
    ) -> Result<(), Memory>
        requires { length self.old.lists.items ≡ first + length waiting.old.items }
        ensures filled { OnOk result (LeadsTo bank.now (Coming bank.now first waiting.old.items) Never (up_to first self.old) (shown self.new)) }
        ensures within { OnOk result (AreTermsIn (length bank.now.terms) self.old waiting.old.items → IsTableIn (length bank.now.terms) self.new) }
    {
        let mut done = 0usize;
        'lists: while done < waiting.len() {
            let goals = waiting[done];
            let span = self.add_list(alloc, bank, goals, waiting)?;
            self.lists[first + done] = span;
            done += 1;
        }
        Ok(())
    }

    /// Adds the goals, and gives the number of their list.
    pub(crate) fn put_goals(
        &mut self,
        alloc: Global,
        bank: &Bank,
        goals: &Vec<Goal>,
    ) -> Result<usize, Memory>
        ensures means { IfOk result (λ list. IsListOf bank.now self.new list (goals_of bank.now goals.now.items)) }
        ensures kept { OnOk result (LeadsTo bank.now Never Never (shown self.old) (shown self.new)) }
        ensures within { OnOk result (AreGoalsIn bank.now goals.now.items → IsTableIn (length bank.now.terms) self.old → IsTableIn (length bank.now.terms) self.new) }
    {
        let first = self.lists.len();
        let mut waiting = Vec::new(alloc);
        let list = self.wait(goals.as_slice(), &mut waiting)?;
        self.fill(alloc, bank, first, &mut waiting)?;
        Ok(list)
    }

    /// Adds the clauses, and gives their numbers.
    pub(crate) fn put_clauses(
        &mut self,
        alloc: Global,
        bank: &Bank,
        clauses: &Vec<Clause>,
    ) -> Result<Span, Memory>
        ensures means { IfOk result (λ span. AreClausesOf bank.now self.new span (clauses_of bank.now clauses.now.items)) }
        ensures kept { OnOk result (LeadsTo bank.now Never Never (shown self.old) (shown self.new)) }
        ensures within { OnOk result (AreClausesIn bank.now clauses.now.items → IsTableIn (length bank.now.terms) self.old → IsTableIn (length bank.now.terms) self.new) }
        ensures ends { IfOk result (λ span. span.to ≤ length self.new.rules.items) }
        ensures from { IfOk result (λ span. (length self.old.rules.items ≤ span.from) × (span.from ≤ span.to)) }
    {
        let first = self.lists.len();
        let mut waiting = Vec::new(alloc);
        let span = self.add_clauses(alloc, bank, clauses.as_slice(), &mut waiting)?;
        self.fill(alloc, bank, first, &mut waiting)?;
        Ok(span)
    }
}
