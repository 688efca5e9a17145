// The form of a beta-normal formula: its parts in goal and in clause position, one behind the other.
ghost use Rattle.std.specs.Prelude.{◌≡◌, ℕ, ◌+◌, ◌<◌, ◌≤◌, ◌++◌, [], ◌∷◌, List, Bool, length, slice_index_or, Option, None, false, not, IfOk, IfSome, OnOk};
ghost use Rattle.lp_calculus.specs.Term.{Term};
ghost use Rattle.lp_calculus.specs.Typing.{Scheme};
ghost use Rattle.lp_term.specs.Nodes.{Nodes, Extends, tree};
ghost use Rattle.lp_model.specs.Connected.{connective_in, IsConnectiveIn};
ghost use Rattle.lp_model.specs.Flatten.{is_goal_head, is_clause_head};
ghost use Rattle.lp_calculus.specs.Spine.{head_of};
ghost use Rattle.lp_standard.specs.Connectives.{connective_of as connective_of_term};
ghost use Rattle.lp_module.specs.Form.{Part, is_term_by, has_form_by, parts_by, below, whole};
ghost use Rattle.lp_module.specs.inner.Judging.{AreMeasured, AreHeads, IsAround, IsTask, PushesTask, PushesBody, Pushes, IsOwn, AreJoined, IsVerdict};

use crate::heads::Heads;
use crate::measure::{Measures, either};
use crate::quantified::body_of;
use lp_base::{MAX_ARGUMENTS, MAX_TERM_DEPTH, Memory};
use lp_model::{Connective, connective_of};
use lp_term::{Bank, TermId, TermNode, head_of};
use std::alloc::Global;

// A formula to be judged: whether it stands in goal position, the number of its innermost quantifier, 0 if there is none, and its depth in
// the whole.
#[derive(Clone, Copy)]
struct Task {
    goal: bool,
    formula: TermId,
    binder: usize,
    depth: u64,
}

// A quantifier: whether it is a `pi` in goal position, and the number of the one around it.
#[derive(Clone, Copy)]
struct Binder {
    goal_variable: bool,
    outer: usize,
}

/// What is wrong with a formula: it is too deep, a head has too many arguments, `=>`, `:-`, `!` or `not` stands in a term, or it has
/// another form.
#[derive(Clone, Copy)]
pub(crate) struct Verdict {
    pub deep: bool,
    pub wide: bool,
    pub in_term: bool,
    pub other: bool,
}

impl Verdict {
    // What is wrong with either.
    fn with(self, own: Verdict) -> Verdict
        ensures { AreJoined self own result }
    {
        Verdict {
            deep: either(self.deep, own.deep),
            wide: either(self.wide, own.wide),
            in_term: either(self.in_term, own.in_term),
            other: either(self.other, own.other),
        }
    }
}

// The parts that are left to be judged, and the quantifiers around parts.
#[derive(Drop)]
struct Parts {
    binders: Vec<Binder>,
    tasks: Vec<Task>,
}

impl Parts {
    fn new(alloc: Global) -> Parts
        ensures binders { result.binders.items ≡ [] }
        ensures tasks { result.tasks.items ≡ [] }
    {
        Parts {
            binders: Vec::new(alloc),
            tasks: Vec::new(alloc),
        }
    }

    // The quantifier of this number.
    fn binder(&self, number: usize) -> Option<Binder>
        ensures none { result ≡ None → (around : List Bool) → IsAround self.now.binders.items number around → around ≡ [] }
        ensures some { IfSome result (λ b. (around : List Bool) → IsAround self.now.binders.items number around → (outer : List Bool) × (around ≡ b.goal_variable ∷ outer) × IsAround self.now.binders.items b.outer outer) }
    {
        if number == 0 {
            return None;
        }
        match self.binders.get(number - 1) {
            None => None,
            Some(binder) => Some(*binder),
        }
    }

    // Whether an index is bound by a `pi` in goal position.
    fn is_goal_variable(&self, binder: usize, index: u64) -> bool
        ensures { (around : List Bool) → IsAround self.now.binders.items binder around → result ≡ slice_index_or around index false }
    {
        let mut at = binder;
        for step in 0..index {
            match self.binder(at) {
                None => return false,
                Some(inner) => at = inner.outer,
            }
        }
        match self.binder(at) {
            None => false,
            Some(found) => found.goal_variable,
        }
    }

    // The part of a formula one level below it.
    fn push(&mut self, task: Task, goal: bool, part: TermId) -> Result<(), Memory>
        requires { task.depth ≤ 2002 }
        ensures { OnOk result (PushesTask self.old self.new (record { goal = goal; formula = part; binder = task.binder; depth = task.depth + 1 })) }
    {
        self.tasks.push(Task {
            goal,
            formula: part,
            binder: task.binder,
            depth: task.depth + 1,
        })?;
        Ok(())
    }

    // The body of a quantifier.
    fn push_body(
        &mut self,
        alloc: Global,
        bank: &mut Bank,
        task: Task,
        goal_variable: bool,
        part: TermId,
    ) -> Result<(), Memory>
        requires depth { task.depth ≤ 2002 }
        requires part { part.0 < length bank.old.terms }
        ensures kept { Extends bank.old bank.new }
        ensures body { OnOk result (PushesBody bank.old bank.new self.old self.new task goal_variable part) }
    {
        let body = body_of(alloc, bank, part)?;
        self.binders.push(Binder {
            goal_variable,
            outer: task.binder,
        })?;
        self.tasks.push(Task {
            goal: task.goal,
            formula: body,
            binder: self.binders.len(),
            depth: task.depth + 2,
        })?;
        Ok(())
    }

    // The two parts of a formula.
    fn push_both(
        &mut self,
        task: Task,
        goal: bool,
        left: TermId,
        right: TermId,
    ) -> Result<(), Memory>
        requires depth { task.depth ≤ 2002 }
        ensures { OnOk result ((b : Nodes) (p : Part) (l r : Term) → IsTask b self.old.binders.items task p → left.0 < length b.terms → right.0 < length b.terms → tree b left.0 ≡ l → tree b right.0 ≡ r → Pushes b self.old self.new (below p goal l ∷ below p p.goal r ∷ [])) }
    {
        self.push(task, goal, left)?;
        self.push(task, task.goal, right)?;
        Ok(())
    }

    // The parts of a formula.
    fn push_parts(
        &mut self,
        alloc: Global,
        bank: &mut Bank,
        task: Task,
        connective: Connective,
    ) -> Result<(), Memory>
        requires depth { task.depth ≤ 2002 }
        requires within { IsConnectiveIn bank.old connective }
        ensures kept { Extends bank.old bank.new }
        ensures pushed { OnOk result ((p : Part) → IsTask bank.old self.old.binders.items task p → Pushes bank.new self.old self.new (parts_by p (connective_in bank.old connective))) }
    {
        if is_term(task.goal, connective) {
            return Ok(());
        }
        match connective {
            Connective::True => Ok(()),
            Connective::Cut => Ok(()),
            Connective::Atomic => Ok(()),
            Connective::And(left, right) => {
                self.push_both(task, task.goal, left, right)?;
                Ok(())
            }
            Connective::Or(left, right) => {
                self.push_both(task, task.goal, left, right)?;
                Ok(())
            }
            Connective::Implies(premise, conclusion) => {
                self.push_both(task, !task.goal, premise, conclusion)?;
                Ok(())
            }
            Connective::ForAll(_, part) => {
                self.push_body(alloc, bank, task, task.goal, part)?;
                Ok(())
            }
            Connective::Exists(_, part) => {
                self.push_body(alloc, bank, task, false, part)?;
                Ok(())
            }
            Connective::Not(part) => {
                self.push(task, true, part)?;
                Ok(())
            }
        }
    }
}

// Whether a part is no connective's, or stands where its connective may not.
fn is_term(goal: bool, connective: Connective) -> bool
    ensures { (b : Nodes) → result ≡ is_term_by goal (connective_in b connective) }
{
    match connective {
        Connective::Atomic => true,
        Connective::And(_, _) => false,
        Connective::Implies(_, _) => false,
        Connective::ForAll(_, _) => false,
        Connective::True => !goal,
        Connective::Cut => !goal,
        Connective::Or(_, _) => !goal,
        Connective::Exists(_, _) => !goal,
        Connective::Not(_) => !goal,
    }
}

// Whether the head of an atom may stand in goal position.
fn is_goal_head(bank: &Bank, formula: TermId) -> bool
    ensures { result ≡ is_goal_head (head_of (tree bank.now formula.0)) }
{
    match bank.term_node(head_of(bank, formula)) {
        TermNode::Index(_) => true,
        TermNode::Const(_, _) => true,
        TermNode::Eigen(_) => true,
        TermNode::Logic { .. } => true,
        TermNode::Int(_) => false,
        TermNode::Text(_) => false,
        TermNode::Param(_, _) => false,
        TermNode::Abs(_) => false,
        TermNode::App(_, _) => false,
    }
}

// Whether the head of an atom may stand in clause position.
fn is_clause_head(bank: &Bank, heads: &Heads, parts: &Parts, task: Task) -> bool
    ensures { (d : ℕ → Option Scheme) (around : List Bool) → AreHeads d heads.now → IsAround parts.now.binders.items task.binder around → result ≡ is_clause_head d around (head_of (tree bank.now task.formula.0)) }
{
    match bank.term_node(head_of(bank, task.formula)) {
        TermNode::Index(index) => parts.is_goal_variable(task.binder, index),
        TermNode::Const(constant, _) => heads.can_head(constant),
        TermNode::Eigen(_) => false,
        TermNode::Logic { .. } => false,
        TermNode::Int(_) => false,
        TermNode::Text(_) => false,
        TermNode::Param(_, _) => false,
        TermNode::Abs(_) => false,
        TermNode::App(_, _) => false,
    }
}

// Whether a part has its form, but for what stands below it.
fn has_form(bank: &Bank, heads: &Heads, parts: &Parts, task: Task, connective: Connective) -> bool
    ensures { (d : ℕ → Option Scheme) (p : Part) → AreHeads d heads.now → IsTask bank.now parts.now.binders.items task p → result ≡ has_form_by d p (connective_in bank.now connective) }
{
    match connective {
        Connective::Atomic => {
            if task.goal {
                is_goal_head(bank, task.formula)
            } else {
                is_clause_head(bank, heads, parts, task)
            }
        }
        Connective::And(_, _) => true,
        Connective::Implies(_, _) => true,
        Connective::ForAll(_, _) => true,
        Connective::True => task.goal,
        Connective::Cut => task.goal,
        Connective::Or(_, _) => task.goal,
        Connective::Exists(_, _) => task.goal,
        Connective::Not(_) => task.goal,
    }
}

// What is wrong with a part, but for what stands below it.
fn own(
    bank: &Bank,
    heads: &Heads,
    measures: &mut Measures,
    parts: &Parts,
    task: Task,
    connective: Connective,
) -> Result<Verdict, Memory>
    requires depth { task.depth ≤ 2002 }
    requires measured { AreMeasured bank.now measures.old }
    requires within { task.formula.0 < length bank.now.terms }
    requires connective { connective_of_term (tree bank.now task.formula.0) ≡ connective_in bank.now connective }
    ensures measured { OnOk result (AreMeasured bank.now measures.new) }
    ensures own { IfOk result (λ v. (p : Part) → IsTask bank.now parts.now.binders.items task p → IsOwn heads.now p v) }
{
    let deep = task.depth > MAX_TERM_DEPTH as u64;
    let other = !has_form(bank, heads, parts, task, connective);
    if !is_term(task.goal, connective) {
        return Ok(Verdict {
            deep,
            wide: false,
            in_term: false,
            other,
        });
    }
    let measure = measures.of(bank, task.formula)?;
    let deeper = task.depth + measure.depth as u64 > MAX_TERM_DEPTH as u64 + 1;
    let wide = measure.widest as u64 > MAX_ARGUMENTS as u64;
    Ok(Verdict {
        deep: either(deep, deeper),
        wide,
        in_term: measure.connective,
        other,
    })
}

/// What is wrong with a formula in this position. One that is too deep is not looked at further.
pub(crate) fn judge(
    alloc: Global,
    bank: &mut Bank,
    heads: &Heads,
    measures: &mut Measures,
    goal: bool,
    formula: TermId,
) -> Result<Verdict, Memory>
    requires measured { AreMeasured bank.old measures.old }
    requires within { formula.0 < length bank.old.terms }
    ensures kept { Extends bank.old bank.new }
    ensures measured { OnOk result (AreMeasured bank.new measures.new) }
    ensures verdict { IfOk result (λ v. (d : ℕ → Option Scheme) → AreHeads d heads.now → IsVerdict d (whole goal (tree bank.old formula.0)) v) }
{
    let mut parts = Parts::new(alloc);
    parts.tasks.push(Task {
        goal,
        formula,
        binder: 0,
        depth: 1,
    })?;
    let mut verdict = Verdict {
        deep: false,
        wide: false,
        in_term: false,
        other: false,
    };
    'judging: loop {
        if verdict.deep {
            return Ok(verdict);
        }
        match parts.tasks.pop() {
            None => return Ok(verdict),
            Some(task) => {
                let connective = connective_of(bank, task.formula);
                let found = own(bank, heads, measures, &parts, task, connective)?;
                verdict = verdict.with(found);
                parts.push_parts(alloc, bank, task, connective)?;
            }
        }
    }
}
