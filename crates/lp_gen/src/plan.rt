// A clause or query with the clauses that it assumes: each as a head and a list of steps.
ghost use Rattle.std.specs.Prelude.{◌≡◌, All, List, ◌≤◌, ◌<◌, ◌+◌, ◌∷◌, ◌++◌, [], map, length, IfOk, IfErr, OnOk};
ghost use Rattle.lp_gen.specs.inner.Sizes.{goal_work, goal_task, goal_weighs, goals_weigh};
ghost use Rattle.lp_gen.specs.inner.Limiting.{IsOfPlan};
ghost use Rattle.lp_gen.specs.inner.Recorded.{own_count};
ghost use Rattle.lp_gen.specs.inner.Variables.{OriginFits, DueFits, StaysLeveled, Spreads, IsFull};
ghost use Rattle.lp_gen.specs.declared.fault.GenRefusal.TheVariants as told;
ghost use Rattle.lp_gen.specs.declared.fault.RecordRefusal.TheVariants as refusal;
ghost use Rattle.lp_base.specs.declared.limit.Limit.TheVariants as limit;
ghost use Rattle.lp_gen.specs.inner.Planning.{AreDue, origin_records, most_of, body_of, todo_of, todos, due_goals, due_end, IsAssumed, WalkKept, PartWalked, ArePlanned, AllCaptured};
ghost use Rattle.lp_gen.specs.declared.plan.Due.{Due};
ghost use Rattle.lp_gen.specs.declared.plan.Step.TheVariants as on;

use crate::captured::captured_of;
use crate::fault::{GenRefusal, RecordRefusal};
use indexmap::IndexSet;
use lp_base::{Limit, MAX_CLAUSES, MAX_REGISTERS, Memory};
use lp_model::{Clause, Goal, Typed};
use lp_term::{Bank, TermId, TypeId};
use std::alloc::Global;

/// A goal of a record or the end of a block, by the order of its code. Blocks are those of `Either` up to `Turn`, of `Turn` up to `EndEither`, and of
/// each other one that an end names.
#[derive(Clone, Copy)]
pub(crate) enum Step {
    Atom(TermId),
    Cut,
    Either,
    Turn,
    EndEither,
    Some(TypeId),
    All(TypeId),
    EndAll,
    /// An assumption, by its number.
    Assume(usize),
    EndAssume,
    Not,
    EndNot,
}

/// What a record is the code of.
#[derive(Clone, Copy)]
pub(crate) enum Origin<'a> {
    Clause(&'a Clause),
    Query(&'a Typed, &'a [Goal]),
}

/// A record: the assumption that it is of, how many variables are around it, and its steps.
#[derive(Drop)]
pub(crate) struct Part<'a> {
    pub origin: Origin<'a>,
    pub within: Option<usize>,
    pub base: u64,
    pub steps: Vec<Step>,
}

/// Clauses that are assumed together: how many variables are around them, the levels of those with which their records start, and which parts they are.
#[derive(Drop)]
pub(crate) struct Assumption<'a> {
    pub clauses: &'a [Clause],
    pub base: u64,
    pub captured: IndexSet<u64>,
    pub first: usize,
    pub count: usize,
}

/// A part whose steps are not known yet.
#[derive(Clone, Copy)]
pub(crate) struct Due<'a> {
    pub origin: Origin<'a>,
    pub within: Option<usize>,
    pub base: u64,
}

/// The records of a clause or query, those that it assumes behind it, in the order in which their assumptions are met.
#[derive(Drop)]
pub(crate) struct Plan<'a> {
    alloc: Global,
    pub due: Vec<Due<'a>>,
    pub parts: Vec<Part<'a>>,
    pub assumptions: Vec<Assumption<'a>>,
}

// What is still to be done, the next one last. An end restores the number of variables; the variable of a `sigma` is there up to the end of the block around it.
#[derive(Clone, Copy)]
enum Task<'a> {
    Goals(&'a [Goal]),
    End(Step, u64),
}

// The goals of a record in the making.
#[derive(Drop)]
struct Walk<'a> {
    base: u64,
    level: u64,
    steps: Vec<Step>,
    tasks: Vec<Task<'a>>,
}

impl<'a> Origin<'a> {
    fn variables(self) -> usize
        ensures { result ≡ own_count self.entry }
    {
        match self {
            Origin::Clause(clause) => clause.vars.len(),
            Origin::Query(query, _) => query.vars.len(),
        }
    }

    // A query's own record is no clause.
    fn most_records(self) -> usize
        ensures few { result ≤ 65536 }
        ensures most { result ≡ most_of self.entry }
    {
        match self {
            Origin::Clause(_) => MAX_CLAUSES as usize,
            Origin::Query(_, _) => MAX_CLAUSES as usize + 1,
        }
    }

    fn body(self) -> &'a [Goal]
        ensures { result.now ≡ body_of self.entry }
    {
        match self {
            Origin::Clause(clause) => clause.body.as_slice(),
            Origin::Query(_, goals) => goals,
        }
    }
}

impl<'a> Walk<'a> {
    // A step without a block.
    fn put(&mut self, step: Step) -> Result<(), Memory>
        ensures steps { OnOk result (self.new.steps.items ≡ self.old.steps.items ++ step ∷ []) }
        ensures tasks { OnOk result (self.new.tasks ≡ self.old.tasks) }
        ensures level { OnOk result (self.new.level ≡ self.old.level) }
        ensures base { OnOk result (self.new.base ≡ self.old.base) }
    {
        self.steps.push(step)?;
        Ok(())
    }

    // A block of goals up to this end.
    fn push_block(&mut self, goals: &'a [Goal], end: Step) -> Result<(), Memory>
        ensures work { OnOk result (goal_work self.new.tasks.items ≡ goal_work self.old.tasks.items + 1 + goals_weigh (map goal_weighs goals.now)) }
        ensures todo { OnOk result (todos self.new.tasks.items ≡ due_goals goals.now ∷ due_end end self.old.level ∷ todos self.old.tasks.items) }
        ensures steps { OnOk result (self.new.steps ≡ self.old.steps) }
        ensures level { OnOk result (self.new.level ≡ self.old.level) }
        ensures base { OnOk result (self.new.base ≡ self.old.base) }
    {
        self.tasks.push(Task::End(end, self.level))?;
        self.tasks.push(Task::Goals(goals))?;
        Ok(())
    }

    // A step that begins a block.
    fn put_block(&mut self, step: Step, goals: &'a [Goal], end: Step) -> Result<(), Memory>
        ensures work { OnOk result (goal_work self.new.tasks.items ≡ goal_work self.old.tasks.items + 1 + goals_weigh (map goal_weighs goals.now)) }
        ensures todo { OnOk result (todos self.new.tasks.items ≡ due_goals goals.now ∷ due_end end self.old.level ∷ todos self.old.tasks.items) }
        ensures steps { OnOk result (self.new.steps.items ≡ self.old.steps.items ++ step ∷ []) }
        ensures level { OnOk result (self.new.level ≡ self.old.level) }
        ensures base { OnOk result (self.new.base ≡ self.old.base) }
    {
        self.put(step)?;
        self.push_block(goals, end)?;
        Ok(())
    }

    // Both sides of a goal.
    fn put_both(&mut self, left: &'a [Goal], right: &'a [Goal]) -> Result<(), Memory>
        ensures work { OnOk result (goal_work self.new.tasks.items ≡ goal_work self.old.tasks.items + 2 + goals_weigh (map goal_weighs left.now) + goals_weigh (map goal_weighs right.now)) }
        ensures todo { OnOk result (todos self.new.tasks.items ≡ due_goals left.now ∷ due_end on.Turn self.old.level ∷ due_goals right.now ∷ due_end on.EndEither self.old.level ∷ todos self.old.tasks.items) }
        ensures steps { OnOk result (self.new.steps.items ≡ self.old.steps.items ++ on.Either ∷ []) }
        ensures level { OnOk result (self.new.level ≡ self.old.level) }
        ensures base { OnOk result (self.new.base ≡ self.old.base) }
    {
        self.put(Step::Either)?;
        self.push_block(right, Step::EndEither)?;
        self.push_block(left, Step::Turn)?;
        Ok(())
    }

    // The goals of a `sigma`.
    fn put_some(&mut self, of: TypeId, goals: &'a [Goal]) -> Result<(), RecordRefusal>
        ensures work { OnOk result (goal_work self.new.tasks.items ≡ goal_work self.old.tasks.items + goals_weigh (map goal_weighs goals.now)) }
        ensures todo { OnOk result (todos self.new.tasks.items ≡ due_goals goals.now ∷ todos self.old.tasks.items) }
        ensures steps { OnOk result (self.new.steps.items ≡ self.old.steps.items ++ on.Some of ∷ []) }
        ensures level { OnOk result (self.new.level ≡ self.old.level + 1) }
        ensures base { OnOk result (self.new.base ≡ self.old.base) }
        ensures near { OnOk result (self.new.level ≤ self.old.base + 65535) }
        ensures full { IfErr result (λ e. self.old.base ≤ 4294836225 → self.old.level + 1 ≤ self.old.base + 65535 → e ≡ refusal.Memory) }
    {
        self.put(Step::Some(of))?;
        self.tasks.push(Task::Goals(goals))?;
        let level = with_more(self.base, self.level, 1)?;
        self.level = level;
        Ok(())
    }

    // The goals of a `pi`.
    fn put_all(&mut self, of: TypeId, goals: &'a [Goal]) -> Result<(), RecordRefusal>
        ensures work { OnOk result (goal_work self.new.tasks.items ≡ goal_work self.old.tasks.items + 1 + goals_weigh (map goal_weighs goals.now)) }
        ensures todo { OnOk result (todos self.new.tasks.items ≡ due_goals goals.now ∷ due_end on.EndAll self.old.level ∷ todos self.old.tasks.items) }
        ensures steps { OnOk result (self.new.steps.items ≡ self.old.steps.items ++ on.All of ∷ []) }
        ensures level { OnOk result (self.new.level ≡ self.old.level + 1) }
        ensures base { OnOk result (self.new.base ≡ self.old.base) }
        ensures near { OnOk result (self.new.level ≤ self.old.base + 65535) }
        ensures full { IfErr result (λ e. self.old.base ≤ 4294836225 → self.old.level + 1 ≤ self.old.base + 65535 → e ≡ refusal.Memory) }
    {
        self.put_block(Step::All(of), goals, Step::EndAll)?;
        let level = with_more(self.base, self.level, 1)?;
        self.level = level;
        Ok(())
    }
}

// The number of variables around with more of them. A record has at most 65,535 behind its base.
fn with_more(base: u64, level: u64, more: u64) -> Result<u64, RecordRefusal>
    ensures sum { IfOk result (λ sum. sum ≡ level + more) }
    ensures near { IfOk result (λ sum. sum ≤ base + 65535) }
    ensures full { IfErr result (λ e. base ≤ 4294836225 → level + more ≤ base + 65535 → e ≡ refusal.Memory) }
{
    match level.checked_add(more) {
        Some(sum) if sum.saturating_sub(base) <= MAX_REGISTERS as u64 => Ok(sum),
        _ => Err(RecordRefusal::Registers),
    }
}

impl<'a> Plan<'a> {
    /// The records of a clause or query.
    pub(crate) fn of(alloc: Global, bank: &Bank, origin: Origin<'a>) -> Result<Plan<'a>, GenRefusal>
        ensures planned { IfOk result (λ plan. ArePlanned origin.entry plan.due.items plan.parts.items plan.assumptions.items) }
        ensures captured { IfOk result (λ plan. AllCaptured bank.now plan.assumptions.items) }
        ensures few { IfOk result (λ plan. length plan.parts.items ≤ 65536) }
        ensures count { IfOk result (λ plan. length plan.parts.items ≡ origin_records bank.now origin.entry) }
        ensures within { IfOk result (λ plan. origin_records bank.now origin.entry ≤ most_of origin.entry) }
        ensures cause { IfErr result (IsOfPlan (origin_records bank.now origin.entry) (most_of origin.entry)) }
        ensures fits { IfErr result (λ e. e ≡ told.Limit limit.Registers → OriginFits bank.now origin.entry → ⊥) }
    {
        let mut plan = Plan {
            alloc,
            due: Vec::new(alloc),
            parts: Vec::new(alloc),
            assumptions: Vec::new(alloc),
        };
        plan.due.push(Due {
            origin,
            within: None,
            base: 0,
        })?;
        let most = origin.most_records();
        'parts: while plan.parts.len() < plan.due.len() {
            let at = plan.parts.len();
            if at >= most {
                return Err(GenRefusal::Limit(Limit::Clauses));
            }
            let due = plan.due[at];
            let steps = plan.walk(bank, due)?;
            plan.parts.push(Part {
                origin: due.origin,
                within: due.within,
                base: due.base,
                steps,
            })?;
        }
        Ok(plan)
    }

    // The steps of a part; those that it assumes are due.
    fn walk(&mut self, bank: &Bank, due: Due<'a>) -> Result<Vec<Step>, RecordRefusal>
        requires low { due.base ≤ 4294836225 }
        ensures walked { IfOk result (λ steps. PartWalked due.entry self.old.due.items self.new.due.items self.old.assumptions.items self.new.assumptions.items steps.items) }
        ensures captured { IfOk result (λ steps. AllCaptured bank.now self.old.assumptions.items → AllCaptured bank.now self.new.assumptions.items) }
        ensures parts { IfOk result (λ steps. self.new.parts ≡ self.old.parts) }
        ensures full { IfErr result (λ e. DueFits bank.now due.entry → e ≡ refusal.Memory) }
        ensures dues { IfOk result (λ steps. (more : List Due) × (self.new.due.items ≡ self.old.due.items ++ more) × All (λ u. u.base ≤ due.entry.base + 65535) more × (DueFits bank.now due.entry → All (DueFits bank.now) more)) }
    {
        let variables = due.origin.variables() as u64;
        let level = with_more(due.base, due.base, variables)?;
        let mut walk = Walk {
            base: due.base,
            level,
            steps: Vec::new(self.alloc),
            tasks: Vec::new(self.alloc),
        };
        let goals = due.origin.body();
        walk.tasks.push(Task::Goals(goals))?;
        'tasks: while let Some(task) = walk.tasks.pop() {
            self.step(bank, &mut walk, task)?;
        }
        Ok(walk.steps)
    }

    fn step(
        &mut self,
        bank: &Bank,
        walk: &mut Walk<'a>,
        task: Task<'a>,
    ) -> Result<(), RecordRefusal>
        ensures work { OnOk result (goal_work walk.new.tasks.items + 1 ≤ goal_work walk.old.tasks.items + goal_task task.entry) }
        ensures kept { OnOk result (WalkKept self.old.due.items self.new.due.items self.old.assumptions.items self.new.assumptions.items walk.old.level walk.new.level walk.old.steps.items walk.new.steps.items (todo_of task.entry ∷ todos walk.old.tasks.items) (todos walk.new.tasks.items)) }
        ensures captured { OnOk result (AllCaptured bank.now self.old.assumptions.items → AllCaptured bank.now self.new.assumptions.items) }
        ensures parts { OnOk result (self.new.parts ≡ self.old.parts) }
        ensures base { OnOk result (walk.new.base ≡ walk.old.base) }
        ensures leveled { OnOk result (StaysLeveled bank.now walk.old.base walk.old.level walk.new.level (todo_of task.entry ∷ todos walk.old.tasks.items) (todos walk.new.tasks.items)) }
        ensures dues { OnOk result (Spreads bank.now walk.old.level self.old.due.items self.new.due.items (todo_of task.entry ∷ todos walk.old.tasks.items) (todos walk.new.tasks.items)) }
        ensures full { IfErr result (IsFull bank.now walk.old.base walk.old.level (todo_of task.entry ∷ todos walk.old.tasks.items)) }
    {
        match task {
            Task::Goals(goals) => {
                let Some((first, rest)) = goals.split_first() else {
                    return Ok(());
                };
                walk.tasks.push(Task::Goals(rest))?;
                self.goal(bank, walk, first)?;
                Ok(())
            }
            Task::End(end, level) => {
                walk.steps.push(end)?;
                walk.level = level;
                Ok(())
            }
        }
    }

    fn goal(
        &mut self,
        bank: &Bank,
        walk: &mut Walk<'a>,
        goal: &'a Goal,
    ) -> Result<(), RecordRefusal>
        ensures work { OnOk result (goal_work walk.new.tasks.items ≤ goal_work walk.old.tasks.items + goal_weighs goal.now) }
        ensures kept { OnOk result (WalkKept self.old.due.items self.new.due.items self.old.assumptions.items self.new.assumptions.items walk.old.level walk.new.level walk.old.steps.items walk.new.steps.items (due_goals (goal.now ∷ []) ∷ todos walk.old.tasks.items) (todos walk.new.tasks.items)) }
        ensures captured { OnOk result (AllCaptured bank.now self.old.assumptions.items → AllCaptured bank.now self.new.assumptions.items) }
        ensures parts { OnOk result (self.new.parts ≡ self.old.parts) }
        ensures base { OnOk result (walk.new.base ≡ walk.old.base) }
        ensures leveled { OnOk result (StaysLeveled bank.now walk.old.base walk.old.level walk.new.level (due_goals (goal.now ∷ []) ∷ todos walk.old.tasks.items) (todos walk.new.tasks.items)) }
        ensures dues { OnOk result (Spreads bank.now walk.old.level self.old.due.items self.new.due.items (due_goals (goal.now ∷ []) ∷ todos walk.old.tasks.items) (todos walk.new.tasks.items)) }
        ensures full { IfErr result (IsFull bank.now walk.old.base walk.old.level (due_goals (goal.now ∷ []) ∷ todos walk.old.tasks.items)) }
    {
        match goal {
            Goal::Atom(term) => {
                walk.put(Step::Atom(*term))?;
                Ok(())
            }
            Goal::Cut => {
                walk.put(Step::Cut)?;
                Ok(())
            }
            Goal::Either(left, right) => {
                walk.put_both(left.as_slice(), right.as_slice())?;
                Ok(())
            }
            Goal::Some(of, goals) => {
                walk.put_some(*of, goals.as_slice())?;
                Ok(())
            }
            Goal::All(of, goals) => {
                walk.put_all(*of, goals.as_slice())?;
                Ok(())
            }
            Goal::Assume(clauses, goals) => {
                let number = self.assume(bank, clauses.as_slice(), walk.level)?;
                walk.put_block(Step::Assume(number), goals.as_slice(), Step::EndAssume)?;
                Ok(())
            }
            Goal::Not(goals) => {
                walk.put_block(Step::Not, goals.as_slice(), Step::EndNot)?;
                Ok(())
            }
        }
    }

    // An assumption of these clauses. Their records start with the variables around it that stand in them.
    fn assume(&mut self, bank: &Bank, clauses: &'a [Clause], base: u64) -> Result<usize, Memory>
        ensures assumed { IfOk result (λ number. IsAssumed self.old.due.items self.new.due.items self.old.assumptions.items self.new.assumptions.items clauses.now base number) }
        ensures captured { IfOk result (λ number. AllCaptured bank.now self.old.assumptions.items → AllCaptured bank.now self.new.assumptions.items) }
        ensures parts { IfOk result (λ number. self.new.parts ≡ self.old.parts) }
    {
        let number = self.assumptions.len();
        let captured = captured_of(self.alloc, bank, clauses, base)?;
        self.assumptions.push(Assumption {
            clauses,
            base,
            captured,
            first: self.due.len(),
            count: clauses.len(),
        })?;
        push_due(&mut self.due, clauses, number, base)?;
        Ok(number)
    }
}

// The parts of clauses that an assumption of this number is of.
fn push_due<'a>(
    due: &mut Vec<Due<'a>>,
    clauses: &'a [Clause],
    number: usize,
    base: u64,
) -> Result<(), Memory>
    ensures { OnOk result ((more : List Due) × (due.new.items ≡ due.old.items ++ more) × AreDue number base clauses.now more) }
{
    for at in 0..clauses.len() {
        let clause = &clauses[at];
        due.push(Due {
            origin: Origin::Clause(clause),
            within: Some(number),
            base,
        })?;
    }
    Ok(())
}
