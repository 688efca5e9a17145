// What is still to be shown.
ghost use Rattle.std.specs.Prelude.{◌≡◌, ◌<◌, List, [], ◌∷◌, None, length, IfOk, IfSome, OnOk, true, false};
ghost use Rattle.lp_term.specs.Nodes.{Extends, Nodes, tree};
ghost use Rattle.lp_calculus.specs.Closed.{IsClosedAt};
ghost use Rattle.lp_calculus.specs.Convert.{Converts};
ghost use Rattle.lp_standard.specs.Positive.{is_positive};
ghost use Rattle.lp_cert.specs.Facts.{IsKnown};
ghost use Rattle.lp_cert.specs.Written.{Node};
ghost use Rattle.lp_cert.specs.Run.{OneIsLarge};
ghost use Rattle.lp_cert.specs.inner.Turned.{IsReady, IsReadyWork, IsTaskReady, rest_in, rest_with};
ghost use Rattle.lp_cert.specs.inner.Left.{Left, LeftWith, Stays, job_of};
ghost use Rattle.lp_cert.specs.inner.Named.{IsOf, IsSettled, IsWitnessIn};

use crate::form::{Compared, compare};
use crate::known::Known;
use crate::typing::has_type;
use lp_base::Memory;
use lp_model::{ClauseFormula, Declared};
use lp_module::Assembled;
use lp_term::{Bank, TermId, TypeId};
use std::alloc::Global;

// What is left to do: to prove a goal, to focus on a clause for an atom, to leave the newest eigenconstant, or to leave the newest assumption.
#[derive(Clone, Copy)]
pub(crate) enum Task {
    Prove(TermId),
    Focus(TermId, TermId),
    LeaveEigen,
    LeaveAssumed,
}

// What comes of a node: it stands, it does not, or a normal form that it needs is too large.
#[derive(Clone, Copy, Debug, PartialEq, Eq)]
pub(crate) enum Turn {
    On,
    No,
    Deep,
}

// The declared constants and the clauses of a program.
#[derive(Clone, Copy)]
pub(crate) struct Theory<'a> {
    pub(crate) constants: &'a [Declared],
    pub(crate) clauses: &'a [ClauseFormula],
}

// What is known of the terms, the types of the eigenconstants, the assumptions, and what is left to do, the next one last.
#[derive(Drop)]
pub(crate) struct Work<'a> {
    pub(crate) alloc: Global,
    pub(crate) theory: Theory<'a>,
    pub(crate) known: Known,
    pub(crate) eigens: Vec<TypeId>,
    pub(crate) assumed: Vec<TermId>,
    pub(crate) tasks: Vec<Task>,
}

impl<'a> Theory<'a> {
    pub(crate) fn of(names: &'a Assembled) -> Theory<'a>
        ensures constants { result.constants.now ≡ names.now.program.constants.items }
        ensures clauses { result.clauses.now ≡ names.now.program.clauses.items }
    {
        Theory {
            constants: names.program.constants.as_slice(),
            clauses: names.program.clauses.as_slice(),
        }
    }
}

impl<'a> Work<'a> {
    // Nothing is left to do.
    pub(crate) fn new(alloc: Global, theory: Theory<'a>, known: Known) -> Work<'a>
        ensures theory { result.theory ≡ theory.entry }
        ensures known { result.known ≡ known }
        ensures eigens { result.eigens.items ≡ [] }
        ensures assumed { result.assumed.items ≡ [] }
        ensures tasks { result.tasks.items ≡ [] }
    {
        Work {
            alloc,
            theory,
            known,
            eigens: Vec::new(alloc),
            assumed: Vec::new(alloc),
            tasks: Vec::new(alloc),
        }
    }

    // The number of the newest eigenconstant, 0 where there is none.
    pub(crate) fn level(&self) -> u64
        ensures { result ≡ length self.now.eigens.items }
    {
        self.eigens.len() as u64
    }

    // Whether a term is closed, at the level, and has the type.
    pub(crate) fn is_closed_of(
        &mut self,
        bank: &mut Bank,
        term: TermId,
        of: TypeId,
    ) -> Result<bool, Memory>
        requires known { IsKnown bank.old self.old.known }
        ensures kept { Extends bank.old bank.new }
        ensures known { OnOk result (IsKnown bank.new self.new.known) }
        ensures stays { OnOk result (Stays self.old self.new) }
        ensures inside { IfOk result (λ yes. yes ≡ true → term.0 < length bank.new.terms) }
        ensures typed { IfOk result (λ yes. yes ≡ true → (b : Nodes) → Extends bank.new b → IsOf b self.old term of) }
        ensures never { IfOk result (λ yes. yes ≡ false → IsSettled bank.old self.old → term.0 < length bank.old.terms → of.0 < length bank.old.types → (b : Nodes) → Extends bank.new b → IsOf b self.old term of → ⊥) }
        ensures closed { IfOk result (λ yes. yes ≡ true → IsClosedAt (length self.old.eigens.items) (tree bank.old term.0)) }
    {
        let level = self.level();
        if !self.known.is_closed_at(bank, level, term)? {
            return Ok(false);
        }
        if !self.known.is_closed_type(bank, of)? {
            return Ok(false);
        }
        has_type(
            self.alloc,
            bank,
            &mut self.known,
            self.theory.constants,
            self.eigens.as_slice(),
            term,
            of,
        )
    }

    // Whether the term may stand for a variable of the type.
    pub(crate) fn is_witness(
        &mut self,
        bank: &mut Bank,
        term: TermId,
        of: TypeId,
    ) -> Result<bool, Memory>
        requires known { IsKnown bank.old self.old.known }
        ensures kept { Extends bank.old bank.new }
        ensures known { OnOk result (IsKnown bank.new self.new.known) }
        ensures stays { OnOk result (Stays self.old self.new) }
        ensures inside { IfOk result (λ yes. yes ≡ true → term.0 < length bank.new.terms) }
        ensures witness { IfOk result (λ yes. yes ≡ true → (b : Nodes) → Extends bank.new b → IsWitnessIn b self.old term of) }
        ensures never { IfOk result (λ yes. yes ≡ false → IsSettled bank.old self.old → term.0 < length bank.old.terms → of.0 < length bank.old.types → (b : Nodes) → Extends bank.new b → IsWitnessIn b self.old term of → ⊥) }
        ensures closed { IfOk result (λ yes. yes ≡ true → IsClosedAt (length self.old.eigens.items) (tree bank.old term.0)) }
        ensures positive { IfOk result (λ yes. yes ≡ true → is_positive (tree bank.old term.0) ≡ true) }
    {
        if !self.known.is_positive(bank, term)? {
            return Ok(false);
        }
        self.is_closed_of(bank, term, of)
    }

    pub(crate) fn converts(
        &mut self,
        bank: &mut Bank,
        left: TermId,
        right: TermId,
    ) -> Result<Compared, Memory>
        requires known { IsKnown bank.old self.old.known }
        ensures kept { Extends bank.old bank.new }
        ensures known { OnOk result (IsKnown bank.new self.new.known) }
        ensures stays { OnOk result (Stays self.old self.new) }
        ensures same { IfOk result (λ c. c ≡ Compared.Same → Converts (tree bank.old left.0) (tree bank.old right.0)) }
        ensures later { IfOk result (λ c. c ≡ Compared.Same → (b : Nodes) → Extends bank.new b → Converts (tree b left.0) (tree b right.0)) }
        ensures differ { IfOk result (λ c. c ≡ Compared.Differ → IsReady bank.old left → IsReady bank.old right → (b : Nodes) → Extends bank.new b → Converts (tree b left.0) (tree b right.0) → ⊥) }
        ensures deep { IfOk result (λ c. c ≡ Compared.Deep → IsReady bank.old left → IsReady bank.old right → (b : Nodes) → Extends bank.new b → OneIsLarge (tree b left.0) (tree b right.0)) }
    {
        compare(self.alloc, &mut self.known, bank, left, right)
    }

    // What comes of a node whose last condition is that two terms convert.
    pub(crate) fn turn_of(compared: Compared) -> Turn
        ensures on { result ≡ Turn.On → compared ≡ Compared.Same }
        ensures no { result ≡ Turn.No → compared ≡ Compared.Differ }
        ensures deep { result ≡ Turn.Deep → compared ≡ Compared.Deep }
    {
        match compared {
            Compared::Same => Turn::On,
            Compared::Differ => Turn::No,
            Compared::Deep => Turn::Deep,
        }
    }

    // The next goal or focus, behind what is to be left before it.
    pub(crate) fn next(&mut self) -> Option<Task>
        ensures same { self.new.known ≡ self.old.known }
        ensures some { IfSome result (λ task. (b : Nodes) → (ns : List Node) → LeftWith b self.new (job_of b task) ns → Left b self.old ns) }
        ensures none { result ≡ None → (b : Nodes) → Left b self.old [] }
        ensures ready { IfSome result (λ task. (b : Nodes) → IsReadyWork b self.old → IsReadyWork b self.new × IsTaskReady b task) }
        ensures rest { IfSome result (λ task. (self.new.theory ≡ self.old.theory) × ((b : Nodes) → rest_in b self.old ≡ rest_with b self.new (job_of b task ∷ []))) }
        ensures over { result ≡ None → (b : Nodes) → (rest_in b self.old).jobs ≡ [] }
    {
        'tasks: while let Some(task) = self.tasks.pop() {
            match task {
                Task::LeaveEigen => {
                    let _left = self.eigens.pop();
                    continue;
                }
                Task::LeaveAssumed => {
                    let _left = self.assumed.pop();
                    continue;
                }
                Task::Prove(goal) => return Some(Task::Prove(goal)),
                Task::Focus(clause, atom) => return Some(Task::Focus(clause, atom)),
            }
        }
        None
    }
}
