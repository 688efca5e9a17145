// What a search works on: one bank and one list of bindings for all branches. An alternative holds what leads back to
// its branch.
ghost use Rattle.std.specs.Prelude.{◌≡◌, ℕ, ◌∷◌, ◌++◌, [], List, OnOk, IfOk, IfSome, length, ◌<◌, ◌≤◌, nat_lt, true, false, take, filter, slice_get, Option, None, Some};
ghost use Rattle.lp_calculus.specs.Term.{Term};
ghost use Rattle.lp_plain.specs.declared.choice.Choice.{Choice};
ghost use Rattle.lp_model.specs.Branch.{Entry, Task};
ghost use Rattle.lp_model.specs.Flat.{Clause, Clauses, Goal};
ghost use Rattle.lp_model.specs.Search.{candidates, has_head, passes};
ghost use Rattle.lp_plain.specs.Assuming.{HasAssumed, HasFrameAt, KeepsAssumed, lists_of};
ghost use Rattle.lp_plain.specs.Cuts.{cut_off};
ghost use Rattle.lp_plain.specs.Denials.{searching_as};
ghost use Rattle.lp_plain.specs.Entries.{Around, AreTodo, IsListAt, HasAlternative, KeepsGoals, Reads, placed};
ghost use Rattle.lp_calculus.specs.Instance.{instance_term};
ghost use Rattle.lp_model.specs.Index.{instantiate};
ghost use Rattle.lp_term.specs.Nodes.{tree};
ghost use Rattle.lp_term.specs.declared.node.TermId.{TermId};
ghost use Rattle.lp_plain.specs.HeadLooks.{OnlyBank};
ghost use Rattle.lp_plain.specs.Instances.{AreValues, values_of};
ghost use Rattle.lp_plain.specs.Renewal.{renewing};
ghost use Rattle.lp_plain.specs.Written.{IsWritten};
ghost use Rattle.lp_plain.specs.Keeping.{HasOneMore, IsAround, KeepsCourse};
ghost use Rattle.lp_plain.specs.Marks.{PutsMarks};
ghost use Rattle.lp_plain.specs.Moving.{BindsNone, IsBack, IsTrying, Query};
ghost use Rattle.lp_plain.specs.Stacks.{base_of};
ghost use Rattle.lp_plain.specs.declared.candidates.Candidate.{Candidate as Tried};
ghost use Rattle.lp_plain.specs.declared.choice.Call.{Call as Called};
ghost use Rattle.lp_plain.specs.declared.choice.Untried.{Untried as Left};
ghost use Rattle.lp_model.specs.Skeleton.{State};
ghost use Rattle.lp_plain.specs.Opening.{IsNewVariable};
ghost use Rattle.lp_plain.specs.Restoring.{IsRestored, IsTaken};
ghost use Rattle.lp_plain.specs.Scopes.{IsScope, block_count, blocks_of, value_count};
ghost use Rattle.lp_plain.specs.Tables.{shown};
ghost use Rattle.lp_plain.specs.Trying.{AreApplied, AreOfProgram, AreTries, AreTriesApart, HasProgram, IsCallOf, IsNext, IsTried, all_clauses, first_in};
ghost use Rattle.lp_plain.specs.Within.{IsTodoIn, StandsIn};
ghost use Rattle.lp_plain.specs.WrittenTable.{PutsList};
ghost use Rattle.lp_plain.specs.inner.Remaining.{ComesAfter, IsPopped};

use crate::act::Act;
use crate::candidates::{Candidate, Index, candidate_after, first_candidate};
use crate::choice::{Call, Choice, Denial, Lengths, Untried};
use crate::frame::{Assumption, Frame, Place, Todo};
use crate::instance::instance;
use crate::newest::Newest;
use crate::openness::Standing;
use crate::scope::Scopes;
use crate::table::Table;
use lp_base::Memory;
use lp_model::Pair;
use lp_pattern::Bindings;
use lp_term::{Bank, TermId, put_logic};
use std::alloc::Global;

/// The branch at work: its goals, the numbers of its next logic variable and next type variable, its residual pairs.
#[derive(Drop)]
pub(crate) struct Branch {
    pub(crate) goals: Option<usize>,
    pub(crate) next: u64,
    pub(crate) next_type: u64,
    pub(crate) pairs: Vec<Pair>,
}

/// The steps that may be taken and were taken, the goals taken apart in a row, and whether a cut removed an alternative.
#[derive(Clone, Copy)]
pub(crate) struct Counts {
    pub(crate) limit: u64,
    pub(crate) steps: u64,
    pub(crate) row: u64,
    pub(crate) lost: bool,
}

#[derive(Drop)]
pub(crate) struct Machine {
    pub(crate) alloc: Global,
    pub(crate) bank: Bank,
    pub(crate) table: Table,
    pub(crate) index: Index,
    pub(crate) bindings: Bindings,
    pub(crate) scopes: Scopes,
    pub(crate) frames: Vec<Frame>,
    pub(crate) assumptions: Vec<Assumption>,
    pub(crate) newest: Vec<Newest>,
    pub(crate) standings: Vec<Standing>,
    /// What was done on the way of the branch at work, oldest first.
    pub(crate) acts: Vec<Act>,
    pub(crate) choices: Vec<Choice>,
    /// The alternative of the innermost negated goal whose search goes on.
    pub(crate) denied: Option<usize>,
    pub(crate) branch: Branch,
    pub(crate) counts: Counts,
}

impl Machine {
    /// A list of goals of the table in front of others. A number that is none has no goals.
    pub(crate) fn put_list(
        &mut self,
        list: usize,
        place: Place,
        behind: Option<usize>,
    ) -> Result<Option<usize>, Memory>
        ensures course { KeepsCourse self.old self.new }
        ensures goals { OnOk result (KeepsGoals self.old self.new) }
        ensures assumed { OnOk result (KeepsAssumed self.old self.new) }
        ensures frame { OnOk result (HasFrameAt self.old self.new place) }
        ensures marks { IfOk result (λ o. PutsMarks self.old self.new place behind o) }
        ensures stands { OnOk result (StandsIn self.old → StandsIn self.new) }
        ensures puts { OnOk result (PutsList self.old self.new list place behind) }
        ensures reads { IfOk result (λ o. (a : Around) (gs : List Goal) (es : List Entry) → IsListAt self.old place list gs → Reads self.old a behind es → Reads self.new a o (placed a place gs ++ es)) }
    {
        let Some(span) = self.table.list(list) else {
            return Ok(behind);
        };
        if span.from >= span.to {
            return Ok(behind);
        }
        let goals = self.put_frame(Todo::Goals(span), place, behind)?;
        Ok(goals)
    }

    pub(crate) fn put_frame(
        &mut self,
        todo: Todo,
        place: Place,
        behind: Option<usize>,
    ) -> Result<Option<usize>, Memory>
        ensures course { KeepsCourse self.old self.new }
        ensures goals { OnOk result (KeepsGoals self.old self.new) }
        ensures assumed { OnOk result (KeepsAssumed self.old self.new) }
        ensures frame { OnOk result (HasFrameAt self.old self.new place) }
        ensures marks { IfOk result (λ o. PutsMarks self.old self.new place behind o) }
        ensures stands { OnOk result (IsTodoIn (length self.old.bank.terms) todo → StandsIn self.old → StandsIn self.new) }
        ensures pushed { OnOk result (self.new.frames.items ≡ self.old.frames.items ++ record { todo = todo; place = place; behind = behind } ∷ []) }
        ensures reads { IfOk result (λ o. (a : Around) (gs : List Goal) (es : List Entry) → AreTodo self.old.bank (shown self.old.table) (blocks_of self.old.scopes) place todo gs → Reads self.old a behind es → Reads self.new a o (placed a place gs ++ es)) }
    {
        let number = self.frames.len();
        self.frames.push(Frame {
            todo,
            place,
            behind,
        })?;
        Ok(Some(number))
    }

    /// The frame of a number.
    pub(crate) fn frame(&self, number: usize) -> Option<Frame>
        ensures { result ≡ slice_get self.now.frames.items number }
    {
        match self.frames.get(number) {
            Some(frame) => Some(*frame),
            None => None,
        }
    }

    /// A new logic variable of a level.
    pub(crate) fn new_variable(&mut self, level: u64) -> Result<TermId, Memory>
        ensures counts { self.new.counts ≡ self.old.counts }
        ensures variable { IfOk result (IsNewVariable self.old self.new level) }
        ensures none { BindsNone self.old self.new }
        ensures stands { OnOk result (StandsIn self.old → StandsIn self.new) }
    {
        let id = self.branch.next;
        let Some(next) = id.checked_add(1) else {
            return Err(Memory);
        };
        self.branch.next = next;
        let variable = put_logic(&mut self.bank, id, level)?;
        Ok(variable)
    }

    /// The clause's term in a place.
    pub(crate) fn instance(&mut self, term: TermId, place: Place) -> Result<TermId, Memory>
        ensures bank { OnOk result (OnlyBank self.old self.new) }
        ensures within { IfOk result (λ id. id.0 < length self.new.bank.terms) }
        ensures tree { IfOk result (λ id. (nb nv : ℕ) → (vs : List TermId) → IsScope self.old.scopes nb nv place.values.scope vs → AreValues self.old.bank vs → (ar : ℕ → ℕ) → (k : ℕ) → IsWritten ar k (length vs) (tree self.old.bank term.0) →
            tree self.new.bank id.0 ≡ instantiate (values_of self.old.bank vs) (instance_term (renewing place.values.types) (tree self.old.bank term.0))) }
    {
        instance(self.alloc, &mut self.bank, &self.scopes, place.values, term)
    }

    /// The first of the clauses that are tried for a call.
    pub(crate) fn first_candidate(&self, call: &Call) -> Option<Candidate>
        ensures tries { (ar : ℕ → ℕ) (css : List Clauses) (before : List Clause) (t : Term) → HasProgram self.now css → HasAssumed (lists_of self.now) call.now.place.assumed before → IsCallOf ar self.now.bank call.now t →
            AreOfProgram ar (all_clauses css) → AreApplied ar before → AreTries (lists_of self.now) (first_in self.now call.now.head) call.now.key result (candidates (all_clauses css) before t) }
        ensures apart { (ar : ℕ → ℕ) (css : List Clauses) (before : List Clause) (t : Term) → HasProgram self.now css → HasAssumed (lists_of self.now) call.now.place.assumed before → IsCallOf ar self.now.bank call.now t →
            AreOfProgram ar (all_clauses css) → AreApplied ar before → AreTriesApart (lists_of self.now) (first_in self.now call.now.head) call.now.key result (filter (has_head t) before) (filter (passes t) (all_clauses css)) }
    {
        first_candidate(
            &self.bank,
            &self.table.rules,
            &self.index,
            &self.newest,
            call,
        )
    }

    /// The next one behind a candidate.
    pub(crate) fn candidate_after(&self, call: &Call, candidate: Candidate) -> Option<Candidate>
        ensures next { IsNext self.now call.now candidate result }
        ensures tries { (cs : List Clause) → AreTries (lists_of self.now) (first_in self.now call.now.head) call.now.key (Some candidate) cs → IsTried (lists_of self.now) (first_in self.now call.now.head) call.now.key candidate result cs }
        ensures less { ComesAfter candidate result }
    {
        candidate_after(
            &self.bank,
            &self.table.rules,
            &self.index,
            &self.assumptions,
            call,
            candidate,
        )
    }

    fn lengths(&self) -> Lengths
        ensures frames { result.frames ≡ length self.now.frames.items }
        ensures blocks { result.scopes.blocks ≡ block_count self.now.scopes }
        ensures values { result.scopes.values ≡ value_count self.now.scopes }
        ensures assumptions { result.assumptions ≡ length self.now.assumptions.items }
        ensures newest { result.newest ≡ length self.now.newest.items }
        ensures standings { result.standings ≡ length self.now.standings.items }
    {
        Lengths {
            frames: self.frames.len(),
            assumptions: self.assumptions.len(),
            newest: self.newest.len(),
            standings: self.standings.len(),
            acts: self.acts.len(),
            scopes: self.scopes.mark(),
        }
    }

    /// Keeps what is done in the branch at work.
    pub(crate) fn note(&mut self, act: Act) -> Result<(), Memory>
        ensures frames { self.new.frames ≡ self.old.frames }
        ensures course { KeepsCourse self.old self.new }
        ensures goals { KeepsGoals self.old self.new }
        ensures assumed { KeepsAssumed self.old self.new }
    {
        self.acts.push(act)?;
        Ok(())
    }

    /// Keeps an alternative of the branch as it stands.
    pub(crate) fn put_choice(&mut self, untried: Untried) -> Result<(), Memory>
        ensures more { OnOk result (HasOneMore self.old.choices.items self.new.choices.items untried) }
        ensures counts { self.new.counts ≡ self.old.counts }
        ensures denied { self.new.denied ≡ self.old.denied }
        ensures branch { self.new.branch ≡ self.old.branch }
        ensures goals { KeepsGoals self.old self.new }
        ensures frames { self.new.frames ≡ self.old.frames }
        ensures assumed { KeepsAssumed self.old self.new }
        ensures alternative { OnOk result (HasAlternative self.old self.new untried) }
    {
        let pairs = Vec::from_slice(self.alloc, self.branch.pairs.as_slice())?;
        let lengths = self.lengths();
        self.choices.push(Choice {
            bindings: self.bindings.mark(),
            lengths,
            next: self.branch.next,
            next_type: self.branch.next_type,
            pairs,
            untried,
        })?;
        Ok(())
    }

    // Goes back to the branch of an alternative.
    fn restore(&mut self, choice: &Choice) -> Result<(), Memory>
        ensures { OnOk result (IsRestored self.old self.new choice.now) }
    {
        self.bindings.undo(choice.bindings);
        self.frames.truncate(choice.lengths.frames);
        self.assumptions.truncate(choice.lengths.assumptions);
        self.newest.truncate(choice.lengths.newest);
        self.standings.truncate(choice.lengths.standings);
        self.acts.truncate(choice.lengths.acts);
        self.scopes.undo(choice.lengths.scopes);
        self.branch.next = choice.next;
        self.branch.next_type = choice.next_type;
        self.branch.pairs = Vec::from_slice(self.alloc, choice.pairs.as_slice())?;
        Ok(())
    }

    /// Takes the newest alternative: goes back to its branch, and gives what was left to try.
    pub(crate) fn take_choice(&mut self) -> Result<Option<Untried>, Memory>
        ensures taken { IfOk result (λ o. (c : Choice) (rest : List Choice) → self.old.choices.items ≡ rest ++ c ∷ [] → (o ≡ Some c.untried) × IsTaken self.old self.new c rest) }
        ensures trying { OnOk result ((qv : Query) (c : Choice) (rest : List Choice) (call : Called) (one : Tried) → self.old.choices.items ≡ rest ++ c ∷ [] → c.untried ≡ Left.Clauses call one → base_of self.old.denied ≤ length rest → (s : State Task) (h : IsBack qv self.old s) → IsTrying qv self.new h.around call one s) }
        ensures none { IfOk result (λ o. self.old.choices.items ≡ [] → o ≡ None) }
        ensures lost { OnOk result (self.new.counts.lost ≡ self.old.counts.lost) }
        ensures steps { OnOk result (self.new.counts.steps ≡ self.old.counts.steps) }
        ensures popped { IfOk result (λ o. IfSome o (IsPopped self.old self.new)) }
    {
        let Some(choice) = self.choices.pop() else {
            return Ok(None);
        };
        self.restore(&choice)?;
        Ok(Some(choice.untried))
    }

    /// Drops the search of the negated goal of this alternative.
    pub(crate) fn drop_denied(&mut self, number: usize)
        ensures dropped { self.new.choices.items ≡ take number self.old.choices.items }
        ensures steps { self.new.counts.steps ≡ self.old.counts.steps }
        ensures goals { KeepsGoals self.old self.new }
        ensures frames { self.new.frames ≡ self.old.frames }
        ensures assumed { KeepsAssumed self.old self.new }
        ensures around { IfSome (slice_get self.old.choices.items number) (λ c. IsAround c.untried self.new) }
        ensures only { self.new ≡ searching_as self.old self.new }
        ensures counts { self.new.counts ≡ record self.old.counts { lost = self.new.counts.lost } }
    {
        if let Some(
            Choice {
                untried: Untried::Denied(Denial { around, lost, .. }),
                ..
            },
        ) = self.choices.get(number)
        {
            self.denied = *around;
            self.counts.lost = *lost;
        }
        self.choices.truncate(number);
    }

    /// Whether the search at work has an alternative. That of a negated goal has its own.
    pub(crate) fn has_choice(&self) -> bool
        ensures some { result ≡ true → base_of self.now.denied < length self.now.choices.items }
        ensures none { result ≡ false → length self.now.choices.items ≤ base_of self.now.denied }
    {
        match self.denied {
            None => !self.choices.is_empty(),
            Some(number) => self.choices.len() > number.saturating_add(1),
        }
    }

    /// Keeps only the oldest alternatives.
    pub(crate) fn cut(&mut self, mark: usize)
        ensures denied { self.new.denied ≡ self.old.denied }
        ensures choices { self.new.choices.items ≡ take mark self.old.choices.items }
        ensures counts { self.new.counts ≡ cut_off self.old.counts (nat_lt mark (length self.old.choices.items)) }
        ensures branch { self.new.branch ≡ self.old.branch }
        ensures goals { KeepsGoals self.old self.new }
        ensures frames { self.new.frames ≡ self.old.frames }
        ensures assumed { KeepsAssumed self.old self.new }
    {
        if self.choices.len() > mark {
            self.counts.lost = true;
        }
        self.choices.truncate(mark);
    }
}
