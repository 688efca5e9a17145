// The order of signatures, and circles of accum_sig.
ghost use Rattle.std.specs.Prelude.{◌≡◌, ◌<◌, ◌≤◌, ◌+◌, ℕ, List, [], ◌∷◌, ◌++◌, true, false, not, map, reverse, replicate, length, Contains, OnOk, IfErr, IfOk, if◌then◌else◌, string_bytes, slice_index_or, slice_set};
ghost use Rattle.lp_sig.specs.Places.{HasPlaces};
ghost use Rattle.lp_sig.specs.Loading.{accum_words, ways_in, ways_between, ways_out, Loads, IsLoadOrder, HasNoCircle, NoneLeads};
ghost use Rattle.lp_sig.specs.Walking.{entries, waiting, SomeLeads, IsCircleFault, IsFirstCircleFault, Moves};
ghost use Rattle.lp_sig.specs.declared.walk.Step.TheVariants.{Enter};

use crate::fault::SigFault;
use crate::pieces::spelled_at;
use crate::places::{Places, places_of};
use lp_base::{Memory, Spot};
use lp_syntax::{Declaration, SignatureText};
use std::alloc::Global;

// What comes next: the header of a signature, or its own declarations, behind those of the signatures that it names.
#[derive(Clone, Copy)]
pub(crate) enum Step {
    Enter(usize),
    Declare(usize),
}

// The words of one sentence that name signatures, with their numbers.
fn add_ways(
    names: &Places,
    source: &[u8],
    words: &[Spot],
    ways: &mut Vec<(Spot, usize)>,
) -> Result<(), Memory>
    ensures { OnOk result ((ns : List (List ℕ)) → HasPlaces names.now ns → ways.new.items ≡ ways.old.items ++ ways_in ns source.now words.now) }
{
    for word in words {
        let Some(to) = names.of(spelled_at(source, *word)) else {
            continue;
        };
        ways.push((*word, to))?;
    }
    Ok(())
}

// The words of a sentence of accum_sig.
fn add_line(
    names: &Places,
    source: &[u8],
    line: &Declaration,
    ways: &mut Vec<(Spot, usize)>,
) -> Result<(), Memory>
    ensures { OnOk result ((ns : List (List ℕ)) → HasPlaces names.now ns → ways.new.items ≡ ways.old.items ++ ways_in ns source.now (accum_words (line.now ∷ []))) }
{
    match line {
        Declaration::Kinds(_, _) => Ok(()),
        Declaration::LocalKinds(_, _) => Ok(()),
        Declaration::Constants(_, _) => Ok(()),
        Declaration::Locals(_, _) => Ok(()),
        Declaration::Abbreviation(_, _, _) => Ok(()),
        Declaration::Accumulate(_) => Ok(()),
        Declaration::AccumSig(words) => add_ways(names, source, words.as_slice(), ways),
        Declaration::Fixities(_, _, _) => Ok(()),
    }
}

// The ways out of a signature, in text order.
fn ways_of(
    alloc: Global,
    names: &Places,
    source: &[u8],
    text: &SignatureText,
) -> Result<Vec<(Spot, usize)>, Memory>
    ensures { IfOk result (λ ways. (ns : List (List ℕ)) → HasPlaces names.now ns → ways.items ≡ ways_in ns source.now (accum_words text.now.lines.items)) }
{
    let mut ways = Vec::new(alloc);
    for line in &text.lines {
        add_line(names, source, line, &mut ways)?;
    }
    Ok(ways)
}

// No place is marked.
fn no_marks(alloc: Global, count: usize) -> Result<Vec<bool>, Memory>
    ensures { IfOk result (λ marks. marks.items ≡ replicate count false) }
{
    let marks = Vec::from_elem(alloc, false, count)?;
    Ok(marks)
}

// Marks a place. Says whether it had no mark; a place past the end counts as marked.
fn mark(marks: &mut Vec<bool>, place: usize) -> bool
    ensures fresh { result ≡ not (slice_index_or marks.old.items place true) }
    ensures marked { marks.new.items ≡ (if slice_index_or marks.old.items place true then marks.old.items else slice_set marks.old.items place true) }
{
    if place >= marks.len() {
        return false;
    }
    if marks[place] {
        return false;
    }
    marks[place] = true;
    true
}

// Puts the signatures that words name on a stack, the first on top.
fn push_entries(words: &[(Spot, usize)], work: &mut Vec<Step>) -> Result<(), Memory>
    ensures { OnOk result (work.new.items ≡ work.old.items ++ entries (reverse words.now)) }
{
    for word in words.iter().rev().copied() {
        work.push(Step::Enter(word.1))?;
    }
    Ok(())
}

// The places before one are marked, among so many.
pub(crate) fn marks_before(alloc: Global, from: usize, count: usize) -> Result<Vec<bool>, Memory>
    ensures marked { IfOk result (λ marks. (k : ℕ) → k < count → slice_index_or marks.items k true ≡ true → k < from) }
    ensures clear { IfOk result (λ marks. (k : ℕ) → slice_index_or marks.items k true ≡ false → from ≤ k) }
{
    let mut marks = no_marks(alloc, count)?;
    for place in 0..from {
        mark(&mut marks, place);
    }
    Ok(marks)
}

// The ways between signatures, or between abbreviations: of each the words that name another, with its number.
#[derive(Drop)]
pub(crate) struct Ways {
    pub ways: Vec<Vec<(Spot, usize)>>,
}

impl Ways {
    // There is nothing to lead from.
    pub(crate) fn none(alloc: Global) -> Ways
        ensures { map (λ out. out.items) result.ways.items ≡ [] }
    {
        Ways {
            ways: Vec::new(alloc),
        }
    }

    // One more, with its words.
    pub(crate) fn push(&mut self, words: Vec<(Spot, usize)>) -> Result<(), Memory>
        ensures { OnOk result (map (λ out. out.items) self.new.ways.items ≡ map (λ out. out.items) self.old.ways.items ++ words.items ∷ []) }
    {
        self.ways.push(words)?;
        Ok(())
    }

    pub(crate) fn of(
        alloc: Global,
        names: &[String],
        sources: &[Vec<u8>],
        texts: &[SignatureText],
    ) -> Result<Ways, Memory>
        ensures { IfOk result (λ w. map (λ out. out.items) w.ways.items ≡ ways_between (map string_bytes names.now) sources.now texts.now) }
    {
        let numbers = places_of(alloc, names)?;
        let mut ways = Vec::new(alloc);
        for at in 0..sources.len().min(texts.len()) {
            let out = ways_of(alloc, &numbers, sources[at].as_slice(), &texts[at])?;
            ways.push(out)?;
        }
        Ok(Ways { ways })
    }

    // Puts the signatures that one names on a stack, the first on top.
    fn push_named(&self, at: usize, work: &mut Vec<Step>) -> Result<(), Memory>
        ensures { OnOk result (work.new.items ≡ work.old.items ++ entries (reverse (ways_out (map (λ out. out.items) self.now.ways.items) at))) }
    {
        let Some(words) = self.ways.get(at) else {
            return Ok(());
        };
        push_entries(words.as_slice(), work)
    }

    // Enters a signature, if this is the first time.
    fn enter(
        &self,
        at: usize,
        marks: &mut Vec<bool>,
        steps: &mut Vec<Step>,
        work: &mut Vec<Step>,
    ) -> Result<(), Memory>
        ensures moves { OnOk result (Moves (map (λ out. out.items) self.now.ways.items) marks.old.items (work.old.items ++ Enter at ∷ []) steps.old.items marks.new.items work.new.items steps.new.items) }
        ensures falls { OnOk result (length work.new.items + waiting marks.new.items (map (λ out. out.items) self.now.ways.items) ≤ length work.old.items + waiting marks.old.items (map (λ out. out.items) self.now.ways.items)) }
    {
        if !mark(marks, at) {
            return Ok(());
        }
        steps.push(Step::Enter(at))?;
        work.push(Step::Declare(at))?;
        self.push_named(at, work)
    }

    // Takes what is next.
    fn take(
        &self,
        next: Step,
        marks: &mut Vec<bool>,
        steps: &mut Vec<Step>,
        work: &mut Vec<Step>,
    ) -> Result<(), Memory>
        ensures moves { OnOk result (Moves (map (λ out. out.items) self.now.ways.items) marks.old.items (work.old.items ++ next ∷ []) steps.old.items marks.new.items work.new.items steps.new.items) }
        ensures falls { OnOk result (length work.new.items + waiting marks.new.items (map (λ out. out.items) self.now.ways.items) ≤ length work.old.items + waiting marks.old.items (map (λ out. out.items) self.now.ways.items)) }
    {
        match next {
            Step::Enter(at) => self.enter(at, marks, steps, work),
            Step::Declare(at) => {
                steps.push(Step::Declare(at))?;
                Ok(())
            }
        }
    }

    // The steps from a signature, but for those that are marked: each is entered once, and declares behind those that it names.
    pub(crate) fn steps_from(
        &self,
        alloc: Global,
        root: usize,
        marks: &mut Vec<bool>,
    ) -> Result<Vec<Step>, Memory>
        ensures { IfOk result (λ steps. Loads (map (λ out. out.items) self.now.ways.items) marks.old.items root steps.items marks.new.items) }
    {
        let mut steps = Vec::new(alloc);
        let mut work = Vec::new(alloc);
        work.push(Step::Enter(root))?;
        'steps: while let Some(next) = work.pop() {
            self.take(next, marks, &mut steps, &mut work)?;
        }
        Ok(steps)
    }

    // The steps from a signature.
    pub(crate) fn steps(&self, alloc: Global, root: usize) -> Result<Vec<Step>, Memory>
        ensures { IfOk result (λ steps. IsLoadOrder (map (λ out. out.items) self.now.ways.items) root steps.items) }
    {
        let mut marks = no_marks(alloc, self.ways.len())?;
        self.steps_from(alloc, root, &mut marks)
    }

    // Puts the words of a signature on a stack.
    fn push_words(&self, at: usize, work: &mut Vec<(Spot, usize)>) -> Result<(), Memory>
        ensures { OnOk result (work.new.items ≡ work.old.items ++ ways_out (map (λ out. out.items) self.now.ways.items) at) }
    {
        let Some(words) = self.ways.get(at) else {
            return Ok(());
        };
        work.extend_from_slice(words.as_slice())?;
        Ok(())
    }

    // Whether one of these words leads to a signature.
    pub(crate) fn lead_to(
        &self,
        alloc: Global,
        words: &[(Spot, usize)],
        to: usize,
    ) -> Result<bool, Memory>
        ensures found { IfOk result (λ found. found ≡ true → SomeLeads (map (λ out. out.items) self.now.ways.items) words.now to) }
        ensures none { IfOk result (λ found. found ≡ false → NoneLeads (map (λ out. out.items) self.now.ways.items) words.now to) }
    {
        let mut marks = no_marks(alloc, self.ways.len())?;
        let mut work = Vec::from_slice(alloc, words)?;
        'places: while let Some(way) = work.pop() {
            if way.1 == to {
                return Ok(true);
            }
            if !mark(&mut marks, way.1) {
                continue;
            }
            self.push_words(way.1, &mut work)?;
        }
        Ok(false)
    }

    // The first of these words that leads to a signature.
    fn first_leading(
        &self,
        alloc: Global,
        words: &[(Spot, usize)],
        to: usize,
    ) -> Result<(), SigFault>
        ensures circle { IfErr result (IsCircleFault (map (λ out. out.items) self.now.ways.items) words.now to) }
        ensures none { IfOk result (λ done. NoneLeads (map (λ out. out.items) self.now.ways.items) words.now to) }
    {
        for word in words {
            if self.lead_to(alloc, &[*word], to)? {
                return Err(SigFault::CyclicSignature(word.0));
            }
        }
        Ok(())
    }

    // The first word of a signature that leads back to it.
    fn check_words(&self, alloc: Global, at: usize) -> Result<(), SigFault>
        ensures circle { IfErr result (IsCircleFault (map (λ out. out.items) self.now.ways.items) (ways_out (map (λ out. out.items) self.now.ways.items) at) at) }
        ensures none { IfOk result (λ done. HasNoCircle (map (λ out. out.items) self.now.ways.items) at) }
    {
        let Some(words) = self.ways.get(at) else {
            return Ok(());
        };
        if !self.lead_to(alloc, words.as_slice(), at)? {
            return Ok(());
        }
        self.first_leading(alloc, words.as_slice(), at)
    }

    // The first word, in the order of the steps, that leads back to the signature in which it stands.
    pub(crate) fn check_circles(&self, alloc: Global, steps: &[Step]) -> Result<(), SigFault>
        ensures circle { IfErr result (IsFirstCircleFault (map (λ out. out.items) self.now.ways.items) steps.now) }
        ensures none { IfOk result (λ done. (j : ℕ) → Contains steps.now (Enter j) → HasNoCircle (map (λ out. out.items) self.now.ways.items) j) }
    {
        for step in steps {
            let Step::Enter(at) = step else {
                continue;
            };
            self.check_words(alloc, *at)?;
        }
        Ok(())
    }
}
