// Limits that are passed whatever the code is: what is too long, too wide or too deep, and how many records there are.
ghost use Rattle.std.specs.Prelude.{◌≡◌, ℕ, ◌+◌, ◌*◌, ◌≤◌, List, length, OnOk, IfOk, IfErr};
ghost use Rattle.lp_calculus.specs.Types.{Ty};
ghost use Rattle.lp_calculus.specs.Term.{text, constant};
ghost use Rattle.lp_term.specs.Nodes.{tree};
ghost use Rattle.lp_term.specs.Walk.{size};
ghost use Rattle.lp_model.specs.Flat.{clauses, no_clauses};
ghost use Rattle.lp_model.specs.Flattened.{goal_of, clause_of};
ghost use Rattle.lp_gen.specs.Registers.{past};
ghost use Rattle.lp_gen.specs.Limits.{goal_counts, clauses_counts, AreFew, IsTold};
ghost use Rattle.lp_gen.specs.inner.Capturing.{goal_size, clause_size};
ghost use Rattle.lp_gen.specs.inner.Limiting.{nodes_of, counting_of, limit_of, strict, IsOver, times, TermsOver, GoalsOver, source_counts, IsMet, source_task, source_work, counts_of_source};

use crate::fault::GenRefusal;
use lp_base::{Limit, MAX_ARGUMENTS, MAX_CLAUSES, MAX_TERM_DEPTH, MAX_TEXT_BYTES, Memory};
use lp_model::{Clause, Goal};
use lp_term::{Bank, TermId, TermNode};
use std::alloc::Global;

/// What is looked for.
#[derive(Clone, Copy)]
pub(crate) enum Look {
    Strings,
    Arguments,
    Nesting,
    Records,
}

/// Where it may stand, with the number that is counted on the way there: how many arguments a head has so far, or how deep it stands.
#[derive(Clone, Copy)]
pub(crate) enum Source<'a> {
    Clauses(&'a [Clause], u64),
    Goals(&'a [Goal], u64),
    Terms(&'a [TermId], u64),
    Term(TermId, u64),
}

// How many more may be met: none but of records.
#[derive(Clone, Copy)]
struct Tally {
    look: Look,
    room: u64,
    ghost none: { strict look room ≡ 0 },
}

fn past(most: u64, number: u64) -> u64
    ensures { result ≡ past most number }
{
    if number > most { 1 } else { 0 }
}

impl Look {
    fn limit(self) -> Limit
        ensures { result ≡ limit_of self }
    {
        match self {
            Look::Strings => Limit::Text,
            Look::Arguments => Limit::Arguments,
            Look::Nesting => Limit::Nesting,
            Look::Records => Limit::Clauses,
        }
    }

    // What a node is that is no application.
    fn of_node(self, number: u64) -> u64
        ensures { result ≡ (nodes_of self).of_node number }
    {
        match self {
            Look::Strings => 0,
            Look::Arguments => past(MAX_ARGUMENTS as u64, number),
            Look::Nesting => past(MAX_TERM_DEPTH as u64, number),
            Look::Records => 0,
        }
    }

    fn of_string(self, bytes: &[u8]) -> u64
        ensures { result ≡ (nodes_of self).of_atom (text bytes.now) }
    {
        match self {
            Look::Strings => past(MAX_TEXT_BYTES as u64, bytes.len() as u64),
            Look::Arguments => 0,
            Look::Nesting => 0,
            Look::Records => 0,
        }
    }

    // What so many types of a constant are.
    fn of_types(self, count: usize) -> u64
        ensures { (c : ℕ) (ts : List Ty) → length ts ≡ count → result ≡ (nodes_of self).of_atom (constant c ts) }
    {
        match self {
            Look::Strings => 0,
            Look::Arguments => past(MAX_ARGUMENTS as u64, count as u64),
            Look::Nesting => 0,
            Look::Records => 0,
        }
    }

    // What the end of a list of goals is.
    fn of_end(self, number: u64) -> u64
        ensures { result ≡ (counting_of self).of_end number }
    {
        match self {
            Look::Strings => 0,
            Look::Arguments => 0,
            Look::Nesting => past(MAX_TERM_DEPTH as u64, number),
            Look::Records => 0,
        }
    }

    fn of_clause(self) -> u64
        ensures { result ≡ (counting_of self).of_clause }
    {
        match self {
            Look::Strings => 0,
            Look::Arguments => 0,
            Look::Nesting => 0,
            Look::Records => 1,
        }
    }
}

impl Tally {
    // So many are met.
    fn take(&mut self, count: u64) -> Result<(), GenRefusal>
        ensures look { self.new.look ≡ self.old.look }
        ensures room { OnOk result (self.old.room ≡ self.new.room + count) }
        ensures cause { IfErr result (IsOver self.old.look self.old.room count) }
    {
        if count > self.room {
            return Err(GenRefusal::Limit(self.look.limit()));
        }
        self.room -= count;
        Ok(())
    }

    // The number on the way to the head of so many arguments.
    fn to_head(&self, number: u64, count: usize) -> Result<u64, GenRefusal>
        ensures number { IfOk result (λ front. front ≡ times (nodes_of self.now.look).to_head count number) }
        ensures cause { IfErr result (TermsOver self.now.look self.now.room (times (nodes_of self.now.look).to_head count number)) }
    {
        match self.look {
            Look::Strings => Ok(number),
            Look::Arguments => {
                let front = number.saturating_add(count as u64);
                if front > MAX_ARGUMENTS as u64 {
                    return Err(GenRefusal::Limit(Limit::Arguments));
                }
                Ok(front)
            }
            Look::Nesting => Ok(number),
            Look::Records => Ok(number),
        }
    }

    // The number on the way to an argument, or below an abstraction.
    fn to_part(&self, number: u64) -> Result<u64, GenRefusal>
        ensures number { IfOk result (λ below. below ≡ (nodes_of self.now.look).to_part number) }
        ensures cause { IfErr result (TermsOver self.now.look self.now.room ((nodes_of self.now.look).to_part number)) }
    {
        match self.look {
            Look::Strings => Ok(number),
            Look::Arguments => Ok(0),
            Look::Nesting => {
                if number >= MAX_TERM_DEPTH as u64 {
                    return Err(GenRefusal::Limit(Limit::Nesting));
                }
                Ok(number + 1)
            }
            Look::Records => Ok(number),
        }
    }

    // The number on the way into a block.
    fn to_block(&self, number: u64) -> Result<u64, GenRefusal>
        ensures number { IfOk result (λ within. within ≡ (counting_of self.now.look).to_block number) }
        ensures cause { IfErr result (GoalsOver self.now.look self.now.room ((counting_of self.now.look).to_block number)) }
    {
        match self.look {
            Look::Strings => Ok(number),
            Look::Arguments => Ok(number),
            Look::Nesting => {
                if number >= MAX_TERM_DEPTH as u64 {
                    return Err(GenRefusal::Limit(Limit::Nesting));
                }
                Ok(number + 1)
            }
            Look::Records => Ok(number),
        }
    }
}

fn visit_term<'a>(
    bank: &'a Bank,
    tally: &mut Tally,
    term: TermId,
    number: u64,
    work: &mut Vec<Source<'a>>,
) -> Result<(), GenRefusal>
    ensures look { tally.new.look ≡ tally.old.look }
    ensures less { OnOk result (source_work bank.now work.new.items + 1 ≤ source_work bank.now work.old.items + 4 * size (tree bank.now term.0)) }
    ensures met { OnOk result (IsMet bank.now tally.old.look tally.old.room tally.new.room work.old.items work.new.items ((counting_of tally.old.look).of_term number (tree bank.now term.0))) }
    ensures cause { IfErr result (IsOver tally.old.look tally.old.room ((counting_of tally.old.look).of_term number (tree bank.now term.0))) }
{
    match bank.term_node(term) {
        TermNode::Text(bytes) => {
            let nodes = tally.look.of_node(number);
            tally.take(nodes)?;
            let strings = tally.look.of_string(bytes);
            tally.take(strings)?;
            Ok(())
        }
        TermNode::Const(_, types) => {
            let nodes = tally.look.of_node(number);
            tally.take(nodes)?;
            let wide = tally.look.of_types(types.len());
            tally.take(wide)?;
            Ok(())
        }
        TermNode::Abs(body) => {
            let nodes = tally.look.of_node(number);
            tally.take(nodes)?;
            let below = tally.to_part(number)?;
            work.push(Source::Term(body, below))?;
            Ok(())
        }
        TermNode::App(head, args) => {
            let below = tally.to_part(number)?;
            let front = tally.to_head(number, args.len())?;
            work.push(Source::Terms(args, below))?;
            work.push(Source::Term(head, front))?;
            Ok(())
        }
        _ => {
            let nodes = tally.look.of_node(number);
            tally.take(nodes)?;
            Ok(())
        }
    }
}

// The parts of a goal.
fn visit_goal<'a>(
    bank: &Bank,
    tally: &Tally,
    goal: &'a Goal,
    number: u64,
    work: &mut Vec<Source<'a>>,
) -> Result<(), GenRefusal>
    ensures less { OnOk result (source_work bank.now work.new.items ≤ source_work bank.now work.old.items + goal_size bank.now goal.now) }
    ensures met { OnOk result (IsMet bank.now tally.now.look tally.now.room tally.now.room work.old.items work.new.items (goal_counts (counting_of tally.now.look) number (goal_of bank.now goal.now))) }
    ensures cause { IfErr result (IsOver tally.now.look tally.now.room (goal_counts (counting_of tally.now.look) number (goal_of bank.now goal.now))) }
{
    match goal {
        Goal::Atom(term) => {
            work.push(Source::Term(*term, 0))?;
            Ok(())
        }
        Goal::Cut => Ok(()),
        Goal::Either(left, right) => {
            let within = tally.to_block(number)?;
            work.push(Source::Goals(left.as_slice(), within))?;
            work.push(Source::Goals(right.as_slice(), within))?;
            Ok(())
        }
        Goal::Some(_, goals) => {
            work.push(Source::Goals(goals.as_slice(), number))?;
            Ok(())
        }
        Goal::All(_, goals) => {
            let within = tally.to_block(number)?;
            work.push(Source::Goals(goals.as_slice(), within))?;
            Ok(())
        }
        Goal::Assume(clauses, goals) => {
            let within = tally.to_block(number)?;
            work.push(Source::Clauses(clauses.as_slice(), within))?;
            work.push(Source::Goals(goals.as_slice(), within))?;
            Ok(())
        }
        Goal::Not(goals) => {
            let within = tally.to_block(number)?;
            work.push(Source::Goals(goals.as_slice(), within))?;
            Ok(())
        }
    }
}

// The parts of a clause.
fn visit_clause<'a>(
    bank: &Bank,
    tally: &mut Tally,
    clause: &'a Clause,
    number: u64,
    work: &mut Vec<Source<'a>>,
) -> Result<(), GenRefusal>
    ensures look { tally.new.look ≡ tally.old.look }
    ensures less { OnOk result (source_work bank.now work.new.items ≤ source_work bank.now work.old.items + clause_size bank.now clause.now) }
    ensures met { OnOk result (IsMet bank.now tally.old.look tally.old.room tally.new.room work.old.items work.new.items (clauses_counts (counting_of tally.old.look) number (clauses (clause_of bank.now clause.now) no_clauses))) }
    ensures cause { IfErr result (IsOver tally.old.look tally.old.room (clauses_counts (counting_of tally.old.look) number (clauses (clause_of bank.now clause.now) no_clauses))) }
{
    let clauses = tally.look.of_clause();
    tally.take(clauses)?;
    work.push(Source::Goals(clause.body.as_slice(), number))?;
    work.push(Source::Term(clause.head, 0))?;
    Ok(())
}

// Looks at a place, whose parts come next.
fn take_up<'a>(
    bank: &'a Bank,
    tally: &mut Tally,
    source: Source<'a>,
    work: &mut Vec<Source<'a>>,
) -> Result<(), GenRefusal>
    ensures look { tally.new.look ≡ tally.old.look }
    ensures less { OnOk result (source_work bank.now work.new.items + 1 ≤ source_work bank.now work.old.items + source_task bank.now source.entry) }
    ensures met { OnOk result (IsMet bank.now tally.old.look tally.old.room tally.new.room work.old.items work.new.items (source_counts bank.now (counting_of tally.old.look) source.entry)) }
    ensures cause { IfErr result (IsOver tally.old.look tally.old.room (source_counts bank.now (counting_of tally.old.look) source.entry)) }
{
    match source {
        Source::Clauses(clauses, number) => {
            let Some((first, rest)) = clauses.split_first() else {
                return Ok(());
            };
            work.push(Source::Clauses(rest, number))?;
            visit_clause(bank, tally, first, number, work)?;
            Ok(())
        }
        Source::Goals(goals, number) => {
            let Some((first, rest)) = goals.split_first() else {
                let ends = tally.look.of_end(number);
                tally.take(ends)?;
                return Ok(());
            };
            work.push(Source::Goals(rest, number))?;
            visit_goal(bank, tally, first, number, work)?;
            Ok(())
        }
        Source::Terms(terms, number) => {
            let Some((first, rest)) = terms.split_first() else {
                return Ok(());
            };
            work.push(Source::Terms(rest, number))?;
            work.push(Source::Term(*first, number))?;
            Ok(())
        }
        Source::Term(term, number) => {
            visit_term(bank, tally, term, number, work)?;
            Ok(())
        }
    }
}

// Refuses clauses or goals that have more of what is looked for than may be met.
fn check(
    alloc: Global,
    bank: &Bank,
    look: Look,
    room: u64,
    source: Source<'_>,
) -> Result<(), GenRefusal>
    requires { strict look room ≡ 0 }
    ensures within { OnOk result (source_counts bank.now (counting_of look) source.entry ≤ room) }
    ensures cause { IfErr result (IsOver look room (source_counts bank.now (counting_of look) source.entry)) }
{
    let mut tally = Tally { look, room };
    let mut work = Vec::new(alloc);
    work.push(source)?;
    'sources: while let Some(next) = work.pop() {
        take_up(bank, &mut tally, next, &mut work)?;
    }
    Ok(())
}

/// Refuses clauses or goals that pass one of these limits: the first that is passed, of strings, arguments, nesting and records.
pub(crate) fn check_limits(alloc: Global, bank: &Bank, source: Source<'_>) -> Result<(), GenRefusal>
    ensures within { OnOk result (AreFew (counts_of_source bank.now source.entry)) }
    ensures cause { IfErr result (IsTold (counts_of_source bank.now source.entry) ⊥) }
{
    check(alloc, bank, Look::Strings, 0, source)?;
    check(alloc, bank, Look::Arguments, 0, source)?;
    check(alloc, bank, Look::Nesting, 0, source)?;
    check(alloc, bank, Look::Records, MAX_CLAUSES, source)?;
    Ok(())
}
