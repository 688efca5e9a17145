// Assumptions, newest first. What is left stays behind them until a point before it is gone back to, since branches share it.
ghost use Rattle.std.specs.Prelude.{◌≡◌, ◌≤◌, ◌++◌, ◌∷◌, [], ℕ, List, length, Option, Some, None, MatchOption, IfOk, OnOk, OnErr};
ghost use Rattle.lp_impl.specs.Chains.{Said, AreSaid, AreOpen, AreBehind, reach, clause_for, matching, found_of, start_of, clauses_said, begins, without_newest};
ghost use Rattle.lp_impl.specs.Points.{as_at, IsPoint, KeepsPoints};
ghost use Rattle.lp_impl.specs.declared.assumptions.Entry.{Entry};
ghost use Rattle.lp_impl.specs.declared.assumptions.Point.{Point};

use crate::head::{Head, same_head};
use lp_base::Memory;
use std::alloc::Global;
use std::marker::Model;

/// An assumed clause: its predicate, and the number of its record.
#[derive(Clone, Copy)]
pub struct Assumed {
    pub head: Head,
    pub clause: u32,
}

// Where a search for candidates begins: with the newest, or with the entry of a number.
#[derive(Clone, Copy)]
pub(crate) enum Start {
    Newest,
    From(Option<usize>),
}

/// A place in a list of assumptions.
#[derive(Clone, Copy)]
pub struct Cursor {
    pub(crate) start: Start,
}

/// An assumed clause for a goal: the number of its record, the frame in which it was assumed, and the place behind it.
#[derive(Clone, Copy)]
pub struct Candidate {
    pub clause: u32,
    pub frame: usize,
    pub next: Cursor,
}

/// The assumptions as they were.
#[derive(Clone, Copy)]
pub struct Point {
    pub(crate) entries: usize,
    pub(crate) newest: Option<usize>,
}

// A clause with its frame, or where an assumption begins, and the entry behind it.
#[derive(Clone, Copy)]
pub(crate) struct Entry {
    pub(crate) assumed: Option<Assumed>,
    pub(crate) frame: usize,
    pub(crate) older: Option<usize>,
}

/// A list of assumptions, each of which is a list of clauses.
#[derive(Drop)]
pub struct Assumptions {
    entries: Vec<Entry>,
    newest: Option<usize>,
}

impl Model for Assumptions {
    ghost use Rattle.lp_impl.specs.Chains.{Held};

    ghost Value = { Held };

    ghost view = { λ a. record { entries = a.entries.items; newest = a.newest } };
}

impl Cursor {
    /// Before all candidates.
    pub const fn first() -> Cursor
        ensures { result.start ≡ Start.Newest }
    {
        Cursor {
            start: Start::Newest,
        }
    }

    /// Behind all candidates.
    pub const fn end() -> Cursor
        ensures { result.start ≡ Start.From None }
    {
        Cursor {
            start: Start::From(None),
        }
    }
}

// The entry behind one of this number, which is older.
fn older(behind: Option<usize>, number: usize) -> Option<usize>
    ensures older { reach result ≤ number }
    ensures same { reach behind ≤ number → result ≡ behind }
{
    let Some(at) = behind else {
        return None;
    };
    if at < number {
        return Some(at);
    }
    None
}

// The clause, where it is one of this predicate.
fn clause_of(assumed: Option<Assumed>, head: Head) -> Option<u32>
    ensures { result ≡ clause_for head assumed }
{
    let Some(assumed) = assumed else {
        return None;
    };
    if same_head(assumed.head, head) {
        return Some(assumed.clause);
    }
    None
}

fn begin_at(cursor: Cursor, newest: Option<usize>) -> Option<usize>
    ensures { result ≡ start_of cursor.start newest }
{
    match cursor.start {
        Start::Newest => newest,
        Start::From(at) => at,
    }
}

// One more entry in front of those from a number on.
fn put(
    entries: &mut Vec<Entry>,
    assumed: Option<Assumed>,
    frame: usize,
    behind: Option<usize>,
) -> Result<Option<usize>, Memory>
    ensures kept { (more : List Entry) × (entries.new.items ≡ entries.old.items ++ more) }
    ensures said { IfOk result (λ newest. (ss : List Said) → AreSaid entries.old.items behind ss → AreSaid entries.new.items newest (record { assumed = assumed; frame = frame } ∷ ss)) }
{
    let number = entries.len();
    entries.push(Entry {
        assumed,
        frame,
        older: behind,
    })?;
    Ok(Some(number))
}

// The clauses in front of the entries from a number on, the first one newest.
fn put_all(
    entries: &mut Vec<Entry>,
    clauses: &[Assumed],
    frame: usize,
    behind: Option<usize>,
) -> Result<Option<usize>, Memory>
    ensures kept { (more : List Entry) × (entries.new.items ≡ entries.old.items ++ more) }
    ensures said { IfOk result (λ newest. (ss : List Said) → AreSaid entries.old.items behind ss → AreSaid entries.new.items newest (clauses_said frame clauses.now ++ ss)) }
{
    let mut newest = behind;
    let mut left = clauses.len();
    'clauses: while left > 0 {
        left -= 1;
        newest = put(entries, Some(clauses[left]), frame, newest)?;
    }
    Ok(newest)
}

// The next clause of this predicate, from the entry of a number on.
fn next_candidate(entries: &Vec<Entry>, head: Head, from: Option<usize>) -> Option<Candidate>
    ensures { (ss : List Said) → AreSaid entries.now.items from ss → MatchOption result (matching head ss ≡ []) (λ found.
        (behind : List Said) × (o : Option ℕ) × (found.next.start ≡ Start.From o) × AreSaid entries.now.items o behind × (matching head ss ≡ found_of found ∷ matching head behind)) }
{
    let mut at = from;
    'entries: while let Some(number) = at {
        let Some(entry) = entries.get(number) else {
            return None;
        };
        at = older(entry.older, number);
        if let Some(clause) = clause_of(entry.assumed, head) {
            return Some(Candidate {
                clause,
                frame: entry.frame,
                next: Cursor {
                    start: Start::From(at),
                },
            });
        }
    }
    None
}

// The next clause, from the entry of a number on.
fn next_of_all(entries: &Vec<Entry>, from: Option<usize>) -> Option<Candidate> {
    let mut at = from;
    'entries: while let Some(number) = at {
        let Some(entry) = entries.get(number) else {
            return None;
        };
        at = older(entry.older, number);
        if let Some(assumed) = entry.assumed {
            return Some(Candidate {
                clause: assumed.clause,
                frame: entry.frame,
                next: Cursor {
                    start: Start::From(at),
                },
            });
        }
    }
    None
}

// The newest entry behind the newest assumption, of which the newest entry has this number.
fn behind_newest(entries: &Vec<Entry>, newest: Option<usize>) -> Option<usize>
    ensures { (ss : List Said) → AreSaid entries.now.items newest ss → AreSaid entries.now.items result (without_newest ss) }
{
    let mut at = newest;
    'entries: while let Some(number) = at {
        let Some(entry) = entries.get(number) else {
            return None;
        };
        at = older(entry.older, number);
        match entry.assumed {
            None => return at,
            Some(_) => continue,
        }
    }
    None
}

impl Assumptions {
    /// No assumption.
    pub fn new(alloc: Global) -> Assumptions
        ensures none { AreOpen result [] }
    {
        Assumptions {
            entries: Vec::new(alloc),
            newest: None,
        }
    }

    /// Assumes clauses, in front of what is assumed, for a goal in a frame.
    pub fn assume(&mut self, clauses: &[Assumed], frame: usize) -> Result<(), Memory>
        ensures assumed { OnOk result ((ss : List Said) → AreOpen self.old ss → AreOpen self.new (clauses_said frame clauses.now ++ begins frame ∷ ss)) }
        ensures kept { KeepsPoints self.old self.new }
        ensures unchanged { OnErr result ((ss : List Said) → AreOpen self.old ss → AreOpen self.new ss) }
    {
        let begun = put(&mut self.entries, None, frame, self.newest)?;
        self.newest = put_all(&mut self.entries, clauses, frame, begun)?;
        Ok(())
    }

    /// The assumptions as they are.
    pub fn point(&self) -> Point
        ensures point { IsPoint result self.now }
        ensures same { as_at result self.now ≡ self.now }
    {
        Point {
            entries: self.entries.len(),
            newest: self.newest,
        }
    }

    /// Leaves the newest assumption that is open. Where none is, nothing changes.
    pub fn leave(&mut self)
        ensures left { (ss : List Said) → AreOpen self.old ss → AreOpen self.new (without_newest ss) }
        ensures kept { KeepsPoints self.old self.new }
    {
        self.newest = behind_newest(&self.entries, self.newest);
    }

    /// Goes back to the assumptions as they were.
    pub fn restore(&mut self, point: Point)
        ensures back { IsPoint point self.old → self.new ≡ as_at point self.old }
        ensures kept { (p : Point) → p.entries ≤ point.entries → IsPoint p self.old → IsPoint p self.new × (as_at p self.new ≡ as_at p self.old) }
    {
        self.entries.truncate(point.entries);
        self.newest = point.newest;
    }

    /// The next assumed clause behind a place, whatever its predicate. No memory is taken.
    pub fn next_clause(&self, after: Cursor) -> Option<Candidate> {
        next_of_all(&self.entries, begin_at(after, self.newest))
    }

    /// The next assumed clause of a predicate behind a place: the newest assumption first, the clauses of one in written order. No memory is taken.
    pub fn candidates(&self, head: Head, after: Cursor) -> Option<Candidate>
        ensures { (ss : List Said) → AreBehind self.now after ss → MatchOption result (matching head ss ≡ []) (λ found.
            (behind : List Said) × AreBehind self.now found.next behind × (matching head ss ≡ found_of found ∷ matching head behind)) }
    {
        next_candidate(&self.entries, head, begin_at(after, self.newest))
    }
}
