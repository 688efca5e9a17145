// The clauses that may meet a goal: first the assumed ones, the newest assumption first, then those of the program that pass the filter, in order.

use crate::demand::Demand;
use crate::heap::Rigid;
use crate::key::GoalKey;
use crate::plan::Predicate;
use crate::search::Search;
use lp_base::Memory;
use lp_code::KeyRef;
use lp_impl::{Candidate, Cursor, Head};
use lp_watch::{Crowd, Note, Watch};

// Predicates of more clauses are looked up by their keys.
const FEW: u32 = 8;

/// A clause for a goal: the number of its record, and where its captured registers begin.
#[derive(Clone, Copy)]
pub(crate) struct Clause {
    pub(crate) record: u32,
    pub(crate) captured: Option<usize>,
}

/// The program's candidate behind another one, where it was looked up with that one.
#[derive(Clone, Copy)]
pub(crate) enum Behind {
    Unknown,
    Known(Option<u32>),
}

/// The candidates that are left: the assumed ones behind a place, and those of the program from one on.
#[derive(Clone, Copy)]
pub(crate) struct Left {
    pub(crate) assumed: Cursor,
    pub(crate) program: Option<u32>,
    pub(crate) behind: Behind,
}

// The first number behind another, or the first.
fn first_behind(group: &[u32], after: Option<u32>) -> Option<u32> {
    let Some(number) = after else {
        return group.first().copied();
    };
    let at = group.partition_point(|other| *other <= number);
    group.get(at).copied()
}

// The smaller one of two numbers, if there are any.
fn smaller(one: Option<u32>, other: Option<u32>) -> Option<u32> {
    match (one, other) {
        (Some(a), Some(b)) => Some(a.min(b)),
        (Some(a), None) => Some(a),
        (None, b) => b,
    }
}

// An assumed clause, and the candidates behind it.
fn assumed_clause(found: Candidate, left: Left) -> (Clause, Left) {
    let clause = Clause {
        record: found.clause,
        captured: Some(found.frame),
    };
    let rest = Left {
        assumed: found.next,
        ..left
    };
    (clause, rest)
}

impl<'i> Search<'i> {
    // The first record of a chain that passes the filter.
    fn passing(&self, key: GoalKey, from: Option<u32>) -> Option<u32> {
        let mut at = from;
        for _ in 0..u64::MAX {
            let number = at?;
            let record = self.program.record(number)?;
            if self.heap.may_meet(key, &record.key) {
                return Some(number);
            }
            at = self.layout.next(number);
        }
        None
    }

    // The records of the goal's key.
    fn keyed(&self, constant: u32, key: GoalKey) -> &[u32] {
        match self.heap.clause_key(key) {
            KeyRef::None => &[],
            wanted => self.program.image.group(constant, wanted),
        }
    }

    // The first record behind another, or the first, and the one behind it, by the groups of keys.
    fn grouped(
        &self,
        constant: u32,
        predicate: Predicate,
        key: GoalKey,
        after: Option<u32>,
    ) -> (Option<u32>, Behind) {
        let keyed = self.keyed(constant, key);
        let open = if predicate.is_open {
            self.program.image.group(constant, KeyRef::None)
        } else {
            &[]
        };
        let first = smaller(first_behind(open, after), first_behind(keyed, after));
        if first.is_none() {
            return (None, Behind::Unknown);
        }
        let second = smaller(first_behind(open, first), first_behind(keyed, first));
        (first, Behind::Known(second))
    }

    // The program's first candidate behind a record, or the first of all; and the one behind it.
    fn program_behind(
        &self,
        head: Head,
        key: GoalKey,
        after: Option<u32>,
    ) -> (Option<u32>, Behind) {
        let Head::Const(constant) = head else {
            return (None, Behind::Unknown);
        };
        let Some(predicate) = self.layout.predicate(constant) else {
            return (None, Behind::Unknown);
        };
        let next = match after {
            None => Some(predicate.first),
            Some(number) => self.layout.next(number),
        };
        match key {
            GoalKey::None => (next, Behind::Unknown),
            _ if predicate.count > FEW => self.grouped(constant, predicate, key, after),
            _ => (self.passing(key, next), Behind::Unknown),
        }
    }

    /// All candidates for a goal.
    pub(crate) fn all(&self, head: Head, key: GoalKey) -> Left {
        let (program, behind) = self.program_behind(head, key, None);
        Left {
            assumed: Cursor::first(),
            program,
            behind,
        }
    }

    // The head that an assumed clause asks of the goal's first argument, where it is seen at a glance.
    fn asked(&self, assumed: Candidate) -> Option<Rigid> {
        match self.layout.demand(assumed.clause) {
            Demand::None => None,
            Demand::Const(constant) => Some(Rigid::Const(constant)),
            Demand::Int(integer) => Some(Rigid::Int(integer)),
            Demand::Register(number) => {
                let record = self.program.record(assumed.clause)?;
                let types = usize::from(record.captured_types);
                let term = self
                    .heap
                    .register(assumed.frame.saturating_add(types), number);
                self.heap.rigid_head(term)
            }
        }
    }

    // Whether an assumed clause is seen to fail for a goal whose first argument has this head.
    fn fails(&self, assumed: Candidate, first: Option<Rigid>) -> bool {
        match (first, self.asked(assumed)) {
            (Some(there), Some(asked)) => there != asked,
            _ => false,
        }
    }

    // The first of the program's candidates that are left, and those behind it.
    fn take_program(&self, head: Head, key: GoalKey, left: Left) -> Option<(Clause, Left)> {
        let number = left.program?;
        let (program, behind) = match left.behind {
            Behind::Known(next) => (next, Behind::Unknown),
            Behind::Unknown => self.program_behind(head, key, Some(number)),
        };
        let clause = Clause {
            record: number,
            captured: None,
        };
        let rest = Left {
            assumed: Cursor::end(),
            program,
            behind,
        };
        Some((clause, rest))
    }

    /// The first of the candidates that are left which is not seen to fail, and those behind it. One that fails is tried all the same:
    /// where candidates are left behind it, the search goes back to them.
    pub(crate) fn take_candidate<W: Watch>(
        &self,
        crowd: &mut Crowd<'_, W>,
        head: Head,
        key: GoalKey,
        left: Left,
    ) -> Result<Option<(Clause, Left)>, Memory> {
        let first = self.heap.rigid_head(self.heap.argument(0));
        let mut next = self.heap.candidate(head, left.assumed);
        for _ in 0..u64::MAX {
            let Some(found) = next else {
                return Ok(self.take_program(head, key, left));
            };
            if !self.fails(found, first) {
                return Ok(Some(assumed_clause(found, left)));
            }
            next = self.heap.candidate(head, found.next);
            if next.is_none() && left.program.is_none() {
                return Ok(None);
            }
            crowd.tell(Note::Back)?;
        }
        Err(Memory)
    }

    /// Whether a candidate is left.
    pub(crate) fn is_some_left(&self, head: Head, left: Left) -> bool {
        left.program.is_some() || self.heap.candidate(head, left.assumed).is_some()
    }
}
