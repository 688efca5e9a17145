// What is known of the records of code before they run: where blocks go on, and what is done at each instruction.
ghost use Rattle.std.specs.List.{All};
ghost use Rattle.lp_code.specs.Length.{Fits, AllFit};

use crate::demand::{Demand, demand_of};
use crate::idle::idle_in;
use crate::matches::{Act, act_of, put_matches};
use lp_base::Memory;
use lp_code::{Instr, Record, length};
use std::alloc::Global;

/// What is done at an instruction, and the place of the next one at which something is.
#[derive(Clone, Copy)]
pub(crate) struct Step {
    pub(crate) act: Act,
    pub(crate) behind: usize,
}

#[derive(Drop)]
pub(crate) struct Rows {
    // Where the instructions of each record begin.
    starts: Vec<usize>,
    // For each instruction where a block goes on: behind the left side, behind the right side, or behind a negated block.
    targets: Vec<usize>,
    steps: Vec<Step>,
    // For each record what its head asks.
    demands: Vec<Demand>,
}

// An open block: the place of the instruction that opened it.
fn place_at(offsets: &Vec<u64>, offset: u64) -> usize {
    offsets.as_slice().partition_point(|at| *at < offset)
}

// Puts the offset of each instruction behind the others.
fn put_offsets(code: &[Instr], offsets: &mut Vec<u64>) -> Result<(), Memory>
    requires { All Fits code.now }
{
    let mut at: u64 = 0;
    for instr in code {
        offsets.push(at)?;
        at = at.saturating_add(u64::from(length(instr)));
    }
    Ok(())
}

// Where the block of the instruction at a place goes on.
fn target_of(instr: &Instr, offsets: &Vec<u64>, place: usize) -> usize
    requires { Fits instr.now }
{
    let bytes = match instr {
        Instr::Either(bytes) => *bytes,
        Instr::Jump(bytes) => *bytes,
        _ => return place.saturating_add(1),
    };
    let here = match offsets.get(place) {
        Some(offset) => *offset,
        None => 0,
    };
    let behind = here.saturating_add(u64::from(length(instr)));
    place_at(offsets, behind.saturating_add(u64::from(bytes)))
}

// Where negated blocks go on.
fn close_negations(
    code: &[Instr],
    start: usize,
    open: &mut Vec<usize>,
    targets: &mut Vec<usize>,
) -> Result<(), Memory> {
    for (place, instr) in code.iter().enumerate() {
        match instr {
            Instr::Not => open.push(place)?,
            Instr::EndNot => {
                if let Some(opened) = open.pop()
                    && let Some(target) = targets.get_mut(start.saturating_add(opened))
                {
                    *target = place.saturating_add(1);
                }
            }
            _ => {}
        }
    }
    Ok(())
}

// What is done at the instructions of a record.
fn acts_in(alloc: Global, record: &Record) -> Result<Vec<Act>, Memory> {
    let mut acts = Vec::new(alloc);
    let idle = idle_in(alloc, record)?;
    for (instr, is_idle) in record.code.iter().zip(idle.iter().copied()) {
        acts.push(if is_idle { Act::Skip } else { act_of(instr) })?;
    }
    if record.head.is_some() {
        put_matches(alloc, record, &mut acts)?;
    }
    Ok(acts)
}

// The instructions of a record with the next ones, the last of them first. The place behind a `Not` is that of its block.
fn steps_back(alloc: Global, code: &[Instr], acts: &[Act]) -> Result<Vec<Step>, Memory> {
    let mut steps = Vec::new(alloc);
    let mut behind = code.len();
    let mut place = code.len();
    for act in acts.iter().copied().rev() {
        let own = place.saturating_sub(1);
        let next = match code.get(own) {
            Some(Instr::Not) => place,
            _ => behind,
        };
        steps.push(Step { act, behind: next })?;
        match act {
            Act::Skip => {}
            _ => behind = own,
        }
        place = own;
    }
    Ok(steps)
}

impl Rows {
    // The targets of a record's instructions.
    fn put_targets(&mut self, alloc: Global, code: &[Instr]) -> Result<(), Memory>
        requires { All Fits code.now }
    {
        let start = self.targets.len();
        self.starts.push(start)?;
        let mut offsets = Vec::new(alloc);
        put_offsets(code, &mut offsets)?;
        for (place, instr) in code.iter().enumerate() {
            self.targets.push(target_of(instr, &offsets, place))?;
        }
        let mut open = Vec::new(alloc);
        close_negations(code, start, &mut open, &mut self.targets)
    }

    fn put_steps(&mut self, alloc: Global, record: &Record) -> Result<(), Memory> {
        let acts = acts_in(alloc, record)?;
        let mut steps = steps_back(alloc, record.code.as_slice(), acts.as_slice())?;
        steps.reverse();
        self.steps.extend_from_slice(steps.as_slice())?;
        Ok(())
    }

    fn put_all(&mut self, alloc: Global, records: &[Record]) -> Result<(), Memory>
        requires { AllFit records.now }
    {
        for record in records {
            self.put_targets(alloc, record.code.as_slice())?;
            self.put_steps(alloc, record)?;
            self.demands.push(demand_of(record))?;
        }
        Ok(())
    }

    /// What is known of these records.
    pub(crate) fn of(alloc: Global, records: &[Record]) -> Result<Rows, Memory>
        requires { AllFit records.now }
    {
        let mut rows = Rows {
            starts: Vec::new(alloc),
            targets: Vec::new(alloc),
            steps: Vec::new(alloc),
            demands: Vec::new(alloc),
        };
        rows.put_all(alloc, records)?;
        Ok(rows)
    }

    /// Where the block of the instruction before a place goes on.
    pub(crate) fn target(&self, record: u32, place: usize) -> usize {
        let Some(start) = self.starts.get(record as usize) else {
            return usize::MAX;
        };
        match self.targets.get(start.saturating_add(place)) {
            Some(target) => *target,
            None => usize::MAX,
        }
    }

    /// What the head of a record asks of the goal's first argument.
    pub(crate) fn demand(&self, record: u32) -> Demand {
        match self.demands.get(record as usize) {
            Some(demand) => *demand,
            None => Demand::None,
        }
    }

    /// What is done at the instruction at a place, if there is one.
    pub(crate) fn step(&self, record: u32, place: usize) -> Option<Step> {
        let start = self.starts.get(record as usize)?;
        self.steps.get(start.saturating_add(place)).copied()
    }
}
