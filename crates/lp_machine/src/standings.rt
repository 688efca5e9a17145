// What negated goals and assumed clauses speak of.
ghost use Rattle.std.specs.List.{All};
ghost use Rattle.lp_code.specs.Length.{Fits, AllFit};

use lp_base::Memory;
use lp_code::{Code, Instr, Record, Standing, length, standing};
use std::alloc::Global;

/// What a negated block speaks of: its record, the place of its first instruction, and the registers.
#[derive(Drop)]
struct Block {
    record: u32,
    place: usize,
    standing: Standing,
}

/// What the assumed records of code speak of, by record, and what its negated blocks do.
#[derive(Drop)]
pub(crate) struct Standings {
    assumed: Vec<Option<Standing>>,
    blocks: Vec<Block>,
}

impl Standings {
    /// Nothing is said of any record.
    pub(crate) fn none(alloc: Global) -> Standings {
        Standings {
            assumed: Vec::new(alloc),
            blocks: Vec::new(alloc),
        }
    }

    // What the record of a number speaks of.
    fn put(&mut self, alloc: Global, code: &Code, of: &Record, number: u32) -> Result<(), Memory>
        requires code { AllFit code.now.records.items }
        requires instructions { All Fits of.now.code.items }
    {
        let own = if of.program || of.head.is_none() {
            None
        } else {
            Some(standing(alloc, code, number, None)?)
        };
        self.assumed.push(own)?;
        let mut at: u64 = 0;
        for (place, instr) in of.code.iter().enumerate() {
            if let Instr::Not = instr {
                let offset = u32::try_from(at).unwrap_or(u32::MAX);
                self.blocks.push(Block {
                    record: number,
                    place: place.saturating_add(1),
                    standing: standing(alloc, code, number, Some(offset))?,
                })?;
            }
            at = at.saturating_add(u64::from(length(instr)));
        }
        Ok(())
    }

    // What the records of code speak of, behind none.
    fn put_all(&mut self, alloc: Global, code: &Code) -> Result<(), Memory>
        requires { AllFit code.now.records.items }
    {
        let mut number: u32 = 0;
        for record in &code.records {
            self.put(alloc, code, record, number)?;
            number = number.saturating_add(1);
        }
        Ok(())
    }

    /// What the records of code speak of.
    pub(crate) fn of(alloc: Global, code: &Code) -> Result<Standings, Memory>
        requires { AllFit code.now.records.items }
    {
        let mut standings = Standings::none(alloc);
        standings.put_all(alloc, code)?;
        Ok(standings)
    }

    /// What an assumed record speaks of.
    pub(crate) fn assumed(&self, record: u32) -> Option<&Standing> {
        match self.assumed.get(record as usize) {
            Some(Some(standing)) => Some(standing),
            _ => None,
        }
    }

    /// What the negated block speaks of whose first instruction stands at a place.
    pub(crate) fn block(&self, record: u32, place: usize) -> Option<&Standing> {
        let blocks = self.blocks.as_slice();
        let at = blocks.partition_point(|block| {
            block.record < record || (block.record == record && block.place < place)
        });
        match blocks.get(at) {
            Some(block) if block.record == record && block.place == place => Some(&block.standing),
            _ => None,
        }
    }
}

/// Whether some goal is negated.
pub(crate) fn has_negation(records: &[Record]) -> bool {
    for record in records {
        for instr in &record.code {
            if let Instr::Not = instr {
                return true;
            }
        }
    }
    false
}
