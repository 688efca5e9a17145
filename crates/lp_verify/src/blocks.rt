// The blocks of a record that are open, and where its instructions stand. The block of a SIGMA ends with the one around it and is not kept.
ghost use Rattle.std.specs.Prelude.{◌≡◌, ◌<◌, ◌^◌, ◌∷◌, [], ℕ, min, nat_le, length, reverse, is_some, unwrap_or, false, option_map, IfOk, OnOk};
ghost use Rattle.std.specs.List.{All, list_any};
ghost use Rattle.std.specs.Ordering.{nat_cmp};
ghost use Rattle.std.specs.BTreeMap.{get};
ghost use Rattle.lp_code.specs.Length.{Fits};
ghost use Rattle.lp_code.specs.Rules.{has_none, nesting_limit};
ghost use Rattle.lp_verify.specs.inner.Stack.{type_heights, term_heights};
ghost use Rattle.lp_verify.specs.inner.Sides.{sides_in, innermost_frame, innermost_side, frames_around, end_of, first_end_of, ends_there, around, AreEnds, is_left_to, is_all, is_assumption, is_negation, is_turn, is_jump, HasPlaces};

use lp_base::{MAX_TERM_DEPTH, Memory};
use lp_code::{Instr, length};
use std::alloc::Global;
use std::collections::BTreeMap;

// An open block. A side of an EITHER has the offset at which it ends.
#[derive(Clone, Copy, PartialEq, Eq)]
pub(crate) enum Block {
    All,
    Assumption,
    Negation,
    Left(u64),
    Right(u64),
}

// A block, with the numbers of registers that were set before it.
#[derive(Clone, Copy)]
pub(crate) struct Frame {
    pub(crate) block: Block,
    pub(crate) types: usize,
    pub(crate) terms: usize,
    // Where the first side ends, of this block and those around it.
    first_end: u64,
}

// The open blocks, innermost last.
#[derive(Drop)]
pub(crate) struct Blocks {
    frames: Vec<Frame>,
}

impl Block {
    // Where the side ends; other blocks end by an instruction of their own.
    fn end(self) -> u64
        ensures { result ≡ end_of self }
    {
        match self {
            Block::Left(end) | Block::Right(end) => end,
            _ => u64::MAX,
        }
    }
}

impl Blocks {
    pub(crate) fn new(alloc: Global) -> Blocks
        ensures { result.frames.items ≡ [] }
    {
        Blocks {
            frames: Vec::new(alloc),
        }
    }

    fn last(&self) -> Option<Frame>
        ensures { result ≡ innermost_frame (reverse self.now.frames.items) }
    {
        self.frames.last().copied()
    }

    pub(crate) fn innermost(&self) -> Option<Block>
        ensures { result ≡ innermost_side (sides_in self.now.frames.items) }
    {
        match self.last() {
            Some(frame) => Some(frame.block),
            None => None,
        }
    }

    pub(crate) fn is_empty(&self) -> bool
        ensures { result ≡ has_none (sides_in self.now.frames.items) }
    {
        self.last().is_none()
    }

    pub(crate) fn is_full(&self) -> bool
        ensures { result ≡ nat_le nesting_limit (length (sides_in self.now.frames.items)) }
    {
        self.frames.len() >= MAX_TERM_DEPTH
    }

    // Where the first side ends, of all blocks.
    fn first_end(&self) -> u64
        ensures { result ≡ first_end_of (reverse self.now.frames.items) }
    {
        match self.last() {
            Some(frame) => frame.first_end,
            None => u64::MAX,
        }
    }

    // Whether a side should have ended and is still open.
    pub(crate) fn has_passed(&self, place: u64) -> bool
        ensures { result ≡ nat_le (first_end_of (reverse self.now.frames.items)) place }
    {
        self.first_end() <= place
    }

    pub(crate) fn open(&mut self, block: Block, types: usize, terms: usize) -> Result<(), Memory>
        ensures sides { OnOk result (sides_in self.new.frames.items ≡ block ∷ sides_in self.old.frames.items) }
        ensures ends { OnOk result (AreEnds (reverse self.old.frames.items) → AreEnds (reverse self.new.frames.items)) }
        ensures types { OnOk result (type_heights (reverse self.new.frames.items) ≡ types ∷ type_heights (reverse self.old.frames.items)) }
        ensures terms { OnOk result (term_heights (reverse self.new.frames.items) ≡ terms ∷ term_heights (reverse self.old.frames.items)) }
    {
        let first_end = least(block.end(), self.first_end());
        self.frames.push(Frame {
            block,
            types,
            terms,
            first_end,
        })?;
        Ok(())
    }

    pub(crate) fn close(&mut self) -> Option<Frame>
        ensures sides { sides_in self.new.frames.items ≡ around (sides_in self.old.frames.items) }
        ensures ends { AreEnds (reverse self.old.frames.items) → AreEnds (reverse self.new.frames.items) }
        ensures innermost { result ≡ innermost_frame (reverse self.old.frames.items) }
        ensures frames { reverse self.new.frames.items ≡ frames_around (reverse self.old.frames.items) }
    {
        self.frames.pop()
    }

    // Whether the innermost block is a right side that ends here.
    pub(crate) fn ends_right(&self, place: u64) -> bool
        ensures { result ≡ ends_there place (innermost_side (sides_in self.now.frames.items)) }
    {
        is_right_to(self.innermost(), place)
    }
}

// Whether it is a right side that ends here.
fn is_right_to(block: Option<Block>, place: u64) -> bool
    ensures { result ≡ ends_there place block }
{
    match block {
        Some(Block::Right(end)) => end == place,
        _ => false,
    }
}

// Whether it is a left side that ends here.
pub(crate) fn is_left_to(block: Option<Block>, place: u64) -> bool
    ensures { result ≡ is_left_to place block }
{
    match block {
        Some(Block::Left(end)) => end == place,
        _ => false,
    }
}

pub(crate) fn is_all(block: Option<Block>) -> bool
    ensures { result ≡ is_all block }
{
    match block {
        Some(Block::All) => true,
        _ => false,
    }
}

pub(crate) fn is_assumption(block: Option<Block>) -> bool
    ensures { result ≡ is_assumption block }
{
    match block {
        Some(Block::Assumption) => true,
        _ => false,
    }
}

pub(crate) fn is_negation(block: Option<Block>) -> bool
    ensures { result ≡ is_negation block }
{
    match block {
        Some(Block::Negation) => true,
        _ => false,
    }
}

fn is_jump(instr: &Instr) -> bool
    ensures { result ≡ is_jump instr.now }
{
    match instr {
        Instr::Jump(_) => true,
        _ => false,
    }
}

fn is_turn(instr: &Instr) -> bool
    ensures { result ≡ is_turn instr.now }
{
    match instr {
        Instr::Either(_) | Instr::Jump(_) => true,
        _ => false,
    }
}

// Whether the code has sides.
fn has_turn(code: &[Instr]) -> bool
    ensures { result ≡ list_any is_turn code.now }
{
    for instr in code {
        if is_turn(instr) {
            return true;
        }
    }
    false
}

fn least(left: u64, right: u64) -> u64
    ensures { result ≡ min left right }
{
    if left <= right { left } else { right }
}

// Where the instructions stand, by offset: whether the one there is a JUMP.
#[derive(Drop)]
pub(crate) struct Places {
    jumps: BTreeMap<u64, bool>,
}

impl Places {
    // Of code without an EITHER and without a JUMP no places are wanted.
    pub(crate) fn of(alloc: Global, code: &[Instr]) -> Result<Places, Memory>
        requires { All Fits code.now }
        ensures { IfOk result (λ places. HasPlaces code.now places.jumps) }
    {
        if !has_turn(code) {
            return Ok(Places {
                jumps: BTreeMap::new(alloc),
            });
        }
        let mut jumps = BTreeMap::new(alloc);
        let mut place: u64 = 0;
        for instr in code {
            jumps.insert(place, is_jump(instr))?;
            place = place.saturating_add(u64::from(length(instr)));
        }
        Ok(Places { jumps })
    }

    // Whether an instruction begins at the offset.
    pub(crate) fn begins(&self, place: u64) -> bool
        ensures { result ≡ is_some (get nat_cmp self.now.jumps place) }
    {
        self.jumps.contains_key(&place)
    }

    // Whether a JUMP stands at the offset.
    pub(crate) fn jumps(&self, place: u64) -> bool
        ensures { result ≡ unwrap_or (get nat_cmp self.now.jumps place) false }
    {
        match self.jumps.get(&place) {
            Some(is_jump) => *is_jump,
            None => false,
        }
    }
}
