// The pairs that wait, with what is needed to go back to an earlier list of them.

ghost use Rattle.std.specs.Prelude.{◌≡◌, ◌≤◌, ◌∷◌, ◌++◌, [], length, take, drop, true, OnOk};
ghost use Rattle.lp_unify.specs.declared.delayed.Waiting.{Waiting};
ghost use Rattle.lp_unify.specs.Waits.{pairs_of, KeepsEntries};

use lp_base::Memory;
use lp_store::CellId;
use std::alloc::Global;
use std::marker::Model;

/// Two terms that are to be one, and the level at which.
#[derive(Clone, Copy)]
pub(crate) struct Pair {
    pub(crate) left: CellId,
    pub(crate) right: CellId,
    pub(crate) level: u64,
}

/// A pair that waits until a variable is bound: its sides and its level.
#[derive(Clone, Copy)]
pub struct Waiting {
    pub left: CellId,
    pub right: CellId,
    pub level: u64,
    // The place of the first pair that waits, once this entry was made.
    pub(crate) first: usize,
}

/// The pairs that wait, oldest first. Entries are only added: one for each pair that begins to wait, and one each time all pairs are taken
/// up. So going back is to forget entries.
#[derive(Drop)]
pub struct Delayed {
    entries: Vec<Waiting>,
}

impl Model for Delayed {
    ghost use Rattle.std.specs.Prelude.{List};
    ghost use Rattle.lp_unify.specs.declared.delayed.Waiting.{Waiting};

    ghost Value = { List Waiting };

    ghost view = { λ d. d.entries.items };
}

impl Delayed {
    /// No pair waits.
    pub fn new(alloc: Global) -> Delayed
        ensures { result ≡ [] }
    {
        Delayed {
            entries: Vec::new(alloc),
        }
    }

    /// The point that is reached. Takes no memory.
    pub fn mark(&self) -> usize
        ensures { result ≡ length self.now }
    {
        self.entries.len()
    }

    /// Goes back to the mark. Takes no memory.
    pub fn undo(&mut self, mark: usize)
        ensures { self.new ≡ take mark self.old }
    {
        self.entries.truncate(mark);
    }

    /// The pairs that wait, oldest first.
    pub fn pairs(&self) -> &[Waiting]
        ensures { result.now ≡ pairs_of self.now }
    {
        let first = self.first();
        &self.entries.as_slice()[first..]
    }

    // The place of the first pair that waits.
    fn first(&self) -> usize
        ensures within { result ≤ length self.now }
        ensures pairs { drop result self.now ≡ pairs_of self.now }
    {
        let count = self.entries.len();
        if count == 0 {
            return 0;
        }
        let first = self.entries[count - 1].first;
        if first > count {
            return count;
        }
        first
    }

    /// Whether no pair waits.
    pub fn is_empty(&self) -> bool
        ensures { result ≡ true → pairs_of self.now ≡ [] }
    {
        self.first() == self.entries.len()
    }

    // Adds a pair.
    pub(crate) fn delay(&mut self, pair: Pair) -> Result<(), Memory>
        ensures added { OnOk result ((w : Waiting) × (pairs_of self.new ≡ pairs_of self.old ++ w ∷ []) × (w.left ≡ pair.left) × (w.right ≡ pair.right) × (w.level ≡ pair.level)) }
        ensures entries { KeepsEntries self.old self.new }
    {
        let first = self.first();
        self.entries.push(Waiting {
            left: pair.left,
            right: pair.right,
            level: pair.level,
            first,
        })?;
        Ok(())
    }

    /// From here on no pair waits, until an earlier mark is gone back to.
    pub fn hide(&mut self) -> Result<(), Memory>
        ensures none { OnOk result (pairs_of self.new ≡ []) }
        ensures entries { KeepsEntries self.old self.new }
    {
        let count = self.entries.len();
        if count == 0 {
            return Ok(());
        }
        let last = self.entries[count - 1];
        self.entries.push(Waiting {
            left: last.left,
            right: last.right,
            level: last.level,
            first: count + 1,
        })?;
        Ok(())
    }

    // Takes all pairs up: they are put on the stack, the oldest on top.
    pub(crate) fn take_up(&mut self, todo: &mut Vec<Pair>) -> Result<(), Memory>
        ensures none { OnOk result (pairs_of self.new ≡ []) }
        ensures entries { KeepsEntries self.old self.new }
    {
        if self.is_empty() {
            return Ok(());
        }
        put_back(self.pairs(), todo)?;
        self.hide()
    }
}

// Puts the pairs on a stack, the first of them on top.
fn put_back(pairs: &[Waiting], todo: &mut Vec<Pair>) -> Result<(), Memory> {
    for done in 0..pairs.len() {
        let pair = pairs[pairs.len() - 1 - done];
        todo.push(Pair {
            left: pair.left,
            right: pair.right,
            level: pair.level,
        })?;
    }
    Ok(())
}
