// The values of the variables that are bound around a goal. A scope is the number of a block.
ghost use Rattle.std.specs.Prelude.{◌≡◌, ℕ, ◌≤◌, List, ◌++◌, [], take, Option, slice_get, IfOk, OnOk};
ghost use Rattle.lp_term.specs.declared.node.TermId.{TermId};
ghost use Rattle.lp_pattern.specs.Growing.{GoesOn};
ghost use Rattle.lp_plain.specs.Candidates.{back};
ghost use Rattle.lp_plain.specs.Scopes.{IsScope, KeepsScopes, block_count, value_count, blocks_to};

use lp_base::Memory;
use lp_term::TermId;
use std::alloc::Global;

/// Values for the innermost variables, the first of them index 0, and the scope around them.
#[derive(Clone, Copy)]
struct Block {
    from: usize,
    count: usize,
    around: Option<usize>,
}

/// All scopes of a search.
#[derive(Drop)]
pub(crate) struct Scopes {
    blocks: Vec<Block>,
    values: Vec<TermId>,
}

/// How many blocks and values there are.
#[derive(Clone, Copy)]
pub(crate) struct ScopeMark {
    blocks: usize,
    values: usize,
}

/// The number, where it is one before the other: that of the scope around a block, or of a node below another, is older.
pub(crate) fn older(earlier: Option<usize>, number: usize) -> Option<usize>
    ensures older { blocks_to result ≤ number }
    ensures same { blocks_to earlier ≤ number → result ≡ earlier }
    ensures is { result ≡ back number earlier }
{
    let Some(at) = earlier else {
        return None;
    };
    if at < number {
        return Some(at);
    }
    None
}

impl Scopes {
    pub(crate) fn new(alloc: Global) -> Scopes
        ensures { result.values.items ≡ [] }
    {
        Scopes {
            blocks: Vec::new(alloc),
            values: Vec::new(alloc),
        }
    }

    /// The scope with these values inside the one around.
    pub(crate) fn open(
        &mut self,
        around: Option<usize>,
        values: &[TermId],
    ) -> Result<Option<usize>, Memory>
        ensures kept { (nb nv : ℕ) → nb ≤ block_count self.old → nv ≤ value_count self.old → KeepsScopes self.old self.new nb nv }
        ensures blocks { OnOk result (GoesOn self.old.blocks.items self.new.blocks.items) }
        ensures values { OnOk result (self.new.values.items ≡ self.old.values.items ++ values.now) }
        ensures opened { IfOk result (λ o. (vs : List TermId) → IsScope self.old (block_count self.old) (value_count self.old) around vs → IsScope self.new (block_count self.new) (value_count self.new) o (values.now ++ vs)) }
    {
        if values.is_empty() {
            return Ok(around);
        }
        let from = self.values.len();
        let number = self.blocks.len();
        self.values.extend_from_slice(values)?;
        self.blocks.push(Block {
            from,
            count: values.len(),
            around,
        })?;
        Ok(Some(number))
    }

    /// The value of an index in a scope. It has no loose index.
    pub(crate) fn value(&self, scope: Option<usize>, index: u64) -> Option<TermId>
        ensures { (nb nv : ℕ) → (vs : List TermId) → IsScope self.now nb nv scope vs → result ≡ slice_get vs index }
    {
        let mut left = index;
        let mut at = scope;
        'outwards: while let Some(number) = at {
            let Some(block) = self.blocks.get(number) else {
                return None;
            };
            let count = block.count as u64;
            if left < count {
                let place = block.from.saturating_add(left as usize);
                let Some(value) = self.values.get(place) else {
                    return None;
                };
                return Some(*value);
            }
            left -= count;
            at = older(block.around, number);
        }
        None
    }

    pub(crate) fn mark(&self) -> ScopeMark
        ensures blocks { result.blocks ≡ block_count self.now }
        ensures values { result.values ≡ value_count self.now }
    {
        ScopeMark {
            blocks: self.blocks.len(),
            values: self.values.len(),
        }
    }

    /// Takes back what was opened since the mark.
    pub(crate) fn undo(&mut self, mark: ScopeMark)
        ensures kept { (nb nv : ℕ) → nb ≤ mark.blocks → nv ≤ mark.values → KeepsScopes self.old self.new nb nv }
        ensures taken { (self.new.blocks.items ≡ take mark.blocks self.old.blocks.items) × (self.new.values.items ≡ take mark.values self.old.values.items) }
        ensures blocks { mark.blocks ≤ block_count self.old → block_count self.new ≡ mark.blocks }
        ensures values { mark.values ≤ value_count self.old → value_count self.new ≡ mark.values }
    {
        self.blocks.truncate(mark.blocks);
        self.values.truncate(mark.values);
    }
}
