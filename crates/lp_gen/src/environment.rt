// The variables of a record, by their levels: that of a variable is the number of variables around it.
ghost use Rattle.std.specs.Prelude.{◌≡◌, ℕ, [], ◌+◌, ◌-◌, ◌^◌, min, length, option_map, OnOk};
ghost use Rattle.lp_term.specs.Nodes.{Nodes};
ghost use Rattle.lp_gen.specs.Steps.{level_in, level_below, at_level, set_level};
ghost use Rattle.lp_gen.specs.inner.Listing.{seen, around_of};
ghost use Rattle.lp_gen.specs.inner.Bodies.{pushed};
ghost use Rattle.lp_gen.specs.inner.BodyCode.{started_at};

use indexmap::IndexMap;
use lp_base::Memory;
use lp_term::TypeId;
use std::alloc::Global;

/// A variable: its register, its type, and whether the register is set.
#[derive(Clone, Copy)]
pub(crate) struct Variable {
    pub register: u16,
    pub of: TypeId,
    pub is_set: bool,
}

/// The variables that a record is under: those with which it starts, by level, and its own ones, the outermost first, whose levels go on from `base`.
#[derive(Drop)]
pub(crate) struct Environment<'a> {
    pub captured: &'a IndexMap<u64, Variable>,
    pub base: u64,
    pub own: Vec<Variable>,
}

impl<'a> Environment<'a> {
    pub(crate) fn new(
        alloc: Global,
        captured: &'a IndexMap<u64, Variable>,
        base: u64,
    ) -> Environment<'a>
        ensures own { result.own.items ≡ [] }
        ensures base { result.base ≡ base }
        ensures captured { (b : Nodes) (l : ℕ) → (around_of b result).captured l ≡ started_at b captured.now l }
    {
        Environment {
            captured,
            base,
            own: Vec::new(alloc),
        }
    }

    pub(crate) fn push(&mut self, variable: Variable) -> Result<(), Memory>
        ensures { OnOk result ((b : Nodes) → around_of b self.new ≡ pushed (around_of b self.old) (seen b variable)) }
    {
        self.own.push(variable)?;
        Ok(())
    }

    /// The level of an index.
    pub(crate) fn level(&self, index: u64) -> Option<u64>
        ensures { result ≡ level_below (min (self.now.base + length self.now.own.items) (2 ^ 64 - 1)) index }
    {
        let all = self.base.saturating_add(self.own.len() as u64);
        if index >= all {
            return None;
        }
        Some(all - index - 1)
    }

    /// The variable of a level.
    pub(crate) fn at(&self, level: u64) -> Option<Variable>
        ensures { (b : Nodes) → option_map (seen b) result ≡ at_level (around_of b self.now) level }
    {
        if level >= self.base {
            return self.own.get((level - self.base) as usize).copied();
        }
        self.captured.get(&level).copied()
    }

    /// The register of the variable of a level is set.
    pub(crate) fn set(&mut self, level: u64)
        ensures { (b : Nodes) → around_of b self.new ≡ set_level (around_of b self.old) level }
    {
        if level < self.base {
            return;
        }
        let place = (level - self.base) as usize;
        if place >= self.own.len() {
            return;
        }
        let mut variable = self.own[place];
        variable.is_set = true;
        self.own[place] = variable;
    }
}
