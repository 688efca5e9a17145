// The names that abstractions bind.
ghost use Rattle.std.specs.Prelude.{◌≡◌, ◌^◌, ◌<◌, ℕ, List, [], ◌∷◌, OnOk, IfOk, Option};
ghost use Rattle.std.specs.Prelude.{if◌then◌else◌};
ghost use Rattle.std.specs.Str.{bytes_eq};
ghost use Rattle.lp_infer.specs.Levels.{HasScope, level_in, level_of};
ghost use Rattle.lp_sig.specs.Places.{first_place};

use indexmap::IndexMap;
use lp_base::Memory;
use std::alloc::Global;

// Of each name the level of the innermost open abstraction that binds it; the outermost abstraction has level 0.
#[derive(Drop)]
pub(crate) struct Scope {
    alloc: Global,
    levels: IndexMap<Vec<u8>, Option<u64>>,
    depth: u64,
}

impl Scope {
    pub(crate) fn new(alloc: Global) -> Scope
        ensures { HasScope [] result }
    {
        Scope {
            alloc,
            levels: IndexMap::new(alloc),
            depth: 0,
        }
    }

    // How many abstractions are open.
    pub(crate) fn depth(&self) -> u64
        ensures { result ≡ self.now.depth }
    {
        self.depth
    }

    fn level(&self, name: &[u8]) -> Option<u64>
        ensures { result ≡ level_in self.now name.now }
    {
        match self.levels.get(name) {
            Some(level) => *level,
            None => None,
        }
    }

    fn set_level(&mut self, name: &[u8], level: Option<u64>) -> Result<(), Memory>
        ensures depth { self.new.depth ≡ self.old.depth }
        ensures level { OnOk result ((other : List ℕ) → level_in self.new other ≡ (if bytes_eq other name.now then level else level_in self.old other)) }
    {
        let key = Vec::from_slice(self.alloc, name)?;
        self.levels.insert(key, level)?;
        Ok(())
    }

    // How many abstractions out a name is bound, if it is.
    pub(crate) fn out(&self, name: &[u8]) -> Option<u64>
        ensures { (scope : List (List ℕ)) → HasScope scope self.now → result ≡ first_place name.now scope }
    {
        let Some(level) = self.level(name) else {
            return None;
        };
        Some(self.depth.saturating_sub(level).saturating_sub(1))
    }

    // Opens an abstraction that binds a name. Gives the level that the name had outside.
    pub(crate) fn enter(&mut self, name: &[u8]) -> Result<Option<u64>, Memory>
        requires { self.old.depth < 2 ^ 63 }
        ensures { IfOk result (λ outside. (scope : List (List ℕ)) → HasScope scope self.old → HasScope (name.now ∷ scope) self.new × (outside ≡ level_of name.now scope)) }
    {
        let outside = self.level(name);
        let level = self.depth;
        self.depth += 1;
        self.set_level(name, Some(level))?;
        Ok(outside)
    }

    // Closes the innermost abstraction, whose name had this level outside.
    pub(crate) fn leave(&mut self, name: &[u8], outside: Option<u64>) -> Result<(), Memory>
        ensures { OnOk result ((scope : List (List ℕ)) → HasScope (name.now ∷ scope) self.old → outside ≡ level_of name.now scope → HasScope scope self.new) }
    {
        self.depth = self.depth.saturating_sub(1);
        self.set_level(name, outside)
    }
}
