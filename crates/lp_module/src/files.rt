// The numbers of files by their names.
ghost use Rattle.std.specs.Prelude.{◌≡◌, ℕ, List, [], ◌∷◌, ◌++◌, length, map, OnOk, OnErr, IfOk, string_bytes};
ghost use Rattle.lp_module.specs.Copies.{names_of};
ghost use Rattle.lp_module.specs.Files.{HasNames, number_of};

use crate::module::Module;
use indexmap::IndexMap;
use lp_base::Memory;
use std::alloc::Global;

#[derive(Drop)]
pub(crate) struct Files {
    alloc: Global,
    numbers: IndexMap<Vec<u8>, usize>,
}

impl Files {
    fn new(alloc: Global) -> Files
        ensures { HasNames result [] }
    {
        Files {
            alloc,
            numbers: IndexMap::new(alloc),
        }
    }

    /// The number of the first file of a name.
    pub(crate) fn number(&self, name: &[u8]) -> Option<usize>
        ensures { result ≡ number_of self.now name.now }
    {
        self.numbers.get(name).copied()
    }

    // One more name behind the others; a name that is there keeps its number.
    fn add(&mut self, name: &[u8], number: usize) -> Result<(), Memory>
        ensures { OnOk result ((names : List (List ℕ)) → number ≡ length names → HasNames self.old names → HasNames self.new (names ++ name.now ∷ [])) }
    {
        if self.number(name).is_some() {
            return Ok(());
        }
        let key = Vec::from_slice(self.alloc, name)?;
        self.numbers.insert(key, number)?;
        Ok(())
    }

    pub(crate) fn of(alloc: Global, names: &[String]) -> Result<Files, Memory>
        ensures { IfOk result (λ files. HasNames files (map string_bytes names.now)) }
    {
        let mut files = Files::new(alloc);
        for at in 0..names.len() {
            files.add(names[at].as_bytes(), at)?;
        }
        Ok(files)
    }

    /// The numbers of modules by their names.
    pub(crate) fn of_modules(alloc: Global, modules: &[Module]) -> Result<Files, Memory>
        ensures { IfOk result (λ files. HasNames files (names_of modules.now)) }
    {
        let mut files = Files::new(alloc);
        for at in 0..modules.len() {
            files.add(modules[at].name.as_slice(), at)?;
        }
        Ok(files)
    }
}
