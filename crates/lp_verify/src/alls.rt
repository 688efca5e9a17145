// The registers that an ALL sets, by record: only their variables are predicates of assumed clauses.

ghost use Rattle.std.specs.Prelude.{◌≡◌, [], ◌||◌, ℕ, IfOk, OnOk};
ghost use Rattle.std.specs.Ordering.{nat_cmp};
ghost use Rattle.std.specs.BTreeSet.{contains};
ghost use Rattle.lp_code.specs.Denote.{is_set_by_all};
ghost use Rattle.lp_verify.specs.inner.Alls.{sets_one_by_all, has_all, IsAdded};

use lp_base::Memory;
use lp_code::Instr;
use std::alloc::Global;
use std::collections::BTreeSet;

#[derive(Drop)]
pub(crate) struct Alls {
    records: Vec<BTreeSet<u16>>,
}

// Notes the register that an ALL sets.
fn note(set: &mut BTreeSet<u16>, instr: &Instr) -> Result<(), Memory>
    ensures { OnOk result ((r : ℕ) → contains nat_cmp set.new r ≡ (sets_one_by_all instr.now r || contains nat_cmp set.old r)) }
{
    match instr {
        Instr::All(register, _) => {
            set.insert(*register)?;
            Ok(())
        }
        _ => Ok(()),
    }
}

// The registers that an ALL of the code sets.
fn set_by_all(alloc: Global, code: &[Instr]) -> Result<BTreeSet<u16>, Memory>
    ensures { IfOk result (λ set. (r : ℕ) → contains nat_cmp set r ≡ is_set_by_all code.now r) }
{
    let mut set = BTreeSet::new(alloc);
    for instr in code {
        note(&mut set, instr)?;
    }
    Ok(set)
}

impl Alls {
    pub(crate) fn new(alloc: Global) -> Alls
        ensures { result.records.items ≡ [] }
    {
        Alls {
            records: Vec::new(alloc),
        }
    }

    // The next record's.
    pub(crate) fn add(&mut self, alloc: Global, code: &[Instr]) -> Result<(), Memory>
        ensures { OnOk result (IsAdded code.now self.old.records.items self.new.records.items) }
    {
        let set = set_by_all(alloc, code)?;
        self.records.push(set)?;
        Ok(())
    }

    // Whether an ALL of the record of this number sets the register.
    pub(crate) fn has(&self, home: u32, register: u16) -> bool
        ensures { result ≡ has_all self.now.records.items home register }
    {
        match self.records.get(home as usize) {
            Some(set) => set.contains(&register),
            None => false,
        }
    }
}
