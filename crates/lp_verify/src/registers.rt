// Registers: what stands in them, and which were ever set. What a block sets is unset behind it.

ghost use Rattle.std.specs.Prelude.{◌≡◌, ◌<◌, ◌^◌, ℕ, IfOk, OnOk, nat_lt, [], ◌∷◌, ◌++◌, length, filter_map, Some, None, if◌then◌else◌};
ghost use Rattle.std.specs.Option.{option_to_list};
ghost use Rattle.std.specs.List.{list_any};
ghost use Rattle.lp_code.specs.States.{member};
ghost use Rattle.lp_verify.specs.Listed.{listed};
ghost use Rattle.lp_verify.specs.Held.{was_set, value_in, is_lacking};
ghost use Rattle.lp_verify.specs.inner.Stack.{IsFilled, IsMade, IsCut};

use lp_base::Memory;
use std::alloc::Global;
use std::collections::{BTreeMap, BTreeSet};

#[derive(Drop)]
pub(crate) struct Registers<T> {
    // The record starts with so many, whether or not it was handed them.
    started: u16,
    // Those that were ever set.
    made: BTreeSet<u16>,
    // What stands in those that are set.
    held: BTreeMap<u16, T>,
    // Those that are set, in the order in which they were.
    trail: Vec<u16>,
}

fn push_some<T: Drop>(values: &mut Vec<T>, value: Option<T>) -> Result<(), Memory>
    ensures { OnOk result (values.new.items ≡ values.old.items ++ option_to_list value) }
{
    match value {
        Some(value) => {
            values.push(value)?;
            Ok(())
        }
        None => Ok(()),
    }
}

impl<T: Copy + Drop> Registers<T> {
    // Nothing is set.
    fn new(alloc: Global, started: u16) -> Registers<T>
        ensures ever { (r : ℕ) → was_set result r ≡ nat_lt r started }
        ensures trail { result.trail.items ≡ [] }
        ensures held { (r : ℕ) → value_in result r ≡ None }
    {
        Registers {
            started,
            made: BTreeSet::new(alloc),
            held: BTreeMap::new(alloc),
            trail: Vec::new(alloc),
        }
    }

    // The first registers hold these values.
    pub(crate) fn filled(alloc: Global, started: u16, values: &[T]) -> Result<Registers<T>, Memory>
        ensures ever { IfOk result (λ filled. (r : ℕ) → was_set filled r ≡ nat_lt r started) }
        ensures filled { IfOk result (λ filled. length values.now < 2 ^ 16 → IsFilled values.now filled) }
    {
        let mut filled = Registers::new(alloc, started);
        filled.start_with(values)?;
        Ok(filled)
    }

    pub(crate) fn get(&self, register: u16) -> Option<T>
        ensures { result ≡ value_in self.now register }
    {
        self.held.get(&register).copied()
    }

    // Whether the register was ever set.
    fn was_set(&self, register: u16) -> bool
        ensures { result ≡ was_set self.now register }
    {
        register < self.started || self.made.contains(&register)
    }

    // Whether the register that an instruction sets was ever set.
    pub(crate) fn was_made(&self, made: Option<u16>) -> bool
        ensures { result ≡ list_any (was_set self.now) (listed made) }
    {
        match made {
            Some(register) => self.was_set(register),
            None => false,
        }
    }

    // Whether one of the registers is not set.
    pub(crate) fn lacks(&self, registers: &[u16]) -> bool
        ensures { result ≡ list_any (is_lacking self.now) registers.now }
    {
        for register in registers {
            if self.get(*register).is_none() {
                return true;
            }
        }
        false
    }

    // Puts a value into a register.
    fn hold(&mut self, register: u16, value: T) -> Result<(), Memory>
        ensures trail { OnOk result (self.new.trail.items ≡ self.old.trail.items ++ register ∷ []) }
        ensures held { OnOk result ((r : ℕ) → value_in self.new r ≡ (if member r (register ∷ []) then Some value else value_in self.old r)) }
        ensures ever { (r : ℕ) → was_set self.new r ≡ was_set self.old r }
    {
        self.trail.push(register)?;
        self.held.insert(register, value)?;
        Ok(())
    }

    fn set(&mut self, register: u16, value: T) -> Result<(), Memory>
        ensures { OnOk result (IsMade (register ∷ []) value self.old self.new) }
    {
        self.made.insert(register)?;
        self.hold(register, value)
    }

    // Sets the register that an instruction sets, if it sets one.
    pub(crate) fn make(&mut self, made: Option<u16>, value: T) -> Result<(), Memory>
        ensures { OnOk result (IsMade (listed made) value self.old self.new) }
    {
        match made {
            Some(register) => self.set(register, value),
            None => Ok(()),
        }
    }

    // What the record starts with, in order.
    fn start_with(&mut self, values: &[T]) -> Result<(), Memory>
        ensures ever { (r : ℕ) → was_set self.new r ≡ was_set self.old r }
        ensures filled { OnOk result (length values.now < 2 ^ 16 → self.old.trail.items ≡ [] → ((r : ℕ) → value_in self.old r ≡ None) → IsFilled values.now self.new) }
    {
        let mut register: u16 = 0;
        for value in values {
            self.hold(register, *value)?;
            register = register.saturating_add(1);
        }
        Ok(())
    }

    // How many are set.
    pub(crate) fn height(&self) -> usize
        ensures { result ≡ length self.now.trail.items }
    {
        self.trail.len()
    }

    // Unsets all but the first ones.
    pub(crate) fn unset_to(&mut self, height: usize)
        ensures { IsCut height self.old self.new }
    {
        while self.trail.len() > height {
            let Some(register) = self.trail.pop() else {
                return;
            };
            self.held.remove(&register);
        }
    }

    // What stands in these registers, where all are set.
    pub(crate) fn all(&self, alloc: Global, registers: &[u16]) -> Result<Vec<T>, Memory>
        ensures { IfOk result (λ values. values.items ≡ filter_map (value_in self.now) registers.now) }
    {
        let mut values = Vec::new(alloc);
        for register in registers {
            push_some(&mut values, self.get(*register))?;
        }
        Ok(values)
    }
}
