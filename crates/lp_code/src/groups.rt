// The records of one predicate, by the key of their first argument.

ghost use Rattle.std.specs.Prelude.{◌≡◌, ◌++◌, OnOk, IfOk, map};
ghost use Rattle.std.specs.Map.{keys_of};
ghost use Rattle.std.specs.Option.{option_copied};
ghost use Rattle.lp_code.specs.Groups.{plain_key, looked_key, constant, integer};
ghost use Rattle.lp_code.specs.inner.Told.{numbers_of, IsGrown, text_key, told, keys_told, Adds, HasNone};

use crate::record::{Key, KeyRef};
use lp_base::Memory;
use std::alloc::Global;
use std::collections::BTreeMap;

// Records by number, ascending, under each kind of key: those without one, and those of each constant, integer and text.
#[derive(Drop)]
pub(crate) struct Groups {
    pub(crate) unkeyed: Vec<u32>,
    pub(crate) constants: BTreeMap<u32, Vec<u32>>,
    pub(crate) integers: BTreeMap<i64, Vec<u32>>,
    pub(crate) texts: BTreeMap<Vec<u8>, Vec<u32>>,
}

// The record joins those of the key.
fn add<K: Ord + Drop>(
    alloc: Global,
    groups: &mut BTreeMap<K, Vec<u32>>,
    key: K,
    number: u32,
) -> Result<(), Memory>
    ensures { OnOk result (IsGrown K.cmp key number groups.old.entries groups.new.entries) }
{
    groups.entry(key)?.or_insert(Vec::new(alloc)).push(number)?;
    Ok(())
}

fn group_of(found: Option<&Vec<u32>>) -> &[u32]
    ensures { result.now ≡ numbers_of (option_copied found.entry) }
{
    match found {
        Some(records) => records.as_slice(),
        None => &[],
    }
}

fn push_constants(
    keys: &mut Vec<KeyRef<'_>>,
    groups: &BTreeMap<u32, Vec<u32>>,
) -> Result<(), Memory>
    ensures { OnOk result (map looked_key keys.new.items ≡ map looked_key keys.old.items ++ map constant (keys_of groups.now.entries)) }
{
    for key in groups.keys() {
        keys.push(KeyRef::Const(*key))?;
    }
    Ok(())
}

fn push_integers(keys: &mut Vec<KeyRef<'_>>, groups: &BTreeMap<i64, Vec<u32>>) -> Result<(), Memory>
    ensures { OnOk result (map looked_key keys.new.items ≡ map looked_key keys.old.items ++ map integer (keys_of groups.now.entries)) }
{
    for key in groups.keys() {
        keys.push(KeyRef::Int(*key))?;
    }
    Ok(())
}

fn push_texts<'a>(
    keys: &mut Vec<KeyRef<'a>>,
    groups: &'a BTreeMap<Vec<u8>, Vec<u32>>,
) -> Result<(), Memory>
    ensures { OnOk result (map looked_key keys.new.items ≡ map looked_key keys.old.items ++ map text_key (keys_of groups.now.entries)) }
{
    for key in groups.keys() {
        keys.push(KeyRef::Text(key.as_slice()))?;
    }
    Ok(())
}

impl Groups {
    pub(crate) fn new(alloc: Global) -> Groups
        ensures { HasNone result }
    {
        Groups {
            unkeyed: Vec::new(alloc),
            constants: BTreeMap::new(alloc),
            integers: BTreeMap::new(alloc),
            texts: BTreeMap::new(alloc),
        }
    }

    pub(crate) fn add(&mut self, alloc: Global, key: &Key, number: u32) -> Result<(), Memory>
        ensures { OnOk result (Adds (plain_key key.now) number self.old self.new) }
    {
        match key {
            Key::None => {
                self.unkeyed.push(number)?;
                Ok(())
            }
            Key::Const(constant) => add(alloc, &mut self.constants, *constant, number),
            Key::Int(integer) => add(alloc, &mut self.integers, *integer, number),
            Key::Text(text) => {
                let text = Vec::from_slice(alloc, text.as_slice())?;
                add(alloc, &mut self.texts, text, number)
            }
        }
    }

    pub(crate) fn group(&self, key: KeyRef<'_>) -> &[u32]
        ensures { result.now ≡ told self.now (looked_key key.entry) }
    {
        match key {
            KeyRef::None => self.unkeyed.as_slice(),
            KeyRef::Const(constant) => group_of(self.constants.get(&constant)),
            KeyRef::Int(integer) => group_of(self.integers.get(&integer)),
            KeyRef::Text(text) => group_of(self.texts.get(text)),
        }
    }

    // The keys in their order.
    pub(crate) fn keys(&self, alloc: Global) -> Result<Vec<KeyRef<'_>>, Memory>
        ensures { IfOk result (λ keys. map looked_key keys.items ≡ keys_told self.now) }
    {
        let mut keys = Vec::new(alloc);
        if !self.unkeyed.is_empty() {
            keys.push(KeyRef::None)?;
        }
        push_constants(&mut keys, &self.constants)?;
        push_integers(&mut keys, &self.integers)?;
        push_texts(&mut keys, &self.texts)?;
        Ok(keys)
    }
}
