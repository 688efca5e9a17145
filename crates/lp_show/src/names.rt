ghost use Rattle.std.specs.Prelude.{◌≡◌, ◌||◌, ◌<◌, ◌-◌, ℕ, List, length, get_or, nat_eq, IfOk, OnOk, codes, decimal};
ghost use Rattle.std.specs.HashMap.{get};
ghost use Rattle.indexmap.specs.IndexSet.{contains_by};
ghost use Rattle.std.specs.Str.{bytes_eq};
ghost use Rattle.lp_model.specs.Shown.{entry_in, has_name, is_taken, next_free, plain_entry};
ghost use Rattle.lp_show.specs.Glossary.{entries_of, entry_of, place_in};
ghost use Rattle.lp_show.specs.declared.glossary.Entry as code;
ghost use Rattle.lp_show.specs.Named.{all, IsReady, IsKnown};

use crate::glossary::Entry;
use crate::leaves::push_number;
use indexmap::IndexSet;
use lp_base::Memory;
use lp_standard::{Constant, Fixity};
use std::alloc::Global;
use std::collections::HashMap;

/// A glossary ready to look up.
#[derive(Drop)]
pub(crate) struct Names<'a> {
    pub(crate) alloc: Global,
    pub(crate) entries: &'a [Entry],
    /// The place of the first entry of each constant.
    pub(crate) places: HashMap<u32, usize>,
    /// The names that are not hidden.
    pub(crate) taken: IndexSet<Vec<u8>>,
}

/// A constant as it is shown.
#[derive(Clone, Copy)]
pub(crate) struct Known<'a> {
    pub(crate) name: &'a [u8],
    pub(crate) hidden: u16,
    pub(crate) fixity: Option<(Fixity, u8)>,
}

fn places_of(alloc: Global, entries: &[Entry]) -> Result<HashMap<u32, usize>, Memory>
    ensures { IfOk result (λ places. (c : ℕ) → get nat_eq places c ≡ place_in 0 entries.now c) }
{
    let mut places = HashMap::new(alloc);
    let mut left = entries.len();
    'entries: while left > 0 {
        left -= 1;
        places.insert(entries[left].number, left)?;
    }
    Ok(places)
}

fn take_name(alloc: Global, name: &[u8], taken: &mut IndexSet<Vec<u8>>) -> Result<(), Memory>
    ensures { OnOk result ((n : List ℕ) → contains_by (λ k. bytes_eq n k.items) taken.new ≡ (bytes_eq n name.now || contains_by (λ k. bytes_eq n k.items) taken.old)) }
{
    let key = Vec::from_slice(alloc, name)?;
    taken.insert_full(key)?;
    Ok(())
}

fn taken_of(alloc: Global, entries: &[Entry]) -> Result<IndexSet<Vec<u8>>, Memory>
    ensures { IfOk result (λ taken. (n : List ℕ) → contains_by (λ k. bytes_eq n k.items) taken ≡ has_name n (entries_of entries.now)) }
{
    let mut taken = IndexSet::new(alloc);
    let mut left = entries.len();
    'entries: while left > 0 {
        left -= 1;
        let entry = &entries[left];
        if entry.hidden == 0 {
            take_name(alloc, entry.name.as_slice(), &mut taken)?;
        }
    }
    Ok(taken)
}

// A constant without an entry.
fn standard(constant: u32) -> Known<'static>
    ensures { IsKnown result (plain_entry constant) }
{
    match Constant::from_number(constant) {
        Some(fixed) => Known {
            name: fixed.name(),
            hidden: 0,
            fixity: fixed.fixity(),
        },
        None => Known {
            name: b"",
            hidden: 0,
            fixity: None,
        },
    }
}

fn known_at<'a>(entries: &'a [Entry], place: usize) -> Known<'a>
    requires { place < length entries.now }
    ensures { (d : code.Entry) → IsKnown result (entry_of (get_or entries.now place d)) }
{
    let entry = &entries[place];
    Known {
        name: entry.name.as_slice(),
        hidden: entry.hidden,
        fixity: entry.fixity,
    }
}

impl<'a> Names<'a> {
    pub(crate) fn new(alloc: Global, entries: &'a [Entry]) -> Result<Names<'a>, Memory>
        ensures ready { IfOk result IsReady }
        ensures same { IfOk result (λ names. all names ≡ entries_of entries.now) }
    {
        let places = places_of(alloc, entries)?;
        let taken = taken_of(alloc, entries)?;
        Ok(Names {
            alloc,
            entries,
            places,
            taken,
        })
    }

    /// The entry of a constant.
    pub(crate) fn entry(&self, constant: u32) -> Known<'a>
        requires { IsReady self.now }
        ensures { IsKnown result (entry_in (all self.now) constant) }
    {
        match self.places.get(&constant) {
            Some(place) => known_at(self.entries, *place),
            None => standard(constant),
        }
    }

    // Whether the binder's name with this number is a constant's.
    fn is_taken(&self, number: u64) -> Result<bool, Memory>
        requires { IsReady self.now }
        ensures { IfOk result (λ taken. taken ≡ is_taken (all self.now) number) }
    {
        let mut name = Vec::from_slice(self.alloc, b"x")?;
        push_number(number, &mut name)?;
        Ok(self.taken.contains(name.as_slice()))
    }

    /// From a number on, the first one whose name is no constant's.
    pub(crate) fn next_free(&self, from: u64) -> Result<u64, Memory>
        requires { IsReady self.now }
        ensures { IfOk result (λ number. number ≡ next_free (length (all self.now)) (all self.now) from) }
    {
        let mut number = from;
        let mut left = self.entries.len();
        'numbers: while left > 0 {
            if !self.is_taken(number)? {
                return Ok(number);
            }
            left -= 1;
            number = number.checked_add(1).ok_or(Memory)?;
        }
        Ok(number)
    }
}
