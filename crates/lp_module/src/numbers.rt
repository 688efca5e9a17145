// The numbers that the names of a copy have in the program.
ghost use Rattle.std.specs.Prelude.{◌≡◌, ℕ, ◌+◌, ◌<◌, ◌≤◌, length, get_or, nat_eq, if◌then◌else◌, Option, IfOk};
ghost use Rattle.lp_module.specs.Program.{hidden_or, one_if_none, exported_before, IsNumbered, IsRoot, IsBelow, kind_in, constant_in, kind_at, constant_at};
ghost use Rattle.lp_module.specs.Renumbering.{number_in, renumbered};
ghost use Rattle.lp_module.specs.inner.Assembling.{copy_of};
ghost use Rattle.lp_module.specs.inner.Tables.{coded, ArePlaces};

use crate::module::Module;
use lp_base::Memory;
use lp_sig::{FIRST_CONSTANT, FIRST_KIND};
use lp_term::{Mapping, TermChange, TypeChange};
use std::alloc::Global;

/// What becomes of the numbers from `first` on; those below it stay.
#[derive(Drop)]
pub(crate) struct Numbers {
    first: u32,
    numbers: Vec<u32>,
}

impl Numbers {
    /// The number in the program; one without it stays.
    pub(crate) fn of(&self, number: u32) -> u32
        ensures { result ≡ number_in self.now number }
    {
        if number < self.first {
            return number;
        }
        match self.numbers.get((number - self.first) as usize) {
            None => number,
            Some(new) => *new,
        }
    }
}

// Notes the place of a number, counted from 1.
fn set_place(places: &mut Vec<usize>, first: u32, number: u32, place: usize)
    ensures count { length places.new.items ≡ length places.old.items }
    ensures set { (i : ℕ) → i < length places.old.items → get_or places.new.items i 0 ≡ (if nat_eq number (first + i) then place else get_or places.old.items i 0) }
{
    if number < first {
        return;
    }
    let at = (number - first) as usize;
    if at < places.len() {
        places[at] = place;
    }
}

/// The place of each of so many numbers in a list, counted from 1; 0 where there is none.
pub(crate) fn places_in(
    alloc: Global,
    first: u32,
    count: usize,
    list: &[u32],
) -> Result<Vec<usize>, Memory>
    ensures { IfOk result (λ places. ArePlaces first count list.now 0 places.items) }
{
    let mut places = Vec::from_elem(alloc, 0usize, count)?;
    let end = list.len();
    for at in 0..end {
        let place = end - 1 - at;
        set_place(&mut places, first, list[place], place + 1);
    }
    Ok(places)
}

// The number of a name that is hidden at a place, or this other one.
fn hidden_or(from: u32, place: usize, other: u32) -> u32
    requires { from + place ≤ 4294967295 }
    ensures { (o : Option ℕ) → place ≡ coded 0 o → result ≡ hidden_or from o other }
{
    if place == 0 {
        return other;
    }
    from + (place - 1) as u32
}

fn one_if_none(place: usize) -> u32
    ensures one { (o : Option ℕ) → place ≡ coded 0 o → result ≡ one_if_none o }
    ensures few { result ≤ 1 }
{
    if place == 0 { 1 } else { 0 }
}

// At the root the exported names are global, and have the first numbers in order.
fn root_numbers(
    alloc: Global,
    first: u32,
    count: usize,
    hidden: &[u32],
    from: u32,
) -> Result<Numbers, Memory>
    requires hidden { from + length hidden.now ≤ 1048576 }
    requires names { first + count ≤ 1048576 }
    ensures { IfOk result (λ n. IsNumbered first count hidden.now from (λ i. first + exported_before first hidden.now i) (number_in n)) }
{
    let places = places_in(alloc, first, count, hidden)?;
    let mut numbers = Vec::new(alloc);
    let mut next = first;
    for at in 0..count {
        let place = places[at];
        let number = hidden_or(from, place, next);
        numbers.push(number)?;
        next += one_if_none(place);
    }
    Ok(Numbers { first, numbers })
}

// The number of a kind of a module, by its name, in the copy above.
fn kind_above(member: &Module, at: usize, above: &Open<'_>) -> Result<u32, Memory>
    requires { at < length member.now.signature.kinds.items }
    ensures { IfOk result (λ n. n ≡ kind_in above.now.module.now (number_in above.now.names.kinds) (kind_at member.now at)) }
{
    let entry = &member.signature.kinds()[at];
    match above.module.signature.kind(entry.name.as_slice()) {
        None => Err(Memory),
        Some(found) => Ok(above.names.kinds.of(found.0)),
    }
}

fn kind_or(
    member: &Module,
    at: usize,
    above: &Open<'_>,
    from: u32,
    place: usize,
) -> Result<u32, Memory>
    requires kind { at < length member.now.signature.kinds.items }
    requires place { from + place ≤ 4294967295 }
    ensures { IfOk result (λ n. (o : Option ℕ) → place ≡ coded 0 o → n ≡ hidden_or from o (kind_in above.now.module.now (number_in above.now.names.kinds) (kind_at member.now at))) }
{
    if place == 0 {
        let number = kind_above(member, at, above)?;
        return Ok(number);
    }
    Ok(from + (place - 1) as u32)
}

// Below the root an exported name is the name that the copy above has.
fn kinds_below(
    alloc: Global,
    member: &Module,
    from: u32,
    above: &Open<'_>,
) -> Result<Numbers, Memory>
    requires { from + length member.now.hidden_kinds.items ≤ 1048576 }
    ensures { IfOk result (λ n. IsNumbered 8 (length member.now.signature.kinds.items) member.now.hidden_kinds.items from (λ i. kind_in above.now.module.now (number_in above.now.names.kinds) (kind_at member.now i)) (number_in n)) }
{
    let count = member.signature.kinds().len();
    let places = places_in(alloc, FIRST_KIND, count, member.hidden_kinds.as_slice())?;
    let mut numbers = Vec::new(alloc);
    for at in 0..count {
        let number = kind_or(member, at, above, from, places[at])?;
        numbers.push(number)?;
    }
    Ok(Numbers {
        first: FIRST_KIND,
        numbers,
    })
}

// The number of a constant of a module, by its name, in the copy above.
fn constant_above(member: &Module, at: usize, above: &Open<'_>) -> Result<u32, Memory>
    requires { at < length member.now.signature.constants.items }
    ensures { IfOk result (λ n. n ≡ constant_in above.now.module.now (number_in above.now.names.constants) (constant_at member.now at)) }
{
    let entry = &member.signature.constants()[at];
    match above.module.signature.constant(entry.name.as_slice()) {
        None => Err(Memory),
        Some(found) => Ok(above.names.constants.of(found)),
    }
}

fn constant_or(
    member: &Module,
    at: usize,
    above: &Open<'_>,
    from: u32,
    place: usize,
) -> Result<u32, Memory>
    requires constant { at < length member.now.signature.constants.items }
    requires place { from + place ≤ 4294967295 }
    ensures { IfOk result (λ n. (o : Option ℕ) → place ≡ coded 0 o → n ≡ hidden_or from o (constant_in above.now.module.now (number_in above.now.names.constants) (constant_at member.now at))) }
{
    if place == 0 {
        let number = constant_above(member, at, above)?;
        return Ok(number);
    }
    Ok(from + (place - 1) as u32)
}

fn constants_below(
    alloc: Global,
    member: &Module,
    from: u32,
    above: &Open<'_>,
) -> Result<Numbers, Memory>
    requires { from + length member.now.hidden_constants.items ≤ 1048576 }
    ensures { IfOk result (λ n. IsNumbered 32 (length member.now.signature.constants.items) member.now.hidden_constants.items from (λ i. constant_in above.now.module.now (number_in above.now.names.constants) (constant_at member.now i)) (number_in n)) }
{
    let count = member.signature.constants().len();
    let places = places_in(
        alloc,
        FIRST_CONSTANT,
        count,
        member.hidden_constants.as_slice(),
    )?;
    let mut numbers = Vec::new(alloc);
    for at in 0..count {
        let number = constant_or(member, at, above, from, places[at])?;
        numbers.push(number)?;
    }
    Ok(Numbers {
        first: FIRST_CONSTANT,
        numbers,
    })
}

/// The numbers of a copy's kinds and constants.
#[derive(Drop)]
pub(crate) struct Names {
    pub kinds: Numbers,
    pub constants: Numbers,
}

/// The numbers of the first hidden kind and constant of a copy.
#[derive(Clone, Copy)]
pub(crate) struct Firsts {
    pub kind: u32,
    pub constant: u32,
}

impl Names {
    pub(crate) fn of_root(alloc: Global, member: &Module, firsts: Firsts) -> Result<Names, Memory>
        requires hidden_kinds { firsts.kind + length member.now.hidden_kinds.items ≤ 1048576 }
        requires hidden_constants { firsts.constant + length member.now.hidden_constants.items ≤ 1048576 }
        requires kinds { 8 + length member.now.signature.kinds.items ≤ 1048576 }
        requires constants { 32 + length member.now.signature.constants.items ≤ 1048576 }
        ensures { IfOk result (λ n. IsRoot member.now (record { kinds = firsts.kind; constants = firsts.constant }) (record { member = 0; kinds = number_in n.kinds; constants = number_in n.constants })) }
    {
        let kinds = root_numbers(
            alloc,
            FIRST_KIND,
            member.signature.kinds().len(),
            member.hidden_kinds.as_slice(),
            firsts.kind,
        )?;
        let constants = root_numbers(
            alloc,
            FIRST_CONSTANT,
            member.signature.constants().len(),
            member.hidden_constants.as_slice(),
            firsts.constant,
        )?;
        Ok(Names { kinds, constants })
    }

    pub(crate) fn below(
        alloc: Global,
        member: &Module,
        firsts: Firsts,
        above: &Open<'_>,
    ) -> Result<Names, Memory>
        requires hidden_kinds { firsts.kind + length member.now.hidden_kinds.items ≤ 1048576 }
        requires hidden_constants { firsts.constant + length member.now.hidden_constants.items ≤ 1048576 }
        ensures { IfOk result (λ n. IsBelow above.now.module.now (copy_of 0 above.now) member.now (record { kinds = firsts.kind; constants = firsts.constant }) (record { member = 0; kinds = number_in n.kinds; constants = number_in n.constants })) }
    {
        let kinds = kinds_below(alloc, member, firsts.kind, above)?;
        let constants = constants_below(alloc, member, firsts.constant, above)?;
        Ok(Names { kinds, constants })
    }
}

impl Mapping for Names {
    ghost told = { renumbered };

    fn kind(&self, kind: u32) -> u32 {
        self.kinds.of(kind)
    }

    fn constant(&self, constant: u32) -> u32 {
        self.constants.of(constant)
    }

    fn type_variable(&self, variable: u64) -> TypeChange {
        TypeChange::Var(variable)
    }

    fn logic_variable(&self, _variable: u64) -> TermChange {
        TermChange::Stays
    }
}

/// A copy on the way from the root, with the numbers of its names.
#[derive(Drop)]
pub(crate) struct Open<'a> {
    pub module: &'a Module,
    pub names: Names,
}
