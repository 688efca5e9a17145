// Names with what they name, each of which stands once: hidden numbers keep equal names apart.

ghost use Rattle.lp_bytes.specs.Writing.{text_of, more};
ghost use Rattle.std.specs.Prelude.{◌≡◌, ◌<◌, ◌-◌, ◌++◌, ◌∷◌, [], ◌||◌, ℕ, List, not, slice_get, IfOk, OnOk};
ghost use Rattle.lp_bytes.specs.Reading.{Gives, left_of};
ghost use Rattle.lp_object.specs.Reading.{new_name_at, new_global_at, same_global, fixities, zero_at, fixity_at};
ghost use Rattle.lp_object.specs.Spelling.{fixity_number, spelled_fixity};
ghost use Rattle.lp_object.specs.inner.Known.{knows, Knows};

use crate::fields::{read_name, read_name_length};
use lp_base::Memory;
use lp_bytes::{ReadError, Reader, Writer};
use lp_fixity::Fixity;
use std::alloc::Global;
use std::collections::BTreeSet;

// The names so far, each with its hidden number.
#[derive(Drop)]
pub(crate) struct Names {
    pub(crate) alloc: Global,
    pub(crate) told: BTreeSet<(Vec<u8>, u16)>,
}

impl Names {
    pub(crate) fn new(alloc: Global) -> Names
        ensures { Knows result [] }
    {
        Names {
            alloc,
            told: BTreeSet::new(alloc),
        }
    }

    // Whether the name is a new one, which is kept.
    pub(crate) fn add(&mut self, name: &[u8], hidden: u16) -> Result<bool, Memory>
        ensures new { IfOk result (λ new. new ≡ not (knows self.old (name.now, hidden))) }
        ensures known { OnOk result ((n : List ℕ × ℕ) → knows self.new n ≡ (same_global n (name.now, hidden) || knows self.old n)) }
    {
        let name = Vec::from_slice(self.alloc, name)?;
        Ok(self.told.insert((name, hidden))?)
    }
}

// A name that no other entry has.
#[tactic(auto, unfolding(crate::specs::Reading::new_name_at))]
pub(crate) fn read_new_name<'a>(
    reader: &mut Reader<'a>,
    names: &mut Names,
) -> Result<&'a [u8], ReadError>
    ensures read { (before : List (List ℕ × ℕ)) → Knows names.old before → Gives (λ x. x.now) result (left_of reader.new) (new_name_at before (left_of reader.old)) }
    ensures known { (before : List (List ℕ × ℕ)) → Knows names.old before → IfOk result (λ name. Knows names.new (before ++ (name.now, 0) ∷ [])) }
{
    let length = read_name_length(reader)?;
    let at = reader.at();
    let name = reader.take(usize::from(length))?;
    let new = names.add(name, 0)?;
    if !new {
        return Err(Reader::bad(at));
    }
    Ok(name)
}

// A name and a hidden number that no other entry has together.
#[tactic(auto, unfolding(crate::specs::Reading::new_global_at))]
pub(crate) fn read_new_global<'a>(
    reader: &mut Reader<'a>,
    names: &mut Names,
) -> Result<(&'a [u8], u16), ReadError>
    ensures read { (before : List (List ℕ × ℕ)) → Knows names.old before → Gives (λ x. (x.0.now, x.1)) result (left_of reader.new) (new_global_at before (left_of reader.old)) }
    ensures known { (before : List (List ℕ × ℕ)) → Knows names.old before → IfOk result (λ x. Knows names.new (before ++ (x.0.now, x.1) ∷ [])) }
{
    let name = read_name(reader)?;
    let at = reader.at();
    let hidden = reader.two()?;
    let new = names.add(name, hidden)?;
    if !new {
        return Err(Reader::bad(at));
    }
    Ok((name, hidden))
}

// A fixity and its number, which is 0 where there is none.
#[tactic(auto, unfolding(crate::specs::Reading::fixity_at))]
pub(crate) fn read_fixity(reader: &mut Reader<'_>) -> Result<Option<(Fixity, u8)>, ReadError>
    ensures { Gives (λ x. x) result (left_of reader.new) (fixity_at (left_of reader.old)) }
{
    let at = reader.at();
    let byte = reader.byte()?;
    if byte == 0 {
        return read_no_fixity(reader);
    }
    let Some(fixity) = fixity_of(byte) else {
        return Err(Reader::bad(at));
    };
    let number = reader.byte()?;
    Ok(Some((fixity, number)))
}

#[tactic(auto, unfolding(crate::specs::Reading::zero_at))]
fn read_no_fixity(reader: &mut Reader<'_>) -> Result<Option<(Fixity, u8)>, ReadError>
    ensures { Gives (λ x. x) result (left_of reader.new) (zero_at (left_of reader.old)) }
{
    let at = reader.at();
    let number = reader.byte()?;
    if number == 0 {
        return Ok(None);
    }
    Err(Reader::bad(at))
}

// The fixity with this number, which is not 0.
fn fixity_of(byte: u8) -> Option<Fixity>
    requires { 0 < byte }
    ensures { result ≡ slice_get fixities (byte - 1) }
{
    match byte {
        1 => Some(Fixity::Infix),
        2 => Some(Fixity::Infixl),
        3 => Some(Fixity::Infixr),
        4 => Some(Fixity::Prefix),
        5 => Some(Fixity::Prefixr),
        6 => Some(Fixity::Postfix),
        7 => Some(Fixity::Postfixl),
        _ => None,
    }
}

fn byte_of(fixity: Fixity) -> u8
    ensures { result ≡ fixity_number fixity }
{
    match fixity {
        Fixity::Infix => 1,
        Fixity::Infixl => 2,
        Fixity::Infixr => 3,
        Fixity::Prefix => 4,
        Fixity::Prefixr => 5,
        Fixity::Postfix => 6,
        Fixity::Postfixl => 7,
    }
}

pub(crate) fn write_fixity(writer: &mut Writer, fixity: Option<(Fixity, u8)>) -> Result<(), Memory>
    ensures { OnOk result (text_of writer.new ≡ more (text_of writer.old) (spelled_fixity fixity)) }
{
    match fixity {
        None => writer.put(&[0, 0]),
        Some((fixity, number)) => writer.put(&[byte_of(fixity), number]),
    }
}
