// The names of a copy.
ghost use Rattle.std.specs.Prelude.{◌≡◌, option_map, IfOk};
ghost use Rattle.lp_link.specs.Linked.{kind_above, constant_above, kinds_of, constants_of};
ghost use Rattle.lp_link.specs.Numbers.{renumbered};
ghost use Rattle.lp_link.specs.inner.Entering.{open_copy};
ghost use Rattle.lp_link.specs.inner.Naming.{next_number, next_global, next_hidden, AreNumbers};

use crate::differ::place_of;
use crate::places::Member;
use lp_base::Memory;
use lp_standard::{FIRST_CONSTANT, FIRST_KIND};
use lp_term::{Mapping, TermChange, TypeChange};
use std::alloc::Global;

/// The numbers of the first hidden kind and constant of a copy.
#[derive(Clone, Copy)]
pub(crate) struct Firsts {
    pub kind: u32,
    pub constant: u32,
}

/// The numbers that a copy's kinds and constants have in the image, by their places.
#[derive(Drop)]
pub(crate) struct Names {
    kinds: Vec<u32>,
    constants: Vec<u32>,
}

/// A copy on the way from the root.
#[derive(Drop)]
pub(crate) struct Open<'m, 'a> {
    pub member: &'m Member<'a>,
    pub names: Names,
}

// The number of a name: hidden ones from `hidden` on, exported ones as the copy above has them, or at the root from `global` on.
fn next(exported: bool, above: Option<u32>, global: &mut u32, hidden: &mut u32) -> u32
    ensures number { result ≡ next_number exported above global.old hidden.old }
    ensures global { global.new ≡ next_global exported above global.old }
    ensures hidden { hidden.new ≡ next_hidden exported hidden.old }
{
    if !exported {
        let number = *hidden;
        *hidden = hidden.saturating_add(1);
        return number;
    }
    match above {
        Some(number) => number,
        None => {
            let number = *global;
            *global = global.saturating_add(1);
            number
        }
    }
}

// The number in the image; a standard one stays.
fn number_of(first: u32, numbers: &Vec<u32>, number: u32) -> u32
    ensures { result ≡ renumbered first numbers.now.items number }
{
    match place_of(first, number) {
        Some(place) => numbers.get(place).copied().unwrap_or(u32::MAX),
        None => number,
    }
}

// The number that the copy above has for a kind.
fn kind_above(above: Option<&Open<'_, '_>>, name: &[u8]) -> Option<u32>
    ensures { result ≡ kind_above (option_map (λ o. open_copy o.now) above.entry) name.now }
{
    match above {
        None => None,
        Some(open) => match open.member.kind(name) {
            None => None,
            Some(place) => open.names.kinds.get(place).copied(),
        },
    }
}

// The number that the copy above has for a constant.
fn constant_above(above: Option<&Open<'_, '_>>, name: &[u8]) -> Option<u32>
    ensures { result ≡ constant_above (option_map (λ o. open_copy o.now) above.entry) name.now }
{
    match above {
        None => None,
        Some(open) => match open.member.constant(name) {
            None => None,
            Some(place) => open.names.constants.get(place).copied(),
        },
    }
}

// The numbers of a copy's kinds, of which the hidden ones begin at a number.
fn kind_numbers(
    alloc: Global,
    member: &Member<'_>,
    first: u32,
    above: Option<&Open<'_, '_>>,
) -> Result<Vec<u32>, Memory>
    ensures { IfOk result (λ ns. AreNumbers (kind_above (option_map (λ o. open_copy o.now) above.entry)) 8 first (kinds_of member.now.object.now) ns.items) }
{
    let kinds = member.object.kinds.as_slice();
    let mut numbers = Vec::new(alloc);
    let mut global = FIRST_KIND;
    let mut hidden = first;
    for at in 0..kinds.len() {
        let kind = &kinds[at];
        let there = kind_above(above, kind.name.as_slice());
        numbers.push(next(kind.exported, there, &mut global, &mut hidden))?;
    }
    Ok(numbers)
}

// The numbers of a copy's constants.
fn constant_numbers(
    alloc: Global,
    member: &Member<'_>,
    first: u32,
    above: Option<&Open<'_, '_>>,
) -> Result<Vec<u32>, Memory>
    ensures { IfOk result (λ ns. AreNumbers (constant_above (option_map (λ o. open_copy o.now) above.entry)) 32 first (constants_of member.now.object.now) ns.items) }
{
    let constants = member.object.constants.as_slice();
    let mut numbers = Vec::new(alloc);
    let mut global = FIRST_CONSTANT;
    let mut hidden = first;
    for at in 0..constants.len() {
        let constant = &constants[at];
        let there = constant_above(above, constant.name.as_slice());
        numbers.push(next(constant.exported, there, &mut global, &mut hidden))?;
    }
    Ok(numbers)
}

impl Names {
    /// The names of a copy below another one, or of the root.
    pub(crate) fn of(
        alloc: Global,
        member: &Member<'_>,
        firsts: Firsts,
        above: Option<&Open<'_, '_>>,
    ) -> Result<Names, Memory>
        ensures kinds { IfOk result (λ n. AreNumbers (kind_above (option_map (λ o. open_copy o.now) above.entry)) 8 firsts.kind (kinds_of member.now.object.now) n.kinds.items) }
        ensures constants { IfOk result (λ n. AreNumbers (constant_above (option_map (λ o. open_copy o.now) above.entry)) 32 firsts.constant (constants_of member.now.object.now) n.constants.items) }
    {
        let kinds = kind_numbers(alloc, member, firsts.kind, above)?;
        let constants = constant_numbers(alloc, member, firsts.constant, above)?;
        Ok(Names { kinds, constants })
    }
}

// Kinds and constants have their numbers in the image; all else stays.
impl Mapping for Names {
    ghost use Rattle.lp_link.specs.Told.{told_by};

    ghost told = { λ n. told_by n };

    fn kind(&self, kind: u32) -> u32 {
        number_of(FIRST_KIND, &self.kinds, kind)
    }

    fn constant(&self, constant: u32) -> u32 {
        number_of(FIRST_CONSTANT, &self.constants, constant)
    }

    fn type_variable(&self, variable: u64) -> TypeChange {
        TypeChange::Var(variable)
    }

    fn logic_variable(&self, _variable: u64) -> TermChange {
        TermChange::Stays
    }
}
