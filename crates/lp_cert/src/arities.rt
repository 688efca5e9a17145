// How many types the kinds and constants of a program take.
ghost use Rattle.std.specs.Prelude.{◌≡◌};
ghost use Rattle.lp_cert.specs.Arities.{declared_count, counted, counts_of, counts_in, count_of_kind, count_of_constant};

use lp_module::{Assembled, GlobalName};
use lp_standard::{Constant, FIRST_CONSTANT, FIRST_KIND, Kind};

// The declared kinds, which have the numbers from 8, and the declared constants, which have those from 32.
#[derive(Clone, Copy)]
pub(crate) struct Arities<'a> {
    pub(crate) kinds: &'a [GlobalName],
    pub(crate) constants: &'a [GlobalName],
}

fn arity_at(names: &[GlobalName], number: u32, first: u32) -> Option<u8>
    ensures { result ≡ declared_count (counted names.now) number first }
{
    if number < first {
        return None;
    }
    let place = number - first;
    match names.get(place as usize) {
        Some(name) => Some(name.arity),
        None => None,
    }
}

impl<'a> Arities<'a> {
    pub(crate) fn of(names: &'a Assembled) -> Arities<'a>
        ensures { counts_of result ≡ counts_in names.now }
    {
        Arities {
            kinds: names.kinds.as_slice(),
            constants: names.constants.as_slice(),
        }
    }

    // The count of arguments of a kind, if there is one of this number.
    #[tactic(auto, unfolding(crate::specs::Arities::count_of_kind))]
    pub(crate) fn of_kind(&self, kind: u32) -> Option<u8>
        ensures { result ≡ count_of_kind (counts_of self.now) kind }
    {
        match Kind::from_number(kind) {
            Some(standard) => Some(standard.arity()),
            None => arity_at(self.kinds, kind, FIRST_KIND),
        }
    }

    // The count of type variables of a constant, if there is one of this number.
    #[tactic(auto, unfolding(crate::specs::Arities::count_of_constant))]
    pub(crate) fn of_constant(&self, constant: u32) -> Option<u8>
        ensures { result ≡ count_of_constant (counts_of self.now) constant }
    {
        let Some(standard) = Constant::from_number(constant) else {
            return arity_at(self.constants, constant, FIRST_CONSTANT);
        };
        match standard.shape() {
            Some(shape) => Some(shape.type_vars()),
            None => None,
        }
    }
}
