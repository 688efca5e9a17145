// Objects and their names by name.
ghost use Rattle.std.specs.Prelude.{◌≡◌, ◌<◌, length, map, All, IfOk};
ghost use Rattle.lp_copies.specs.Trees.{lists_in};
ghost use Rattle.lp_places.specs.Places.{HasPlaces, first_place};
ghost use Rattle.lp_link.specs.Uses.{kind_names, constant_names, names_of, uses_of};

use lp_base::Memory;
use lp_code::{Object, ObjectConstant, ObjectKind};
use lp_places::Places;
use std::alloc::Global;

/// An object with the places of its kinds and constants.
#[derive(Drop)]
pub(crate) struct Member<'a> {
    pub object: &'a Object,
    kinds: Places,
    constants: Places,
    ghost kinds_found: { HasPlaces kinds (kind_names object.now.kinds.items) },
    ghost constants_found: { HasPlaces constants (constant_names object.now.constants.items) },
}

fn kind_places(alloc: Global, kinds: &[ObjectKind]) -> Result<Places, Memory>
    ensures { IfOk result (λ places. HasPlaces places (kind_names kinds.now)) }
{
    let mut places = Places::new(alloc);
    for at in 0..kinds.len() {
        places.add(kinds[at].name.as_slice(), at)?;
    }
    Ok(places)
}

fn constant_places(alloc: Global, constants: &[ObjectConstant]) -> Result<Places, Memory>
    ensures { IfOk result (λ places. HasPlaces places (constant_names constants.now)) }
{
    let mut places = Places::new(alloc);
    for at in 0..constants.len() {
        places.add(constants[at].name.as_slice(), at)?;
    }
    Ok(places)
}

fn object_places(alloc: Global, objects: &[Object]) -> Result<Places, Memory>
    ensures { IfOk result (λ places. HasPlaces places (names_of objects.now)) }
{
    let mut places = Places::new(alloc);
    for at in 0..objects.len() {
        places.add(objects[at].name.as_slice(), at)?;
    }
    Ok(places)
}

impl<'a> Member<'a> {
    fn new(alloc: Global, object: &'a Object) -> Result<Member<'a>, Memory>
        ensures { IfOk result (λ m. m.object.now ≡ object.now) }
    {
        let kinds = kind_places(alloc, object.kinds.as_slice())?;
        let constants = constant_places(alloc, object.constants.as_slice())?;
        Ok(Member {
            object,
            kinds,
            constants,
        })
    }

    /// The place of the kind of a name.
    pub(crate) fn kind(&self, name: &[u8]) -> Option<usize>
        ensures { result ≡ first_place name.now (kind_names self.now.object.now.kinds.items) }
    {
        self.kinds.of(name)
    }

    /// The place of the constant of a name.
    pub(crate) fn constant(&self, name: &[u8]) -> Option<usize>
        ensures { result ≡ first_place name.now (constant_names self.now.object.now.constants.items) }
    {
        self.constants.of(name)
    }
}

/// The objects, each with the places of its names.
pub(crate) fn members_of<'a>(
    alloc: Global,
    objects: &'a [Object],
) -> Result<Vec<Member<'a>>, Memory>
    ensures { IfOk result (λ members. map (λ m. m.object.now) members.items ≡ objects.now) }
{
    let mut members = Vec::new(alloc);
    for object in objects {
        members.push(Member::new(alloc, object)?)?;
    }
    Ok(members)
}

/// The numbers of the objects that each uses, in order.
pub(crate) fn uses_of(alloc: Global, objects: &[Object]) -> Result<Vec<Vec<usize>>, Memory>
    ensures uses { IfOk result (λ uses. lists_in uses.items ≡ uses_of objects.now) }
    ensures within { IfOk result (λ uses. All (λ out. All (λ m. m < length uses.items) out) (lists_in uses.items)) }
{
    let places = object_places(alloc, objects)?;
    let mut uses = Vec::new(alloc);
    for at in 0..objects.len() {
        let numbers = places.all(alloc, objects[at].uses.as_slice())?;
        uses.push(numbers)?;
    }
    Ok(uses)
}
