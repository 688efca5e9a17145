// The image of a module.
ghost use Rattle.std.specs.Prelude.{◌≡◌, ◌⊎◌, ◌<◌, ◌++◌, [], ◌∷◌, length, IfErr, IfOk, IfSome, OnOk};
ghost use Rattle.lp_places.specs.Places.{HasPlaces};
ghost use Rattle.lp_link.specs.Uses.{names_of};
ghost use Rattle.lp_link.specs.Differences.{number_at};
ghost use Rattle.lp_link.specs.Linked.{IsLinked};
ghost use Rattle.lp_files.specs.Made.{IsHeldObject, AreHeldObjects, SpellsLinked, IsImageLinked};
ghost use Rattle.lp_files.specs.Ordered.{AreInOrder};
ghost use Rattle.lp_files.specs.Said.{IsNameOf, TellsDiffering, TellsUnlinked};
ghost use Rattle.lp_files.specs.Unlinked.{IsUnjoined, IsUnlinked, IsUnread as IsUnreadObject};
ghost use Rattle.lp_files.specs.Unopened.{object_file};
ghost use Rattle.lp_files.specs.inner.Objects.{AreMore, AreThere, IsUnread, IsNew, IsNext};
ghost use Rattle.lp_lines.specs.Looked.{Looked, refusal_of};
ghost use Rattle.lp_lines.specs.Refusals.{IsJudged};

use crate::lines::{differ, joined, misnamed};
use crate::migrate::image_bytes;
use crate::open::open_object;
use lp_base::{Folder, Limit, MAX_MODULES, Memory};
use lp_code::{Image, Object};
use lp_lines::{Refusal, limited};
use lp_link::{LinkRefusal, Part, link};
use lp_places::Places;
use lp_standard::{FIRST_CONSTANT, FIRST_KIND};
use std::alloc::Global;

// The objects that were read, the root first, with their names.
#[derive(Drop)]
struct Reading {
    alloc: Global,
    objects: Vec<Object>,
    names: Places,
}

// The name of the file of a module.
fn file_of(alloc: Global, name: &[u8]) -> Result<Vec<u8>, Memory>
    ensures { IfOk result (λ file. file.items ≡ object_file name.now) }
{
    joined(alloc, name, b".lpo")
}

impl Reading {
    fn new(alloc: Global) -> Reading
        ensures none { result.objects.items ≡ [] }
        ensures found { HasPlaces result.names [] }
    {
        Reading {
            alloc,
            objects: Vec::new(alloc),
            names: Places::new(alloc),
        }
    }

    fn take(&mut self, object: Object) -> Result<(), Memory>
        requires found { HasPlaces self.old.names (names_of self.old.objects.items) }
        ensures found { OnOk result (HasPlaces self.new.names (names_of self.new.objects.items)) }
        ensures some { OnOk result (0 < length self.new.objects.items) }
        ensures pushed { OnOk result (self.new.objects.items ≡ self.old.objects.items ++ object ∷ []) }
    {
        self.names.add(object.name.as_slice(), self.objects.len())?;
        self.objects.push(object)?;
        Ok(())
    }

    // The first name that an object uses from a place on and of which no object was read, with the place behind it.
    fn unread(&self, user: usize, place: usize) -> Result<Option<(usize, Vec<u8>)>, Memory>
        requires found { HasPlaces self.now.names (names_of self.now.objects.items) }
        ensures { IfOk result (IsUnread self.now.objects.items user place) }
    {
        let Some(object) = self.objects.get(user) else {
            return Ok(None);
        };
        for at in place..object.uses.len() {
            let name = &object.uses[at];
            if self.names.of(name.as_slice()).is_none() {
                let name = Vec::from_slice(self.alloc, name.as_slice())?;
                return Ok(Some((at + 1, name)));
            }
        }
        Ok(None)
    }

    // The next of these names, depth first, with the number of the object that uses it. The objects that wait are those of which uses are left,
    // the newest last, each with the place of the next one.
    fn next(&self, waiting: &mut Vec<(usize, usize)>) -> Result<Option<(usize, Vec<u8>)>, Memory>
        requires found { HasPlaces self.now.names (names_of self.now.objects.items) }
        requires there { AreThere self.now.objects.items waiting.old.items }
        ensures next { IfOk result (IsNext self.now.objects.items waiting.old.items waiting.new.items) }
        ensures there { OnOk result (AreThere self.now.objects.items waiting.new.items) }
    {
        while let Some((user, place)) = waiting.pop() {
            if let Some((next, name)) = self.unread(user, place)? {
                waiting.push((user, next))?;
                return Ok(Some((user, name)));
            }
        }
        Ok(None)
    }

    // The object of a module that another one uses. A name that is no text is that of no file.
    fn open_used<F: Folder>(
        &self,
        folder: &mut F,
        user: usize,
        name: &[u8],
    ) -> Result<Object, Refusal>
        requires { IsNew self.now.objects.items user name.now }
        ensures named { IfOk result (λ object. object.name.items ≡ name.now) }
        ensures held { IfOk result (IsHeldObject (F.held folder.old)) }
        ensures cause { IfErr result (IsUnreadObject (F.held folder.old) self.now.objects.items name.now) }
        ensures looked { Looked F.read_faults F.misses F.overs F.write_faults F.held folder.old folder.new (refusal_of result) }
    {
        match str::from_utf8(name) {
            Ok(name) => open_object(self.alloc, folder, name),
            Err(_) => Err(misnamed(self.alloc, &self.objects[user])),
        }
    }

    // Reads the object of this name, which another one uses.
    fn read<F: Folder>(&mut self, folder: &mut F, user: usize, name: &[u8]) -> Result<(), Refusal>
        requires found { HasPlaces self.old.names (names_of self.old.objects.items) }
        requires is_new { IsNew self.old.objects.items user name.now }
        ensures looked { Looked F.read_faults F.misses F.overs F.write_faults F.held folder.old folder.new (refusal_of result) }
        ensures some { OnOk result (0 < length self.new.objects.items) }
        ensures found { OnOk result (HasPlaces self.new.names (names_of self.new.objects.items)) }
        ensures more { OnOk result (AreMore (F.held folder.old) name.now self.old.objects.items self.new.objects.items) }
        ensures cause { IfErr result (IsUnreadObject (F.held folder.old) self.old.objects.items name.now) }
    {
        let object = self.open_used(folder, user, name)?;
        self.take(object)?;
        Ok(())
    }
}

// The uses of an object are all left.
fn wait(waiting: &mut Vec<(usize, usize)>, number: usize) -> Result<(), Memory>
    ensures { OnOk result (waiting.new.items ≡ waiting.old.items ++ (number, 0) ∷ []) }
{
    waiting.push((number, 0))?;
    Ok(())
}

// The objects of a root and of what it uses, depth first, each once.
fn objects_of<F: Folder>(alloc: Global, folder: &mut F, root: &str) -> Result<Vec<Object>, Refusal>
    ensures looked { Looked F.read_faults F.misses F.overs F.write_faults F.held folder.old folder.new (refusal_of result) }
    ensures root { IfOk result (λ objects. 0 < length objects.items) }
    ensures held { IfOk result (λ objects. AreHeldObjects (F.held folder.old) objects.items) }
    ensures ordered { IfOk result (λ objects. AreInOrder root.now objects.items) }
    ensures cause { IfErr result (IsUnlinked (F.held folder.old) root.now) }
{
    let object = open_object(alloc, folder, root)?;
    let mut reading = Reading::new(alloc);
    reading.take(object)?;
    let mut waiting = Vec::new(alloc);
    wait(&mut waiting, 0)?;
    for number in 1..MAX_MODULES {
        let Some((user, name)) = reading.next(&mut waiting)? else {
            return Ok(reading.objects);
        };
        reading.read(folder, user, name.as_slice())?;
        wait(&mut waiting, number)?;
    }
    match reading.next(&mut waiting)? {
        None => Ok(reading.objects),
        Some(_) => Err(limited(alloc, Limit::Modules)),
    }
}

// The place in its table of what has this number, where those of the table begin with another one.
fn place_in(number: u32, first: u32) -> Option<usize>
    ensures { IfSome result (λ place. number ≡ number_at first place) }
{
    if number < first {
        return None;
    }
    Some((number - first) as usize)
}

// The name of a kind or constant of an object.
fn name_of(object: &Object, part: Part) -> Option<&[u8]>
    ensures { IfSome result (λ name. IsNameOf object.now part name.now) }
{
    match part {
        Part::Kind(number) => {
            let place = place_in(number, FIRST_KIND)?;
            Some(object.kinds.get(place)?.name.as_slice())
        }
        Part::Constant(number) => {
            let place = place_in(number, FIRST_CONSTANT)?;
            Some(object.constants.get(place)?.name.as_slice())
        }
    }
}

// A name of an object that the one above it has otherwise.
fn differing(alloc: Global, object: &Object, part: Part) -> Refusal
    ensures judged { IsJudged result }
    ensures says { (result ≡ Refusal.Memory) ⊎ TellsDiffering object.now part result }
{
    let Some(name) = name_of(object, part) else {
        return Refusal::Memory;
    };
    match file_of(alloc, object.name.as_slice()) {
        Ok(file) => differ(alloc, file.as_slice(), name),
        Err(Memory) => Refusal::Memory,
    }
}

// The same of the object of this number.
fn differing_at(alloc: Global, objects: &[Object], number: u32, part: Part) -> Refusal
    ensures judged { IsJudged result }
    ensures says { (result ≡ Refusal.Memory) ⊎ TellsUnlinked objects.now (LinkRefusal.Differ number part) result }
{
    match objects.get(number as usize) {
        Some(object) => differing(alloc, object, part),
        None => Refusal::Memory,
    }
}

fn unlinked(alloc: Global, objects: &[Object], refusal: LinkRefusal) -> Refusal
    ensures judged { IsJudged result }
    ensures says { (result ≡ Refusal.Memory) ⊎ TellsUnlinked objects.now refusal result }
{
    match refusal {
        LinkRefusal::Differ(number, part) => differing_at(alloc, objects, number, part),
        LinkRefusal::Limit(limit) => limited(alloc, limit),
        LinkRefusal::Memory => Refusal::Memory,
    }
}

// The image of these objects, of which the first is the root.
fn image_of(alloc: Global, objects: &[Object]) -> Result<Image, Refusal>
    requires { 0 < length objects.now }
    ensures judged { IfErr result IsJudged }
    ensures linked { IfOk result (IsLinked objects.now 0) }
    ensures cause { IfErr result (IsUnjoined objects.now) }
{
    match link(alloc, objects, 0) {
        Ok(image) => Ok(image),
        Err(refusal) => Err(unlinked(alloc, objects, refusal)),
    }
}

fn linked_bytes(alloc: Global, objects: &[Object]) -> Result<Vec<u8>, Refusal>
    requires { 0 < length objects.now }
    ensures judged { IfErr result IsJudged }
    ensures image { IfOk result (λ bytes. SpellsLinked objects.now bytes.items) }
    ensures cause { IfErr result (IsUnjoined objects.now) }
{
    let image = image_of(alloc, objects)?;
    image_bytes(alloc, &image)
}

/// The bytes of the image of a module, from its object and those that it uses.
pub fn linked<F: Folder>(alloc: Global, name: &str, folder: &mut F) -> Result<Vec<u8>, Refusal>
    ensures image { IfOk result (λ bytes. IsImageLinked (F.held folder.old) name.now bytes.items) }
    ensures cause { IfErr result (IsUnlinked (F.held folder.old) name.now) }
    ensures looked { Looked F.read_faults F.misses F.overs F.write_faults F.held folder.old folder.new (refusal_of result) }
{
    let objects = objects_of(alloc, folder, name)?;
    linked_bytes(alloc, objects.as_slice())
}
