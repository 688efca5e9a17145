// The reading of an object or image: its bytes, its format, its name and its code, in this order.
ghost use Rattle.std.specs.Prelude.{◌≡◌, ◌≢◌, false, true, is_some, Err, IfErr, IfOk};
ghost use Rattle.lp_base.specs.declared.limit.Limit.TheVariants as limit;
ghost use Rattle.lp_base.specs.declared.limits.TheConstants.{MAX_IMAGE_BYTES};
ghost use Rattle.lp_code.specs.Denote.{denote};
ghost use Rattle.lp_code.specs.Naming.{object_tables};
ghost use Rattle.lp_object.specs.Files.{spelled_object};
ghost use Rattle.lp_code.specs.Length.{AllFit};
ghost use Rattle.lp_build.specs.Told.{IsTold};
ghost use Rattle.lp_files.specs.Made.{IsHeldImage, IsHeldObject};
ghost use Rattle.lp_files.specs.Unopened.{IsMisread, IsMisreadImage, IsUnopenedImage, IsUnopenedObject};
ghost use Rattle.lp_lines.specs.Looked.{Found, Looked, refusal_of};
ghost use Rattle.lp_lines.specs.Refusals.{IsJudged};
ghost use Rattle.lp_object.specs.Plain.{plain_image, plain_object};
ghost use Rattle.lp_object.specs.Spellable.{SpellsImage};

use crate::lines::{misread, rejected};
use lp_base::{Folder, Limit, MAX_IMAGE_BYTES};
use lp_code::{Image, Object};
use lp_lines::{Refusal, file_name, read_file, said_of};
use lp_object::{read_image, read_object};
use lp_verify::{Verified, verify, verify_object};
use std::alloc::Global;

// The bytes of a file of this name.
fn bytes_of<F: Folder>(alloc: Global, folder: &mut F, file: &str) -> Result<Vec<u8>, Refusal>
    ensures there { IfOk result (λ bytes. IsTold (F.held folder.old) file.now bytes.items) }
    ensures unread { IfErr result (λ refusal. Found file.now MAX_IMAGE_BYTES limit.Image (F.held folder.old) (Err refusal)) }
    ensures looked { Looked F.read_faults F.misses F.overs F.write_faults F.held folder.old folder.new (refusal_of result) }
{
    read_file(alloc, folder, file, MAX_IMAGE_BYTES, Limit::Image)
}

fn is_named(object: &Object, name: &str) -> bool
    ensures named { result ≡ true → object.now.name.items ≡ name.now }
    ensures other { result ≡ false → object.now.name.items ≢ name.now }
{
    object.name.as_slice() == name.as_bytes()
}

// The object of the module of this name, which these bytes of its file spell.
fn judged_object(alloc: Global, file: &str, name: &str, bytes: &[u8]) -> Result<Object, Refusal>
    ensures judged { IfErr result IsJudged }
    ensures named { IfOk result (λ object. object.name.items ≡ name.now) }
    ensures spelled { IfOk result (λ object. bytes.now ≡ spelled_object (plain_object object)) }
    ensures denotes { IfOk result (λ object. is_some (denote (object_tables object) object.code.records.items) ≡ true) }
    ensures cause { IfErr result (IsMisread file.now name.now bytes.now) }
{
    let object = match read_object(alloc, bytes) {
        Ok(object) => object,
        Err(fault) => return Err(misread(alloc, file.as_bytes(), fault)),
    };
    if !is_named(&object, name) {
        return Err(said_of(alloc, file.as_bytes(), b"name differs"));
    }
    match verify_object(alloc, &object) {
        Ok(()) => Ok(object),
        Err(refusal) => Err(rejected(alloc, file.as_bytes(), refusal)),
    }
}

/// The object of a module, from its file `NAME.lpo`. The refusals, in their order: the file cannot be read, is not there or is too long; its bytes are
/// none of an object; its name differs; its code denotes nothing.
pub fn open_object<F: Folder>(alloc: Global, folder: &mut F, name: &str) -> Result<Object, Refusal>
    ensures looked { Looked F.read_faults F.misses F.overs F.write_faults F.held folder.old folder.new (refusal_of result) }
    ensures named { IfOk result (λ object. object.name.items ≡ name.now) }
    ensures held { IfOk result (IsHeldObject (F.held folder.old)) }
    ensures cause { IfErr result (IsUnopenedObject (F.held folder.old) name.now) }
{
    let file = file_name(alloc, name, ".lpo")?;
    let bytes = bytes_of(alloc, folder, file.as_str())?;
    judged_object(alloc, file.as_str(), name, bytes.as_slice())
}

fn is_of(image: &Image, name: &str) -> bool
    ensures other { result ≡ false → image.now.name.items ≢ name.now }
    ensures named { result ≡ true → image.now.name.items ≡ name.now }
{
    image.name.as_slice() == name.as_bytes()
}

// The image of the module of this name, which these bytes of its file spell.
fn judged_image(alloc: Global, file: &str, name: &str, bytes: &[u8]) -> Result<Verified, Refusal>
    ensures judged { IfErr result IsJudged }
    ensures fit { IfOk result (λ verified. AllFit verified.image.code.records.items) }
    ensures spelled { IfOk result (λ verified. SpellsImage (plain_image verified.image) bytes.now) }
    ensures cause { IfErr result (IsMisreadImage file.now name.now bytes.now) }
{
    let image = match read_image(alloc, bytes) {
        Ok(image) => image,
        Err(fault) => return Err(misread(alloc, file.as_bytes(), fault)),
    };
    if !is_of(&image, name) {
        return Err(said_of(alloc, file.as_bytes(), b"name differs"));
    }
    match verify(alloc, image) {
        Ok(verified) => Ok(verified),
        Err(refusal) => Err(rejected(alloc, file.as_bytes(), refusal)),
    }
}

/// The image of a module, from its file `NAME.lp`, with the same refusals.
pub fn open_image<F: Folder>(alloc: Global, folder: &mut F, name: &str) -> Result<Verified, Refusal>
    ensures looked { Looked F.read_faults F.misses F.overs F.write_faults F.held folder.old folder.new (refusal_of result) }
    ensures fit { IfOk result (λ verified. AllFit verified.image.code.records.items) }
    ensures held { IfOk result (λ verified. IsHeldImage (F.held folder.old) name.now (plain_image verified.image)) }
    ensures cause { IfErr result (IsUnopenedImage (F.held folder.old) name.now) }
{
    let file = file_name(alloc, name, ".lp")?;
    let bytes = bytes_of(alloc, folder, file.as_str())?;
    judged_image(alloc, file.as_str(), name, bytes.as_slice())
}
