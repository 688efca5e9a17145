// An image as it is written today.
ghost use Rattle.std.specs.Prelude.{◌≡◌, ◌⊎◌, IfErr, IfOk};
ghost use Rattle.lp_files.specs.Made.{IsMigrated};
ghost use Rattle.lp_files.specs.Unlinked.{IsTooLong, IsUnmigrated};
ghost use Rattle.lp_lines.specs.declared.refusal.Refusal.TheVariants as refused;
ghost use Rattle.lp_lines.specs.Looked.{Looked, refusal_of};
ghost use Rattle.lp_lines.specs.Refusals.{IsJudged};
ghost use Rattle.lp_object.specs.Files.{spelled_image};
ghost use Rattle.lp_object.specs.Plain.{plain_image};

use crate::lines::unwritten;
use crate::open::open_image;
use lp_base::Folder;
use lp_code::Image;
use lp_lines::Refusal;
use lp_object::write_image;
use std::alloc::Global;

/// The bytes of an image.
pub fn image_bytes(alloc: Global, image: &Image) -> Result<Vec<u8>, Refusal>
    ensures judged { IfErr result IsJudged }
    ensures spelled { IfOk result (λ bytes. bytes.items ≡ spelled_image (plain_image image.now)) }
    ensures cause { IfErr result (λ refusal. (refusal ≡ refused.Memory) ⊎ IsTooLong (plain_image image.now) refusal) }
{
    match write_image(alloc, image) {
        Ok(bytes) => Ok(bytes),
        Err(refusal) => Err(unwritten(alloc, refusal)),
    }
}

/// The bytes of a module's image, in the version that is written today.
pub fn migrated<F: Folder>(alloc: Global, name: &str, folder: &mut F) -> Result<Vec<u8>, Refusal>
    ensures same { IfOk result (λ bytes. IsMigrated (F.held folder.old) name.now bytes.items) }
    ensures cause { IfErr result (IsUnmigrated (F.held folder.old) name.now) }
    ensures looked { Looked F.read_faults F.misses F.overs F.write_faults F.held folder.old folder.new (refusal_of result) }
{
    let verified = open_image(alloc, folder, name)?;
    image_bytes(alloc, verified.image())
}
