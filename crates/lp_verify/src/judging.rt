// Images and objects whose code denotes clauses.
ghost use Rattle.std.specs.Prelude.{◌≡◌, ◌<◌, ◌^◌, length, IfOk};
ghost use Rattle.lp_code.specs.Length.{AllFit};
ghost use Rattle.lp_code.specs.Naming.{image_tables, object_tables};
ghost use Rattle.lp_verify.specs.Scheme.{tables_in};
ghost use Rattle.lp_verify.specs.inner.Language.{HasLanguage};
ghost use Rattle.lp_verify.specs.Judged.{AreShort, IsTold};

use crate::alls::Alls;
use crate::record::{Home, Shared, judge_record};
use crate::refusal::VerifyRefusal;
use crate::tables::Tables;
use lp_code::{Image, Object, Record};
use std::alloc::Global;

/// An image whose code denotes clauses.
#[derive(Drop)]
pub struct Verified {
    image: Image,
}

impl Verified {
    /// The image.
    pub fn image(&self) -> &Image
        ensures { result.now ≡ self.now.image }
    {
        &self.image
    }
}

// The offset in four bytes: code has less than 2^32.
fn as_offset(at: u64) -> u32
    ensures { at < 2 ^ 32 → result ≡ at }
{
    if at > u64::from(u32::MAX) {
        return u32::MAX;
    }
    at as u32
}

// Whether the records denote clauses over the tables.
fn judge<'a>(
    alloc: Global,
    tables: &'a Tables<'a>,
    records: &'a [Record],
) -> Result<(), VerifyRefusal>
    requires fit { AllFit records.now }
    requires few { length records.now < 2 ^ 32 }
    requires language { HasLanguage tables.now }
    ensures { AreShort records.now → IsTold (tables_in tables.now) records.now result }
{
    let mut shared = Shared::new(alloc)?;
    let mut alls = Alls::new(alloc);
    let mut number: u32 = 0;
    for record in records {
        let home = Home {
            tables,
            records,
            number,
            record,
        };
        if let Some((at, rule)) = judge_record(&mut shared, &alls, home)? {
            return Err(VerifyRefusal::Invalid {
                clause: number,
                at: as_offset(at),
                rule,
            });
        }
        alls.add(alloc, record.code.as_slice())?;
        number = number.saturating_add(1);
    }
    Ok(())
}

// Whether the code of an image denotes clauses.
fn judge_image(alloc: Global, image: &Image) -> Result<(), VerifyRefusal>
    requires fit { AllFit image.now.code.records.items }
    requires few { length image.now.code.records.items < 2 ^ 32 }
    ensures { AreShort image.now.code.records.items → IsTold (image_tables image.now) image.now.code.records.items result }
{
    let tables = Tables::of_image(alloc, image)?;
    judge(alloc, &tables, image.code.records.as_slice())
}

/// The image, where its code denotes clauses over the kinds and constants of the language and its own, which have the numbers from 8 and from 32.
///
/// # Errors
/// The first instruction that breaks a rule. The image is dropped then.
pub fn verify(alloc: Global, image: Image) -> Result<Verified, VerifyRefusal>
    requires fit { AllFit image.code.records.items }
    requires few { length image.code.records.items < 2 ^ 32 }
    ensures image { IfOk result (λ verified. verified.image ≡ image) }
    ensures told { AreShort image.code.records.items → IsTold (image_tables image) image.code.records.items result }
{
    judge_image(alloc, &image)?;
    Ok(Verified { image })
}

/// Whether the code of an object denotes clauses over the kinds and constants of the language and its own, which have the numbers from 8 and from 32.
///
/// # Errors
/// The first instruction that breaks a rule.
pub fn verify_object(alloc: Global, object: &Object) -> Result<(), VerifyRefusal>
    requires fit { AllFit object.now.code.records.items }
    requires few { length object.now.code.records.items < 2 ^ 32 }
    ensures told { AreShort object.now.code.records.items → IsTold (object_tables object.now) object.now.code.records.items result }
{
    let tables = Tables::of_object(alloc, object)?;
    judge(alloc, &tables, object.code.records.as_slice())
}
