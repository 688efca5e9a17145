// Fields that are read.
ghost use Rattle.std.specs.Prelude.{◌≡◌, ◌+◌, ◌≤◌, ◌^◌, IfOk, length};
ghost use Rattle.lp_bytes.specs.declared.fault.Fault.TheVariants.{BadField};
ghost use Rattle.lp_bytes.specs.declared.fault.ReadError.TheVariants as errors;
ghost use Rattle.lp_bytes.specs.Reading.{Gives, Comes, Passes, left_of, field, byte_at, two_at, four_at, integer_at, long_text_at, magic_at, file_of, all_read};

use crate::fault::{Fault, ReadError};
use crate::left::Reader;
use lp_base::{Limit, MAX_IMAGE_BYTES};

impl<'a> Reader<'a> {
    /// The bytes of a file, of which there are at most 16 MiB.
    #[tactic(auto, unfolding(crate::specs::Reading::file_of))]
    pub fn begin(bytes: &'a [u8]) -> Result<Reader<'a>, ReadError>
        ensures { Comes left_of result (file_of bytes.now) }
    {
        if bytes.len() as u64 > MAX_IMAGE_BYTES {
            return Err(ReadError::Fault(Fault::Limit(Limit::Image)));
        }
        Ok(Reader { rest: bytes, at: 0 })
    }

    /// The offset of the next field.
    pub fn at(&self) -> u64
        ensures { result ≡ (left_of self.now).at }
    {
        self.at
    }

    /// How many bytes are left.
    pub fn len(&self) -> usize
        ensures { result ≡ length (left_of self.now).rest }
    {
        self.rest.len()
    }

    /// The field that stood at an offset has no value.
    pub fn bad(at: u64) -> ReadError
        ensures { result ≡ errors.Fault (BadField at) }
    {
        ReadError::Fault(Fault::BadField(at))
    }

    /// So many bytes, which are one field.
    #[tactic(auto, unfolding(crate::specs::Reading::field))]
    pub fn take(&mut self, count: usize) -> Result<&'a [u8], ReadError>
        ensures length { IfOk result (λ taken. length taken.now ≡ count) }
        ensures read { Gives (λ x. x.now) result (left_of self.new) (field count (left_of self.old)) }
    {
        if self.rest.len() < count {
            return Err(ReadError::Fault(Fault::Truncated(self.at)));
        }
        let (taken, rest) = self.rest.split_at(count);
        *self = Reader {
            rest,
            at: self.at + count as u64,
        };
        Ok(taken)
    }

    #[tactic(auto, unfolding(crate::specs::Reading::byte_at))]
    pub fn byte(&mut self) -> Result<u8, ReadError>
        ensures { Gives (λ x. x) result (left_of self.new) (byte_at (left_of self.old)) }
    {
        let taken = self.take(1)?;
        Ok(taken[0])
    }

    #[tactic(auto, unfolding(crate::specs::Reading::two_at))]
    pub fn two(&mut self) -> Result<u16, ReadError>
        ensures { Gives (λ x. x) result (left_of self.new) (two_at (left_of self.old)) }
    {
        let taken = self.take(2)?;
        Ok(u16::from_le_bytes([taken[0], taken[1]]))
    }

    #[tactic(auto, unfolding(crate::specs::Reading::four_at))]
    pub fn four(&mut self) -> Result<u32, ReadError>
        ensures { Gives (λ x. x) result (left_of self.new) (four_at (left_of self.old)) }
    {
        let taken = self.take(4)?;
        Ok(u32::from_le_bytes([taken[0], taken[1], taken[2], taken[3]]))
    }

    #[tactic(auto, unfolding(crate::specs::Reading::integer_at))]
    pub fn integer(&mut self) -> Result<i64, ReadError>
        ensures { Gives (λ x. x) result (left_of self.new) (integer_at (left_of self.old)) }
    {
        let taken = self.take(8)?;
        Ok(i64::from_le_bytes([
            taken[0], taken[1], taken[2], taken[3], taken[4], taken[5], taken[6], taken[7],
        ]))
    }

    /// A text behind its length, which has four bytes.
    #[tactic(auto, unfolding(crate::specs::Reading::long_text_at))]
    pub fn long_text(&mut self) -> Result<&'a [u8], ReadError>
        ensures { Gives (λ x. x.now) result (left_of self.new) (long_text_at (left_of self.old)) }
    {
        let length = self.four()?;
        self.take(length as usize)
    }

    /// The four bytes that begin the format.
    #[tactic(auto, unfolding(crate::specs::Reading::magic_at))]
    pub fn magic(&mut self, magic: &[u8]) -> Result<(), ReadError>
        ensures { Passes result (left_of self.new) (magic_at magic.now (left_of self.old)) }
    {
        let taken = self.take(4)?;
        if taken == magic {
            return Ok(());
        }
        Err(ReadError::Fault(Fault::BadMagic))
    }

    /// All has been read.
    #[tactic(auto, unfolding(crate::specs::Reading::all_read))]
    pub fn end(&self) -> Result<(), ReadError>
        ensures { Comes (λ x. x) result (all_read (left_of self.now)) }
    {
        if !self.rest.is_empty() {
            return Err(ReadError::Fault(Fault::Trailing(self.at)));
        }
        Ok(())
    }
}
