// Fields that are written.
ghost use Rattle.std.specs.Prelude.{◌≡◌, ◌∷◌, [], Some, None, OnOk, IfOk, IfErr, true};
ghost use Rattle.lp_base.specs.declared.limit.Limit.TheVariants.{Image};
ghost use Rattle.lp_bytes.specs.Numbers.{spelled_two, spelled_four, spelled_integer, spelled_long_text};
ghost use Rattle.lp_bytes.specs.Writing.{text_of, more};

use crate::written::Writer;
use byteorder::{ByteOrder, LittleEndian};
use lp_base::{Limit, MAX_IMAGE_BYTES, Memory};
use std::alloc::Global;

impl Writer {
    pub fn new(alloc: Global) -> Writer
        ensures { text_of result ≡ Some [] }
    {
        Writer {
            bytes: Vec::new(alloc),
            full: false,
        }
    }

    /// Whether there would be too many bytes: then nothing that follows changes the writer.
    pub fn is_full(&self) -> bool
        ensures { result ≡ true → text_of self.now ≡ None }
    {
        self.full
    }

    /// There would be too many bytes.
    pub fn fill(&mut self)
        ensures { text_of self.new ≡ None }
    {
        self.full = true;
    }

    /// One more field.
    pub fn put(&mut self, field: &[u8]) -> Result<(), Memory>
        ensures { OnOk result (text_of self.new ≡ more (text_of self.old) field.now) }
    {
        if self.full {
            return Ok(());
        }
        if self.bytes.len() as u64 + field.len() as u64 > MAX_IMAGE_BYTES {
            self.full = true;
            return Ok(());
        }
        self.bytes.extend_from_slice(field)?;
        Ok(())
    }

    pub fn byte(&mut self, number: u8) -> Result<(), Memory>
        ensures { OnOk result (text_of self.new ≡ more (text_of self.old) (number ∷ [])) }
    {
        self.put(&[number])
    }

    /// The lowest two bytes of a number, and the lowest four.
    pub fn low_two(&mut self, number: u64) -> Result<(), Memory>
        ensures { OnOk result (text_of self.new ≡ more (text_of self.old) (spelled_two number)) }
    {
        let mut bytes = [0; 8];
        LittleEndian::write_u64(&mut bytes, number);
        self.put(&bytes[..2])
    }

    pub fn low_four(&mut self, number: u64) -> Result<(), Memory>
        ensures { OnOk result (text_of self.new ≡ more (text_of self.old) (spelled_four number)) }
    {
        let mut bytes = [0; 8];
        LittleEndian::write_u64(&mut bytes, number);
        self.put(&bytes[..4])
    }

    pub fn two(&mut self, number: u16) -> Result<(), Memory>
        ensures { OnOk result (text_of self.new ≡ more (text_of self.old) (spelled_two number)) }
    {
        self.low_two(u64::from(number))
    }

    pub fn four(&mut self, number: u32) -> Result<(), Memory>
        ensures { OnOk result (text_of self.new ≡ more (text_of self.old) (spelled_four number)) }
    {
        self.low_four(u64::from(number))
    }

    pub fn integer(&mut self, number: i64) -> Result<(), Memory>
        ensures { OnOk result (text_of self.new ≡ more (text_of self.old) (spelled_integer number)) }
    {
        let mut bytes = [0; 8];
        LittleEndian::write_i64(&mut bytes, number);
        self.put(&bytes)
    }

    /// A text behind its length, which has four bytes.
    #[tactic(auto, unfolding(crate::specs::Numbers::spelled_long_text))]
    pub fn long_text(&mut self, text: &[u8]) -> Result<(), Memory>
        ensures { OnOk result (text_of self.new ≡ more (text_of self.old) (spelled_long_text text.now)) }
    {
        self.low_four(text.len() as u64)?;
        self.put(text)
    }

    /// All the bytes, unless there would be too many.
    pub fn finish(self) -> Result<Vec<u8>, Limit>
        ensures bytes { IfOk result (λ bytes. text_of self ≡ Some bytes.items) }
        ensures many { IfErr result (λ limit. (limit ≡ Image) × (text_of self ≡ None)) }
    {
        if self.full {
            return Err(Limit::Image);
        }
        Ok(self.bytes)
    }
}
