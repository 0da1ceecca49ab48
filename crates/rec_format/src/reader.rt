//! Bytes that are read from the front.
ghost use Rattle.std.specs.Prelude.{◌≡◌, ◌==◌, ◌<◌, IfOk, length, unsigned_abs};
ghost use Rattle.frac128.specs.Numbers.{limit};
ghost use Rattle.rec_format.specs.Format.{cut, number, text};
ghost use Rattle.rec_format.specs.Models.{part};
ghost use Rattle.rec_format.specs.Taking.{Takes, TookSeen};

use base_names::OrMemory;
use byteorder::{BigEndian, ByteOrder};
use std::alloc::Global;

/// The bytes don't begin with the spelling of what was to be read.
#[derive(Clone, Copy, Debug, PartialEq, Eq)]
pub(crate) struct NoSpelling;

/// No numerator and no denominator reaches it in size.
const PART_LIMIT: u128 = 1 << 127;

/// The bytes that are still to be read. After a refusal it isn't said which these are.
///
/// No length that is read makes room before so many bytes are there.
#[derive(Drop)]
pub(crate) struct Reader<'a> {
    pub(crate) alloc: Global,
    pub(crate) bytes: &'a [u8],
}

impl<'a> Reader<'a> {
    pub(crate) fn is_done(&self) -> bool
        ensures { result ≡ (length self.now.bytes.now == 0) }
    {
        self.bytes.is_empty()
    }

    /// A number of one byte.
    #[tactic(auto, unfolding(crate::specs::Format::number))]
    pub(crate) fn byte(&mut self) -> Result<u8, OrMemory<NoSpelling>>
        ensures { Takes (number 1) self.old.bytes.now result self.new.bytes.now }
    {
        match self.bytes {
            [] => Err(OrMemory::Fault(NoSpelling)),
            [byte, rest @ ..] => {
                self.bytes = rest;
                Ok(*byte)
            }
        }
    }

    /// A number of 4 bytes.
    #[tactic(auto, unfolding(crate::specs::Format::number))]
    pub(crate) fn number(&mut self) -> Result<u32, OrMemory<NoSpelling>>
        ensures { Takes (number 4) self.old.bytes.now result self.new.bytes.now }
    {
        if self.bytes.len() < 4 {
            return Err(OrMemory::Fault(NoSpelling));
        }
        let n = BigEndian::read_u32(self.bytes);
        self.bytes = &self.bytes[4..];
        Ok(n)
    }

    /// A number of 8 bytes.
    #[tactic(auto, unfolding(crate::specs::Format::number))]
    pub(crate) fn long(&mut self) -> Result<u64, OrMemory<NoSpelling>>
        ensures { Takes (number 8) self.old.bytes.now result self.new.bytes.now }
    {
        if self.bytes.len() < 8 {
            return Err(OrMemory::Fault(NoSpelling));
        }
        let n = BigEndian::read_u64(self.bytes);
        self.bytes = &self.bytes[8..];
        Ok(n)
    }

    /// A number of 16 bytes.
    #[tactic(auto, unfolding(crate::specs::Format::number))]
    fn wide(&mut self) -> Result<u128, OrMemory<NoSpelling>>
        ensures { Takes (number 16) self.old.bytes.now result self.new.bytes.now }
    {
        if self.bytes.len() < 16 {
            return Err(OrMemory::Fault(NoSpelling));
        }
        let n = BigEndian::read_u128(self.bytes);
        self.bytes = &self.bytes[16..];
        Ok(n)
    }

    /// A numerator or a denominator.
    pub(crate) fn part(&mut self) -> Result<i128, OrMemory<NoSpelling>>
        ensures value { Takes part self.old.bytes.now result self.new.bytes.now }
        ensures small { IfOk result (λ n. unsigned_abs n < limit) }
    {
        let n = self.wide()?.cast_signed();
        if n.unsigned_abs() >= PART_LIMIT {
            return Err(OrMemory::Fault(NoSpelling));
        }
        Ok(n)
    }

    /// A text with a length of one byte. Nothing is copied.
    pub(crate) fn text(&mut self) -> Result<&'a [u8], OrMemory<NoSpelling>>
        ensures { TookSeen (λ t. t.now) ((text 1).read self.old.bytes.now) result self.new.bytes.now }
    {
        let len = self.byte()? as usize;
        self.slice(len)
    }

    /// A text with a length of four bytes. Nothing is copied.
    pub(crate) fn long_text(&mut self) -> Result<&'a [u8], OrMemory<NoSpelling>>
        ensures { TookSeen (λ t. t.now) ((text 4).read self.old.bytes.now) result self.new.bytes.now }
    {
        let len = self.number()? as usize;
        self.slice(len)
    }

    /// So many bytes.
    fn slice(&mut self, len: usize) -> Result<&'a [u8], OrMemory<NoSpelling>>
        ensures { TookSeen (λ t. t.now) (cut (len, self.old.bytes.now)) result self.new.bytes.now }
    {
        if self.bytes.len() < len {
            return Err(OrMemory::Fault(NoSpelling));
        }
        let (text, rest) = self.bytes.split_at(len);
        self.bytes = rest;
        Ok(text)
    }
}
