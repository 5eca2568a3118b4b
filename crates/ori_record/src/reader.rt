// Numbers, texts and links at the front of bytes.
ghost use Rattle.std.specs.Prelude.{◌≡◌, MatchOption};
ghost use Rattle.ori_spec_data.specs.Numbers.{IsSigned};
ghost use Rattle.ori_record.specs.Reading.{Gives, as_count, count_at, counted_at, link_at, narrow, narrow_at};
ghost use Rattle.ori_record.specs.Reading.{number_at, octet_at, taken_at, text_at, u32_at, utf8_at};

use crate::fault::RecordFault;
use ori_bytes::{Cursor, Rid};
use std::marker::Model;

/// Bytes that are read in order. A contract sees those that are left. What they are after a fault isn't said.
#[derive(Drop)]
pub(crate) struct Reader<'a> {
    rest: &'a [u8],
}

impl<'a> Model for Reader<'a> {
    ghost use Rattle.std.specs.Prelude.{ℕ, List};

    ghost Value = { List ℕ };

    ghost view = { λ r. r.rest.now };
}

// The number as one of 32 bits.
pub(crate) fn as_i32(number: i64) -> Option<i32>
    ensures { MatchOption result (IsSigned 32 number → ⊥) (λ z. (z ≡ number) × IsSigned 32 number) }
{
    i32::try_from(number).ok()
}

// The number as one of 16 bits.
pub(crate) fn as_i16(number: i64) -> Option<i16>
    ensures { MatchOption result (IsSigned 16 number → ⊥) (λ z. (z ≡ number) × IsSigned 16 number) }
{
    i16::try_from(number).ok()
}

// The number, where it isn't negative.
fn as_count(number: i64) -> Option<u64>
    ensures { result ≡ as_count number }
{
    u64::try_from(number).ok()
}

impl<'a> Reader<'a> {
    pub(crate) fn new(bytes: &'a [u8]) -> Reader<'a>
        ensures { result ≡ bytes.now }
    {
        Reader { rest: bytes }
    }

    // The bytes that are left.
    pub(crate) fn rest(&self) -> &'a [u8]
        ensures { result.now ≡ self.now }
    {
        self.rest
    }

    #[tactic(auto, unfolding(crate::specs::Reading::octet_at))]
    pub(crate) fn octet(&mut self) -> Result<u8, RecordFault>
        ensures { Gives (λ b. (b, self.new)) result (octet_at self.old) }
    {
        let Some((first, rest)) = self.rest.split_first() else {
            return Err(RecordFault::NotRecord);
        };
        self.rest = rest;
        Ok(*first)
    }

    // Four bytes, the highest first.
    #[tactic(auto, unfolding(crate::specs::Reading::u32_at))]
    pub(crate) fn u32(&mut self) -> Result<u32, RecordFault>
        ensures { Gives (λ n. (n, self.new)) result (u32_at self.old) }
    {
        let bytes = [self.octet()?, self.octet()?, self.octet()?, self.octet()?];
        Ok(u32::from_be_bytes(bytes))
    }

    // A varint.
    pub(crate) fn number(&mut self) -> Result<i64, RecordFault>
        ensures { Gives (λ z. (z, self.new)) result (number_at self.old) }
    {
        let mut cursor = Cursor::new(self.rest);
        let Ok(number) = cursor.take_varint() else {
            return Err(RecordFault::NotRecord);
        };
        self.rest = cursor.rest();
        Ok(number)
    }

    #[tactic(auto, unfolding(crate::specs::Reading::narrow_at), using(crate::proofs::Numbers::narrows))]
    pub(crate) fn i32(&mut self) -> Result<i32, RecordFault>
        ensures { Gives (λ z. (z, self.new)) result (narrow_at 32 self.old) }
    {
        let number = self.number()?;
        as_i32(number).ok_or(RecordFault::NotRecord)
    }

    #[tactic(auto, unfolding(crate::specs::Reading::narrow_at), using(crate::proofs::Numbers::narrows))]
    pub(crate) fn i16(&mut self) -> Result<i16, RecordFault>
        ensures { Gives (λ z. (z, self.new)) result (narrow_at 16 self.old) }
    {
        let number = self.number()?;
        as_i16(number).ok_or(RecordFault::NotRecord)
    }

    // A count or a length.
    #[tactic(auto, unfolding(crate::specs::Reading::count_at))]
    pub(crate) fn count(&mut self) -> Result<u64, RecordFault>
        ensures { Gives (λ n. (n, self.new)) result (count_at self.old) }
    {
        let number = self.number()?;
        as_count(number).ok_or(RecordFault::NotRecord)
    }

    // So many bytes.
    #[tactic(auto, unfolding(crate::specs::Reading::taken_at))]
    fn take(&mut self, count: u64) -> Result<&'a [u8], RecordFault>
        ensures { Gives (λ b. (b.now, self.new)) result (taken_at count self.old) }
    {
        if (self.rest.len() as u64) < count {
            return Err(RecordFault::NotRecord);
        }
        let (front, rest) = self.rest.split_at(count as usize);
        self.rest = rest;
        Ok(front)
    }

    // Bytes after their number.
    #[tactic(auto, unfolding(crate::specs::Reading::counted_at))]
    pub(crate) fn bytes(&mut self) -> Result<&'a [u8], RecordFault>
        ensures { Gives (λ b. (b.now, self.new)) result (counted_at self.old) }
    {
        let count = self.count()?;
        self.take(count)
    }

    // So many bytes of UTF-8.
    #[tactic(auto, unfolding(crate::specs::Reading::utf8_at), using(crate::proofs::Texts::utf8_tests))]
    pub(crate) fn utf8(&mut self, count: u64) -> Result<&'a str, RecordFault>
        ensures { Gives (λ s. (s.now, self.new)) result (utf8_at count self.old) }
    {
        let bytes = self.take(count)?;
        let Ok(text) = str::from_utf8(bytes) else {
            return Err(RecordFault::NotRecord);
        };
        Ok(text)
    }

    // UTF-8 after its length.
    #[tactic(auto, unfolding(crate::specs::Reading::text_at))]
    pub(crate) fn text(&mut self) -> Result<&'a str, RecordFault>
        ensures { Gives (λ s. (s.now, self.new)) result (text_at self.old) }
    {
        let count = self.count()?;
        self.utf8(count)
    }

    // A record identifier.
    #[tactic(auto, unfolding(crate::specs::Reading::link_at))]
    pub(crate) fn link(&mut self) -> Result<Rid, RecordFault>
        ensures { Gives (λ rid. (rid, self.new)) result (link_at self.old) }
    {
        let cluster = self.i16()?;
        let position = self.number()?;
        Ok(Rid { cluster, position })
    }
}
