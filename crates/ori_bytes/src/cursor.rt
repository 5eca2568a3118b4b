// A place in bytes from which they are read in order.
ghost use Rattle.std.specs.Prelude.{◌≡◌, ◌≤◌, ◌↔◌, ◌++◌, List, ℕ, ℤ, length, take, IfOk, OnOk, IfErr, OnErr};
ghost use Rattle.byteorder.specs.Endian.{big_number};
ghost use Rattle.ori_bytes.specs.Reading.{advance, rest, place_of, Moves};
ghost use Rattle.ori_bytes.specs.Varint.{Begins, IsLongForm, IsTooLarge, IsVarint, NeverEnds};

use crate::ByteFault;
use crate::varint::varint_at;
use byteorder::{BigEndian, ByteOrder};
use std::marker::Model;

/// Reads bytes in order. A contract sees all the bytes and the place; a call that answers a fault leaves it where it
/// is.
#[derive(Drop)]
pub struct Cursor<'a> {
    bytes: &'a [u8],
    at: usize,
}

impl<'a> Model for Cursor<'a> {
    ghost use Rattle.std.specs.Prelude.{◌≤◌, length};
    ghost use Rattle.ori_bytes.specs.Reading.{Reading};

    ghost Value = { Reading };

    ghost view = { λ c. record { bytes = c.bytes.now; at = c.at } };

    ghost invariant = { λ c. c.at ≤ length c.bytes.now };
}

impl<'a> Cursor<'a> {
    /// Begins at the first byte.
    pub fn new(bytes: &'a [u8]) -> Cursor<'a>
        ensures bytes { result.bytes ≡ bytes.now }
        ensures at { result.at ≡ 0 }
    {
        Cursor { bytes, at: 0 }
    }

    /// The place: how many bytes have been read.
    pub fn at(&self) -> usize
        ensures value { result ≡ self.now.at }
        ensures within { result ≤ length self.now.bytes }
    {
        self.at
    }

    /// The bytes that are left. Reads none of them.
    pub fn rest(&self) -> &'a [u8]
        ensures { result.now ≡ rest self.now }
    {
        &self.bytes[self.at..]
    }

    /// Takes the next `n` bytes. Short where fewer are left.
    pub fn take(&mut self, n: usize) -> Result<&'a [u8], ByteFault>
        ensures moves { Moves n self.old self.new result }
        ensures value { IfOk result (λ taken. taken.now ≡ take n (rest self.old)) }
    {
        let rest = &self.bytes[self.at..];
        if rest.len() < n {
            return Err(ByteFault::Short { at: self.at });
        }
        self.at += n;
        Ok(&rest[..n])
    }

    /// Takes a byte. Short where none is left.
    pub fn take_u8(&mut self) -> Result<u8, ByteFault>
        ensures moves { Moves 1 self.old self.new result }
        ensures value { IfOk result (λ n. n ≡ big_number 1 (rest self.old)) }
    {
        let bytes = self.take(1)?;
        Ok(bytes[0])
    }

    /// Takes a number of two bytes, the high one first. Short where fewer are left.
    pub fn take_u16(&mut self) -> Result<u16, ByteFault>
        ensures moves { Moves 2 self.old self.new result }
        ensures value { IfOk result (λ n. n ≡ big_number 2 (rest self.old)) }
    {
        let bytes = self.take(2)?;
        Ok(BigEndian::read_u16(bytes))
    }

    /// Takes a number of four bytes, the highest first. Short where fewer are left.
    pub fn take_u32(&mut self) -> Result<u32, ByteFault>
        ensures moves { Moves 4 self.old self.new result }
        ensures value { IfOk result (λ n. n ≡ big_number 4 (rest self.old)) }
    {
        let bytes = self.take(4)?;
        Ok(BigEndian::read_u32(bytes))
    }

    /// Takes a number of eight bytes, the highest first. Short where fewer are left.
    pub fn take_u64(&mut self) -> Result<u64, ByteFault>
        ensures moves { Moves 8 self.old self.new result }
        ensures value { IfOk result (λ n. n ≡ big_number 8 (rest self.old)) }
    {
        let bytes = self.take(8)?;
        Ok(BigEndian::read_u64(bytes))
    }

    /// Takes a varint: a signed number of 64 bits, zigzag, in groups of seven bits, low group first, the high bit set
    /// on all but the last, in the shortest form. Short where the bytes left have no last group, LongForm where several
    /// groups end in one of 0, Range where the number has more than 64 bits.
    pub fn take_varint(&mut self) -> Result<i64, ByteFault>
        // What is read is spelled so, and the place is behind it.
        ensures found { IfOk result (λ z. (front : List ℕ) × (more : List ℕ) × IsVarint front z
            × (rest self.old ≡ front ++ more) × (self.new ≡ advance (length front) self.old)) }
        // What is spelled so is read, whatever follows it.
        ensures only { (z : ℤ) → Begins (λ front. IsVarint front z) (rest self.old) → result ≡ Ok z }
        ensures short { (result ≡ Err (ByteFault.Short self.old.at)) ↔ NeverEnds (rest self.old) }
        ensures long_form { (result ≡ Err (ByteFault.LongForm self.old.at)) ↔ Begins IsLongForm (rest self.old) }
        ensures range { (result ≡ Err (ByteFault.Range self.old.at)) ↔ Begins IsTooLarge (rest self.old) }
        ensures place { IfErr result (λ fault. place_of fault ≡ self.old.at) }
        ensures stays { OnErr result (self.new ≡ self.old) }
    {
        let (number, length) = varint_at(self.rest(), self.at)?;
        self.at += length;
        Ok(number)
    }
}
