// Signed numbers in groups of seven bits.
ghost use Rattle.std.specs.Prelude.{◌≡◌, ◌≤◌, ◌^◌, ◌++◌, ◌+◌, ◌*◌, ◌%◌, List, ℕ, ℤ, length, take, IfSome, IfNone, MatchOption, OnOk, OnErr};
ghost use Rattle.std.specs.Int.{w64};
ghost use Rattle.std.specs.Int.RustNames.{FitsSigned};
ghost use Rattle.ori_bytes.specs.Varint.{groups_number, groups_of, is_long, varint_bytes, zigzag_of, IsGroups, IsVarint, NeverEnds, Reads};

use crate::{Blob, ByteFault, NoMemory};

// How many numbers a group tells apart, and the bit that says that a group follows.
const GROUP: u64 = 128;

const CONTINUES: u8 = 0x80;

// The most groups of a number of 64 bits.
const MAX_GROUPS: usize = 10;

// How many bytes the groups at the front take.
fn groups_len(bytes: &[u8]) -> Option<usize>
    ensures within { IfSome result (λ len. len ≤ length bytes.now) }
    ensures groups { IfSome result (λ len. IsGroups (take len bytes.now)) }
    ensures none { IfNone result (NeverEnds bytes.now) }
{
    let last = bytes.iter().position(|byte| *byte < CONTINUES)?;
    Some(last + 1)
}

// Whether several groups end in one of 0.
fn ends_in_zero(groups: &[u8]) -> bool
    ensures { result ≡ is_long groups.now }
{
    groups.len() > 1 && groups[groups.len() - 1] == 0
}

// A group below others, if their number has no more than 64 bits.
fn with_group(group: u8, number: u64) -> Option<u64>
    ensures { MatchOption result (2 ^ 64 ≤ group % 128 + 128 * number) (λ n. n ≡ group % 128 + 128 * number) }
{
    number
        .checked_mul(GROUP)?
        .checked_add(u64::from(group % CONTINUES))
}

// The number that the groups make, if it has no more than 64 bits.
fn number_of(groups: &[u8]) -> Option<u64>
    ensures { MatchOption result (2 ^ 64 ≤ groups_number groups.now) (λ n. n ≡ groups_number groups.now) }
{
    let mut number: u64 = 0;
    for group in groups.iter().rev() {
        number = with_group(*group, number)?;
    }
    Some(number)
}

// The number whose zigzag it is.
fn from_zigzag(zigzag: u64) -> i64
    ensures { zigzag_of result ≡ zigzag }
{
    let half = (zigzag / 2) as i64;
    if zigzag % 2 == 0 { half } else { -1 - half }
}

// A number as its zigzag.
fn to_zigzag(number: i64) -> u64
    ensures { result ≡ zigzag_of number }
{
    if number >= 0 {
        number as u64 * 2
    } else {
        (-1 - number) as u64 * 2 + 1
    }
}

// The number that the front of the bytes spells, and how many it takes. `at` is their place, for the faults.
pub(crate) fn varint_at(bytes: &[u8], at: usize) -> Result<(i64, usize), ByteFault>
    ensures { Reads bytes.now at result }
{
    let Some(len) = groups_len(bytes) else {
        return Err(ByteFault::Short { at });
    };
    let groups = &bytes[..len];
    if ends_in_zero(groups) {
        return Err(ByteFault::LongForm { at });
    }
    let Some(zigzag) = number_of(groups) else {
        return Err(ByteFault::Range { at });
    };
    Ok((from_zigzag(zigzag), len))
}

// Writes the groups of a number, and answers how many they are.
fn write_groups(groups: &mut [u8; MAX_GROUPS], number: u64) -> usize
    ensures within { result ≤ length groups.new }
    ensures written { take result groups.new ≡ groups_of 9 number }
{
    let mut rest = number;
    let mut len = 0;
    while rest >= GROUP {
        groups[len] = (rest % GROUP) as u8 + CONTINUES;
        rest /= GROUP;
        len += 1;
    }
    groups[len] = rest as u8;
    len + 1
}

/// Adds a number's spelling at the end, as `Cursor::take_varint` reads it. Unchanged if out of memory.
pub fn put_varint(out: &mut Blob, number: i64) -> Result<(), NoMemory>
    ensures ok { OnOk result (out.new ≡ out.old ++ varint_bytes number) }
    ensures err { OnErr result (out.new ≡ out.old) }
{
    let mut groups = [0; MAX_GROUPS];
    let len = write_groups(&mut groups, to_zigzag(number));
    out.extend_from_slice(&groups[..len])
}

/// How many bytes a number's spelling takes, ten at most.
pub fn varint_len(number: i64) -> usize
    ensures len { result ≡ length (varint_bytes number) }
    ensures most { result ≤ 10 }
{
    let mut groups = [0; MAX_GROUPS];
    write_groups(&mut groups, to_zigzag(number))
}

/// Each number has a spelling, of ten bytes at most, and no other bytes spell it.
pub fn one_spelling()
    ensures spelled { (z : ℤ) → FitsSigned w64 z → IsVarint (varint_bytes z) z }
    ensures length { (z : ℤ) → length (varint_bytes z) ≤ 10 }
    ensures only { (bytes : List ℕ) (z : ℤ) → IsVarint bytes z → bytes ≡ varint_bytes z }
{}

/// No spelling begins another, so what is written is read again, whatever follows it.
pub fn one_form()
    ensures { (a b x y : List ℕ) (m n : ℤ) → IsVarint a m → IsVarint b n → a ++ x ≡ b ++ y → (a ≡ b) × (m ≡ n) }
{}
