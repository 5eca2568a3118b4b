// One file in memory.
ghost use Rattle.std.specs.Prelude.{◌≡◌, ◌≤◌, ◌<◌, ◌+◌, ◌++◌, [], ◌∷◌, length, take, drop, slice_index, EachIndex};
ghost use Rattle.std.specs.Prelude.{nat_lt, ℕ, if◌then◌else◌, ◌^◌, IfOk, OnOk, OnErr, vec_len, vec_capacity};
ghost use Rattle.ori_volume.specs.Disk.{AreBytes};
ghost use Rattle.ori_volume.specs.Effects.{put};
ghost use Rattle.ori_volmem.specs.Record.{in_span, in_spans, is_before};
ghost use Rattle.ori_volmem.specs.Crashes.{crash_length, loose_byte, IsFileCrash};

use crate::change::{Change, Undo};
use crate::draws::draw;
use crate::span::Span;
use ori_bytes::limits::MAX_FILE_BYTES;
use ori_bytes::{Blob, NoMemory};
use std::alloc::Global;
use std::mem;

/// A file with its loose positions, and its least and greatest length since its last sync.
#[derive(Drop)]
pub struct MemFile {
    pub bytes: Vec<u8>,
    pub spans: Vec<Span>,
    pub least: u64,
    pub greatest: u64,
    ghost are_bytes: { AreBytes bytes.items },
    ghost no_shorter: { least ≤ length bytes.items },
    ghost no_longer: { length bytes.items ≤ greatest },
}

impl MemFile {
    ghost use Rattle.ori_volmem.specs.Record.{after_change, after_write, after_cut, after_sync, undone, IsInRange};
    ghost use Rattle.ori_volmem.specs.Record.{data_of};
    ghost use Rattle.ori_volmem.specs.States.{state_of};

    /// A file with these bytes, nothing loose.
    pub fn firm(alloc: Global, bytes: Vec<u8>) -> Self
        ensures { state_of result ≡ record {
          bytes = bytes.items;
          spans = [];
          least = length bytes.items;
          greatest = length bytes.items;
        } }
    {
        let length = bytes.len() as u64;
        MemFile {
            bytes,
            spans: Vec::new(alloc),
            least: length,
            greatest: length,
        }
    }

    /// Makes a change, and tells how to take it back. Unchanged where memory is wanting.
    pub fn change(&mut self, alloc: Global, change: Change) -> Result<Undo, NoMemory>
        requires { IsInRange change }
        ensures ok { OnOk result (state_of self.new ≡ after_change change.entry (state_of self.old)) }
        ensures undo { IfOk result (λ undo. undone undo (state_of self.new) ≡ state_of self.old) }
        ensures err { OnErr result (state_of self.new ≡ state_of self.old) }
    {
        match change {
            Change::Write { at, piece, count } => self.write(alloc, at, piece, count),
            Change::Cut { to, keep } => self.cut(alloc, to, keep),
            Change::Sync => Ok(self.sync(alloc)),
            Change::Keep => Ok(self.undo_of(alloc, 0, Vec::new(alloc))),
        }
    }

    fn write(&mut self, alloc: Global, at: u64, piece: &[u8], count: u64) -> Result<Undo, NoMemory>
        requires range { at + count ≤ MAX_FILE_BYTES }
        requires fits { length piece.now ≤ count }
        ensures ok { OnOk result (state_of self.new ≡ after_write at piece.now count (state_of self.old)) }
        ensures undo { IfOk result (λ undo. undone undo (state_of self.new) ≡ state_of self.old) }
        ensures err { OnErr result (state_of self.new ≡ state_of self.old) }
    {
        let length = self.bytes.len();
        let start = at as usize;
        let place = start.min(length);
        let end = start + piece.len();
        let saved = Vec::from_slice(alloc, &self.bytes[place..end.min(length)])?;
        self.spans.reserve(1)?;
        let undo = self.undo_of(alloc, place, saved);
        overwrite(&mut self.bytes, start, piece)?;
        push_reserved(
            &mut self.spans,
            Span {
                from: place as u64,
                end: Some(at + count),
            },
        );
        let length = self.bytes.len() as u64;
        self.least = self.least.min(length);
        self.greatest = self.greatest.max(length);
        Ok(undo)
    }

    fn cut(&mut self, alloc: Global, to: u64, keep: u64) -> Result<Undo, NoMemory>
        ensures ok { OnOk result (state_of self.new ≡ after_cut to keep (state_of self.old)) }
        ensures undo { IfOk result (λ undo. undone undo (state_of self.new) ≡ state_of self.old) }
        ensures err { OnErr result (state_of self.new ≡ state_of self.old) }
    {
        let place = (keep as usize).min(self.bytes.len());
        let saved = Vec::from_slice(alloc, &self.bytes[place..])?;
        self.spans.reserve(1)?;
        let undo = self.undo_of(alloc, place, saved);
        self.bytes.truncate(place);
        push_reserved(
            &mut self.spans,
            Span {
                from: to,
                end: None,
            },
        );
        self.least = self.least.min(place as u64);
        Ok(undo)
    }

    fn sync(&mut self, alloc: Global) -> Undo
        ensures after { state_of self.new ≡ after_sync (state_of self.old) }
        ensures undo { undone result (state_of self.new) ≡ state_of self.old }
    {
        let mut undo = self.undo_of(alloc, 0, Vec::new(alloc));
        undo.kept = 0;
        undo.spans = mem::replace(&mut self.spans, Vec::new(alloc));
        let length = self.bytes.len() as u64;
        self.least = length;
        self.greatest = length;
        undo
    }

    /// Whether a crash may leave any byte at a position.
    pub fn is_loose(&self, at: u64) -> bool
        ensures { result ≡ in_spans self.now.spans.items at }
    {
        self.spans.iter().any(|span| span.contains(at))
    }

    /// The image that `pick` picks of those that a crash may leave, by the draws of a seed.
    pub fn image(&self, alloc: Global, pick: u64, seed: u64) -> Result<Blob, NoMemory>
        ensures { IfOk result (λ image. IsFileCrash pick seed (data_of (state_of self.now)) image) }
    {
        let length = image_length(pick, seed, self.least, self.greatest) as usize;
        let kept = length.min(self.bytes.len());
        let mut bytes = Vec::from_slice(alloc, &self.bytes[..kept])?;
        bytes.resize(length, 0)?;
        if pick == 0 {
            return Ok(Blob::from_vec(bytes));
        }
        fill_spans(bytes.as_mut_slice(), self.spans.as_slice(), pick, seed);
        Ok(Blob::from_vec(bytes))
    }

    // How a change takes back, before it is made.
    fn undo_of(&self, alloc: Global, place: usize, saved: Vec<u8>) -> Undo
        ensures place { result.place ≡ place }
        ensures saved { result.saved.items ≡ saved.items }
        ensures length { result.length ≡ length self.now.bytes.items }
        ensures least { result.least ≡ self.now.least }
        ensures greatest { result.greatest ≡ self.now.greatest }
        ensures spans { result.spans.items ≡ [] }
        ensures kept { result.kept ≡ length self.now.spans.items }
    {
        Undo {
            place,
            saved,
            length: self.bytes.len(),
            least: self.least,
            greatest: self.greatest,
            spans: Vec::new(alloc),
            kept: self.spans.len(),
        }
    }
}

/// Puts a piece into bytes in place, with zeros in the gap before it. Unchanged where memory is wanting.
pub fn overwrite(bytes: &mut Vec<u8>, at: usize, piece: &[u8]) -> Result<(), NoMemory>
    requires { at + length piece.now ≤ MAX_FILE_BYTES }
    ensures ok { OnOk result (bytes.new.items ≡ put bytes.old.items at piece.now) }
    ensures err { OnErr result (bytes.new.items ≡ bytes.old.items) }
{
    let end = at + piece.len();
    bytes.resize(end.max(bytes.len()), 0)?;
    replace(bytes.as_mut_slice(), at, piece);
    Ok(())
}

fn replace(bytes: &mut [u8], at: usize, piece: &[u8])
    requires { at + length piece.now ≤ length bytes.old }
    ensures { bytes.new ≡ take at bytes.old ++ piece.now ++ drop (at + length piece.now) bytes.old }
{
    let end = at + piece.len();
    bytes[at..end].copy_from_slice(piece);
}

/// Adds an item for which there is room.
pub fn push_reserved<T: Drop>(items: &mut Vec<T>, item: T)
    requires { vec_len items.old < vec_capacity items.old }
    ensures { items.new.items ≡ items.old.items ++ item ∷ [] }
{
    if items.push(item).is_err() {
        unreachable!();
    }
}

// The length of the image that `pick` picks.
fn image_length(pick: u64, seed: u64, least: u64, greatest: u64) -> u64
    requires { least ≤ greatest }
    ensures { result ≡ crash_length pick seed least greatest }
{
    match pick {
        0 => greatest,
        1 => least,
        _ => least + draw(seed, (greatest - least).saturating_add(1)),
    }
}

// The byte of that image at a loose position.
fn byte_at(pick: u64, seed: u64, at: u64) -> u8
    ensures { result ≡ loose_byte pick seed at }
{
    if pick == 1 {
        return 0;
    }
    draw(seed.wrapping_add(at), 256) as u8
}

// Puts those bytes at the positions of the spans.
fn fill_spans(bytes: &mut [u8], spans: &[Span], pick: u64, seed: u64)
    ensures { EachIndex bytes.new (λ k. slice_index bytes.new k
        ≡ (if in_spans spans.now k then loose_byte pick seed k else slice_index bytes.old k)) }
{
    for span in spans {
        fill_span(bytes, *span, pick, seed);
    }
}

fn fill_span(bytes: &mut [u8], span: Span, pick: u64, seed: u64)
    ensures { EachIndex bytes.new (λ k. slice_index bytes.new k
        ≡ (if in_span span k then loose_byte pick seed k else slice_index bytes.old k)) }
{
    let from = (span.from as usize).min(bytes.len());
    let end = end_within(span.end, bytes.len());
    if from < end {
        fill_part(&mut bytes[from..end], from as u64, pick, seed);
    }
}

// Where a span ends in so many bytes.
fn end_within(end: Option<u64>, length: usize) -> usize
    ensures bound { result ≤ length }
    ensures value { (k : ℕ) → k < length → nat_lt k result ≡ is_before k end }
{
    match end {
        Some(end) => (end as usize).min(length),
        None => length,
    }
}

// Puts those bytes at the positions from `from` on.
fn fill_part(part: &mut [u8], from: u64, pick: u64, seed: u64)
    requires { from + length part.old < 2 ^ 64 }
    ensures { EachIndex part.new (λ k. slice_index part.new k ≡ loose_byte pick seed (from + k)) }
{
    for (at, byte) in part.iter_mut().enumerate() {
        *byte = byte_at(pick, seed, from + at as u64);
    }
}
