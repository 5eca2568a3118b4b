// Standard input and output. They tell nothing of what they hold, which no contract can know, and keep their counts.
ghost use Rattle.std.specs.Prelude.{◌≡◌, ◌≤◌, None, IfOk, IfSome, length};

use ori_volume::{Failed, Sink, Source};
use std::alloc::{AllocError, Global};
use std::fs::{File, OpenOptions};
use std::io::{self, ErrorKind, Read, Write};
use std::os::fd::{AsRawFd, IntoRawFd};

/// A file that holds nothing and takes everything.
const NULL_DEVICE: &str = "/dev/null";

/// The last of the three descriptors of standard input, output and error.
const LAST_STANDARD: i32 = 2;

/// How many bytes are asked of a reader at once.
const CHUNK_BYTES: usize = 4096;

/// Input from a reader, at most one line in a piece.
#[derive(Drop)]
pub struct StdSource<R: Read + Drop> {
    pieces: Pieces<R>,
    faults: u64,
}

// What a reader gives, cut at the ends of lines.
#[derive(Drop)]
struct Pieces<R: Read + Drop> {
    reader: R,
    // What was read and not given yet lies from `start` to `end`.
    buffer: Vec<u8>,
    start: usize,
    end: usize,
    // How many whole lines were given, and whether a part of another.
    lines: u64,
    is_inside: bool,
}

/// Output to a writer.
#[derive(Drop)]
pub struct StdSink<W: Write + Drop> {
    writer: W,
    faults: u64,
}

// Keeps the null device as standard input, where that is closed. It can't be read: a new descriptor is the lowest free.
fn hold_input(rt: &HostRuntime) -> io::Result<()> {
    let lowest = OpenOptions::new().write(true).open(rt, NULL_DEVICE)?;
    if lowest.as_raw_fd() == 0 {
        let _ = lowest.into_raw_fd();
    }
    Ok(())
}

/// Sees to it that no file that is opened from here on becomes standard input, output or error: those of the three that
/// the program was started without are the null device from here on, opened so that a read of the first fails, and a
/// write to the others.
pub fn hold_standard_streams(rt: &HostRuntime) -> io::Result<()> {
    hold_input(rt)?;
    for _ in 0..=LAST_STANDARD {
        let lowest = File::open(rt, NULL_DEVICE)?;
        if lowest.as_raw_fd() > LAST_STANDARD {
            break;
        }
        let _ = lowest.into_raw_fd();
    }
    Ok(())
}

impl<R: Read + Drop> StdSource<R> {
    /// What the reader has left.
    pub fn new(alloc: Global, reader: R) -> Result<Self, AllocError> {
        let pieces = Pieces {
            reader,
            buffer: vec![in alloc; 0; CHUNK_BYTES]?,
            start: 0,
            end: 0,
            lines: 0,
            is_inside: false,
        };
        Ok(StdSource { pieces, faults: 0 })
    }

    /// The number of the line of which bytes were given last, counted from 1. A caller that asks for more only when it
    /// has no whole line is at this line.
    pub fn line(&self) -> u64 {
        self.pieces
            .lines
            .saturating_add(u64::from(self.pieces.is_inside))
    }
}

impl<R: Read + Drop> Pieces<R> {
    // Gives the next piece, or 0 bytes at the end.
    fn next(&mut self, into: &mut [u8]) -> io::Result<usize>
        ensures bound { IfOk result (λ n. n ≤ length into.old) }
    {
        self.fill()?;
        match self.give(into) {
            Some(count) => Ok(count),
            None => Err(io::Error::from(ErrorKind::Other)),
        }
    }

    // Reads a chunk where all that was read is given.
    fn fill(&mut self) -> io::Result<()> {
        if self.start < self.end {
            return Ok(());
        }
        let count = read_again(&mut self.reader, &mut self.buffer)?;
        self.start = 0;
        self.end = count;
        Ok(())
    }

    // Gives what was read up to a line's end, as far as it fits.
    fn give(&mut self, into: &mut [u8]) -> Option<usize>
        ensures bound { IfSome result (λ n. n ≤ length into.old) }
    {
        let piece = self.buffer.get(self.start..self.end)?;
        let count = piece_len(piece).min(into.len());
        into[..count].copy_from_slice(&piece[..count]);
        if let Some(last) = piece[..count].last() {
            self.is_inside = *last != b'\n';
            self.lines = self.lines.saturating_add(u64::from(*last == b'\n'));
        }
        self.start += count;
        Some(count)
    }
}

// How many bytes of a chunk are its first line's.
fn piece_len(chunk: &[u8]) -> usize
    ensures { result ≤ length chunk.now }
{
    match chunk.iter().position(|byte| *byte == b'\n') {
        Some(at) => at + 1,
        None => chunk.len(),
    }
}

// Reads, again where a signal interrupted it.
fn read_again<R: Read>(reader: &mut R, into: &mut [u8]) -> io::Result<usize>
    ensures bound { IfOk result (λ n. n ≤ length into.old) }
{
    for _ in 0..u64::MAX {
        match reader.read(into) {
            Err(error) if error.kind() == ErrorKind::Interrupted => {}
            answer => return answer,
        }
    }
    Err(io::Error::from(ErrorKind::Interrupted))
}

// Writes, again where a signal interrupted it.
fn write_again<W: Write>(writer: &mut W, from: &[u8]) -> io::Result<usize>
    ensures bound { IfOk result (λ n. n ≤ length from.now) }
{
    for _ in 0..u64::MAX {
        match writer.write(from) {
            Err(error) if error.kind() == ErrorKind::Interrupted => {}
            answer => return answer,
        }
    }
    Err(io::Error::from(ErrorKind::Interrupted))
}

impl<W: Write + Drop> StdSink<W> {
    /// Gives to the writer.
    pub fn new(writer: W) -> Self {
        StdSink { writer, faults: 0 }
    }
}

impl<R: Read + Drop> Source for StdSource<R> {
    ghost left = { λ _. None };

    ghost faults = { λ s. s.faults };

    fn read(&mut self, into: &mut [u8]) -> Result<usize, Failed> {
        match self.pieces.next(into) {
            Ok(count) => Ok(count),
            Err(_) => {
                self.faults = self.faults.saturating_add(1);
                Err(Failed)
            }
        }
    }

    fn faults(&self) -> u64 {
        self.faults
    }
}

impl<W: Write + Drop> Sink for StdSink<W> {
    ghost taken = { λ _. None };

    ghost faults = { λ s. s.faults };

    fn write(&mut self, from: &[u8]) -> Result<usize, Failed> {
        match write_again(&mut self.writer, from) {
            Ok(count) if count > 0 || from.is_empty() => Ok(count),
            _ => {
                self.faults = self.faults.saturating_add(1);
                Err(Failed)
            }
        }
    }

    fn faults(&self) -> u64 {
        self.faults
    }
}
