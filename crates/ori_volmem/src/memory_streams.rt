// A source and a sink in memory, which tell all that they hold, and fail at the calls that they are told to.
ghost use Rattle.std.specs.Prelude.{◌≡◌, ◌≤◌, ◌<◌, ◌↔◌, ◌-◌, ◌+◌, ℕ, List, [], length, take, drop, min, Option, Some};
ghost use Rattle.std.specs.Prelude.{IfOk, IfSome, OnErr, OnOk, IsErr, IsTrue, is_err, if◌then◌else◌};
ghost use Rattle.ori_volume.specs.Causes.{HasCause};
ghost use Rattle.ori_volume.specs.Streams.{Took, Gave};
ghost use Rattle.ori_volmem.specs.Memory.{StreamData, one_more, is_listed};

use ori_bytes::{Blob, NumberList};
use ori_volume::{Failed, Sink, Source};
use std::alloc::Global;
use std::marker::Model;

/// Input from memory. A contract sees the bytes that are left.
#[derive(Drop)]
pub struct MemSource {
    bytes: Blob,
    at: usize,
    fail: NumberList,
    calls: u64,
    faults: u64,
}

impl Model for MemSource {
    ghost Value = { StreamData };

    ghost view = { λ s. record {
      bytes = drop s.at s.bytes;
      calls = s.calls;
      failing = s.fail;
      faults = s.faults;
      wants = 0;
    } };

    ghost invariant = { λ s. s.at ≤ length s.bytes };
}

impl MemSource {
    /// These bytes. The calls with the numbers in `fail`, counted from 0, will fail.
    pub fn of(bytes: Blob, fail: NumberList) -> Self
        ensures { result ≡ record { bytes = bytes; calls = 0; failing = fail; faults = 0; wants = 0 } }
    {
        MemSource {
            bytes,
            at: 0,
            fail,
            calls: 0,
            faults: 0,
        }
    }
}

impl Source for MemSource {
    ghost left = { λ s. Some s.bytes };

    ghost faults = { λ s. s.faults };

    /// Gives as many bytes as are left and as there is room for.
    fn read(&mut self, into: &mut [u8]) -> Result<usize, Failed>
        ensures bound { IfOk result (λ n. n ≤ length into.old) }
        ensures bytes { IfOk result (λ n. Took (Some self.old.bytes) (Some self.new.bytes) (take n into.new)) }
        ensures end { IfOk result (λ n. n ≡ 0 → 0 < length into.old → IfSome (Some self.old.bytes) (λ xs. xs ≡ [])) }
        ensures failed { OnErr result (Some self.new.bytes ≡ Some self.old.bytes) }
        ensures cause { HasCause self.old.faults self.new.faults result }
        ensures count { IfOk result (λ n. n ≡ min (length self.old.bytes) (length into.old)) }
        ensures fails { is_err result ≡ is_listed self.old.failing self.old.calls }
        ensures calls { self.new.calls ≡ one_more self.old.calls }
        ensures failing { self.new.failing ≡ self.old.failing }
    {
        let number = self.calls;
        self.calls = number.saturating_add(1);
        if self.fail.as_slice().contains(&number) {
            self.faults = self.faults.saturating_add(1);
            return Err(Failed);
        }
        let left = &self.bytes.as_slice()[self.at..];
        let count = left.len().min(into.len());
        into[..count].copy_from_slice(&left[..count]);
        self.at += count;
        Ok(count)
    }

    fn faults(&self) -> u64 {
        self.faults
    }
}

/// Output to memory. A contract sees the bytes that it has taken.
#[derive(Drop)]
pub struct MemSink {
    taken: Blob,
    fail: NumberList,
    calls: u64,
    faults: u64,
    wants: u64,
}

impl Model for MemSink {
    ghost Value = { StreamData };

    ghost view = { λ s. record {
      bytes = s.taken;
      calls = s.calls;
      failing = s.fail;
      faults = s.faults;
      wants = s.wants;
    } };
}

impl MemSink {
    /// Has taken nothing. The calls with the numbers in `fail`, counted from 0, will fail.
    pub fn empty(alloc: Global, fail: NumberList) -> Self
        ensures { result ≡ record { bytes = []; calls = 0; failing = fail; faults = 0; wants = 0 } }
    {
        MemSink {
            taken: Blob::new(alloc),
            fail,
            calls: 0,
            faults: 0,
            wants: 0,
        }
    }

    /// The bytes that it has taken.
    pub fn taken(&self) -> &Blob
        ensures { result.now ≡ self.now.bytes }
    {
        &self.taken
    }

    /// How often a call has failed for want of memory, up to the end of a `u64`.
    pub fn wants(&self) -> u64
        ensures { result ≡ self.now.wants }
    {
        self.wants
    }
}

impl Sink for MemSink {
    ghost taken = { λ s. Some s.bytes };

    ghost faults = { λ s. s.faults };

    /// Takes the whole piece.
    fn write(&mut self, from: &[u8]) -> Result<usize, Failed>
        ensures bound { IfOk result (λ n. n ≤ length from.now) }
        ensures some { IfOk result (λ n. 0 < length from.now → 0 < n) }
        ensures bytes { IfOk result (λ n. Gave (Some self.old.bytes) (Some self.new.bytes) (take n from.now)) }
        ensures failed { OnErr result (Some self.new.bytes ≡ Some self.old.bytes) }
        ensures cause { HasCause self.old.faults self.new.faults result }
        ensures count { IfOk result (λ n. n ≡ length from.now) }
        ensures fails { IsTrue (is_listed self.old.failing self.old.calls) → IsErr result }
        ensures wants { OnErr result (self.new.wants
            ≡ (if is_listed self.old.failing self.old.calls then self.old.wants else one_more self.old.wants)) }
        ensures fine { OnOk result (self.new.wants ≡ self.old.wants) }
        ensures calls { self.new.calls ≡ one_more self.old.calls }
        ensures failing { self.new.failing ≡ self.old.failing }
    {
        let number = self.calls;
        self.calls = number.saturating_add(1);
        if self.fail.as_slice().contains(&number) {
            self.faults = self.faults.saturating_add(1);
            return Err(Failed);
        }
        if self.taken.extend_from_slice(from).is_err() {
            self.faults = self.faults.saturating_add(1);
            self.wants = self.wants.saturating_add(1);
            return Err(Failed);
        }
        Ok(from.len())
    }

    fn faults(&self) -> u64 {
        self.faults
    }
}
