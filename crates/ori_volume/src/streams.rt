// Byte streams of the outside.
ghost use Rattle.std.specs.Prelude.{◌≡◌, ◌≤◌, ◌<◌, ℕ, List, [], length, take, Option, IfOk, IfSome, OnErr};
ghost use Rattle.ori_volume.specs.Causes.{HasCause};
ghost use Rattle.ori_volume.specs.Streams.{Took, Gave};

use crate::Failed;

/// Input, in pieces.
pub trait Source {
    /// The bytes that are left, where it tells them.
    ghost left: { Self → Option (List ℕ) };

    /// How often a call has failed, up to the end of a `u64`.
    ghost faults: { Self → ℕ };

    /// Reads into the front of a slice, and answers how many bytes. 0 for a slice that isn't empty is the end of the
    /// input. What stands in the rest of the slice isn't said. After `Failed` nothing was taken.
    fn read(&mut self, into: &mut [u8]) -> Result<usize, Failed>
        ensures bound { IfOk result (λ n. n ≤ length into.old) }
        ensures bytes { IfOk result (λ n. Took (left self.old) (left self.new) (take n into.new)) }
        ensures end { IfOk result (λ n. n ≡ 0 → 0 < length into.old → IfSome (left self.old) (λ xs. xs ≡ [])) }
        ensures failed { OnErr result (left self.new ≡ left self.old) }
        ensures cause { HasCause (faults self.old) (faults self.new) result };

    /// How often a call has failed, up to the end of a `u64`.
    fn faults(&self) -> u64
        ensures { result ≡ faults self.now };
}

/// Output, in pieces.
pub trait Sink {
    /// The bytes that it has taken, where it tells them.
    ghost taken: { Self → Option (List ℕ) };

    /// How often a call has failed, up to the end of a `u64`.
    ghost faults: { Self → ℕ };

    /// Takes bytes from the front of a slice, and answers how many: at least one of a slice that isn't empty. After
    /// `Failed` nothing was taken.
    fn write(&mut self, from: &[u8]) -> Result<usize, Failed>
        ensures bound { IfOk result (λ n. n ≤ length from.now) }
        ensures some { IfOk result (λ n. 0 < length from.now → 0 < n) }
        ensures bytes { IfOk result (λ n. Gave (taken self.old) (taken self.new) (take n from.now)) }
        ensures failed { OnErr result (taken self.new ≡ taken self.old) }
        ensures cause { HasCause (faults self.old) (faults self.new) result };

    /// How often a call has failed, up to the end of a `u64`.
    fn faults(&self) -> u64
        ensures { result ≡ faults self.now };
}
