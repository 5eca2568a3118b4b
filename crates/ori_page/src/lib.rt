//! Pages: 4,096 bytes each, which begin with the number of their owner and their kind. Numbers on a page are
//! big-endian.
//!
//! A [`PageSpace`] is a list of pages that structures read, write, take and release one at a time. [`MemPages`] is one
//! in memory.
#![tactic(auto)]

mod fault;
mod free;
mod head;
mod memory_pages;
mod space;

ghost use Rattle.std.specs.Prelude.{◌≡◌, ◌+◌, ◌≤◌, ◌++◌, ℕ, List, length, take, drop, replicate, slice_index, IfOk};
ghost use Rattle.std.specs.Int.{w16, w32, from_be_bytes};
ghost use Rattle.std.specs.Borrow.{sem};
ghost use Rattle.ori_page.specs.Pages.{filled};
ghost use Rattle.ori_page.specs.Lending.{LendsBytes};

pub use fault::PageFault;
pub use head::Head;
pub use memory_pages::MemPages;
use ori_bytes::NoMemory;
use ori_bytes::limits::PAGE_BYTES;
pub use space::PageSpace;
use std::alloc::Global;
use std::marker::Model;

// Where the kind stands, behind the owner.
const KIND_AT: usize = 4;

/// A page, which a contract sees as the list of its bytes.
#[derive(Drop)]
pub struct Page {
    bytes: Vec<u8>,
}

impl Model for Page {
    ghost use Rattle.std.specs.Prelude.{◌≡◌, ℕ, List};
    ghost use Rattle.std.specs.Vec.{vec_len};
    ghost use Rattle.ori_bytes.specs.declared.limits.TheConstants.{PAGE_BYTES};

    ghost Value = { List ℕ };

    ghost view = { λ p. p.bytes.items };

    ghost invariant = { λ p. vec_len p.bytes ≡ PAGE_BYTES };
}

impl Page {
    /// A page of zeros.
    pub fn zeros(alloc: Global) -> Result<Page, NoMemory>
        ensures { IfOk result (λ p. p ≡ replicate PAGE_BYTES 0) }
    {
        Ok(Page {
            bytes: Vec::from_elem(alloc, 0, PAGE_BYTES)?,
        })
    }

    /// These bytes, which a page has room for, and zeros behind them.
    pub fn filled(alloc: Global, front: &[u8]) -> Result<Page, NoMemory>
        requires { length front.now ≤ PAGE_BYTES }
        ensures { IfOk result (λ p. p ≡ filled front.now) }
    {
        let mut page = Page::zeros(alloc)?;
        page.put(0, front);
        Ok(page)
    }

    /// A copy.
    pub fn copy(&self) -> Result<Page, NoMemory>
        ensures { IfOk result (λ p. p ≡ self.now) }
    {
        Ok(Page {
            bytes: self.bytes.clone()?,
        })
    }

    /// The number of the structure that the page belongs to.
    pub fn owner(&self) -> u32
        ensures { result ≡ from_be_bytes w32 self.now }
    {
        self.u32_at(0)
    }

    /// The number of its kind.
    pub fn kind(&self) -> u8
        ensures { result ≡ slice_index self.now 4 }
    {
        self.bytes[KIND_AT]
    }

    /// The number in the two bytes from `at` on.
    pub fn u16_at(&self, at: usize) -> u16
        requires { at + 2 ≤ PAGE_BYTES }
        ensures { result ≡ from_be_bytes w16 (drop at self.now) }
    {
        u16::from_be_bytes([self.bytes[at], self.bytes[at + 1]])
    }

    /// The number in the four bytes from `at` on.
    pub fn u32_at(&self, at: usize) -> u32
        requires { at + 4 ≤ PAGE_BYTES }
        ensures { result ≡ from_be_bytes w32 (drop at self.now) }
    {
        u32::from_be_bytes([
            self.bytes[at],
            self.bytes[at + 1],
            self.bytes[at + 2],
            self.bytes[at + 3],
        ])
    }

    /// Its bytes.
    pub fn bytes(&self) -> &[u8]
        ensures value { result.now ≡ self.now }
        ensures whole { length result.now ≡ PAGE_BYTES }
    {
        self.bytes.as_slice()
    }

    /// Its bytes, to be written.
    pub fn bytes_mut(&mut self) -> &mut [u8]
        ensures* writes_back { sem 𝓛 (LendsBytes self.entry result) }
        ensures value { result.now ≡ self.old }
        ensures whole { length result.now ≡ PAGE_BYTES }
    {
        self.bytes.as_mut_slice()
    }

    /// Writes bytes from `at` on, and leaves the others.
    pub fn put(&mut self, at: usize, bytes: &[u8])
        requires { at + length bytes.now ≤ PAGE_BYTES }
        ensures { self.new ≡ take at self.old ++ bytes.now ++ drop (at + length bytes.now) self.old }
    {
        let end = at + bytes.len();
        self.bytes[at..end].copy_from_slice(bytes);
    }
}
