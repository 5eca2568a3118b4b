// Lists, which contracts see as what they hold.
ghost use Rattle.std.specs.Prelude.{◌≡◌, ◌++◌, [], ◌∷◌, length, IfOk, OnOk, OnErr};

use crate::{Blob, NoMemory, Rid, Text};
use std::alloc::Global;
use std::marker::Model;

/// What is copied by taking memory, and so may find none.
pub trait Copied: Drop {
    /// A copy, or want of memory.
    fn copied(&self) -> Result<Self, NoMemory>
        ensures { IfOk result (λ x. x ≡ self.now) };
}

impl Copied for u64 {
    fn copied(&self) -> Result<Self, NoMemory> {
        Ok(*self)
    }
}

impl Copied for Rid {
    fn copied(&self) -> Result<Self, NoMemory> {
        Ok(*self)
    }
}

impl Copied for Text {
    fn copied(&self) -> Result<Self, NoMemory> {
        self.copy()
    }
}

impl Copied for Blob {
    fn copied(&self) -> Result<Self, NoMemory> {
        self.copy()
    }
}

impl<A: Copied, B: Copied> Copied for (A, B) {
    fn copied(&self) -> Result<Self, NoMemory> {
        Ok((self.0.copied()?, self.1.copied()?))
    }
}

/// A list, which a contract sees as the list of its items.
#[derive(Drop)]
pub struct ListOf<T> {
    items: Vec<T>,
}

impl<T> Model for ListOf<T> {
    ghost use Rattle.std.specs.Prelude.{List};
    ghost use Rattle.std.specs.Coded.{coded_list};

    ghost Value = { List T };

    ghost coded = { coded_list T.code };

    ghost view = { λ l. l.items.items };
}

impl<T> ListOf<T> {
    /// The empty list; takes no memory.
    pub fn new(alloc: Global) -> Self
        ensures { result ≡ [] }
    {
        ListOf {
            items: Vec::new(alloc),
        }
    }

    /// Owns a `Vec`; takes no memory.
    pub fn from_vec(items: Vec<T>) -> Self
        ensures { result ≡ items.items }
    {
        ListOf { items }
    }

    /// Gives the `Vec` back.
    pub fn into_vec(self) -> Vec<T>
        ensures { result.items ≡ self }
    {
        self.items
    }

    /// The items.
    pub fn as_slice(&self) -> &[T]
        ensures { result.now ≡ self.now }
    {
        self.items.as_slice()
    }

    /// How many items it has.
    pub fn len(&self) -> usize
        ensures { result ≡ length self.now }
    {
        self.items.len()
    }
}

impl<T: Drop> ListOf<T> {
    /// Adds an item at the end. Unchanged if out of memory.
    pub fn push(&mut self, item: T) -> Result<(), NoMemory>
        ensures ok { OnOk result (self.new ≡ self.old ++ item ∷ []) }
        ensures err { OnErr result (self.new ≡ self.old) }
    {
        self.items.push(item)?;
        Ok(())
    }
}

impl<T: Copied> ListOf<T> {
    /// A copy, or want of memory.
    pub fn copy(&self) -> Result<Self, NoMemory>
        ensures { IfOk result (λ l. l ≡ self.now) }
    {
        let mut items = Vec::with_capacity(*self.items.allocator(), self.items.len())?;
        for item in &self.items {
            items.push(item.copied()?)?;
        }
        Ok(ListOf { items })
    }
}

impl<T: Copied> Copied for ListOf<T> {
    fn copied(&self) -> Result<Self, NoMemory> {
        self.copy()
    }
}

/// A list of numbers.
pub type NumberList = ListOf<u64>;

/// A list of record identifiers.
pub type RidList = ListOf<Rid>;
