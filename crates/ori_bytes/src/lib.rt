//! The ground of the store: record identifiers, bytes and text as contracts see them, the counts of causes and the
//! limits.
//!
//! A `Text`, a `Blob` and a `ListOf` is a small type over a `String` or a `Vec`, which a contract sees as the list of
//! what it holds. Each is made from the `String` or the `Vec` and gives it back without taking memory. A type whose
//! name ends in `List` is a `ListOf` under a name of its own, if it doesn't order itself.
#![tactic(auto)]

mod bag;
mod blob;
mod causes;
mod cursor;
mod fault;
pub mod limits;
mod lists;
mod memory;
mod rid;
mod text;
mod varint;

pub use bag::Bag;
pub use blob::Blob;
pub use causes::Causes;
pub use cursor::Cursor;
pub use fault::ByteFault;
pub use lists::{Copied, ListOf, NumberList, RidList};
pub use memory::NoMemory;
pub use rid::Rid;
pub use text::Text;
pub use varint::{one_form, one_spelling, put_varint, varint_len};
