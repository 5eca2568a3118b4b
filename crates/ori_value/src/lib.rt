//! Values, documents and the lists of them, as the code holds them.
//!
//! Contracts see a value as its plain tree: `tree_of` leads from a `Value` to it, and lists of values and of fields are
//! seen as the lists of their trees.
#![tactic(auto)]

mod fields;
mod fitting;
mod hexadecimal;
mod keys;
mod kind;
mod laws;
mod links;
mod lists;
mod ranks;
mod rid_fields;
mod rid_sets;
mod total_order;
mod value;
mod values;

pub use fields::{FieldList, names_rise};
pub use fitting::fit;
pub use keys::{key_bytes, put_rid_key};
pub use kind::Kind;
pub use laws::{key_law, order_law};
pub use lists::{KeyList, TextList};
pub use rid_fields::{RidFieldList, link_names_rise};
pub use rid_sets::rising_set;
pub use total_order::order;
pub use value::{Document, Value};
pub use values::ValueList;
