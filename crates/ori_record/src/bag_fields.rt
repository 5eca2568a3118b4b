// The bags of a record.
ghost use Rattle.std.specs.Prelude.{◌≡◌, ◌==◌, ◌≤◌, ◌↔◌, [], length, IsTrue, option_map};
ghost use Rattle.ori_record.specs.Names.{AreRisingBags, is_less};
ghost use Rattle.ori_record.specs.Reading.{after};
ghost use Rattle.ori_record.specs.Spelling.{bag_name, dir_front};

use crate::bag_field::BagField;
use ori_model::Dir;
use std::alloc::Global;
use std::marker::Model;

/// The bags of a record, which a contract sees as their list. The names of their fields differ and rise in byte order:
/// those into the vertex before those out of it, and each of these by their classes.
#[derive(Drop)]
pub struct BagFieldList {
    items: Vec<BagField>,
}

impl Model for BagFieldList {
    ghost use Rattle.std.specs.Prelude.{List};
    ghost use Rattle.ori_record.specs.declared.bag_field.BagField.{BagField};
    ghost use Rattle.ori_record.specs.Names.{AreRisingBags};

    ghost Value = { List BagField };

    ghost view = { λ l. l.items.items };

    ghost invariant = { λ l. AreRisingBags l.items.items };
}

impl BagFieldList {
    /// No bag; takes no memory.
    pub fn new(alloc: Global) -> Self
        ensures { result ≡ [] }
    {
        BagFieldList {
            items: Vec::new(alloc),
        }
    }

    /// Owns a `Vec` of bags whose names rise, which `bag_names_rise` tests; takes no memory.
    pub fn from_vec(items: Vec<BagField>) -> Self
        requires { AreRisingBags items.items }
        ensures { result ≡ items.items }
    {
        BagFieldList { items }
    }

    /// Gives the `Vec` back.
    pub fn into_vec(self) -> Vec<BagField>
        ensures all { result.items ≡ self }
        ensures rising { AreRisingBags self }
    {
        self.items
    }

    /// The bags, in rising order of their names.
    pub fn as_slice(&self) -> &[BagField]
        ensures all { result.now ≡ self.now }
        ensures rising { AreRisingBags self.now }
    {
        self.items.as_slice()
    }

    /// Whether there is none.
    pub fn is_empty(&self) -> bool
        ensures { result ≡ (length self.now == 0) }
    {
        self.items.is_empty()
    }
}

// What the names of bags of this direction begin with.
pub(crate) fn dir_front(dir: Dir) -> &'static str
    ensures all { result.now ≡ dir_front dir }
    ensures short { length result.now ≤ 4 }
{
    match dir {
        Dir::Out => "out_",
        Dir::Into => "in_",
    }
}

// What comes after this front of a name.
pub(crate) fn after<'a>(front: &str, name: &'a str) -> Option<&'a str>
    ensures { option_map (λ s. s.now) result ≡ after front.now name.now }
{
    name.strip_prefix(front)
}

// Whether the bag's field comes before one with this name.
pub(crate) fn comes_before(field: &BagField, name: &str) -> bool
    ensures { result ≡ is_less (bag_name field.now.dir field.now.class) name.now }
{
    let front = dir_front(field.dir);
    match after(front, name) {
        Some(class) => field.class.as_str() < class,
        None => front < name,
    }
}

// Whether the bag's field comes before that of the other.
fn is_in_order(one: &BagField, next: &BagField) -> bool
    ensures { result ≡ is_less (bag_name one.now.dir one.now.class) (bag_name next.now.dir next.now.class) }
{
    match (one.dir, next.dir) {
        (Dir::Into, Dir::Out) => true,
        (Dir::Out, Dir::Into) => false,
        _ => one.class.as_str() < next.class.as_str(),
    }
}

/// Whether the names of bags differ and rise in byte order, as `BagFieldList::from_vec` asks.
pub fn bag_names_rise(fields: &[BagField]) -> bool
    ensures { IsTrue result ↔ AreRisingBags fields.now }
{
    fields.is_sorted_by(|one, next| is_in_order(one, next))
}
