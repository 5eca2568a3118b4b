// The values and the bags of a record's own header, read.
ghost use Rattle.std.specs.Prelude.{◌≡◌, map, option_map};
ghost use Rattle.ori_value.specs.View.{fields_of, tree_of};
ghost use Rattle.ori_record.specs.Reading.{Gives, bag_held_at, bag_named, both_at, do_heads_rise, own_heads_at};
ghost use Rattle.ori_record.specs.Reading.{value_at};
ghost use Rattle.ori_record.specs.Seen.{head_data};

use crate::bag_field::BagField;
use crate::bag_fields::{BagFieldList, after, dir_front};
use crate::bags::bag;
use crate::fault::RecordFault;
use crate::heads::{Head, heads};
use crate::kinds::LINKBAG;
use crate::nested::held;
use crate::reader::Reader;
use ori_bytes::{Bag, Text};
use ori_model::Dir;
use ori_value::{FieldList, Value};
use std::alloc::Global;

// The direction and the class of the bag whose field has this name.
#[tactic(auto, unfolding(crate::specs::Reading::bag_named))]
fn bag_named(name: &str) -> Option<(Dir, &str)>
    ensures { option_map (λ x. (x.0, x.1.now)) result ≡ bag_named name.now }
{
    if let Some(class) = after(dir_front(Dir::Out), name) {
        return Some((Dir::Out, class));
    }
    let class = after(dir_front(Dir::Into), name)?;
    Some((Dir::Into, class))
}

// Whether the names of entries rise.
fn do_heads_rise(heads: &[Head]) -> bool
    ensures { result ≡ do_heads_rise (map head_data heads.now) }
{
    heads.is_sorted_by(|one, next| one.name.as_str() < next.name.as_str())
}

// The entries of a record's own header.
#[tactic(auto, unfolding(crate::specs::Reading::own_heads_at))]
pub(crate) fn own_heads(alloc: Global, reader: &mut Reader<'_>) -> Result<Vec<Head>, RecordFault>
    ensures { Gives (λ hs. (map head_data hs.items, reader.new)) result (own_heads_at reader.old) }
{
    let heads = heads(alloc, reader)?;
    if !do_heads_rise(&heads) {
        return Err(RecordFault::NotRecord);
    }
    Ok(heads)
}

// The bag of an entry, where so many bytes were left at the place from which pointers count.
#[tactic(auto, unfolding(crate::specs::Reading::bag_held_at))]
fn bag_held(
    alloc: Global,
    reader: &mut Reader<'_>,
    from: usize,
    head: &Head,
) -> Result<Bag, RecordFault>
    ensures { Gives (λ b. (b, reader.new)) result (bag_held_at from (head_data head.now) reader.old) }
{
    if head.kind != LINKBAG || head.to as usize != from.saturating_sub(reader.rest().len()) {
        return Err(RecordFault::NotRecord);
    }
    bag(alloc, reader)
}

// The values and the bags of entries, each in their order.
pub(crate) fn own_values(
    alloc: Global,
    reader: &mut Reader<'_>,
    from: usize,
    heads: Vec<Head>,
    depth: u64,
) -> Result<(Vec<(Text, Value)>, Vec<BagField>), RecordFault>
    ensures { Gives (λ x. ((fields_of x.0.items, x.1.items), reader.new)) result
        (both_at (value_at depth) from (map head_data heads.items) reader.old) }
{
    let mut pairs = Vec::with_capacity(alloc, heads.len())?;
    let mut bags = Vec::new(alloc);
    for head in heads {
        match bag_named(head.name.as_str()) {
            Some((dir, class)) => {
                let bag = bag_held(alloc, reader, from, &head)?;
                let class = Text::from_str(alloc, class)?;
                bags.push(BagField { dir, class, bag })?;
            }
            None => {
                let value = held(alloc, reader, from, &head, depth)?;
                pairs.push((head.name, value))?;
            }
        }
    }
    Ok((pairs, bags))
}
