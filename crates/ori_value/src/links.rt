// The order of lists and maps of links, among themselves and against those of values.
ghost use Rattle.std.specs.Prelude.{◌≡◌};
ghost use Rattle.std.specs.Cmp.Lexicographic.{slice_cmp};
ghost use Rattle.ori_spec_data.specs.Order.{entries_in, entries_order, items_in, items_order, ranked, ranked_links};
ghost use Rattle.ori_spec_data.specs.Order.{ranked_named};
ghost use Rattle.ori_value.specs.Comparing.{field_link_order, link_order, value_rid_order};
ghost use Rattle.ori_value.specs.Links.{links_of};
ghost use Rattle.ori_value.specs.View.{tree_of};

use crate::ranks::{LINK_CLASS, class_number, rid_in};
use crate::value::Value;
use ori_bytes::{Rid, Text};
use std::cmp::Ordering;

/// The links of a list against the items of a list of any kind.
pub fn rids_order(xs: &[Rid], b: &Value) -> Ordering
    ensures { result ≡ items_order (ranked_links xs.now) (items_in (ranked (tree_of b.now))) }
{
    match b {
        Value::EmbeddedList(ys) => value_rids_order(ys.as_slice(), xs).reverse(),
        Value::LinkList(ys) => xs.cmp(ys.as_slice()),
        Value::LinkSet(ys) => xs.cmp(ys.as_slice()),
        _ => xs.len().cmp(&0),
    }
}

/// The pairs of a map of links against those of any map or document.
pub fn link_fields_order(xs: &[(Text, Rid)], b: &Value) -> Ordering
    ensures { result ≡ entries_order (ranked_named (links_of xs.now)) (entries_in (ranked (tree_of b.now))) }
{
    match b {
        Value::Embedded(document) => field_links_order(document.fields.as_slice(), xs).reverse(),
        Value::EmbeddedMap(fields) => field_links_order(fields.as_slice(), xs).reverse(),
        Value::LinkMap(ys) => links_order(xs, ys.as_slice()),
        _ => xs.len().cmp(&0),
    }
}

/// The values of a list against links.
pub fn value_rids_order(xs: &[Value], rids: &[Rid]) -> Ordering
    ensures { result ≡ slice_cmp value_rid_order xs.now rids.now }
{
    for (at, x) in xs.iter().enumerate() {
        let Some(rid) = rids.get(at) else {
            return Ordering::Greater;
        };
        let by_item = value_rid_order(x, *rid);
        if by_item.is_ne() {
            return by_item;
        }
    }
    xs.len().cmp(&rids.len())
}

/// The pairs of a map or document against pairs with links.
pub fn field_links_order(xs: &[(Text, Value)], links: &[(Text, Rid)]) -> Ordering
    ensures { result ≡ slice_cmp field_link_order xs.now links.now }
{
    for (at, (name, x)) in xs.iter().enumerate() {
        let Some((other, rid)) = links.get(at) else {
            return Ordering::Greater;
        };
        let by_name = name.as_str().cmp(other.as_str());
        if by_name.is_ne() {
            return by_name;
        }
        let by_value = value_rid_order(x, *rid);
        if by_value.is_ne() {
            return by_value;
        }
    }
    xs.len().cmp(&links.len())
}

fn links_order(xs: &[(Text, Rid)], ys: &[(Text, Rid)]) -> Ordering
    ensures { result ≡ slice_cmp link_order xs.now ys.now }
{
    for (at, (name, rid)) in xs.iter().enumerate() {
        let Some((other, next)) = ys.get(at) else {
            return Ordering::Greater;
        };
        let by_name = name.as_str().cmp(other.as_str());
        if by_name.is_ne() {
            return by_name;
        }
        let by_rid = rid.cmp(next);
        if by_rid.is_ne() {
            return by_rid;
        }
    }
    xs.len().cmp(&ys.len())
}

// A value of any kind against a link.
fn value_rid_order(x: &Value, rid: Rid) -> Ordering
    ensures { result ≡ value_rid_order x.now rid }
{
    let by_class = class_number(x).cmp(&LINK_CLASS);
    if by_class.is_ne() {
        return by_class;
    }
    rid_in(x).cmp(&rid)
}
