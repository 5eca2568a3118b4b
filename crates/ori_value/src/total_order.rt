// The total order of values.
ghost use Rattle.std.specs.Prelude.{◌≡◌};
ghost use Rattle.std.specs.Cmp.Lexicographic.{slice_cmp};
ghost use Rattle.ori_spec_data.specs.Order.{content_order, entries_in, entries_order, items_in, items_order, order};
ghost use Rattle.ori_spec_data.specs.Order.{ranked, ranked_all, ranked_fields};
ghost use Rattle.ori_value.specs.Comparing.{field_order, value_order};
ghost use Rattle.ori_value.specs.View.{fields_of, tree_of, trees_of};

use crate::links::{field_links_order, link_fields_order, rids_order, value_rids_order};
use crate::ranks::{
    class_in, class_number, kind_number, number_in, octets_in, rid_in, text_in, truth_in,
};
use crate::value::Value;
use ori_bytes::Text;
use std::cmp::Ordering;

/// The total order of all values: null, false, true, whole numbers of all kinds by value, strings and binaries by their
/// bytes, links by cluster and position, lists by their items, maps and documents by class, which is empty for a map,
/// and then by their pairs. What is equal in this is ordered by OrientDB's numbers of the kinds.
#[cycle(orders)]
pub fn order(a: &Value, b: &Value) -> Ordering
    ensures { result ≡ order (tree_of a.now) (tree_of b.now) }
{
    let by_class = class_number(a).cmp(&class_number(b));
    if by_class.is_ne() {
        return by_class;
    }
    let by_content = content_order(a, b);
    if by_content.is_ne() {
        return by_content;
    }
    kind_number(a).cmp(&kind_number(b))
}

// What counts within a class; of values of two classes it decides nothing.
#[cycle(orders)]
fn content_order(a: &Value, b: &Value) -> Ordering
    ensures { result ≡ content_order (ranked (tree_of a.now)) (ranked (tree_of b.now)) }
{
    match a {
        Value::Null => Ordering::Equal,
        Value::Boolean(is_true) => is_true.cmp(&truth_in(b)),
        Value::Integer(number) => i64::from(*number).cmp(&number_in(b)),
        Value::Short(number) => i64::from(*number).cmp(&number_in(b)),
        Value::Long(number) | Value::Datetime(number) => number.cmp(&number_in(b)),
        Value::Byte(number) => i64::from(*number).cmp(&number_in(b)),
        Value::Str(text) => text.as_str().cmp(text_in(b)),
        Value::Binary(bytes) => bytes.as_slice().cmp(octets_in(b)),
        Value::Link(rid) => rid.cmp(&rid_in(b)),
        Value::EmbeddedList(values) => items_order(values.as_slice(), b),
        Value::LinkList(rids) | Value::LinkSet(rids) => rids_order(rids.as_slice(), b),
        Value::Embedded(document) => {
            let by_class = document.class.as_str().cmp(class_in(b));
            if by_class.is_ne() {
                return by_class;
            }
            entries_order(document.fields.as_slice(), b)
        }
        Value::EmbeddedMap(fields) => {
            let by_class = "".cmp(class_in(b));
            if by_class.is_ne() {
                return by_class;
            }
            entries_order(fields.as_slice(), b)
        }
        Value::LinkMap(links) => {
            let by_class = "".cmp(class_in(b));
            if by_class.is_ne() {
                return by_class;
            }
            link_fields_order(links.as_slice(), b)
        }
    }
}

// The items of a list against those of a list of any kind.
#[cycle(orders)]
fn items_order(xs: &[Value], b: &Value) -> Ordering
    ensures { result ≡ items_order (ranked_all (trees_of xs.now)) (items_in (ranked (tree_of b.now))) }
{
    match b {
        Value::EmbeddedList(ys) => values_order(xs, ys.as_slice()),
        Value::LinkList(rids) => value_rids_order(xs, rids.as_slice()),
        Value::LinkSet(rids) => value_rids_order(xs, rids.as_slice()),
        _ => xs.len().cmp(&0),
    }
}

// The pairs of a map or document against those of any.
#[cycle(orders)]
fn entries_order(xs: &[(Text, Value)], b: &Value) -> Ordering
    ensures { result ≡ entries_order (ranked_fields (fields_of xs.now)) (entries_in (ranked (tree_of b.now))) }
{
    match b {
        Value::Embedded(document) => fields_order(xs, document.fields.as_slice()),
        Value::EmbeddedMap(fields) => fields_order(xs, fields.as_slice()),
        Value::LinkMap(links) => field_links_order(xs, links.as_slice()),
        _ => xs.len().cmp(&0),
    }
}

#[cycle(orders)]
fn values_order(xs: &[Value], ys: &[Value]) -> Ordering
    ensures { result ≡ slice_cmp value_order xs.now ys.now }
{
    for (at, x) in xs.iter().enumerate() {
        let Some(y) = ys.get(at) else {
            return Ordering::Greater;
        };
        let by_item = order(x, y);
        if by_item.is_ne() {
            return by_item;
        }
    }
    xs.len().cmp(&ys.len())
}

#[cycle(orders)]
fn fields_order(xs: &[(Text, Value)], ys: &[(Text, Value)]) -> Ordering
    ensures { result ≡ slice_cmp field_order xs.now ys.now }
{
    for (at, (name, x)) in xs.iter().enumerate() {
        let Some((other, y)) = ys.get(at) else {
            return Ordering::Greater;
        };
        let by_name = name.as_str().cmp(other.as_str());
        if by_name.is_ne() {
            return by_name;
        }
        let by_value = order(x, y);
        if by_value.is_ne() {
            return by_value;
        }
    }
    xs.len().cmp(&ys.len())
}
