// The total order of values, what fits a kind, and the bytes of keys, by tables worked out by hand.
ghost use Rattle.std.specs.Prelude.{◌≡◌, true, IsTrue};
ghost use Rattle.ori_spec_data.specs.Keys.{is_indexable};
ghost use Rattle.ori_value.specs.View.{tree_of};

use super::samples::{Item, Sample, made, single};
use super::shared::{FIRST, TEMP, text};
use ori_bytes::{Blob, NoMemory, Rid};
use ori_value::{Kind, Value, ValueList, fit, key_bytes, order, put_rid_key};
use std::alloc::Global;
use std::cmp::Ordering;

const MIDDLE: Rid = Rid {
    cluster: 1,
    position: 9,
};

const HIGH: Rid = Rid {
    cluster: 3,
    position: 1,
};

fn compared(alloc: Global, a: Sample, b: Sample) -> Result<Ordering, NoMemory> {
    Ok(order(&made(alloc, a)?, &made(alloc, b)?))
}

// The first two of these that aren't ordered as they stand.
fn disorder(alloc: Global, samples: &[Sample]) -> Result<Option<(usize, usize)>, NoMemory> {
    for (i, a) in samples.iter().enumerate() {
        for (j, b) in samples.iter().enumerate() {
            if compared(alloc, *a, *b)? != i.cmp(&j) {
                return Ok(Some((i, j)));
            }
        }
    }
    Ok(None)
}

const SINGLE: &[Sample] = &[
    Sample::One(Item::Null),
    Sample::One(Item::Boolean(false)),
    Sample::One(Item::Boolean(true)),
    Sample::One(Item::Long(-9223372036854775808)),
    Sample::One(Item::Byte(-1)),
    Sample::One(Item::Integer(3)),
    Sample::One(Item::Short(3)),
    Sample::One(Item::Long(3)),
    Sample::One(Item::Datetime(3)),
    Sample::One(Item::Byte(3)),
    Sample::One(Item::Byte(4)),
    Sample::One(Item::Str("")),
    Sample::One(Item::Str("Ann")),
    Sample::One(Item::Str("Anna")),
    Sample::One(Item::Str("B")),
    Sample::One(Item::Binary(&[])),
    Sample::One(Item::Binary(&[0])),
    Sample::One(Item::Binary(&[255])),
    Sample::One(Item::Link(-1, -2)),
    Sample::One(Item::Link(1, 9)),
    Sample::One(Item::Link(3, -1)),
    Sample::One(Item::Link(3, 1)),
];

#[test]
fn single_values_are_ordered(rt: HostRuntime) {
    assert!(rt; disorder(rt.alloc(), SINGLE) == Ok(None));
}

const LISTS: &[Sample] = &[
    Sample::One(Item::Link(3, 1)),
    Sample::List(&[]),
    Sample::Links(&[]),
    Sample::Set(&[]),
    Sample::List(&[Item::Null]),
    Sample::List(&[Item::Integer(3)]),
    Sample::List(&[Item::Integer(3), Item::Null]),
    Sample::List(&[Item::Short(3)]),
    Sample::List(&[Item::Link(1, 0)]),
    Sample::Links(&[FIRST]),
    Sample::Set(&[FIRST]),
    Sample::Links(&[FIRST, FIRST]),
];

#[test]
fn lists_are_ordered(rt: HostRuntime) {
    assert!(rt; disorder(rt.alloc(), LISTS) == Ok(None));
}

const MAPS: &[Sample] = &[
    Sample::Links(&[FIRST, FIRST]),
    Sample::Document("", None),
    Sample::Map(None),
    Sample::LinkMap(None),
    Sample::Map(Some(("a", Item::Null))),
    Sample::Document("", Some(("a", Item::Link(1, 0)))),
    Sample::Map(Some(("a", Item::Link(1, 0)))),
    Sample::LinkMap(Some(("a", FIRST))),
    Sample::Map(Some(("b", Item::Null))),
    Sample::Document("A", None),
];

#[test]
fn maps_are_ordered(rt: HostRuntime) {
    assert!(rt; disorder(rt.alloc(), MAPS) == Ok(None));
}

// Whether a value fitted to a kind is another.
fn gives(alloc: Global, value: Sample, kind: Kind, want: Sample) -> Result<bool, NoMemory> {
    let fitted = fit(alloc, made(alloc, value)?, kind)?;
    Ok(order(&fitted, &made(alloc, want)?).is_eq())
}

// The first of these values that is fitted otherwise.
fn misfit(alloc: Global, cases: &[(Sample, Kind, Sample)]) -> Result<Option<usize>, NoMemory> {
    for (i, (value, kind, want)) in cases.iter().enumerate() {
        if !gives(alloc, *value, *kind, *want)? {
            return Ok(Some(i));
        }
    }
    Ok(None)
}

// The first of these values that is fitted otherwise, where one stays for which nothing is named.
fn misfit_item(
    alloc: Global,
    cases: &[(Item, Kind, Option<Item>)],
) -> Result<Option<usize>, NoMemory> {
    for (i, (value, kind, want)) in cases.iter().enumerate() {
        let want = Sample::One(want.unwrap_or(*value));
        if !gives(alloc, Sample::One(*value), *kind, want)? {
            return Ok(Some(i));
        }
    }
    Ok(None)
}

const IN_RANGE: &[(Item, Kind, Option<Item>)] = &[
    (Item::Integer(127), Kind::Byte, Some(Item::Byte(127))),
    (Item::Integer(128), Kind::Byte, None),
    (Item::Integer(-128), Kind::Byte, Some(Item::Byte(-128))),
    (Item::Integer(-129), Kind::Byte, None),
    (Item::Integer(32767), Kind::Short, Some(Item::Short(32767))),
    (Item::Integer(32768), Kind::Short, None),
    (
        Item::Integer(-32768),
        Kind::Short,
        Some(Item::Short(-32768)),
    ),
    (Item::Integer(-32769), Kind::Short, None),
    (
        Item::Long(2147483647),
        Kind::Integer,
        Some(Item::Integer(2147483647)),
    ),
    (Item::Long(2147483648), Kind::Integer, None),
    (
        Item::Long(-2147483648),
        Kind::Integer,
        Some(Item::Integer(-2147483648)),
    ),
    (Item::Long(-2147483649), Kind::Integer, None),
];

#[test]
fn numbers_fit_in_range(rt: HostRuntime) {
    assert!(rt; misfit_item(rt.alloc(), IN_RANGE) == Ok(None));
}

const OF_ANY_KIND: &[(Item, Kind, Option<Item>)] = &[
    (Item::Byte(-1), Kind::Long, Some(Item::Long(-1))),
    (Item::Short(-1), Kind::Long, Some(Item::Long(-1))),
    (Item::Integer(-1), Kind::Long, Some(Item::Long(-1))),
    (Item::Datetime(-1), Kind::Long, Some(Item::Long(-1))),
    (
        Item::Long(9223372036854775807),
        Kind::Datetime,
        Some(Item::Datetime(9223372036854775807)),
    ),
    (
        Item::Long(-9223372036854775808),
        Kind::Datetime,
        Some(Item::Datetime(-9223372036854775808)),
    ),
    (Item::Datetime(5), Kind::Integer, Some(Item::Integer(5))),
    (Item::Datetime(5), Kind::Short, Some(Item::Short(5))),
    (Item::Datetime(5), Kind::Byte, Some(Item::Byte(5))),
    (Item::Boolean(true), Kind::Integer, None),
    (Item::Null, Kind::Integer, None),
    (Item::Str("5"), Kind::Integer, None),
];

#[test]
fn numbers_fit_any_kind(rt: HostRuntime) {
    assert!(rt; misfit_item(rt.alloc(), OF_ANY_KIND) == Ok(None));
}

const TEXTS: &[(Item, Kind, Option<Item>)] = &[
    (Item::Str(""), Kind::Binary, Some(Item::Binary(&[]))),
    (
        Item::Str("00ff"),
        Kind::Binary,
        Some(Item::Binary(&[0, 255])),
    ),
    (Item::Str("0aF0"), Kind::Binary, None),
    (Item::Str("00f"), Kind::Binary, None),
    (Item::Str("zz"), Kind::Binary, None),
    (Item::Str("é"), Kind::Binary, None),
    (Item::Binary(&[0]), Kind::Str, None),
];

#[test]
fn texts_fit_binary(rt: HostRuntime) {
    assert!(rt; misfit_item(rt.alloc(), TEXTS) == Ok(None));
}

const LISTS_FIT: &[(Sample, Kind, Sample)] = &[
    (Sample::List(&[]), Kind::LinkList, Sample::Links(&[])),
    (Sample::List(&[]), Kind::LinkSet, Sample::Set(&[])),
    (Sample::List(&[]), Kind::LinkMap, Sample::List(&[])),
    (ONE, Kind::LinkList, ONE),
    (ONE, Kind::LinkSet, ONE),
    (
        Sample::Links(&[HIGH, MIDDLE, HIGH, TEMP]),
        Kind::LinkSet,
        Sample::Set(&[TEMP, MIDDLE, HIGH]),
    ),
    (Sample::Links(&[]), Kind::LinkSet, Sample::Set(&[])),
    (Sample::Links(&[]), Kind::EmbeddedList, Sample::List(&[])),
    (
        Sample::Links(&[MIDDLE, HIGH]),
        Kind::EmbeddedList,
        Sample::List(&[Item::Link(1, 9), Item::Link(3, 1)]),
    ),
    (SET, Kind::LinkList, SET),
    (SET, Kind::EmbeddedList, SET),
    (Sample::Set(&[]), Kind::LinkList, Sample::Set(&[])),
    (Sample::Set(&[]), Kind::EmbeddedList, Sample::Set(&[])),
];

const ONE: Sample = Sample::List(&[Item::Integer(1)]);

const SET: Sample = Sample::Set(&[MIDDLE]);

#[test]
fn lists_fit(rt: HostRuntime) {
    assert!(rt; misfit(rt.alloc(), LISTS_FIT) == Ok(None));
}

const MAPS_FIT: &[(Sample, Kind, Sample)] = &[
    (Sample::Map(None), Kind::LinkMap, Sample::LinkMap(None)),
    (MAP, Kind::LinkMap, MAP),
    (
        Sample::LinkMap(Some(("a", FIRST))),
        Kind::EmbeddedMap,
        Sample::Map(Some(("a", Item::Link(1, 0)))),
    ),
    (DOCUMENT, Kind::EmbeddedMap, DOCUMENT),
    (DOCUMENT, Kind::LinkMap, DOCUMENT),
];

const MAP: Sample = Sample::Map(Some(("a", Item::Integer(1))));

const DOCUMENT: Sample = Sample::Document("", None);

#[test]
fn maps_fit(rt: HostRuntime) {
    assert!(rt; misfit(rt.alloc(), MAPS_FIT) == Ok(None));
}

// Whether a value is a plain one that an index may hold.
fn is_key(value: &Value) -> bool
    ensures { IsTrue result → is_indexable (tree_of value.now) ≡ true }
{
    matches!(
        value,
        Value::Boolean(_) | Value::Long(_) | Value::Str(_) | Value::Binary(_) | Value::Link(_)
    )
}

// The key of one value.
fn key(alloc: Global, value: Value) -> Result<Blob, NoMemory>
    requires { is_indexable (tree_of value) ≡ true }
{
    let mut values = ValueList::new(alloc);
    values.push(value)?;
    key_bytes(alloc, &values)
}

// The first of these values that has another key.
fn wrong_key(alloc: Global, cases: &[(Item, &'static [u8])]) -> Result<Option<usize>, NoMemory> {
    for (i, (item, want)) in cases.iter().enumerate() {
        let value = single(alloc, *item)?;
        if !is_key(&value) || key(alloc, value)?.as_slice() != *want {
            return Ok(Some(i));
        }
    }
    Ok(None)
}

const KEYS: &[(Item, &[u8])] = &[
    (Item::Boolean(true), &[1]),
    (Item::Boolean(false), &[0]),
    (Item::Long(1), &[128, 0, 0, 0, 0, 0, 0, 1]),
    (Item::Long(-1), &[127, 255, 255, 255, 255, 255, 255, 255]),
    (Item::Long(0), &[128, 0, 0, 0, 0, 0, 0, 0]),
    (Item::Long(9223372036854775807), &[255; 8]),
    (Item::Long(-9223372036854775808), &[0; 8]),
    (Item::Str("Ann"), b"Ann\0\0"),
    (Item::Str(""), &[0, 0]),
    (Item::Binary(&[1, 0]), &[1, 0, 255, 0, 0]),
    (Item::Binary(&[0]), &[0, 255, 0, 0]),
    (Item::Binary(&[0, 255]), &[0, 255, 255, 0, 0]),
    (Item::Link(3, 1), &[128, 3, 128, 0, 0, 0, 0, 0, 0, 1]),
];

#[test]
fn values_have_keys(rt: HostRuntime) {
    assert!(rt; wrong_key(rt.alloc(), KEYS) == Ok(None));
}

// The key of a text and a number, and that of a record after it.
fn long_key(alloc: Global) -> Result<Blob, NoMemory> {
    let mut values = ValueList::new(alloc);
    values.push(Value::Str(text(alloc, "a")?))?;
    values.push(Value::Integer(1))?;
    let mut key = key_bytes(alloc, &values)?;
    put_rid_key(&mut key, TEMP)?;
    Ok(key)
}

fn has_long_key(alloc: Global, want: &[u8]) -> bool {
    match long_key(alloc) {
        Ok(key) => key.as_slice() == want,
        Err(_) => false,
    }
}

#[test]
fn keys_follow_each_other(rt: HostRuntime) {
    let want = b"a\0\0\x80\0\0\0\0\0\0\x01\x7f\xff\x7f\xff\xff\xff\xff\xff\xff\xfe";
    assert!(rt; has_long_key(rt.alloc(), want));
}
