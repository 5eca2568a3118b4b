// Why a statement was refused: a word, and what it tells behind it.
ghost use Rattle.std.specs.Prelude.{◌≡◌, ◌++◌, ◌∷◌, ℕ, List, IfOk, string_bytes, codes, decimal};
ghost use Rattle.std.specs.Fmt.{signed_decimal};
ghost use Rattle.ori_spec_data.specs.Refusing as why;
ghost use Rattle.ori_spec_texts.specs.Json.{rid_text};
ghost use Rattle.ori_spec_texts.specs.Reply.{rule_text, found_text, refusal_text, commit_refusal_text};
ghost use Rattle.ori_model.specs.Data.{rule_of};
ghost use Rattle.ori_model.specs.Replies.{refusal_of};

use crate::json::rid_string;
use ori_bytes::{Rid, Text};
use ori_model::{Refusal, Rule};
use std::alloc::{AllocError, Global};

// A word alone.
fn bare(alloc: Global, word: &str) -> Result<String, AllocError>
    ensures { IfOk result (λ s. string_bytes s ≡ word.now) }
{
    String::from_str(alloc, word)
}

// A word and a number.
fn counted(alloc: Global, word: &str, count: u64) -> Result<String, AllocError>
    ensures { IfOk result (λ s. string_bytes s ≡ word.now ++ 32 ∷ decimal count) }
{
    format!(in alloc; "{word} {count}")
}

// A word and two numbers.
fn counted_twice(alloc: Global, word: &str, first: u64, second: u64) -> Result<String, AllocError>
    ensures { IfOk result (λ s. string_bytes s ≡ word.now ++ 32 ∷ decimal first ++ 32 ∷ decimal second) }
{
    format!(in alloc; "{word} {first} {second}")
}

// A word and a name.
fn named(alloc: Global, word: &str, name: &Text) -> Result<String, AllocError>
    ensures { IfOk result (λ s. string_bytes s ≡ word.now ++ 32 ∷ name.now) }
{
    let name = name.as_str();
    format!(in alloc; "{word} {name}")
}

// The identifier of a record that isn't there.
fn no_record(alloc: Global, rid: Rid) -> Result<String, AllocError>
    ensures { IfOk result (λ s. string_bytes s ≡ codes "NoRecord " ++ rid_text rid) }
{
    let Rid { cluster, position } = rid;
    format!(in alloc; "NoRecord #{cluster}:{position}")
}

fn found_string(alloc: Global, found: Option<u32>) -> Result<String, AllocError>
    ensures { IfOk result (λ s. string_bytes s ≡ found_text found) }
{
    match found {
        Some(version) => format!(in alloc; "{version}"),
        None => String::from_str(alloc, "none"),
    }
}

fn rule_word(rule: Rule) -> &'static str
    ensures { result.now ≡ rule_text (rule_of rule) }
{
    match rule {
        Rule::NoClass => "NoClass",
        Rule::Ends => "Ends",
        Rule::Temporary => "Temporary",
        Rule::VersionEnd => "VersionEnd",
        Rule::OfKind => "Type",
        Rule::Mandatory => "Mandatory",
        Rule::NotNull => "NotNull",
        Rule::Readonly => "Readonly",
        Rule::Min => "Min",
        Rule::Max => "Max",
    }
}

fn conflict(
    alloc: Global,
    rid: Rid,
    expected: u32,
    found: Option<u32>,
) -> Result<String, AllocError>
    ensures { IfOk result (λ s. string_bytes s ≡ commit_refusal_text (why.conflict rid expected found)) }
{
    let rid = rid_string(alloc, rid)?;
    let found = found_string(alloc, found)?;
    format!(in alloc; "Conflict {rid} expected {expected} found {found}")
}

fn schema(alloc: Global, rid: Rid, property: &Text, rule: Rule) -> Result<String, AllocError>
    ensures { IfOk result (λ s. string_bytes s ≡ commit_refusal_text (why.breaks rid property.now (rule_of rule))) }
{
    let rid = rid_string(alloc, rid)?;
    let property = property.as_str();
    let rule = rule_word(rule);
    format!(in alloc; "Schema {rid} {property} {rule}")
}

fn record_too_large(alloc: Global, rid: Rid, bytes: u64) -> Result<String, AllocError>
    ensures { IfOk result (λ s. string_bytes s ≡ commit_refusal_text (why.record_too_large rid bytes)) }
{
    let rid = rid_string(alloc, rid)?;
    format!(in alloc; "RecordTooLarge {rid} {bytes}")
}

fn key_too_long(alloc: Global, index: &Text, rid: Rid, bytes: u64) -> Result<String, AllocError>
    ensures { IfOk result (λ s. string_bytes s ≡ commit_refusal_text (why.key_too_long index.now rid bytes)) }
{
    let index = index.as_str();
    let rid = rid_string(alloc, rid)?;
    format!(in alloc; "KeyTooLong {index} {rid} {bytes}")
}

fn duplicate(alloc: Global, index: &Text, first: Rid, second: Rid) -> Result<String, AllocError>
    ensures { IfOk result (λ s. string_bytes s ≡ commit_refusal_text (why.duplicate index.now first second)) }
{
    let index = index.as_str();
    let first = rid_string(alloc, first)?;
    let second = rid_string(alloc, second)?;
    format!(in alloc; "Duplicate {index} {first} {second}")
}

fn cluster_full(alloc: Global, cluster: i16) -> Result<String, AllocError>
    ensures { IfOk result (λ s. string_bytes s ≡ commit_refusal_text (why.cluster_full cluster)) }
{
    format!(in alloc; "ClusterFull {cluster}")
}

// Why a statement was refused.
pub(crate) fn refusal_string(alloc: Global, refusal: &Refusal) -> Result<String, AllocError>
    ensures { IfOk result (λ s. string_bytes s ≡ refusal_text (refusal_of refusal.now)) }
{
    match refusal {
        Refusal::BadChar { at } => counted(alloc, "BadChar", *at as u64),
        Refusal::OpenString { at } => counted(alloc, "OpenString", *at as u64),
        Refusal::LongNumber { at } => counted(alloc, "LongNumber", *at as u64),
        Refusal::Syntax { at } => counted(alloc, "Syntax", *at as u64),
        Refusal::TooDeep { at } => counted(alloc, "TooDeep", *at as u64),
        Refusal::InTransaction => bare(alloc, "InTransaction"),
        Refusal::NoTransaction => bare(alloc, "NoTransaction"),
        Refusal::NotInTransaction => bare(alloc, "NotInTransaction"),
        Refusal::NoClass { name } => named(alloc, "NoClass", name),
        Refusal::NoRecord { rid } => no_record(alloc, *rid),
        Refusal::Reserved { name } => named(alloc, "Reserved", name),
        Refusal::UseCreateEdge => bare(alloc, "UseCreateEdge"),
        Refusal::UseDeleteVertex => bare(alloc, "UseDeleteVertex"),
        Refusal::UseDeleteEdge => bare(alloc, "UseDeleteEdge"),
        Refusal::WrongKind { name } => named(alloc, "WrongKind", name),
        Refusal::Overflow => bare(alloc, "Overflow"),
        Refusal::Exists { name } => named(alloc, "Exists", name),
        Refusal::NoProperty { name } => named(alloc, "NoProperty", name),
        Refusal::NotIndexable { name } => named(alloc, "NotIndexable", name),
        Refusal::NotNumber { name } => named(alloc, "NotNumber", name),
        Refusal::SchemaFull { what } => named(alloc, "SchemaFull", what),
        Refusal::Conflict {
            rid,
            expected,
            found,
        } => conflict(alloc, *rid, *expected, *found),
        Refusal::Schema {
            rid,
            property,
            rule,
        } => schema(alloc, *rid, property, *rule),
        Refusal::RecordTooLarge { rid, bytes } => record_too_large(alloc, *rid, *bytes),
        Refusal::KeyTooLong { index, rid, bytes } => key_too_long(alloc, index, *rid, *bytes),
        Refusal::Duplicate {
            index,
            first,
            second,
        } => duplicate(alloc, index, *first, *second),
        Refusal::ClusterFull { cluster } => cluster_full(alloc, *cluster),
        Refusal::TxTooLarge { weight } => counted(alloc, "TxTooLarge", *weight),
        Refusal::PagesFull { in_use, weight } => {
            counted_twice(alloc, "PagesFull", u64::from(*in_use), *weight)
        }
        Refusal::FeedFull { entries, bytes } => {
            counted_twice(alloc, "FeedFull", *entries, *bytes)
        }
        Refusal::Halted { at_fault } => counted(alloc, "Halted", *at_fault),
        Refusal::Fault => bare(alloc, "Fault"),
        Refusal::Device => bare(alloc, "Device"),
        Refusal::Damaged { page } => counted(alloc, "Damaged", u64::from(*page)),
        Refusal::NoMemory => bare(alloc, "NoMemory"),
        Refusal::Busy { turn } => counted(alloc, "Busy", u64::from(*turn)),
        Refusal::Unbuilt => bare(alloc, "Unbuilt"),
        Refusal::LogFull { need, room } => counted_twice(alloc, "LogFull", *need, *room),
    }
}
