// The rules of the schema, as they are so far.
ghost use Rattle.std.specs.Prelude.{◌≡◌, ◌<◌, ◌-◌, ◌^◌, map, IfOk, OnOk};
ghost use Rattle.ori_spec_data.specs.Refusing as refusing;
ghost use Rattle.ori_spec_data.specs.Refusing.{class_of, ends_of, dangling_of, end_of, broken_by, first_refused};
ghost use Rattle.ori_spec_data.specs.Refusing.{has_class};
ghost use Rattle.ori_model.specs.Data as model;
ghost use Rattle.ori_model.specs.Data.{change_of, rule_of};
ghost use Rattle.ori_decide.specs.Leaving.{HasNew};
ghost use Rattle.ori_decide.specs.Told.{Answers, BreaksRule};

use crate::dangling::dangling_field;
use crate::renamings::Renamings;
use ori_bytes::{NoMemory, Rid, Text};
use ori_model::{Change, Class, CommitFault, Rule};
use ori_value::FieldList;
use std::alloc::Global;

// The refusal by a rule, with the property that it speaks of.
fn broken(alloc: Global, rid: Rid, property: &str, rule: Rule) -> CommitFault
    ensures { BreaksRule rid property.now (rule_of rule) result }
{
    match Text::from_str(alloc, property) {
        Ok(property) => CommitFault::Schema {
            rid,
            property,
            rule,
        },
        Err(_) => CommitFault::NoMemory,
    }
}

fn has_class(classes: &[Class], name: &str) -> bool
    ensures { result ≡ has_class (map model.class_of classes.now) name.now }
{
    for class in classes {
        if class.name.as_str() == name {
            return true;
        }
    }
    false
}

// The class of a new record is there.
fn check_class(alloc: Global, classes: &[Class], temp: Rid, class: &Text) -> Result<(), CommitFault>
    ensures { Answers (class_of (map model.class_of classes.now) temp class.now) result }
{
    if has_class(classes, class.as_str()) {
        return Ok(());
    }
    Err(broken(alloc, temp, "-", Rule::NoClass))
}

// A new record is no edge, which no statement gives ends yet.
fn check_ends(alloc: Global, temp: Rid, class: &Text) -> Result<(), CommitFault>
    ensures { Answers (ends_of temp class.now) result }
{
    if class.as_str() == "E" {
        return Err(broken(alloc, temp, "out", Rule::Ends));
    }
    Ok(())
}

fn named(rid: Rid, property: &Text) -> Result<CommitFault, NoMemory>
    ensures { IfOk result (BreaksRule rid property.now refusing.temporary_link) }
{
    Ok(CommitFault::Schema {
        rid,
        property: property.copy()?,
        rule: Rule::Temporary,
    })
}

// No link is to a temporary identifier that the changes don't create.
fn check_links(
    changes: &[Change],
    pairs: &Renamings,
    rid: Rid,
    fields: &FieldList,
) -> Result<(), CommitFault>
    requires { HasNew (map change_of changes.now) pairs.now }
    ensures { Answers (dangling_of (map change_of changes.now) rid fields.now) result }
{
    match dangling_field(changes, pairs, fields) {
        Some(property) => Err(named(rid, property)?),
        None => Ok(()),
    }
}

// The record's version isn't the last.
fn check_end(alloc: Global, rid: Rid, version: u32) -> Result<(), CommitFault>
    ensures { Answers (end_of rid version) result }
{
    if version != u32::MAX {
        return Ok(());
    }
    Err(broken(alloc, rid, "-", Rule::VersionEnd))
}

fn check_rule(
    alloc: Global,
    classes: &[Class],
    changes: &[Change],
    pairs: &Renamings,
    change: &Change,
) -> Result<(), CommitFault>
    requires { HasNew (map change_of changes.now) pairs.now }
    ensures { Answers (broken_by (map model.class_of classes.now) (map change_of changes.now) (change_of change.now))
        result }
{
    match change {
        Change::Create {
            temp,
            class,
            fields,
        } => {
            check_class(alloc, classes, *temp, class)?;
            check_ends(alloc, *temp, class)?;
            check_links(changes, pairs, *temp, fields)
        }
        Change::Update {
            rid,
            version,
            fields,
        } => {
            check_links(changes, pairs, *rid, fields)?;
            check_end(alloc, *rid, *version)
        }
        Change::Delete { .. } => Ok(()),
        Change::Touch { rid, version } => check_end(alloc, *rid, *version),
    }
}

/// No change breaks a rule of the schema, where the pairs have the temporary identifiers that the changes create.
pub fn check_rules(
    alloc: Global,
    classes: &[Class],
    changes: &[Change],
    pairs: &Renamings,
) -> Result<(), CommitFault>
    requires { HasNew (map change_of changes.now) pairs.now }
    ensures { Answers (first_refused (broken_by (map model.class_of classes.now) (map change_of changes.now))
        (map change_of changes.now))
        result }
{
    for change in changes {
        check_rule(alloc, classes, changes, pairs, change)?;
    }
    Ok(())
}
