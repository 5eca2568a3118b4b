// Entries that no statement makes yet: their bytes, and how they are printed.
use super::shared::{FIRST, TEMP, rids, text};
use ori_bytes::{Copied, NoMemory, RidList};
use ori_model::{Change, ChangeList, Definition, Entry, EntryList, Tx, entry_bytes};
use ori_text::history_text;
use ori_value::{FieldList, Value};
use std::alloc::Global;

#[derive(Clone, Copy)]
enum Kind {
    Create,
    Update,
    Delete,
    Touch,
}

fn fields(alloc: Global) -> Result<FieldList, NoMemory> {
    let mut fields = FieldList::new(alloc);
    fields.set(text(alloc, "n")?, Value::Integer(5))?;
    Ok(fields)
}

fn change(alloc: Global, kind: Kind) -> Result<Change, NoMemory> {
    match kind {
        Kind::Create => Ok(Change::Create {
            temp: TEMP,
            class: text(alloc, "V")?,
            fields: fields(alloc)?,
        }),
        Kind::Update => Ok(Change::Update {
            rid: FIRST,
            version: 4_294_967_294,
            fields: fields(alloc)?,
        }),
        Kind::Delete => Ok(Change::Delete {
            rid: FIRST,
            version: 2,
        }),
        Kind::Touch => Ok(Change::Touch {
            rid: FIRST,
            version: 3,
        }),
    }
}

// A change of each kind.
fn changes(alloc: Global) -> Result<ChangeList, NoMemory> {
    let mut changes = ChangeList::new(alloc);
    for kind in [Kind::Create, Kind::Update, Kind::Delete, Kind::Touch] {
        changes.push(change(alloc, kind)?)?;
    }
    Ok(changes)
}

fn commit(alloc: Global, fresh: RidList) -> Result<Entry, NoMemory> {
    Ok(Entry::Commit {
        session: 64,
        tx: Tx {
            changes: changes(alloc)?,
            made: 1,
        },
        fresh,
    })
}

fn definition(alloc: Global) -> Result<Entry, NoMemory> {
    Ok(Entry::Define {
        session: 1,
        definition: Definition::NewClass {
            name: text(alloc, "Doc")?,
            parent: None,
        },
    })
}

fn commit_bytes(alloc: Global) -> Option<u64> {
    match commit(alloc, RidList::new(alloc)) {
        Ok(commit) => entry_bytes(&commit).ok(),
        Err(_) => None,
    }
}

// A record of class V with the field n = 5 takes 16 bytes, without the class 15: 80, 79, 64 and 64.
#[test]
fn a_commit_has_bytes(rt: HostRuntime) {
    assert!(rt; commit_bytes(rt.alloc()) == Some(287));
}

fn history(alloc: Global) -> Result<EntryList, NoMemory> {
    let commit = commit(alloc, rids(alloc, &[FIRST])?)?;
    let mut history = EntryList::new(alloc);
    history.push(commit)?;
    history.push(definition(alloc)?)?;
    Ok(history)
}

// Whether it is printed so.
fn shows_history(alloc: Global, want: &str) -> Result<bool, NoMemory> {
    let history = history(alloc)?;
    Ok(history_text(alloc, history.as_slice(), &[])?.as_str() == want)
}

#[test]
fn a_history(rt: HostRuntime) {
    let want =
        "! HISTORY 0 64 COMMIT +#1:0@1 ~#1:0@4294967295 -#1:0 ~#1:0@4\n! HISTORY 1 1 DEFINE\n! OK 2\n";
    assert!(rt; shows_history(rt.alloc(), want) == Ok(true));
}

// Whether there is a copy, known by the trait alone.
fn is_copied<T: Copied>(item: &T) -> bool {
    item.copied().is_ok()
}

#[test]
fn pairs_are_copied(rt: HostRuntime) {
    assert!(rt; is_copied(&(FIRST, 7)));
}
