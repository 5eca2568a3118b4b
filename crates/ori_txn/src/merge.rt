// One change more among the changes of a transaction, beside the identifiers that they name, in their order.
ghost use Rattle.std.specs.Prelude.{◌≡◌, ◌+◌, ◌<◌, ◌≤◌, [], ◌∷◌, ℕ, false, length, map, vec_len, vec_capacity};
ghost use Rattle.std.specs.Prelude.{position, is_some};
ghost use Rattle.std.specs.List.{list_any};
ghost use Rattle.indexmap.specs.IndexSet.{spare};
ghost use Rattle.ori_spec_data.specs.Apply.{same_rid};
ghost use Rattle.ori_spec_data.specs.Base.{update, delete};
ghost use Rattle.ori_spec_data.specs.Staging.{merged, with_change};
ghost use Rattle.ori_model.specs.Data.{change_of};
ghost use Rattle.ori_txn.specs.Places.{with_changes, is_create, merged_at, AreBeside};

use indexmap::IndexSet;
use ori_bytes::Rid;
use ori_model::Change;
use ori_value::FieldList;

/// Where the identifiers have one.
pub fn place_of(places: &IndexSet<Rid>, rid: Rid) -> Option<usize>
    ensures place { result ≡ position (same_rid rid) places.now.keys }
    ensures found { is_some result ≡ list_any (same_rid rid) places.now.keys }
{
    places.get_index_of(&rid)
}

// An update on top of an earlier change of the same record.
fn update_change(change: &mut Change, fields: FieldList)
    ensures { (rid : _) (version : ℕ) → merged (change_of change.old) (update rid version fields)
        ≡ change_of change.new ∷ [] }
{
    match change {
        Change::Create { fields: first, .. } => *first = fields,
        Change::Update { fields: first, .. } => *first = fields,
        Change::Delete { .. } => {}
        Change::Touch { rid, version } => {
            *change = Change::Update {
                rid: *rid,
                version: *version,
                fields,
            };
        }
    }
}

// Whether a change makes a record.
fn is_creation(change: &Change) -> bool
    ensures { result ≡ is_create (change_of change.now) }
{
    match change {
        Change::Create { .. } => true,
        Change::Update { .. } => false,
        Change::Delete { .. } => false,
        Change::Touch { .. } => false,
    }
}

// A deletion on top of an earlier change of the same record, which it didn't make.
fn delete_change(change: &mut Change)
    requires { is_create (change_of change.old) ≡ false }
    ensures { (rid : _) (version : ℕ) → merged (change_of change.old) (delete rid version) ≡ change_of change.new ∷ [] }
{
    match change {
        Change::Create { .. } => {}
        Change::Delete { .. } => {}
        Change::Update { rid, version, .. } => {
            *change = Change::Delete {
                rid: *rid,
                version: *version,
            };
        }
        Change::Touch { rid, version } => {
            *change = Change::Delete {
                rid: *rid,
                version: *version,
            };
        }
    }
}

// A later change of the record that the change at a place names.
fn merge_at(changes: &mut Vec<Change>, places: &mut IndexSet<Rid>, at: usize, later: Change)
    requires within { at < vec_len changes.old }
    requires beside { AreBeside changes.old.items places.old.keys }
    ensures merged { map change_of changes.new.items
        ≡ merged_at (map change_of changes.old.items) at (change_of later) }
    ensures beside { AreBeside changes.new.items places.new.keys }
    ensures len { vec_len changes.new ≤ vec_len changes.old }
    ensures capacity { vec_capacity changes.new ≡ vec_capacity changes.old }
    ensures spare { spare places.old ≤ spare places.new }
{
    match later {
        Change::Create { .. } => {}
        Change::Touch { .. } => {}
        Change::Update { fields, .. } => update_change(&mut changes[at], fields),
        Change::Delete { .. } => {
            if is_creation(&changes[at]) {
                changes.remove(at);
                places.shift_remove_index(at);
            } else {
                delete_change(&mut changes[at]);
            }
        }
    }
}

// One change more.
fn put(changes: &mut Vec<Change>, places: &mut IndexSet<Rid>, change: Change)
    requires room { vec_len changes.old < vec_capacity changes.old }
    requires spare { 0 < spare places.old }
    requires beside { AreBeside changes.old.items places.old.keys }
    ensures put { map change_of changes.new.items ≡ with_change (map change_of changes.old.items) (change_of change) }
    ensures beside { AreBeside changes.new.items places.new.keys }
    ensures len { vec_len changes.new ≤ vec_len changes.old + 1 }
    ensures capacity { vec_capacity changes.new ≡ vec_capacity changes.old }
    ensures spare { spare places.old ≤ spare places.new + 1 }
{
    let rid = change.target();
    match place_of(places, rid) {
        Some(at) => merge_at(changes, places, at, change),
        None => {
            let _ = places.insert(rid);
            changes.push_reserved(change);
        }
    }
}

/// The changes with each of these in turn. It takes no memory.
pub fn put_all(changes: &mut Vec<Change>, places: &mut IndexSet<Rid>, more: Vec<Change>)
    requires room { vec_len changes.old + vec_len more ≤ vec_capacity changes.old }
    requires spare { vec_len more ≤ spare places.old }
    requires beside { AreBeside changes.old.items places.old.keys }
    ensures put { map change_of changes.new.items
        ≡ with_changes (map change_of changes.old.items) (map change_of more.items) }
    ensures beside { AreBeside changes.new.items places.new.keys }
{
    for change in more {
        put(changes, places, change);
    }
}
