// What a base says to transactions, and becomes by them.
ghost use Rattle.std.specs.Prelude.{◌≡◌, ◌∷◌, [], IfOk, IfSome};
ghost use Rattle.ori_spec_data.specs.Base.{initial_base};
ghost use Rattle.ori_spec_data.specs.Base as spec;
ghost use Rattle.ori_spec_data.specs.Apply.{IsFormed};
ghost use Rattle.ori_spec_data.specs.Apply as applying;
ghost use Rattle.ori_spec_data.specs.Histories.{IsLegalHistory};
ghost use Rattle.ori_spec_data.specs.Soundness.{IsSoundBase};
ghost use Rattle.ori_model.specs.Data.{schema_of, tx_of, base_of, entry_of};

use super::shared::{FIRST, TEMP};
use ori_bytes::{NoMemory, NumberList, Rid, RidList, Text};
use ori_decide::{apply, fresh, overlay, refusal, replay};
use ori_model::{
    BagNameList, Base, Change, ChangeList, Class, ClassList, Entry, EntryList, IndexDefList,
    PropertyList, Refusal, Schema, Stored, StoredList, Tx,
};
use ori_text::step_refusal_text;
use ori_value::{FieldList, Value, ValueList};
use std::alloc::Global;

fn schema(alloc: Global) -> Result<Schema, NoMemory>
    ensures { IfOk result (λ s. schema_of s ≡ initial_base.schema) }
{
    let mut classes = ClassList::new(alloc);
    classes.push(Class {
        name: Text::from_str(alloc, "V")?,
        parent: None,
        cluster: 1,
        properties: PropertyList::new(alloc),
    })?;
    classes.push(Class {
        name: Text::from_str(alloc, "E")?,
        parent: None,
        cluster: 2,
        properties: PropertyList::new(alloc),
    })?;
    Ok(Schema {
        classes,
        indexes: IndexDefList::new(alloc),
    })
}

fn next(alloc: Global) -> Result<NumberList, NoMemory>
    ensures { IfOk result (λ l. l ≡ 0 ∷ 0 ∷ []) }
{
    let mut next = NumberList::new(alloc);
    next.push(0)?;
    next.push(0)?;
    Ok(next)
}

fn initial(alloc: Global) -> Result<Base, NoMemory>
    ensures { IfOk result (λ b. IsSoundBase (base_of b)) }
{
    Ok(Base {
        schema: schema(alloc)?,
        stored: StoredList::new(alloc),
        next: next(alloc)?,
        grown: BagNameList::new(alloc),
    })
}

// A new record with a list that links to the record.
fn creation(alloc: Global, class: &str) -> Result<Tx, NoMemory>
    ensures { IfOk result (λ t. IsFormed (tx_of t)) }
{
    let mut items = ValueList::new(alloc);
    items.push(Value::Link(TEMP))?;
    let mut fields = FieldList::new(alloc);
    fields.set(Text::from_str(alloc, "l")?, Value::EmbeddedList(items))?;
    let mut changes = ChangeList::new(alloc);
    changes.push(Change::Create {
        temp: TEMP,
        class: Text::from_str(alloc, class)?,
        fields,
    })?;
    Ok(Tx { changes, made: 1 })
}

// The entry of a transaction, with the identifiers that the base gives to its new records.
fn commit(alloc: Global, base: &Base, tx: Tx) -> Result<Entry, NoMemory>
    requires sound { IsSoundBase (base_of base.now) }
    requires formed { IsFormed (tx_of tx) }
    ensures { IfOk result (λ e. entry_of e ≡ spec.commit 1 (tx_of tx) (applying.fresh (base_of base.now) (tx_of tx))) }
{
    Ok(Entry::Commit {
        session: 1,
        fresh: fresh(alloc, base, &tx)?,
        tx,
    })
}

// That entry, where the base doesn't refuse it.
fn accepted(alloc: Global, base: &Base, tx: Tx) -> Result<Option<Entry>, NoMemory>
    requires sound { IsSoundBase (base_of base.now) }
    requires formed { IsFormed (tx_of tx) }
    ensures { IfOk result (λ o. IfSome o (λ e. IsLegalHistory (base_of base.now) (entry_of e ∷ []))) }
{
    let entry = commit(alloc, base, tx)?;
    if refusal(alloc, base, &entry)?.is_some() {
        return Ok(None);
    }
    Ok(Some(entry))
}

// Of the one record the identifier, the version and the link in its list.
type Only = Option<(Rid, u32, Rid)>;

fn listed(stored: &Stored) -> Option<Rid> {
    let Some(Value::EmbeddedList(items)) = stored.fields.get("l") else {
        return None;
    };
    match items.as_slice() {
        [Value::Link(rid)] => Some(*rid),
        _ => None,
    }
}

fn only(base: &Base) -> Only {
    let [stored] = base.stored.as_slice() else {
        return None;
    };
    Some((stored.rid, stored.version, listed(stored)?))
}

fn applied(alloc: Global, base: &Base, entry: &Entry) -> Result<Only, NoMemory>
    requires sound { IsSoundBase (base_of base.now) }
    requires legal { IsLegalHistory (base_of base.now) (entry_of entry.now ∷ []) }
{
    Ok(only(&apply(alloc, base, entry)?))
}

fn replayed(alloc: Global, base: &Base, entry: Entry) -> Result<Only, NoMemory>
    requires sound { IsSoundBase (base_of base.now) }
    requires legal { IsLegalHistory (base_of base.now) (entry_of entry ∷ []) }
{
    let mut history = EntryList::new(alloc);
    history.push(entry)?;
    Ok(only(&replay(alloc, base, &history)?))
}

fn both(alloc: Global, base: &Base, entry: Entry) -> Result<(Only, Only), NoMemory>
    requires sound { IsSoundBase (base_of base.now) }
    requires legal { IsLegalHistory (base_of base.now) (entry_of entry ∷ []) }
{
    let once = applied(alloc, base, &entry)?;
    Ok((once, replayed(alloc, base, entry)?))
}

// The record that a commit makes, by itself and as a history.
fn committed(alloc: Global) -> Result<Option<(Only, Only)>, NoMemory> {
    let base = initial(alloc)?;
    match accepted(alloc, &base, creation(alloc, "V")?)? {
        Some(entry) => Ok(Some(both(alloc, &base, entry)?)),
        None => Ok(None),
    }
}

#[test]
fn a_commit_is_applied(rt: HostRuntime) {
    let record = Some((FIRST, 1, FIRST));
    assert!(rt; committed(rt.alloc()) == Ok(Some((record, record))));
}

// The record that a transaction shows.
fn shown(alloc: Global) -> Result<Only, NoMemory> {
    let base = initial(alloc)?;
    let tx = creation(alloc, "V")?;
    Ok(only(&overlay(alloc, &base, &tx)?))
}

#[test]
fn a_transaction_is_laid_over(rt: HostRuntime) {
    assert!(rt; shown(rt.alloc()) == Ok(Some((TEMP, 0, TEMP))));
}

fn refused(alloc: Global, tx: Tx) -> Result<Option<Refusal>, NoMemory>
    requires { IsFormed (tx_of tx) }
{
    let base = initial(alloc)?;
    let entry = Entry::Commit {
        session: 1,
        tx,
        fresh: RidList::new(alloc),
    };
    refusal(alloc, &base, &entry)
}

fn said(alloc: Global, why: &Option<Refusal>) -> Result<Text, NoMemory> {
    match why {
        Some(why) => step_refusal_text(alloc, why),
        None => Text::from_str(alloc, "none"),
    }
}

// The refusal of a new record of this class as it is printed, or none.
fn told(alloc: Global, class: &str) -> Result<Text, NoMemory> {
    let why = refused(alloc, creation(alloc, class)?)?;
    said(alloc, &why)
}

fn tells(alloc: Global, class: &str, want: &str) -> bool {
    match told(alloc, class) {
        Ok(said) => said.as_str() == want,
        Err(_) => false,
    }
}

#[test]
fn a_class_is_asked_for(rt: HostRuntime) {
    assert!(rt; tells(rt.alloc(), "V", "none"));
    assert!(rt; tells(rt.alloc(), "W", "! ERR Schema #-1:-2 - NoClass\n"));
    assert!(rt; tells(rt.alloc(), "E", "! ERR Schema #-1:-2 out Ends\n"));
}
