// A database as an open transaction would have it.
ghost use Rattle.std.specs.Prelude.{◌≡◌, ◌≤◌, Some, None, IfOk, IfErr, IfSome, option_map};
ghost use Rattle.ori_spec_data.specs.Apply.{HasOwnFields, IsFormed};
ghost use Rattle.ori_spec_data.specs.Keeping.{raised_count};
ghost use Rattle.ori_spec_data.specs.Records.{record_at};
ghost use Rattle.ori_spec_data.specs.Staging.{laid_over};
ghost use Rattle.ori_spec_data.specs.Views.{shown_through};
ghost use Rattle.ori_model.specs.Data.{change_of, record_of, tx_of};
ghost use Rattle.ori_model.specs.Reading.{read_counted, fetch_counted, MayFail, IsFetched};
ghost use Rattle.ori_model.specs.Standing.{IsUnchanged};
ghost use Rattle.ori_txn.specs.Places.{needs_record, IsFor};

use crate::TxBuffer;
use crate::overlay::Overlay;
use ori_bytes::{Causes, NoMemory, Rid};
use ori_model::{Change, ReadFault, Reader, Schema, Stored, Tx};

/// A reader that shows what another shows with the changes of a transaction laid over it: updated records with their
/// new fields, no deleted ones, and the new ones. It counts the records that it gives; the other's faults are its
/// own.
#[derive(Drop)]
pub struct TxReader<'a, R: Reader> {
    reader: &'a mut R,
    changes: Overlay<'a>,
    fetched: u64,
}

impl<'a, R: Reader> TxReader<'a, R> {
    /// Lays a formed transaction over what a reader shows. Each fetch goes through the changes: where there are many
    /// of them, stage them in a buffer and lay that over.
    pub fn over(reader: &'a mut R, tx: &'a Tx) -> TxReader<'a, R>
        requires { IsFormed (tx_of tx.now) }
        ensures shows { ⟦<TxReader<'a, R> as Reader>⟧.view result
            ≡ shown_through (R.view reader.old) (tx_of tx.now) }
        ensures fetched { ⟦<TxReader<'a, R> as Reader>⟧.fetched result ≡ R.fetched reader.old }
        ensures same_reference { result.reader.ghost_name ≡ reader.entry.ghost_name }
        ensures reader { result.reader.now ≡ reader.old }
    {
        let fetched = reader.fetched();
        TxReader {
            reader,
            changes: Overlay::new(tx),
            fetched,
        }
    }

    /// Lays the changes of a buffer over what a reader shows. A fetch takes no longer where there are many of them.
    pub fn over_buffer(reader: &'a mut R, buffer: &'a TxBuffer) -> TxReader<'a, R>
        ensures shows { ⟦<TxReader<'a, R> as Reader>⟧.view result
            ≡ shown_through (R.view reader.old) (tx_of buffer.now) }
        ensures fetched { ⟦<TxReader<'a, R> as Reader>⟧.fetched result ≡ R.fetched reader.old }
        ensures same_reference { result.reader.ghost_name ≡ reader.entry.ghost_name }
        ensures reader { result.reader.now ≡ reader.old }
    {
        let fetched = reader.fetched();
        TxReader {
            reader,
            changes: buffer.overlay(),
            fetched,
        }
    }
}

impl<'a, R: Reader> Reader for TxReader<'a, R> {
    ghost use Rattle.ori_spec_data.specs.Views.{below, shown_through};
    ghost use Rattle.ori_model.specs.Data.{tx_of};

    ghost view = { λ t. shown_through (R.view t.reader.now) (tx_of t.changes.tx.now) };

    ghost state = { λ t. R.state t.reader.now };

    ghost lent = { λ t. t.reader.ghost_name };

    ghost sound = { λ t. R.sound t.reader.now };

    ghost below = { λ t. below (R.view t.reader.now) (R.lent t.reader.now) (R.below t.reader.now) };

    ghost fetched = { λ t. t.fetched };

    ghost causes = { λ t. R.causes t.reader.now };

    fn schema(&self) -> &Schema {
        self.reader.schema()
    }

    // It reads at most one record of the other.
    fn fetch(&mut self, rid: Rid) -> Result<Option<Stored>, ReadFault>
        ensures found { IfOk result (IsFetched (⟦<TxReader<'a, R> as Reader>⟧.view self.old) rid) }
        ensures own { IfOk result (λ found. IfSome found (λ stored. (stored.rid ≡ rid) × HasOwnFields stored.fields)) }
        ensures fault { IfErr result (MayFail (⟦<TxReader<'a, R> as Reader>⟧.view self.old)) }
        ensures same { let tr = ⟦<TxReader<'a, R> as Reader>⟧ in
            IsUnchanged tr.view tr.state tr.sound tr.lent tr.below self.old self.new }
        ensures fetched { self.new.fetched ≡ fetch_counted result self.old.fetched }
        ensures causes { R.causes self.new.reader.now ≡ read_counted result (R.causes self.old.reader.now) }
        ensures one_record { R.fetched self.new.reader.now ≤ raised_count (R.fetched self.old.reader.now) }
    {
        let change = self.changes.change_at(rid);
        match fetch_with(&mut *self.reader, change, rid)? {
            None => Ok(None),
            Some(stored) => {
                self.fetched = self.fetched.saturating_add(1);
                Ok(Some(stored))
            }
        }
    }

    fn fetched(&self) -> u64 {
        self.fetched
    }

    fn causes(&self) -> Causes {
        self.reader.causes()
    }
}

// A new record as it is shown.
fn new_record(change: &Change, rid: Rid) -> Result<Option<Stored>, NoMemory>
    requires { IsFor rid (change_of change.now) }
    ensures own { IfOk result (λ o. IfSome o (λ stored. (stored.rid ≡ rid) × HasOwnFields stored.fields)) }
    ensures found { IfOk result (λ o. option_map record_of o ≡ laid_over (Some (change_of change.now)) None) }
{
    change.created()
}

// A record that is there, as the change of its identifier shows it.
fn changed_record(change: &Change, stored: Stored) -> Result<Option<Stored>, NoMemory>
    requires change { IsFor stored.rid (change_of change.now) }
    requires stored { HasOwnFields stored.fields }
    ensures own { IfOk result (λ o. IfSome o (λ shown. (shown.rid ≡ stored.rid) × HasOwnFields shown.fields)) }
    ensures found { IfOk result (λ o. option_map record_of o
        ≡ laid_over (Some (change_of change.now)) (Some (record_of stored))) }
{
    match change {
        Change::Create { .. } => new_record(change, stored.rid),
        Change::Update {
            version,
            fields,
            ..
        } => Ok(Some(Stored {
            rid: stored.rid,
            version: *version,
            class: stored.class,
            fields: fields.copy()?,
        })),
        Change::Delete { .. } => Ok(None),
        Change::Touch { .. } => Ok(Some(stored)),
    }
}

// Whether a change shows something of a record that is there.
fn keeps_record(change: &Change) -> bool
    ensures { result ≡ needs_record (change_of change.now) }
{
    match change {
        Change::Create { .. } => false,
        Change::Update { .. } => true,
        Change::Delete { .. } => false,
        Change::Touch { .. } => true,
    }
}

// The record with an identifier, as the change of it shows it. The reader isn't asked where the change makes or
// deletes it.
fn fetch_changed<R: Reader>(
    reader: &mut R,
    change: &Change,
    rid: Rid,
) -> Result<Option<Stored>, ReadFault>
    requires { IsFor rid (change_of change.now) }
    ensures own { IfOk result (λ o. IfSome o (λ stored. (stored.rid ≡ rid) × HasOwnFields stored.fields)) }
    ensures found { IfOk result (λ o. IfSome (R.view reader.old) (λ shown.
        option_map record_of o ≡ laid_over (Some (change_of change.now)) (record_at shown.records rid))) }
    ensures fault { IfErr result (MayFail (R.view reader.old)) }
    ensures same { IsUnchanged R.view R.state R.sound R.lent R.below reader.old reader.new }
    ensures one_record { R.fetched reader.new ≤ raised_count (R.fetched reader.old) }
    ensures causes { R.causes reader.new ≡ read_counted result (R.causes reader.old) }
{
    if !keeps_record(change) {
        return Ok(new_record(change, rid)?);
    }
    match reader.fetch(rid)? {
        None => Ok(None),
        Some(stored) => Ok(changed_record(change, stored)?),
    }
}

// The record with an identifier, as the change of it shows it, where there is one.
fn fetch_with<R: Reader>(
    reader: &mut R,
    change: Option<&Change>,
    rid: Rid,
) -> Result<Option<Stored>, ReadFault>
    requires { IfSome (option_map (λ c. change_of c.now) change) (IsFor rid) }
    ensures own { IfOk result (λ o. IfSome o (λ stored. (stored.rid ≡ rid) × HasOwnFields stored.fields)) }
    ensures found { IfOk result (λ o. IfSome (R.view reader.old) (λ shown.
        option_map record_of o
        ≡ laid_over (option_map (λ c. change_of c.now) change.entry) (record_at shown.records rid))) }
    ensures fault { IfErr result (MayFail (R.view reader.old)) }
    ensures same { IsUnchanged R.view R.state R.sound R.lent R.below reader.old reader.new }
    ensures one_record { R.fetched reader.new ≤ raised_count (R.fetched reader.old) }
    ensures causes { R.causes reader.new ≡ read_counted result (R.causes reader.old) }
{
    match change {
        None => reader.fetch(rid),
        Some(change) => fetch_changed(reader, change, rid),
    }
}
