// The read step of a statement: what it means over the records that the session sees.
ghost use Rattle.std.specs.Prelude.{◌≡◌, ◌≤◌, List, Some, map, IsTrue, IfOk, IfErr, IfSome, OnErr};
ghost use Rattle.ori_bytes.specs.declared.rid.Rid.{Rid};
ghost use Rattle.ori_spec_data.specs.Base.{RecordData};
ghost use Rattle.ori_spec_data.specs.Apply.{IsFormed};
ghost use Rattle.ori_spec_data.specs.Keeping.{raised_count};
ghost use Rattle.ori_spec_data.specs.Staging.{CanStage};
ghost use Rattle.ori_spec_texts.specs.Statement.{is_field_name, inserts, updates, deletes_vertex};
ghost use Rattle.ori_spec_runs.specs.Answer.{made_in, seen, changes_by, selected, meaning};
ghost use Rattle.ori_model.specs.Data.{change_of, tx_of};
ghost use Rattle.ori_model.specs.Reading.{read_counted, MayFail};
ghost use Rattle.ori_model.specs.Standing.{IsUnchanged};
ghost use Rattle.ori_session.specs.declared.stage.Stage.TheVariants.{Answered};
ghost use Rattle.ori_session.specs.Statements.{literal_of, statement_of};
ghost use Rattle.ori_session.specs.Sessions.{current_of, data_of, joined_by, is_hidden_by, is_hidden};
ghost use Rattle.ori_session.specs.Reads.{told_real, IsNamed, WhereReal, IsSeen, IsChangeable};
ghost use Rattle.ori_session.specs.Reads.{IsStage, HasFront, CanGoOn, Reads};

use crate::changing::{creation, single, with_field};
use crate::hand::{Literal, Statement, read_statement};
use crate::replies::{granted, read_refusal, refused};
use crate::rows::whole_row;
use crate::{Session, Stage};
use ori_bytes::{NoMemory, Rid};
use ori_decide::is_temporary;
use ori_model::{Change, ChangeList, ReadFault, Reader, Refusal, Reply, RowList, Stored};
use ori_txn::{TxBuffer, TxReader};
use std::alloc::Global;

// Whether a change takes a record away.
fn is_deletion(change: &Change) -> bool
    ensures { (rid : Rid) → result ≡ is_hidden_by (Some (change_of change.now)) rid }
{
    match change {
        Change::Create { .. } => false,
        Change::Update { .. } => false,
        Change::Delete { .. } => true,
        Change::Touch { .. } => false,
    }
}

// Whether no statement can name a record in a transaction.
fn is_hidden_in(buffer: &TxBuffer, rid: Rid) -> bool
    ensures hidden { result ≡ is_hidden (Some (tx_of buffer.now)) rid }
    ensures formed { IsFormed (tx_of buffer.now) }
{
    match buffer.change_of(rid) {
        None => is_temporary(rid),
        Some(change) => is_deletion(change),
    }
}

impl Session {
    // Whether no statement of the session can name a record: it has deleted it, or the identifier is a temporary one
    // that it hasn't given out. A reader need not know.
    fn hides(&self, rid: Rid) -> bool
        ensures hidden { result ≡ is_hidden (current_of self.now) rid }
        ensures formed { IfSome (current_of self.now) IsFormed }
    {
        match &self.current {
            None => is_temporary(rid),
            Some(buffer) => is_hidden_in(buffer, rid),
        }
    }

    // The record that the session sees at an identifier.
    fn find<R: Reader>(&self, reader: &mut R, rid: Rid) -> Result<Option<Stored>, ReadFault>
        ensures found { IfOk result (IsSeen (R.view reader.old) (current_of self.now) rid) }
        ensures own { IfOk result (λ found. IfSome found (IsChangeable (current_of self.now) rid)) }
        ensures fault { IfErr result (MayFail (told_real (R.view reader.old))) }
        ensures causes { R.causes reader.new ≡ read_counted result (R.causes reader.old) }
        ensures same { IsUnchanged R.view R.state R.sound R.lent R.below reader.old reader.new }
        ensures one_record { R.fetched reader.new ≤ raised_count (R.fetched reader.old) }
    {
        if self.hides(rid) {
            return Ok(None);
        }
        match &self.current {
            None => reader.fetch(rid),
            Some(buffer) => TxReader::over_buffer(reader, buffer).fetch(rid),
        }
    }

    // The change of an INSERT.
    fn inserted(
        &self,
        alloc: Global,
        name: &str,
        value: Literal<'_>,
    ) -> Result<ChangeList, NoMemory>
        requires { IsTrue (is_field_name name.now) }
        ensures are { IfOk result (λ cs. (records : List RecordData) → map change_of cs
            ≡ changes_by records (made_in (current_of self.now)) (inserts name.now (literal_of value.entry))) }
        ensures can { IfOk result (λ cs. CanStage (joined_by (current_of self.now)) (map change_of cs)) }
    {
        let change = creation(alloc, self.next_temp(), name, value)?;
        single(alloc, change)
    }

    // The change of an UPDATE; none where no record is there.
    fn updated<R: Reader>(
        &self,
        alloc: Global,
        reader: &mut R,
        rid: Rid,
        name: &str,
        value: Literal<'_>,
    ) -> Result<ChangeList, ReadFault>
        requires { IsTrue (is_field_name name.now) }
        ensures are { IfOk result (λ cs. WhereReal (R.view reader.old) (λ shown. map change_of cs
            ≡ changes_by (seen shown.records (current_of self.now)) (made_in (current_of self.now))
            (updates rid name.now (literal_of value.entry)))) }
        ensures can { IfOk result (λ cs. CanStage (joined_by (current_of self.now)) (map change_of cs)) }
        ensures fault { IfErr result (MayFail (told_real (R.view reader.old))) }
        ensures causes { R.causes reader.new ≡ read_counted result (R.causes reader.old) }
        ensures same { IsUnchanged R.view R.state R.sound R.lent R.below reader.old reader.new }
        ensures one_record { R.fetched reader.new ≤ raised_count (R.fetched reader.old) }
    {
        match self.find(reader, rid)? {
            None => Ok(ChangeList::new(alloc)),
            Some(stored) => {
                let change = with_field(alloc, stored, name, value)?;
                Ok(single(alloc, change)?)
            }
        }
    }

    // The change of a DELETE; none where no record is there.
    fn deleted<R: Reader>(
        &self,
        alloc: Global,
        reader: &mut R,
        rid: Rid,
    ) -> Result<ChangeList, ReadFault>
        ensures are { IfOk result (λ cs. WhereReal (R.view reader.old) (λ shown. map change_of cs
            ≡ changes_by (seen shown.records (current_of self.now)) (made_in (current_of self.now))
            (deletes_vertex rid))) }
        ensures can { IfOk result (λ cs. CanStage (joined_by (current_of self.now)) (map change_of cs)) }
        ensures fault { IfErr result (MayFail (told_real (R.view reader.old))) }
        ensures causes { R.causes reader.new ≡ read_counted result (R.causes reader.old) }
        ensures same { IsUnchanged R.view R.state R.sound R.lent R.below reader.old reader.new }
        ensures one_record { R.fetched reader.new ≤ raised_count (R.fetched reader.old) }
    {
        match self.find(reader, rid)? {
            None => Ok(ChangeList::new(alloc)),
            Some(stored) => {
                let change = Change::Delete {
                    rid: stored.rid,
                    version: stored.version,
                };
                Ok(single(alloc, change)?)
            }
        }
    }

    // The reply to a SELECT.
    fn selected<R: Reader>(
        &self,
        alloc: Global,
        front: u64,
        reader: &mut R,
        rid: Rid,
    ) -> Result<Reply, ReadFault>
        ensures reply { IfOk result (λ reply. WhereReal (R.view reader.old) (λ shown. IsStage
            (selected (seen shown.records (current_of self.now)) rid) (data_of self.now) (Answered reply)
            (data_of self.now))) }
        ensures front { IfOk result (λ reply. HasFront front (Answered reply)) }
        ensures fault { IfErr result (MayFail (told_real (R.view reader.old))) }
        ensures causes { R.causes reader.new ≡ read_counted result (R.causes reader.old) }
        ensures same { IsUnchanged R.view R.state R.sound R.lent R.below reader.old reader.new }
        ensures one_record { R.fetched reader.new ≤ raised_count (R.fetched reader.old) }
    {
        match self.find(reader, rid)? {
            None => Ok(granted(alloc, RowList::new(alloc), 0, front)),
            Some(stored) => {
                let mut rows = RowList::new(alloc);
                rows.push(whole_row(alloc, stored)?)?;
                Ok(granted(alloc, rows, 1, front))
            }
        }
    }

    // What a statement means to the session.
    fn run<R: Reader>(
        &mut self,
        alloc: Global,
        front: u64,
        reader: &mut R,
        statement: Statement<'_>,
    ) -> Result<Stage, ReadFault>
        requires { IsNamed statement }
        ensures stage { IfOk result (λ stage. WhereReal (R.view reader.old) (λ shown. IsStage
            (meaning shown (data_of self.old) (statement_of statement.entry)) (data_of self.old) stage
            (data_of self.new))) }
        ensures left { IfOk result (λ stage. CanGoOn (data_of self.old) stage (data_of self.new)) }
        ensures front { IfOk result (HasFront front) }
        ensures err { OnErr result (self.new ≡ self.old) }
        ensures number { self.new.number ≡ self.old.number }
        ensures fault { IfErr result (MayFail (told_real (R.view reader.old))) }
        ensures causes { R.causes reader.new ≡ read_counted result (R.causes reader.old) }
        ensures same { IsUnchanged R.view R.state R.sound R.lent R.below reader.old reader.new }
        ensures one_record { R.fetched reader.new ≤ raised_count (R.fetched reader.old) }
    {
        match statement {
            Statement::Insert { name, value } => {
                let changes = self.inserted(alloc, name, value)?;
                Ok(self.change(alloc, front, changes)?)
            }
            Statement::Select { rid } => {
                Ok(Stage::Answered(self.selected(alloc, front, reader, rid)?))
            }
            Statement::Update { rid, name, value } => {
                let changes = self.updated(alloc, reader, rid, name, value)?;
                Ok(self.change(alloc, front, changes)?)
            }
            Statement::DeleteVertex { rid } => {
                let changes = self.deleted(alloc, reader, rid)?;
                Ok(self.change(alloc, front, changes)?)
            }
            Statement::Begin => Ok(Stage::Answered(self.begun(alloc, front))),
            Statement::Commit => Ok(self.ended(alloc, front)),
            Statement::Rollback => Ok(Stage::Answered(self.rolled_back(alloc, front))),
        }
    }

    /// Reads a statement and does what it means, up to a commit: over the records that the reader shows, with the
    /// changes of the open transaction. A text that is no statement is answered `Unbuilt`. A fault of the reader and
    /// out of memory are answered too. After each refusal what is kept of the session is as before. The front is
    /// that of what the reader shows. At most one record is fetched.
    pub fn read_step<R: Reader>(
        &mut self,
        alloc: Global,
        front: u64,
        reader: &mut R,
        text: &str,
    ) -> Stage
        ensures reads { Reads (R.view reader.old) text.now (R.causes reader.old) (R.causes reader.new)
            (data_of self.old) result (data_of self.new) }
        ensures left { CanGoOn (data_of self.old) result (data_of self.new) }
        ensures front { HasFront front result }
        ensures number { self.new.number ≡ self.old.number }
        ensures same { IsUnchanged R.view R.state R.sound R.lent R.below reader.old reader.new }
        ensures one_record { R.fetched reader.new ≤ raised_count (R.fetched reader.old) }
    {
        match read_statement(text) {
            None => Stage::Answered(refused(alloc, Refusal::Unbuilt, front)),
            Some(statement) => match self.run(alloc, front, reader, statement) {
                Ok(stage) => stage,
                Err(fault) => Stage::Answered(refused(alloc, read_refusal(fault), front)),
            },
        }
    }
}
