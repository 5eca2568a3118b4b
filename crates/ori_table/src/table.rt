// The records of cluster 1 in memory, by their positions.
ghost use Rattle.std.specs.Prelude.{◌≡◌, ◌+◌, ◌<◌, ◌≤◌, ◌++◌, [], ◌∷◌, ℕ, List, None, get_or, length, option_map};
ghost use Rattle.std.specs.Prelude.{vec_len, vec_capacity, IfOk, IfSome, OnOk, OnErr};
ghost use Rattle.ori_bytes.specs.declared.limits.TheConstants.{MAX_PAGES};
ghost use Rattle.ori_spec_data.specs.Base.{initial_base};
ghost use Rattle.ori_spec_data.specs.Apply.{rid_at, HasOwnFields};
ghost use Rattle.ori_spec_data.specs.Records.{record_at};
ghost use Rattle.ori_model.specs.Data.{schema_of, record_of};
ghost use Rattle.std.specs.Prelude.{map, MatchOption};
ghost use Rattle.ori_rows.specs.Rows.{records_of};
ghost use Rattle.ori_table.specs.Kept.{row_of, rows_of, AreKept};

use crate::Outcome;
use ori_bytes::{NoMemory, Rid, Text};
use ori_decide::Records;
use ori_model::{Class, ClassList, IndexDefList, PropertyList, Schema, Stored};
use std::alloc::Global;
use std::marker::Model;

// The cluster of class V.
const FIRST_CLUSTER: i16 = 1;

/// The records of cluster 1 by their positions, under the schema of a new database. A contract sees the list of the
/// positions, each with its record or none, and for how many more a place is reserved.
#[derive(Drop)]
pub struct Table {
    schema: Schema,
    rows: Vec<Option<Stored>>,
}

impl Model for Table {
    ghost use Rattle.std.specs.Prelude.{◌≡◌, ◌-◌, ℕ, List, Option, vec_len, vec_capacity};
    ghost use Rattle.std.specs.Coded.{coded_list, coded_option, coded×, coded_ℕ};
    ghost use Rattle.ori_spec_data.specs.Base.{initial_base};
    ghost use Rattle.ori_model.specs.declared.record.Stored.{Stored};
    ghost use Rattle.ori_model.specs.contracts.record.Stored as stored;
    ghost use Rattle.ori_model.specs.Data.{schema_of};
    ghost use Rattle.ori_table.specs.Kept.{rows_of, AreKept};

    ghost Value = { List (Option Stored) × ℕ };

    ghost coded = { coded× (coded_list (coded_option stored.the_row.coded)) coded_ℕ };

    ghost view = { λ t. (t.rows.items, vec_capacity t.rows - vec_len t.rows) };

    ghost invariant = { λ t. (schema_of t.schema ≡ initial_base.schema) × AreKept (rows_of t.rows.items) };
}

// A class without parent or properties.
fn root_class(alloc: Global, name: &str, cluster: i16) -> Result<Class, NoMemory>
    ensures name { IfOk result (λ c. c.name ≡ name.now) }
    ensures parent { IfOk result (λ c. c.parent ≡ None) }
    ensures cluster { IfOk result (λ c. c.cluster ≡ cluster) }
    ensures properties { IfOk result (λ c. c.properties ≡ []) }
{
    Ok(Class {
        name: Text::from_str(alloc, name)?,
        parent: None,
        cluster,
        properties: PropertyList::new(alloc),
    })
}

// The schema of a new database.
fn initial_schema(alloc: Global) -> Result<Schema, NoMemory>
    ensures { IfOk result (λ s. schema_of s ≡ initial_base.schema) }
{
    let mut classes = ClassList::new(alloc);
    classes.push(root_class(alloc, "V", 1)?)?;
    classes.push(root_class(alloc, "E", 2)?)?;
    Ok(Schema {
        classes,
        indexes: IndexDefList::new(alloc),
    })
}

// The position of an identifier of cluster 1.
fn place_of(rid: Rid) -> Option<u64>
    ensures { MatchOption result ((p : ℕ) → rid ≡ rid_at 1 p → ⊥) (λ place. rid ≡ rid_at 1 place) }
{
    if rid.cluster != FIRST_CLUSTER || rid.position < 0 {
        return None;
    }
    Some(rid.position as u64)
}

impl Table {
    ghost use Rattle.ori_table.specs.Data.{outcome_data, CanLay};
    ghost use Rattle.ori_rows.specs.Outcomes.{put_row, put_rows};

    /// No position is given.
    pub fn new(alloc: Global) -> Result<Table, NoMemory>
        ensures { IfOk result (λ table. table.0 ≡ []) }
    {
        Ok(Table {
            schema: initial_schema(alloc)?,
            rows: Vec::new(alloc),
        })
    }

    /// What each table keeps.
    pub fn keeps(&self)
        ensures { AreKept (rows_of self.now.0) }
    {
        let _ = &self.schema;
    }

    /// The schema.
    pub fn schema(&self) -> &Schema
        ensures { schema_of result.now ≡ initial_base.schema }
    {
        &self.schema
    }

    /// How many positions are given.
    pub fn len(&self) -> u64
        ensures count { result ≡ length self.now.0 }
        ensures few { result < MAX_PAGES }
    {
        self.rows.len() as u64
    }

    /// The record at a position.
    pub(crate) fn row(&self, place: u64) -> Option<&Stored>
        ensures { option_map (λ s. record_of s.now) result ≡ get_or (rows_of self.now.0) place None }
    {
        self.rows.get(place as usize)?.as_ref()
    }

    /// The record with an identifier.
    pub fn find(&self, rid: Rid) -> Option<&Stored>
        ensures found { option_map (λ s. record_of s.now) result ≡ record_at (records_of (rows_of self.now.0)) rid }
        ensures own { IfSome result (λ s. (s.now.rid ≡ rid) × HasOwnFields s.now.fields) }
    {
        self.keeps();
        match place_of(rid) {
            Some(place) => self.row(place),
            None => None,
        }
    }

    /// A copy of the record with an identifier.
    pub fn fetch(&self, rid: Rid) -> Result<Option<Stored>, NoMemory>
        ensures found { IfOk result (λ o. option_map record_of o ≡ record_at (records_of (rows_of self.now.0)) rid) }
        ensures own { IfOk result (λ o. IfSome o (λ s. (s.rid ≡ rid) × HasOwnFields s.fields)) }
    {
        match self.find(rid) {
            Some(stored) => Ok(Some(stored.copy()?)),
            None => Ok(None),
        }
    }

    /// Reserves places for so many positions more.
    pub fn reserve(&mut self, more: usize) -> Result<(), NoMemory>
        ensures rows { self.new.0 ≡ self.old.0 }
        ensures room { OnOk result (more ≤ self.new.1) }
    {
        self.rows.reserve(more)?;
        Ok(())
    }

    /// Adds a position at the end.
    pub fn push(&mut self, row: Option<Stored>) -> Result<(), NoMemory>
        requires { AreKept (rows_of self.old.0 ++ row_of row ∷ []) }
        ensures { OnOk result (self.new.0 ≡ self.old.0 ++ row ∷ []) }
    {
        self.rows.push(row)?;
        Ok(())
    }

    // Puts an outcome, for which a place is reserved.
    fn put(&mut self, outcome: Outcome)
        requires room { 0 < self.old.1 }
        requires kept { AreKept (put_row (rows_of self.old.0) (outcome_data outcome)) }
        ensures rows { rows_of self.new.0 ≡ put_row (rows_of self.old.0) (outcome_data outcome) }
        ensures room { self.old.1 ≤ self.new.1 + 1 }
    {
        let Outcome { place, row } = outcome;
        let at = place as usize;
        if at < self.rows.len() {
            self.rows[at] = row;
        } else {
            let _ = self.rows.push(row);
        }
    }

    /// Puts outcomes, for which places are reserved.
    pub fn lay(&mut self, outcomes: Vec<Outcome>)
        requires room { length outcomes.items ≤ self.old.1 }
        requires kept { CanLay (rows_of self.old.0) (map outcome_data outcomes.items) }
        ensures { rows_of self.new.0 ≡ put_rows (rows_of self.old.0) (map outcome_data outcomes.items) }
    {
        for outcome in outcomes {
            self.put(outcome);
        }
    }
}

impl Records for Table {
    ghost stored = { λ table. records_of (rows_of table.0) };

    fn find(&self, rid: Rid) -> Option<&Stored> {
        Table::find(self, rid)
    }
}
