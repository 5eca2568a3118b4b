// Records as rows.
ghost use Rattle.std.specs.Prelude.{◌≡◌, ◌++◌, ◌∷◌, [], map, IfOk, OnOk};
ghost use Rattle.ori_spec_data.specs.Fields.{put};
ghost use Rattle.ori_spec_texts.specs.Statement as spec;
ghost use Rattle.ori_value.specs.View.{tree_of};
ghost use Rattle.ori_model.specs.Data.{record_of, change_of};
ghost use Rattle.ori_model.specs.Replies.{row_of};
ghost use Rattle.ori_session.specs.Statements.{literal_of};
ghost use Rattle.ori_session.specs.Rows.{rows_as};

use crate::hand::Literal;
use ori_bytes::{NoMemory, Text};
use ori_model::{Change, Row, RowList, Stored};
use ori_value::{FieldList, Value};
use std::alloc::Global;

// A whole number as the least kind that has it.
fn whole_number(number: u32) -> Value
    ensures { tree_of result ≡ spec.whole_number number }
{
    match i32::try_from(number) {
        Ok(small) => Value::Integer(small),
        Err(_) => Value::Long(i64::from(number)),
    }
}

// The value that a statement writes.
pub fn written(alloc: Global, literal: Literal<'_>) -> Result<Value, NoMemory>
    ensures { IfOk result (λ v. tree_of v ≡ literal_of literal.entry) }
{
    match literal {
        Literal::Quoted(text) => Ok(Value::Str(Text::from_str(alloc, text)?)),
        Literal::Small(number) => Ok(Value::Integer(number)),
        Literal::Large(number) => Ok(Value::Long(number)),
        Literal::Link(rid) => Ok(Value::Link(rid)),
    }
}

// Puts a value at a name.
pub fn put_named(
    alloc: Global,
    fields: &mut FieldList,
    name: &str,
    value: Value,
) -> Result<(), NoMemory>
    ensures { OnOk result (fields.new ≡ put name.now (tree_of value) fields.old) }
{
    fields.set(Text::from_str(alloc, name)?, value)?;
    Ok(())
}

// A record as a row.
pub fn whole_row(alloc: Global, stored: Stored) -> Result<Row, NoMemory>
    ensures { IfOk result (λ r. row_of r ≡ spec.whole_row (record_of stored)) }
{
    let mut columns = stored.fields;
    put_named(
        alloc,
        &mut columns,
        "@version",
        whole_number(stored.version),
    )?;
    put_named(alloc, &mut columns, "@rid", Value::Link(stored.rid))?;
    put_named(alloc, &mut columns, "@class", Value::Str(stored.class))?;
    Ok(Row { columns })
}

// The rows of the records that changes make, with this version.
pub fn rows_as(alloc: Global, version: u32, changes: &[Change]) -> Result<RowList, NoMemory>
    ensures { IfOk result (λ rows. map row_of rows ≡ rows_as version (map change_of changes.now)) }
{
    let mut rows = RowList::new(alloc);
    for change in changes {
        add_row(alloc, &mut rows, version, change)?;
    }
    Ok(rows)
}

// One row more, where a change makes a record.
fn add_row(alloc: Global, rows: &mut RowList, version: u32, change: &Change) -> Result<(), NoMemory>
    ensures { OnOk result (map row_of rows.new ≡ map row_of rows.old ++ rows_as version (change_of change.now ∷ [])) }
{
    match change {
        Change::Create {
            temp,
            class,
            fields,
        } => {
            let stored = Stored {
                rid: *temp,
                version,
                class: class.copy()?,
                fields: fields.copy()?,
            };
            rows.push(whole_row(alloc, stored)?)
        }
        Change::Update { .. } => Ok(()),
        Change::Delete { .. } => Ok(()),
        Change::Touch { .. } => Ok(()),
    }
}
