// Values and documents.
ghost use Rattle.std.specs.Prelude.{◌≡◌, IfOk};
ghost use Rattle.ori_value.specs.View.{tree_of};

use crate::fields::FieldList;
use crate::rid_fields::RidFieldList;
use crate::values::ValueList;
use ori_bytes::{Blob, NoMemory, Rid, RidList, Text};

/// A value of a field, of a list or of a map. Its plain tree is `tree_of` of it.
#[cycle(values)]
#[derive(Drop)]
pub enum Value {
    Null,
    Boolean(bool),
    Integer(i32),
    Short(i16),
    Long(i64),
    /// A moment as a whole number, after OrientDB in milliseconds since 1970-01-01T00:00:00Z.
    Datetime(i64),
    Str(Text),
    Binary(Blob),
    Embedded(Document),
    EmbeddedList(ValueList),
    EmbeddedMap(FieldList),
    Link(Rid),
    LinkList(RidList),
    /// The identifiers rise by cluster and position.
    LinkSet(RidList),
    LinkMap(RidFieldList),
    Byte(i8),
}

/// A class, whose name may be empty, and fields.
#[cycle(values)]
#[derive(Drop)]
pub struct Document {
    pub class: Text,
    pub fields: FieldList,
}

impl Value {
    /// A copy.
    #[cycle(copies)]
    pub fn copy(&self) -> Result<Self, NoMemory>
        ensures { IfOk result (λ v. tree_of v ≡ tree_of self.now) }
    {
        Ok(match self {
            Value::Null => Value::Null,
            Value::Boolean(is_true) => Value::Boolean(*is_true),
            Value::Integer(number) => Value::Integer(*number),
            Value::Short(number) => Value::Short(*number),
            Value::Long(number) => Value::Long(*number),
            Value::Datetime(moment) => Value::Datetime(*moment),
            Value::Str(text) => Value::Str(text.copy()?),
            Value::Binary(bytes) => Value::Binary(bytes.copy()?),
            Value::Embedded(document) => Value::Embedded(document.copy()?),
            Value::EmbeddedList(values) => Value::EmbeddedList(values.copy()?),
            Value::EmbeddedMap(fields) => Value::EmbeddedMap(fields.copy()?),
            Value::Link(rid) => Value::Link(*rid),
            Value::LinkList(rids) => Value::LinkList(rids.copy()?),
            Value::LinkSet(rids) => Value::LinkSet(rids.copy()?),
            Value::LinkMap(links) => Value::LinkMap(links.copy()?),
            Value::Byte(number) => Value::Byte(*number),
        })
    }
}

impl Document {
    /// A copy.
    #[cycle(copies)]
    pub fn copy(&self) -> Result<Self, NoMemory>
        ensures { IfOk result (λ d. d ≡ self.now) }
    {
        Ok(Document {
            class: self.class.copy()?,
            fields: self.fields.copy()?,
        })
    }
}
