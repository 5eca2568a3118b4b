// Classes, their properties, and indexes.
ghost use Rattle.std.specs.Prelude.{◌≡◌, IfOk};

use ori_bytes::{Copied, ListOf, NoMemory, Text};
use ori_value::{Kind, TextList};

/// A property of a class: the kind of its values, and what is asked of them, after OrientDB's manual ("CREATE
/// PROPERTY"). It holds for the class's subclasses too.
#[derive(Drop)]
pub struct Property {
    pub name: Text,
    pub kind: Kind,
    /// A record must have it.
    pub mandatory: bool,
    /// It may not be null.
    pub notnull: bool,
    /// An update may not change it.
    pub readonly: bool,
    /// The least number that it may be; a time counts milliseconds since 1970.
    pub min: Option<i64>,
    /// The greatest number that it may be.
    pub max: Option<i64>,
}

impl Property {
    /// A copy, or out of memory.
    pub fn copy(&self) -> Result<Self, NoMemory>
        ensures { IfOk result (λ p. p ≡ self.now) }
    {
        Ok(Property {
            name: self.name.copy()?,
            kind: self.kind,
            mandatory: self.mandatory,
            notnull: self.notnull,
            readonly: self.readonly,
            min: self.min,
            max: self.max,
        })
    }
}

impl Copied for Property {
    fn copied(&self) -> Result<Self, NoMemory> {
        self.copy()
    }
}

/// A list of properties.
pub type PropertyList = ListOf<Property>;

/// A class of records, which live in its cluster. Class k of a schema, counted from 0, has cluster k + 1. Its
/// properties are its own, without those of the class that it extends. After OrientDB's manual ("Classes").
#[derive(Drop)]
pub struct Class {
    pub name: Text,
    pub parent: Option<Text>,
    pub cluster: i16,
    pub properties: PropertyList,
}

impl Class {
    /// A copy, or out of memory.
    pub fn copy(&self) -> Result<Self, NoMemory>
        ensures { IfOk result (λ c. c ≡ self.now) }
    {
        let name = self.name.copy()?;
        let properties = self.properties.copy()?;
        let cluster = self.cluster;
        match &self.parent {
            None => Ok(Class {
                name,
                parent: None,
                cluster,
                properties,
            }),
            Some(parent) => Ok(Class {
                name,
                parent: Some(parent.copy()?),
                cluster,
                properties,
            }),
        }
    }
}

impl Copied for Class {
    fn copied(&self) -> Result<Self, NoMemory> {
        self.copy()
    }
}

/// A list of classes.
pub type ClassList = ListOf<Class>;

/// An index on properties of a class and its subclasses, after OrientDB's manual ("Indexes").
#[derive(Drop)]
pub struct IndexDef {
    pub name: Text,
    pub class: Text,
    pub properties: TextList,
    /// No two records have one key.
    pub unique: bool,
}

impl IndexDef {
    /// A copy, or out of memory.
    pub fn copy(&self) -> Result<Self, NoMemory>
        ensures { IfOk result (λ i. i ≡ self.now) }
    {
        Ok(IndexDef {
            name: self.name.copy()?,
            class: self.class.copy()?,
            properties: self.properties.copy()?,
            unique: self.unique,
        })
    }
}

impl Copied for IndexDef {
    fn copied(&self) -> Result<Self, NoMemory> {
        self.copy()
    }
}

/// A list of indexes.
pub type IndexDefList = ListOf<IndexDef>;

/// Classes and indexes, each in order of creation. The first two classes are V and E.
#[derive(Drop)]
pub struct Schema {
    pub classes: ClassList,
    pub indexes: IndexDefList,
}

impl Schema {
    /// A copy, or out of memory.
    pub fn copy(&self) -> Result<Self, NoMemory>
        ensures { IfOk result (λ s. s ≡ self.now) }
    {
        Ok(Schema {
            classes: self.classes.copy()?,
            indexes: self.indexes.copy()?,
        })
    }
}
