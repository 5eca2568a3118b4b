// Kinds of values.

/// The kinds that a value can have. Null has none.
#[derive(Clone, Copy)]
pub enum Kind {
    Boolean,
    Integer,
    Short,
    Long,
    Datetime,
    Str,
    Binary,
    Embedded,
    EmbeddedList,
    EmbeddedMap,
    Link,
    LinkList,
    LinkSet,
    LinkMap,
    Byte,
}
