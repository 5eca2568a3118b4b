// Lists of texts, and of keys with record identifiers.
use ori_bytes::{Blob, ListOf, Rid, Text};

/// A list of texts, which a contract sees as the list of their bytes.
pub type TextList = ListOf<Text>;

/// A list of keys, each of them bytes, with the records that have them.
pub type KeyList = ListOf<(Blob, Rid)>;
