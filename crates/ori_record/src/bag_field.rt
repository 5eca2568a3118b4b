// The bag of a vertex's edges, as a field of its record.
use ori_bytes::{Bag, Text};
use ori_model::Dir;

/// The bag of a vertex's edges of one class and direction, as its record has it: a field whose name is `out_` or `in_`
/// and the class, after OrientDB's manual ("Graph: vertices and edges").
#[derive(Drop)]
pub struct BagField {
    /// Edges out of the vertex, or into it.
    pub dir: Dir,
    /// The class of the edges.
    pub class: Text,
    /// The identifiers of the edges.
    pub bag: Bag,
}
