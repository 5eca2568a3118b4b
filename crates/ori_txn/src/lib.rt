//! Open transactions: the buffer that statements stage their changes in, and a reader that shows a database as the
//! transaction would have it.
#![tactic(auto)]

mod buffer;
mod merge;
mod overlay;
mod reader;

pub use buffer::TxBuffer;
pub use reader::TxReader;
