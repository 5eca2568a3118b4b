//! Lines of text in and out: reading lines from a source, what each says, the texts of replies and histories, and
//! printing.
//!
//! [`LineReader::next`] gives the lines of the bytes that the source gives, each before more is read. A contract sees a
//! reader as a `Reading`: how many bytes it gave as lines, which it holds, and whether the source has given its end.
//! [`reply_text`] and [`history_text`] are the lines of a reply and of a history, [`row_json`] a row as JSON. [`print`]
//! gives a text to a sink.
#![tactic(auto)]

mod history;
mod json;
mod line;
mod pieces;
mod printing;
mod refusal;
mod reply;

pub use history::history_text;
pub use json::row_json;
pub use line::{Line, LineFault, LineReader, StepLine};
pub use pieces::{after, is_word, read_link, split_at_space};
pub use printing::print;
pub use reply::{reply_text, step_done_text, step_refusal_text};
