//! What an operation changes, over pages as they are. Nobody else sees it before a commit takes its
//! [`Overlay::images`].
//!
//! An [`Overlay`] is a [`PageSpace`](ori_page::PageSpace) over a [`PageSource`], whose pages are only read.
#![tactic(auto)]

mod changes;
mod free;
mod overlay;
mod source;
mod space;

pub use changes::Changes;
pub use overlay::Overlay;
pub use source::PageSource;
