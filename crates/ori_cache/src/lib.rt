//! Pages through the cache: what a partition holds is copied, and else the page's home is read, and kept where there is
//! memory for it.
#![tactic(auto)]

mod home;
mod looking;
mod operation;
mod pool;
mod reading;
mod source;
mod space;

pub use operation::AtomicOp;
pub use pool::Pool;
pub use reading::read_page;
pub use source::Cached;
