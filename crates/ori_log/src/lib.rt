//! The write-ahead log: records of page images in one of two files, each behind a gate, and the last gate closed.
//!
//! A record is written whole behind its closed gate and made firm before the gate is opened, so that a crash leaves the
//! records from before it, or those and the new one. No checksum is used.
#![tactic(auto)]

mod attach;
mod fault;
mod form;
mod image;
mod log;
mod opening;
mod sizes;
mod stage;
mod switch;
mod tail;

pub use fault::LogFault;
pub use image::{ImageList, PageImage};
pub use log::Log;
