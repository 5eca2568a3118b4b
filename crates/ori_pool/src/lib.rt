//! The cache over the device: the pages as they are, by the log, the homes and the partitions.
//!
//! A [`Device`] is a volume with its log. Each call of it says which cover of the pages it keeps at every moment, and
//! what holds after it: by these a crash at any moment gives the pages.
#![tactic(auto)]

mod committing;
mod device;
mod fault;
mod finishing;
mod flushing;
mod hand;
mod home;
mod images;
mod record;
mod sending;
mod settling;

pub use committing::commit;
pub use device::Device;
pub use fault::{DeviceFault, OpFault, TendFault};
pub use finishing::{checkpoint, finish};
pub use flushing::flush;
pub use hand::Hand;
pub use images::install_images;
pub use sending::send_home;
pub use settling::settle;
