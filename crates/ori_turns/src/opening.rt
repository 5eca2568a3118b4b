// A volume is opened.
ghost use Rattle.std.specs.Prelude.{◌≡◌, ◌≤◌, ◌⊎◌, ℕ, List, length, map, max, min, None, Some, IfSome, IfOk};
ghost use Rattle.std.specs.Prelude.{OnOk, OnErr, IsErrOf};
ghost use Rattle.ori_bytes.specs.declared.limits.TheConstants.{MAX_PAGES};
ghost use Rattle.ori_volume.specs.declared.file.FileNo.{FileNo};
ghost use Rattle.ori_volume.specs.Causes.{HasCause};
ghost use Rattle.ori_volume.specs.OnlyRead.{IsOnlyRead};
ghost use Rattle.ori_volume.specs.Story.{Tells};
ghost use Rattle.ori_log.specs.Appending.{FailsAs};
ghost use Rattle.ori_log.specs.Attaching.{IsKeptOrMade};
ghost use Rattle.ori_log.specs.Forms.{BreaksFirst};
ghost use Rattle.ori_log.specs.Images.{image_data, AreRising};
ghost use Rattle.ori_log.specs.Log.{ImageData, pages_at_home, pages_named};
ghost use Rattle.ori_log.specs.declared.fault.LogFault.{LogFault};
ghost use Rattle.ori_cover.specs.Dirty.{Dirty, AreInstalled};
ghost use Rattle.ori_pool.specs.Held.{HoldsAll, AreOwn, HaveFrom, HaveNoMore, dirty_with};
ghost use Rattle.ori_turns.specs.declared.opening.StartFault.{StartFault};
ghost use Rattle.ori_turns.specs.Knowing.{Knows};
ghost use Rattle.ori_turns.specs.Openings.{AreRead, IsAsEnded};
ghost use Rattle.ori_turns.specs.Seats.{last_of};
ghost use Rattle.ori_turns.specs.Works.{Starts, StartRefused, seen};

use crate::Known;
use ori_bytes::limits::MAX_PAGES;
use ori_log::{ImageList, LogFault, PageImage};
use ori_pool::{Device, Hand, install_images};
use ori_volume::{Failed, FileNo, Volume};
use std::alloc::Global;
use thiserror::Error;

/// Why a volume isn't opened.
#[derive(Clone, Copy, Debug, PartialEq, Eq, Error)]
pub enum StartFault {
    /// The device failed.
    #[error("the device failed")]
    Fault,
    /// The files aren't of the form of a database: this is the first that breaks it.
    #[error("{file:?} is not of the form of a database")]
    NotADatabase { file: FileNo },
    /// Another handle held turn 0 to 7, of a cache partition, or 8, of the device.
    #[error("turn {turn} is held")]
    Busy { turn: u8 },
    /// Out of memory.
    #[error("out of memory")]
    NoMemory,
}

/// What an opening answers.
#[derive(Clone, Copy)]
pub struct Opening {
    /// How many pages there are.
    pub count: u32,
    /// The volume's moment at its end.
    pub moment: u64,
    /// How many calls of the volume had failed then.
    pub faults: u64,
    /// How many of the log's had.
    pub log_faults: u64,
    /// What is known of the log then.
    pub known: Known,
}

// Why it isn't, by the log.
fn refused(fault: LogFault) -> StartFault
    ensures fault { result ≡ StartFault.Fault → (fault ≡ LogFault.Failed)
        ⊎ ((need : ℕ) × (room : ℕ) × (fault ≡ LogFault.LogFull need room)) }
    ensures not_a_log { (file : FileNo) → result ≡ StartFault.NotADatabase file → fault ≡ LogFault.NotALog file }
    ensures never { (turn : ℕ) → result ≡ StartFault.Busy turn → ⊥ }
{
    match fault {
        LogFault::Failed => StartFault::Fault,
        LogFault::LogFull { .. } => StartFault::Fault,
        LogFault::NotALog { file } => StartFault::NotADatabase { file },
        LogFault::NoMemory => StartFault::NoMemory,
    }
}

// One more than the greatest page that these images name.
fn count_named(images: &[PageImage]) -> u64
    ensures { result ≡ pages_named (map image_data images.now) }
{
    let mut named = 0;
    for image in images {
        named = named.max(image.page as u64 + 1);
    }
    named
}

// How many pages there are: each is named by an image, or has a byte at home.
fn count_pages<V: Volume>(device: &mut Device<V>, images: &ImageList) -> Result<u32, Failed>
    ensures count { IfOk result (λ count. IfSome (V.files device.old.volume)
        (λ fs. count ≡ min (max (pages_at_home fs.pages) (pages_named images.now)) MAX_PAGES)) }
    ensures few { IfOk result (λ count. count ≤ MAX_PAGES) }
    ensures read { IsOnlyRead V.files V.story V.moment V.log_faults device.old.volume device.new.volume }
    ensures same { (device.new.log ≡ device.old.log) × (device.new.halted ≡ device.old.halted) }
    ensures faults { HasCause (V.faults device.old.volume) (V.faults device.new.volume) result }
{
    let at_home = device.pages_at_home()?;
    let count = at_home.max(count_named(images.as_slice()));
    Ok(count.min(MAX_PAGES as u64) as u32)
}

// Ends the opening of a device whose log is attached: counts the pages, and makes the last images of the tail dirty
// pages of a hand that has all partitions. Refused, it has changed no dirty page.
fn end_opening<V: Volume>(
    device: &mut Device<V>,
    hand: &mut Hand,
    images: ImageList,
) -> Result<Opening, StartFault>
    requires rising { AreRising 0 images }
    requires all { HoldsAll hand.old.parts.items }
    requires own { AreOwn hand.old.parts.items }
    ensures own { AreOwn hand.new.parts.items }
    ensures all { HoldsAll hand.new.parts.items }
    ensures count { IfOk result (λ opening. IfSome (V.files device.old.volume)
        (λ fs. opening.count ≡ min (max (pages_at_home fs.pages) (pages_named images)) MAX_PAGES)) }
    ensures few { IfOk result (λ opening. opening.count ≤ MAX_PAGES) }
    ensures ended { IfOk result (λ opening. IsAsEnded V.moment V.faults V.log_faults opening device.new) }
    ensures read { IsOnlyRead V.files V.story V.moment V.log_faults device.old.volume device.new.volume }
    ensures same { (device.new.log ≡ device.old.log) × (device.new.halted ≡ device.old.halted) }
    ensures faults { FailsAs StartFault.Fault (V.faults device.old.volume) (V.faults device.new.volume) result }
    ensures installed { OnOk result ((others : Dirty) → AreInstalled images (dirty_with others hand.old.parts.items)
        (dirty_with others hand.new.parts.items)) }
    ensures contents { OnOk result (HaveFrom images hand.old.parts.items hand.new.parts.items) }
    ensures dirty { OnErr result ((others : Dirty) (q : ℕ)
        → dirty_with others hand.new.parts.items q ≡ dirty_with others hand.old.parts.items q) }
    ensures no_more { OnErr result (HaveNoMore hand.old.parts.items hand.new.parts.items) }
    ensures formed { (file : FileNo) → IsErrOf result (StartFault.NotADatabase file) → ⊥ }
    ensures never { (turn : ℕ) → IsErrOf result (StartFault.Busy turn) → ⊥ }
{
    let Ok(count) = count_pages(device, &images) else {
        return Err(StartFault::Fault);
    };
    let Ok(()) = install_images(hand, images) else {
        return Err(StartFault::NoMemory);
    };
    Ok(Opening {
        count,
        moment: device.moment(),
        faults: device.faults(),
        log_faults: device.log_faults(),
        known: Known::of(device),
    })
}

// Opens a device whose log isn't attached, and makes the last images of its tail dirty pages of a hand that has all
// partitions. Where it is refused the device has no log.
pub(crate) fn open_device<V: Volume>(
    alloc: Global,
    device: Device<V>,
    hand: &mut Hand,
) -> (Device<V>, Result<Opening, StartFault>)
    requires closed { device.log ≡ None }
    requires all { HoldsAll hand.old.parts.items }
    requires own { AreOwn hand.old.parts.items }
    ensures own { AreOwn hand.new.parts.items }
    ensures all { HoldsAll hand.new.parts.items }
    ensures ok { OnOk result.1 ((images : List ImageData) × Starts images hand.old.parts.items hand.new.parts.items
        (seen V.story V.files V.faults V.log_faults device) (seen V.story V.files V.faults V.log_faults result.0)) }
    ensures err { OnErr result.1 (StartRefused hand.old.parts.items hand.new.parts.items
        (seen V.story V.files V.faults V.log_faults device) (seen V.story V.files V.faults V.log_faults result.0)) }
    ensures few { IfOk result.1 (λ opening. opening.count ≤ MAX_PAGES) }
    ensures ended { IfOk result.1 (λ opening. IsAsEnded V.moment V.faults V.log_faults opening result.0) }
    ensures files { AreRead result.1 (V.files device.volume) (V.files result.0.volume) }
    ensures faults { FailsAs StartFault.Fault (V.faults device.volume) (V.faults result.0.volume) result.1 }
    ensures log_faults { V.log_faults device.volume ≤ V.log_faults result.0.volume }
    ensures log_fine { OnOk result.1 (V.log_faults result.0.volume ≡ V.log_faults device.volume) }
    ensures never { (turn : ℕ) → IsErrOf result.1 (StartFault.Busy turn) → ⊥ }
{
    let mut device = device;
    let images = match device.open(alloc) {
        Ok(images) => images,
        Err(fault) => return (device, Err(refused(fault))),
    };
    match end_opening(&mut device, hand, images) {
        Ok(opening) => (device, Ok(opening)),
        Err(fault) => (Device::of(device.into_volume()), Err(fault)),
    }
}
