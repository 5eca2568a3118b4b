// Whether the files of a made volume are of the form, and what their log comes to.
ghost use Rattle.std.specs.Prelude.{◌≡◌, ◌<◌, ◌≤◌, ◌↔◌, ℕ, List, length, slice_index, IfOk, IfSome, IsErrOf, IsTrue};
ghost use Rattle.std.specs.Prelude.{None};
ghost use Rattle.std.specs.Ordering.{nat_cmp};
ghost use Rattle.std.specs.BTreeMap.{get};
ghost use Rattle.ori_volume.specs.Causes.{HasCause};
ghost use Rattle.ori_volume.specs.declared.file.FileNo.{FileNo};
ghost use Rattle.ori_volume.specs.Disk.{of_file};
ghost use Rattle.ori_volume.specs.OnlyRead.{IsOnlyRead};
ghost use Rattle.ori_log.specs.Log.{ImageData, IsLog};
ghost use Rattle.ori_log.specs.Files.{is_log_file, file_named};
ghost use Rattle.ori_log.specs.Appending.{FailsAs};
ghost use Rattle.ori_log.specs.Forms.{StandsAsLog, BreaksFirst};
ghost use Rattle.ori_log.specs.Measures.{Measures, HasActive, HomesStand, IsRead};
ghost use Rattle.ori_log.specs.Tails.{ReadTo};

use crate::LogFault;
use crate::sizes::Sizes;
use crate::tail::Tail;
use ori_bytes::limits::{MAX_LOG_BYTES, MAX_PAGES, MAX_PAGES_BYTES, PAGE_BYTES};
use ori_volume::{Failed, FileNo, Volume};
use std::alloc::Global;

/// The log that the master's byte names.
pub fn named_by(byte: u8) -> FileNo
    ensures value { result ≡ file_named byte }
    ensures in_log { IsTrue (is_log_file result) }
{
    if byte % 2 == 0 {
        FileNo::LogA
    } else {
        FileNo::LogB
    }
}

/// The master's byte.
pub fn read_master<V: Volume>(volume: &mut V) -> Result<u8, Failed>
    ensures value { IfOk result (λ byte. IfSome (V.files volume.old) (λ fs. byte ≡ slice_index fs.master 0)) }
    ensures same { IsOnlyRead V.files V.story V.moment V.log_faults volume.old volume.new }
    ensures faults { HasCause (V.faults volume.old) (V.faults volume.new) result }
{
    let mut byte = [0];
    volume.read_at(FileNo::Master, 0, &mut byte)?;
    Ok(byte[0])
}

// Whether each page that the tail doesn't name is whole in a file of pages of this length, or isn't there at all.
fn homes_stand(tail: &Tail, pages: u64) -> bool
    requires { pages ≤ MAX_PAGES_BYTES }
    ensures { IsTrue result ↔ HomesStand tail.now pages }
{
    let page_bytes = PAGE_BYTES as u64;
    let whole = (pages / page_bytes) as u32;
    let at_home = ((pages + (page_bytes - 1)) / page_bytes) as u32;
    for page in whole..at_home.max(tail.end) {
        if !tail.pages.contains_key(&page) {
            return false;
        }
    }
    true
}

// Reads the records of this log.
fn read_active<V: Volume>(
    alloc: Global,
    volume: &mut V,
    sizes: &Sizes,
    file: FileNo,
) -> Result<Tail, LogFault>
    requires measured { IfSome (V.files volume.old) (λ fs. Measures sizes.now fs) }
    ensures value { IfOk result (λ tail. IfSome (V.files volume.old) (λ fs. (length (of_file fs file) ≤ MAX_LOG_BYTES)
        × (records : List (List ImageData)) × IsLog (of_file fs file) records
        × ReadTo (of_file fs file) records tail)) }
    ensures within { IfOk result (λ tail. tail.place < MAX_LOG_BYTES) }
    ensures counted { IfOk result (λ tail. tail.records ≤ tail.place) }
    ensures bounded { IfOk result (λ tail. (page : ℕ) → MAX_PAGES ≤ page → get nat_cmp tail.pages page ≡ None) }
    ensures not_a_log { (named : FileNo) → IsErrOf result (LogFault.NotALog named) → (named ≡ file)
        × IfSome (V.files volume.old) (λ fs. StandsAsLog (of_file fs file) → ⊥) }
    ensures never_full { (need room : ℕ) → IsErrOf result (LogFault.LogFull need room) → ⊥ }
    ensures same { IsOnlyRead V.files V.story V.moment V.log_faults volume.old volume.new }
    ensures faults { FailsAs LogFault.Failed (V.faults volume.old) (V.faults volume.new) result }
{
    let length = sizes.of(file);
    if length > MAX_LOG_BYTES {
        return Err(LogFault::NotALog { file });
    }
    Tail::read(alloc, volume, file, length)
}

/// The tail of a made volume, where its logs and its pages are of the form.
pub fn read_made<V: Volume>(
    alloc: Global,
    volume: &mut V,
    sizes: &Sizes,
    file: FileNo,
) -> Result<Tail, LogFault>
    requires measured { IfSome (V.files volume.old) (λ fs. HasActive sizes.now file fs) }
    ensures value { IfOk result (λ tail. IfSome (V.files volume.old)
        (λ fs. (records : List (List ImageData)) × IsRead fs file records tail)) }
    ensures within { IfOk result (λ tail. tail.place < MAX_LOG_BYTES) }
    ensures counted { IfOk result (λ tail. tail.records ≤ tail.place) }
    ensures bounded { IfOk result (λ tail. (page : ℕ) → MAX_PAGES ≤ page → get nat_cmp tail.pages page ≡ None) }
    ensures not_a_log { (named : FileNo) → IsErrOf result (LogFault.NotALog named)
        → IfSome (V.files volume.old) (λ fs. BreaksFirst fs named) }
    ensures never_full { (need room : ℕ) → IsErrOf result (LogFault.LogFull need room) → ⊥ }
    ensures same { IsOnlyRead V.files V.story V.moment V.log_faults volume.old volume.new }
    ensures faults { FailsAs LogFault.Failed (V.faults volume.old) (V.faults volume.new) result }
{
    if sizes.log_a > MAX_LOG_BYTES {
        return Err(LogFault::NotALog { file: FileNo::LogA });
    }
    let tail = read_active(alloc, volume, sizes, file)?;
    if sizes.log_b > MAX_LOG_BYTES {
        return Err(LogFault::NotALog { file: FileNo::LogB });
    }
    if sizes.pages > MAX_PAGES_BYTES {
        return Err(LogFault::NotALog {
            file: FileNo::Pages,
        });
    }
    if !homes_stand(&tail, sizes.pages) {
        return Err(LogFault::NotALog {
            file: FileNo::Pages,
        });
    }
    Ok(tail)
}
