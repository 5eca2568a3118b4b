// The homes of pages, in the file of pages.
ghost use Rattle.std.specs.Prelude.{◌≡◌, ◌⊎◌, ◌*◌, ◌<◌, ℕ, List, IfOk, IfErr, IfSome, OnOk};
ghost use Rattle.ori_bytes.specs.declared.limits.TheConstants.{MAX_PAGES, PAGE_BYTES};
ghost use Rattle.ori_volume.specs.declared.file.FileNo.TheVariants.{Pages};
ghost use Rattle.ori_volume.specs.Causes.{HasCause};
ghost use Rattle.ori_volume.specs.Story.{Tells, FilesWrite};
ghost use Rattle.ori_volume.specs.OnlyRead.{IsOnlyRead};
ghost use Rattle.ori_page.specs.declared.fault.PageFault.{PageFault};
ghost use Rattle.ori_log.specs.Appending.{FailsAs};
ghost use Rattle.ori_cover.specs.Homes.{IsHome};
ghost use Rattle.ori_cover.specs.Reading.{WritesHomeRead, SyncsHomesRead};
ghost use Rattle.ori_cover.specs.Steps.{WritesHome, SyncsHomes};

use ori_bytes::limits::PAGE_BYTES;
use ori_page::{Page, PageFault};
use ori_volume::{Failed, FileNo, Volume};
use std::alloc::Global;

// Writes a page's content to its home.
pub(crate) fn write_home<V: Volume>(volume: &mut V, page: u32, content: &Page) -> Result<(), Failed>
    requires { page < MAX_PAGES }
    ensures files { Tells (FilesWrite Pages (PAGE_BYTES * page) content.now result) (V.files volume.old)
        (V.files volume.new) }
    ensures crash { Tells (WritesHome page content.now result) (V.story volume.old) (V.story volume.new) }
    ensures read { Tells (WritesHomeRead page content.now result) (V.files volume.old) (V.files volume.new) }
    ensures home { OnOk result (IfSome (V.files volume.new) (λ files. IsHome page content.now files.pages)) }
    ensures faults { HasCause (V.faults volume.old) (V.faults volume.new) result }
    ensures log_faults { V.log_faults volume.new ≡ V.log_faults volume.old }
{
    volume.write_at(
        FileNo::Pages,
        PAGE_BYTES as u64 * page as u64,
        content.bytes(),
    )
}

// Makes all homes firm.
pub(crate) fn sync_homes<V: Volume>(volume: &mut V) -> Result<(), Failed>
    ensures files { V.files volume.new ≡ V.files volume.old }
    ensures crash { Tells (SyncsHomes result) (V.story volume.old) (V.story volume.new) }
    ensures read { Tells (SyncsHomesRead result) (V.files volume.old) (V.files volume.new) }
    ensures faults { HasCause (V.faults volume.old) (V.faults volume.new) result }
    ensures log_faults { V.log_faults volume.new ≡ V.log_faults volume.old }
{
    volume.sync(FileNo::Pages)
}

// Reads a page's home. One that lies whole in the file of pages reads as its content.
pub(crate) fn read_home<V: Volume>(
    alloc: Global,
    volume: &mut V,
    page: u32,
) -> Result<Page, PageFault>
    requires { page < MAX_PAGES }
    ensures value { IfOk result (λ home. IfSome (V.files volume.old)
        (λ fs. (content : List ℕ) → IsHome page content fs.pages → home ≡ content)) }
    ensures fault { IfErr result (λ fault. (fault ≡ PageFault.Device) ⊎ (fault ≡ PageFault.NoMemory)) }
    ensures same { IsOnlyRead V.files V.story V.moment V.log_faults volume.old volume.new }
    ensures faults { FailsAs PageFault.Device (V.faults volume.old) (V.faults volume.new) result }
{
    let mut home = Page::zeros(alloc)?;
    let at = PAGE_BYTES as u64 * page as u64;
    let Ok(()) = volume.read_at(FileNo::Pages, at, home.bytes_mut()) else {
        return Err(PageFault::Device);
    };
    Ok(home)
}
