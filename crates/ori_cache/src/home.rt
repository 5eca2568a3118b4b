// A page's home, as it is read.
ghost use Rattle.std.specs.Prelude.{◌≡◌, ◌⊎◌, ◌+◌, ◌*◌, ◌<◌, ◌≤◌, ℕ, List, length, true, IfOk, IfErr, IfSome, IsErrOf};
ghost use Rattle.ori_bytes.specs.declared.limits.TheConstants.{MAX_PAGES, PAGE_BYTES};
ghost use Rattle.ori_volume.specs.Causes.{Rose};
ghost use Rattle.ori_page.specs.declared.fault.PageFault.{PageFault};
ghost use Rattle.ori_cover.specs.Homes.{IsHome};
ghost use Rattle.ori_cache.specs.Reads.{ReadsDevice};

use ori_page::{Page, PageFault};
use ori_pool::Device;
use ori_volume::Volume;
use std::alloc::Global;

// What was read at a page's home.
#[derive(Drop)]
pub(crate) struct Home {
    pub(crate) content: Page,
    // Whether it lies whole inside the file of pages. One that doesn't may be no page.
    pub(crate) whole: bool,
}

// Whether a page's home lies whole inside the file of pages. Where that can't be read, it isn't known to.
fn is_whole<V: Volume>(device: &mut Device<V>, page: u32) -> bool
    requires { page < MAX_PAGES }
    ensures whole { result ≡ true → IfSome (V.files device.old.volume)
        (λ fs. PAGE_BYTES * (page + 1) ≤ length fs.pages) }
    ensures read { ReadsDevice V.files V.story V.moment V.faults V.log_faults device.old device.new }
{
    let Ok(count) = device.whole_homes() else {
        return false;
    };
    (page as u64) < count
}

// Reads a page's home.
pub(crate) fn read_home<V: Volume>(
    alloc: Global,
    device: &mut Device<V>,
    page: u32,
) -> Result<Home, PageFault>
    requires { page < MAX_PAGES }
    ensures value { IfOk result (λ home. IfSome (V.files device.old.volume)
        (λ fs. (content : List ℕ) → IsHome page content fs.pages → home.content ≡ content)) }
    ensures whole { IfOk result (λ home. home.whole ≡ true → IfSome (V.files device.old.volume)
        (λ fs. IsHome page home.content fs.pages)) }
    ensures fault { IfErr result (λ fault. (fault ≡ PageFault.Device) ⊎ (fault ≡ PageFault.NoMemory)) }
    ensures cause { IsErrOf result PageFault.Device
        → Rose (V.faults device.old.volume) (V.faults device.new.volume) }
    ensures read { ReadsDevice V.files V.story V.moment V.faults V.log_faults device.old device.new }
{
    let content = device.read_home(alloc, page)?;
    let whole = is_whole(device, page);
    Ok(Home { content, whole })
}
