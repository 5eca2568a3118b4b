// Pages as they begin.
ghost use Rattle.std.specs.Prelude.{◌≡◌, ◌++◌, IfOk};
ghost use Rattle.ori_page.specs.Pages.{page_head, fresh_page, free_page};

use crate::Page;
use ori_bytes::limits::{FREE_KIND, FREE_OWNER};
use ori_bytes::{Blob, NoMemory};
use std::alloc::Global;

// What a page of this owner and kind begins with.
pub(crate) fn page_front(alloc: Global, owner: u32, kind: u8) -> Result<Blob, NoMemory>
    ensures { IfOk result (λ bytes. bytes ≡ page_head owner kind) }
{
    let mut front = Blob::from_slice(alloc, &owner.to_be_bytes())?;
    front.extend_from_slice(&[kind, 0, 0, 0])?;
    Ok(front)
}

impl Page {
    /// A page of this owner and kind with nothing on it.
    pub fn empty(alloc: Global, owner: u32, kind: u8) -> Result<Page, NoMemory>
        ensures { IfOk result (λ page. page ≡ fresh_page owner kind) }
    {
        let front = page_front(alloc, owner, kind)?;
        Page::filled(alloc, front.as_slice())
    }

    /// A free page, with the number of the next one, or 0.
    pub fn free(alloc: Global, next: u32) -> Result<Page, NoMemory>
        ensures { IfOk result (λ page. page ≡ free_page next) }
    {
        let mut front = page_front(alloc, FREE_OWNER, FREE_KIND)?;
        front.extend_from_slice(&next.to_be_bytes())?;
        Page::filled(alloc, front.as_slice())
    }
}
