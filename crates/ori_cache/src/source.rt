// The pages of the cache, as an operation reads them.
ghost use Rattle.std.specs.Prelude.{◌≡◌, ◌<◌, ◌≤◌, ℕ, IsErrOf};
ghost use Rattle.std.proofs.Props.{props};
ghost use Rattle.ori_bytes.specs.declared.limits.TheConstants.{MAX_PAGES};
ghost use Rattle.ori_page.specs.Faults.{page_counted};
ghost use Rattle.ori_page.specs.declared.fault.PageFault.{PageFault};
ghost use Rattle.ori_volume.specs.Causes.{Rose};
ghost use Rattle.ori_cache.specs.Ready.{IsReady};

use crate::read_page;
use ori_bytes::Causes;
use ori_overlay::PageSource;
use ori_page::{Page, PageFault};
use ori_turns::Frames;
use ori_volume::Volume;
use std::alloc::Global;
use std::marker::PhantomData;

/// The pages as they are, read through the cache. It holds no turn between calls.
#[derive(Drop)]
pub struct Cached<V: Volume, F: Frames<V> + Drop> {
    pub(crate) frames: F,
    alloc: Global,
    // How many pages there are.
    pub(crate) count: u32,
    // How often a read has failed, by its cause.
    causes: Causes,
    volume: PhantomData<V>,
    ghost ready: { IsReady (F.seat frames) } by { Prim.hlevel props },
    ghost few: { count ≤ MAX_PAGES },
    // No cause is counted more often than the device failed, or a turn was held.
    ghost device_caused: { causes.device ≤ (F.seat frames).last.faults },
    ghost busy_caused: { causes.busy ≤ F.waits frames },
}

impl<V: Volume, F: Frames<V> + Drop> Cached<V, F> {
    /// So many pages, over the turns of an opened volume, none of which is held.
    pub(crate) fn of(alloc: Global, frames: F, count: u32) -> Self
        requires ready { IsReady (F.seat frames) }
        requires few { count ≤ MAX_PAGES }
        ensures frames { result.frames ≡ frames }
        ensures count { result.count ≡ count }
        ensures causes { result.causes ≡ record { device = 0; fault = 0; busy = 0; damaged = 0 } }
    {
        Cached {
            frames,
            alloc,
            count,
            causes: Causes {
                device: 0,
                fault: 0,
                busy: 0,
                damaged: 0,
            },
            volume: PhantomData,
        }
    }

    // Counts a refusal.
    fn note<T>(&mut self, answer: &Result<T, PageFault>)
        requires device { IsErrOf answer.now PageFault.Device
            → Rose self.old.causes.device (F.seat self.old.frames).last.faults }
        requires busy { (turn : ℕ) → IsErrOf answer.now (PageFault.Busy turn)
            → Rose self.old.causes.busy (F.waits self.old.frames) }
        ensures causes { self.new.causes ≡ page_counted answer.now self.old.causes }
        ensures same { (self.new.frames ≡ self.old.frames) × (self.new.count ≡ self.old.count) }
    {
        match answer {
            Err(PageFault::Device) => self.causes.device = self.causes.device.saturating_add(1),
            Err(PageFault::Busy { .. }) => self.causes.busy = self.causes.busy.saturating_add(1),
            Err(PageFault::Damaged { .. }) => {
                self.causes.damaged = self.causes.damaged.saturating_add(1);
            }
            Err(_) | Ok(_) => {}
        }
    }
}

impl<V: Volume, F: Frames<V> + Drop> PageSource for Cached<V, F> {
    ghost use Rattle.ori_cache.specs.Reads.{ReadsDevice};
    ghost use Rattle.ori_cache.specs.Ready.{CacheGives, ReadsCached};
    ghost use Rattle.ori_cache.specs.ReadLaws.{cached_same, cached_then};

    ghost gives = { λ c pages. CacheGives F.gives c.count c.frames pages };

    ghost keeps = { λ old new. ReadsCached F.seat F.gives F.shares F.waits
        (ReadsDevice V.files V.story V.moment V.faults V.log_faults) old.frames new.frames old.count new.count
        old.causes new.causes };

    ghost count = { λ c. c.count };

    ghost causes = { λ c. c.causes };

    ghost counts = { λ c pages given. given.count };

    ghost few = { λ c. c.few };

    ghost keeps_itself = { λ c. cached_same V.files V.story V.moment V.faults V.log_faults F.seat F.gives F.shares
        F.waits c.frames c.count c.causes (F.shares_itself c.frames) c.ready };

    ghost keeps_on = { λ a b c first second. cached_then V.files V.story V.moment V.faults V.log_faults F.seat F.gives
        F.shares F.waits F.shares_on a.frames b.frames c.frames a.count b.count c.count a.causes b.causes c.causes first
        second };

    fn count(&self) -> u32 {
        self.count
    }

    fn read(&mut self, page: u32) -> Result<Page, PageFault> {
        let answer = read_page(self.alloc, &mut self.frames, page);
        self.note(&answer);
        answer
    }

    fn causes(&self) -> Causes {
        self.causes
    }
}
