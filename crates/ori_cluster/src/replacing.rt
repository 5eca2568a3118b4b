// How a record's bytes are changed.
ghost use Rattle.std.specs.Prelude.{◌≡◌, ◌+◌, ◌<◌, ◌≤◌, ℕ, List, Some, length, IfOk, IfErr};
ghost use Rattle.ori_posmap.specs.Reading.{KeepsSpace};
ghost use Rattle.ori_cluster.specs.Clusters.{Cluster, IsCluster, Changed, WhyStored, most_chunks};

use crate::MAX_BYTES;
use crate::chunk::Link;
use crate::dropping::drop_chain;
use crate::reading::most_chunks;
use crate::storing::store;
use ori_page::{PageFault, PageSpace};
use ori_posmap::{look, set, tell};
use std::alloc::Global;

/// Stores other bytes, 1 to [`MAX_BYTES`] of them, at a position. `false` exactly where no record is there, and then
/// nothing has changed. `Damaged` only where the pages don't stand for a cluster or the list of free pages isn't whole.
/// It takes at most 8 pages, and one per begun 3,000 bytes of the old record and of the new one, and `PagesFull` comes
/// only where those and the pages in use are more than there may be. What the pages hold after a fault isn't said.
pub fn replace<P: PageSpace>(
    alloc: Global,
    space: &mut P,
    dir: u32,
    position: i64,
    bytes: &[u8],
) -> Result<bool, PageFault>
    requires some { 0 < length bytes.now }
    requires few { length bytes.now ≤ MAX_BYTES }
    ensures pages { IfOk result (λ was. (pages : List (List ℕ)) → P.gives space.old pages
        → (after : List (List ℕ)) × P.gives space.new after × ((c : Cluster) → IsCluster pages dir c
        → Changed dir c position (Some bytes.now) was pages after)) }
    ensures why { IfErr result (λ fault. (pages : List (List ℕ)) → P.gives space.old pages
        → WhyStored pages dir position (length bytes.now) fault) }
    ensures space { KeepsSpace P.keeps P.count P.causes P.reads (7 + most_chunks MAX_BYTES) result space.old
        space.new }
{
    let seen = look(space, dir, position)?;
    let Some(old) = seen.place else {
        return Ok(false);
    };
    let told = tell(space, dir)?;
    let place = store(alloc, space, dir, told.owner, told.current, bytes)?;
    set(space, dir, position, Some(place))?;
    let first = Link {
        page: old.page,
        slot: old.slot,
    };
    let most = most_chunks(old.bytes.min(MAX_BYTES));
    drop_chain(space, told.owner, place.page, first, most)?;
    Ok(true)
}
