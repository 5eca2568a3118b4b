// How a cluster is made, and how its records are walked.
ghost use Rattle.std.specs.Prelude.{◌≡◌, ◌≢◌, ◌+◌, ◌≤◌, ℕ, List, IfOk, IfErr};
ghost use Rattle.ori_bytes.specs.declared.limits.TheConstants.{MAX_MAP_PAGES};
ghost use Rattle.ori_posmap.specs.Reading.{KeepsSpace};
ghost use Rattle.ori_posmap.specs.Maps.{WhyTaken};
ghost use Rattle.ori_cluster.specs.Clusters.{Cluster, IsCluster, IsFoundedCluster, IsNextLive, behind, passed_to};
ghost use Rattle.ori_cluster.specs.Clusters.{WhyCluster};

use ori_page::{PageFault, PageSpace};
use ori_posmap::live_from;

/// A new cluster without records, of an owner that isn't 0: its directory page. It takes one page.
pub fn found<P: PageSpace>(space: &mut P, owner: u32) -> Result<u32, PageFault>
    requires { owner ≢ 0 }
    ensures pages { IfOk result (λ dir. (pages : List (List ℕ)) → P.gives space.old pages
        → (after : List (List ℕ)) × P.gives space.new after × IsFoundedCluster owner dir pages after) }
    ensures why { IfErr result (λ fault. (pages : List (List ℕ)) → P.gives space.old pages
        → WhyTaken 1 pages fault) }
    ensures space { KeepsSpace P.keeps P.count P.causes P.reads 0 result space.old space.new }
{
    ori_posmap::found(space, owner)
}

// The position behind one, or the first.
fn behind(after: Option<i64>) -> u64
    ensures { result ≡ behind after }
{
    let Some(position) = after else {
        return 0;
    };
    match u64::try_from(position) {
        Ok(position) => position + 1,
        Err(_) => 0,
    }
}

/// The first live position behind one, or the first of all; `None` where no record is there. `Damaged` only where the
/// pages don't stand for a cluster. It reads the directory page, and a page for each map page that it passes.
#[tactic(auto, using(crate::proofs::Records::why_found))]
pub fn next_after<P: PageSpace>(
    space: &mut P,
    dir: u32,
    after: Option<i64>,
) -> Result<Option<i64>, PageFault>
    ensures pages { IfOk result (λ at. (pages : List (List ℕ)) → P.gives space.old pages → P.gives space.new pages
        × ((c : Cluster) → IsCluster pages dir c → IsNextLive c (behind after) at)) }
    ensures few { IfOk result (λ at. P.reads space.new ≤ P.reads space.old + 2 + passed_to (behind after) at) }
    ensures why { IfErr result (λ fault. (pages : List (List ℕ)) → P.gives space.old pages
        → WhyCluster pages dir fault) }
    ensures space { KeepsSpace P.keeps P.count P.causes P.reads (MAX_MAP_PAGES + 1) result space.old space.new }
{
    let Some(at) = live_from(space, dir, behind(after))? else {
        return Ok(None);
    };
    let Ok(at) = i64::try_from(at) else {
        return Err(PageFault::Damaged { page: dir });
    };
    Ok(Some(at))
}
