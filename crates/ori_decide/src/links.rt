// Links to temporary identifiers that become the fresh ones, in place.
ghost use Rattle.std.specs.Prelude.{◌≡◌};
ghost use Rattle.ori_spec_data.specs.Apply.{comes_before, renamed_all, renamed_set, renamed_links};

use crate::renamings::Renamings;
use ori_bytes::{Rid, RidList};
use ori_value::{RidFieldList, rising_set};
use std::alloc::Global;
use std::mem;

// Whether an identifier comes before another in row order.
pub fn is_before(a: Rid, b: Rid) -> bool
    ensures { result ≡ comes_before a b }
{
    if a.cluster < b.cluster {
        return true;
    }
    a.cluster == b.cluster && a.position < b.position
}

/// Renames the identifiers of a list.
pub fn relink_all(alloc: Global, rids: &mut RidList, pairs: &Renamings)
    ensures { rids.new ≡ renamed_all pairs.now rids.old }
{
    let mut all = mem::replace(rids, RidList::new(alloc)).into_vec();
    for i in 0..all.len() {
        all[i] = pairs.real(all[i]);
    }
    *rids = RidList::from_vec(all);
}

/// Renames the identifiers of a set, which stand in rising order then and each once.
#[tactic(auto, using(crate::proofs::InPlace::set_renamed))]
pub fn relink_set(alloc: Global, rids: &mut RidList, pairs: &Renamings)
    ensures { rids.new ≡ renamed_set pairs.now rids.old }
{
    relink_all(alloc, rids, pairs);
    *rids = rising_set(mem::replace(rids, RidList::new(alloc)));
}

/// Renames the links of a map.
pub fn relink_links(alloc: Global, links: &mut RidFieldList, pairs: &Renamings)
    ensures { links.new ≡ renamed_links pairs.now links.old }
{
    let mut all = mem::replace(links, RidFieldList::new(alloc)).into_vec();
    for i in 0..all.len() {
        all[i].1 = pairs.real(all[i].1);
    }
    *links = RidFieldList::from_vec(all);
}
