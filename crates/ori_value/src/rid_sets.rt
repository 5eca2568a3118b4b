// Sets of links: rising, each once.
ghost use Rattle.std.specs.Prelude.{◌≡◌};
ghost use Rattle.ori_spec_data.specs.Fit.{link_set_of};

use ori_bytes::RidList;

/// The links of a list in rising order, each once. Takes no memory, and for n links at most about n log n steps.
pub fn rising_set(rids: RidList) -> RidList
    ensures { result ≡ link_set_of rids }
{
    let mut set = rids.into_vec();
    set.sort_unstable();
    set.dedup();
    RidList::from_vec(set)
}
