// Lists, sets and maps of links, read.
ghost use Rattle.std.specs.Prelude.{◌≡◌};
ghost use Rattle.ori_spec_data.specs.Apply.{comes_before, rises};
ghost use Rattle.ori_value.specs.Links.{links_of};
ghost use Rattle.ori_record.specs.Reading.{Gives, is_rising_links, link_list_at, link_map_at, link_set_at, links_at};
ghost use Rattle.ori_record.specs.Reading.{named_link_at, rids_at};

use crate::fault::RecordFault;
use crate::reader::Reader;
use ori_bytes::{Rid, RidList, Text};
use ori_value::{RidFieldList, link_names_rise};
use std::alloc::Global;

// So many links.
fn rids(alloc: Global, reader: &mut Reader<'_>, count: u64) -> Result<Vec<Rid>, RecordFault>
    ensures { Gives (λ v. (v.items, reader.new)) result (rids_at count reader.old) }
{
    let mut rids = Vec::new(alloc);
    for _ in 0..count {
        rids.push(reader.link()?)?;
    }
    Ok(rids)
}

// A name and a link.
#[tactic(auto, unfolding(crate::specs::Reading::named_link_at))]
fn named_link(alloc: Global, reader: &mut Reader<'_>) -> Result<(Text, Rid), RecordFault>
    ensures { Gives (λ x. (x, reader.new)) result (named_link_at reader.old) }
{
    let name = reader.text()?;
    let rid = reader.link()?;
    Ok((Text::from_str(alloc, name)?, rid))
}

// So many pairs of a name and a link.
fn links(
    alloc: Global,
    reader: &mut Reader<'_>,
    count: u64,
) -> Result<Vec<(Text, Rid)>, RecordFault>
    ensures { Gives (λ v. (links_of v.items, reader.new)) result (links_at count reader.old) }
{
    let mut links = Vec::new(alloc);
    for _ in 0..count {
        links.push(named_link(alloc, reader)?)?;
    }
    Ok(links)
}

// Whether an identifier comes before another in row order.
pub(crate) fn comes_before(a: &Rid, b: &Rid) -> bool
    ensures { result ≡ comes_before a.now b.now }
{
    a.cluster < b.cluster || (a.cluster == b.cluster && a.position < b.position)
}

// Whether identifiers strictly rise in row order.
fn rises(rids: &[Rid]) -> bool
    ensures { result ≡ rises rids.now }
{
    rids.is_sorted_by(|one, next| comes_before(one, next))
}

// Whether names rise.
fn names_rise(links: &[(Text, Rid)]) -> bool
    ensures { result ≡ is_rising_links (links_of links.now) }
{
    link_names_rise(links)
}

// A list of links after their number.
#[tactic(auto, unfolding(crate::specs::Reading::link_list_at))]
pub(crate) fn link_list(alloc: Global, reader: &mut Reader<'_>) -> Result<RidList, RecordFault>
    ensures { Gives (λ l. (l, reader.new)) result (link_list_at reader.old) }
{
    let count = reader.count()?;
    let rids = rids(alloc, reader, count)?;
    Ok(RidList::from_vec(rids))
}

// The same of links that strictly rise.
#[tactic(auto, unfolding(crate::specs::Reading::link_set_at))]
pub(crate) fn link_set(alloc: Global, reader: &mut Reader<'_>) -> Result<RidList, RecordFault>
    ensures { Gives (λ l. (l, reader.new)) result (link_set_at reader.old) }
{
    let rids = link_list(alloc, reader)?;
    if !rises(rids.as_slice()) {
        return Err(RecordFault::NotRecord);
    }
    Ok(rids)
}

// Pairs of a name and a link after their number. Names rise.
#[tactic(auto, unfolding(crate::specs::Reading::link_map_at), using(crate::proofs::Rising::rising_links_of))]
pub(crate) fn link_map(alloc: Global, reader: &mut Reader<'_>) -> Result<RidFieldList, RecordFault>
    ensures { Gives (λ l. (l, reader.new)) result (link_map_at reader.old) }
{
    let count = reader.count()?;
    let links = links(alloc, reader, count)?;
    if !names_rise(&links) {
        return Err(RecordFault::NotRecord);
    }
    Ok(RidFieldList::from_vec(links))
}
