// What tests of several subjects are made of.
use ori_bytes::{NoMemory, NumberList, Rid, RidList, Text};
use std::alloc::Global;

pub const FIRST: Rid = Rid {
    cluster: 1,
    position: 0,
};

pub const TEMP: Rid = Rid {
    cluster: -1,
    position: -2,
};

pub fn text(alloc: Global, text: &str) -> Result<Text, NoMemory> {
    Text::from_str(alloc, text)
}

pub fn numbers(alloc: Global, items: &[u64]) -> Result<NumberList, NoMemory> {
    Ok(NumberList::from_vec(Vec::from_slice(alloc, items)?))
}

pub fn rids(alloc: Global, items: &[Rid]) -> Result<RidList, NoMemory> {
    Ok(RidList::from_vec(Vec::from_slice(alloc, items)?))
}
