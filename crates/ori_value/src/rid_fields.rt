// Names with record identifiers.
ghost use Rattle.std.specs.Prelude.{◌≡◌, IfOk, IsTrue, ◌↔◌};
ghost use Rattle.ori_spec_data.specs.Value.{unlinked};
ghost use Rattle.ori_spec_data.specs.Fields.{IsRisingLinks};
ghost use Rattle.ori_value.specs.Links.{links_of};

use ori_bytes::{NoMemory, Rid, Text};
use std::alloc::Global;
use std::marker::Model;

/// Names and record identifiers, which a contract sees as their pairs. Names differ and rise in byte order.
#[derive(Drop)]
pub struct RidFieldList {
    pairs: Vec<(Text, Rid)>,
}

impl Model for RidFieldList {
    ghost use Rattle.ori_spec_data.specs.Value.{Links};
    ghost use Rattle.ori_spec_data.specs.Fields.{IsRisingLinks};
    ghost use Rattle.ori_value.specs.Links.{links_of};
    ghost use Rattle.ori_value.specs.TreeCode.{coded_links};

    ghost Value = { Links };

    ghost coded = { coded_links };

    ghost view = { λ l. links_of l.pairs.items };

    ghost invariant = { λ l. IsRisingLinks (links_of l.pairs.items) };
}

impl RidFieldList {
    /// No pair; takes no memory.
    pub fn new(alloc: Global) -> Self
        ensures { result ≡ unlinked }
    {
        RidFieldList {
            pairs: Vec::new(alloc),
        }
    }

    /// Owns a `Vec` of pairs in rising order of their names, which `link_names_rise` tests; takes no memory.
    pub fn from_vec(pairs: Vec<(Text, Rid)>) -> Self
        requires { IsRisingLinks (links_of pairs.items) }
        ensures { result ≡ links_of pairs.items }
    {
        RidFieldList { pairs }
    }

    /// Gives the `Vec` back.
    pub fn into_vec(self) -> Vec<(Text, Rid)>
        ensures all { links_of result.items ≡ self }
        ensures rising { IsRisingLinks self }
    {
        self.pairs
    }

    /// The pairs, in rising order of their names.
    pub fn as_slice(&self) -> &[(Text, Rid)]
        ensures all { links_of result.now ≡ self.now }
        ensures rising { IsRisingLinks self.now }
    {
        self.pairs.as_slice()
    }

    /// A copy.
    pub fn copy(&self) -> Result<Self, NoMemory>
        ensures { IfOk result (λ l. l ≡ self.now) }
    {
        let mut pairs = Vec::with_capacity(*self.pairs.allocator(), self.pairs.len())?;
        for (name, rid) in &self.pairs {
            pairs.push((name.copy()?, *rid))?;
        }
        Ok(RidFieldList { pairs })
    }
}

/// Whether the names of pairs differ and rise in byte order, as `RidFieldList::from_vec` asks.
pub fn link_names_rise(pairs: &[(Text, Rid)]) -> bool
    ensures { IsTrue result ↔ IsRisingLinks (links_of pairs.now) }
{
    pairs.is_sorted_by(|one, next| one.0.as_str() < next.0.as_str())
}
