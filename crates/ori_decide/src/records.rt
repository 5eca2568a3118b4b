// The records that a transaction is decided on.
ghost use Rattle.std.specs.Prelude.{◌≡◌, map, option_map};
ghost use Rattle.ori_spec_data.specs.Base.{RecordData};
ghost use Rattle.ori_spec_data.specs.Records.{record_at};
ghost use Rattle.ori_model.specs.Data.{record_of};

use ori_bytes::Rid;
use ori_model::{Base, Stored};

/// Records by their identifiers: those of a base in memory, or those that a store has read for a transaction. A
/// decision looks for the records that the transaction's changes name, and for no others.
pub trait Records {
    ghost use Rattle.std.specs.Prelude.{List};
    ghost use Rattle.ori_spec_data.specs.Base.{RecordData};

    /// The records.
    ghost stored: { Self → List RecordData };

    /// The record with an identifier.
    fn find(&self, rid: Rid) -> Option<&Stored>
        ensures { option_map (λ s. record_of s.now) result ≡ record_at (stored self.now) rid };
}

fn record_at(stored: &[Stored], rid: Rid) -> Option<&Stored>
    ensures { option_map (λ s. record_of s.now) result ≡ record_at (map record_of stored.now) rid }
{
    for record in stored {
        if record.rid == rid {
            return Some(record);
        }
    }
    None
}

impl Records for Base {
    ghost stored = { λ base. map record_of base.stored };

    fn find(&self, rid: Rid) -> Option<&Stored> {
        record_at(self.stored.as_slice(), rid)
    }
}
