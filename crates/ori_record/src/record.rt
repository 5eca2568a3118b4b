// Whole records as bytes.
ghost use Rattle.std.specs.Prelude.{◌≡◌, ◌<◌, Err, IfOk, IsErrOf, List};
ghost use Rattle.ori_spec_data.specs.Base.{RecordData};
ghost use Rattle.ori_spec_data.specs.Value.{fields_nesting};
ghost use Rattle.ori_model.specs.Data.{record_of};
ghost use Rattle.ori_record.specs.declared.bag_field.BagField.{BagField};
ghost use Rattle.ori_record.specs.Spelling.{Spells};
ghost use Rattle.ori_record.specs.Reading.{Gives, body_at, record_at};
ghost use Rattle.ori_record.specs.Seen.{spelled_data};
ghost use Rattle.ori_record.specs.Writable.{IsWritable};

use crate::bag_fields::BagFieldList;
use crate::fault::RecordFault;
use crate::own::Own;
use crate::own_values::{own_heads, own_values};
use crate::put::put_header;
use crate::reader::Reader;
use ori_bytes::limits::MAX_NESTING;
use ori_bytes::{Blob, Rid, Text};
use ori_model::Stored;
use ori_value::FieldList;
use std::alloc::Global;

// The class, the fields and the bags, after which nothing comes, where so many bytes were left at the place from which
// pointers count.
#[tactic(auto, unfolding(crate::specs::Reading::body_at))]
fn body(
    alloc: Global,
    reader: &mut Reader<'_>,
    from: usize,
) -> Result<(Text, FieldList, BagFieldList), RecordFault>
    ensures { Gives (λ x. x) result (body_at from reader.old) }
{
    let class = reader.text()?;
    let heads = own_heads(alloc, reader)?;
    let (pairs, bags) = own_values(alloc, reader, from, heads, MAX_NESTING)?;
    if !reader.rest().is_empty() {
        return Err(RecordFault::NotRecord);
    }
    let class = Text::from_str(alloc, class)?;
    Ok((
        class,
        FieldList::from_vec(pairs),
        BagFieldList::from_vec(bags),
    ))
}

// The record and the bags that all of the bytes spell.
#[tactic(auto, unfolding(crate::specs::Reading::record_at))]
fn whole(alloc: Global, bytes: &[u8], rid: Rid) -> Result<(Stored, BagFieldList), RecordFault>
    ensures spelled { Gives (λ x. spelled_data x.0 x.1) result (record_at bytes.now) }
    ensures rid { IfOk result (λ x. x.0.rid ≡ rid) }
{
    let mut reader = Reader::new(bytes);
    let version = reader.u32()?;
    let from = reader.rest().len();
    let start = reader.octet()?;
    if start != 0 {
        return Err(RecordFault::NotRecord);
    }
    let (class, fields, bags) = body(alloc, &mut reader, from)?;
    let stored = Stored {
        rid,
        version,
        class,
        fields,
    };
    Ok((stored, bags))
}

/// The record that bytes spell, which stands at this identifier, and its bags. NotRecord exactly where they spell none.
pub fn read(alloc: Global, bytes: &[u8], rid: Rid) -> Result<(Stored, BagFieldList), RecordFault>
    ensures ok { IfOk result (λ x. (x.0.rid ≡ rid) × Spells bytes.now (record_of x.0) x.1) }
    ensures none { IsErrOf result RecordFault.NotRecord → (r : RecordData) (bags : List BagField)
        → Spells bytes.now r bags → ⊥ }
    ensures shallow { result ≡ Err RecordFault.TooDeep → ⊥ }
{
    whole(alloc, bytes, rid)
}

/// The bytes that spell a record with its bags, which are the only ones. TooDeep exactly where its values nest deeper
/// than `MAX_NESTING`. The fields have names, none of them a bag's, embedded identifiers rise, a tree's size is below
/// 2^63, and each value's pointer is below 2^32.
pub fn write(alloc: Global, stored: &Stored, bags: &BagFieldList) -> Result<Blob, RecordFault>
    requires { IsWritable (record_of stored.now) bags.now }
    ensures ok { IfOk result (λ b. Spells b (record_of stored.now) bags.now) }
    ensures deep { IsErrOf result RecordFault.TooDeep → MAX_NESTING < fields_nesting stored.now.fields }
    ensures record { result ≡ Err RecordFault.NotRecord → ⊥ }
{
    let mut out = Blob::new(alloc);
    out.extend_from_slice(&stored.version.to_be_bytes())?;
    // Pointers count from the byte 0.
    let base = out.len();
    out.push(0)?;
    let own = Own::new(stored.fields.as_slice(), bags.as_slice());
    put_header(
        alloc,
        &mut out,
        base,
        stored.class.as_str(),
        own,
        MAX_NESTING,
    )?;
    Ok(out)
}
