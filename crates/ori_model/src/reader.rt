// What statements read a database through.
ghost use Rattle.std.specs.Prelude.{◌≡◌, ℕ, Option, IfOk, IfErr, IfSome};
ghost use Rattle.ori_bytes.specs.declared.causes.Causes.{Causes};
ghost use Rattle.ori_spec_data.specs.Apply.{HasOwnFields};
ghost use Rattle.ori_spec_data.specs.Views.{BelowData, ViewData};
ghost use Rattle.ori_spec_data.specs.Keeping.{StateData};
ghost use Rattle.ori_model.specs.Data.{schema_of};
ghost use Rattle.ori_model.specs.Reading.{read_counted, fetch_counted, MayFail, IsFetched};
ghost use Rattle.ori_model.specs.Standing.{PastData, IsUnchanged};

use crate::{ReadFault, Schema, Stored};
use ori_bytes::{Causes, Rid};

/// A database that can be read. It may tell a view: the schema and the records that its reads give. What it tells
/// stays, and so does its state: reads change no more than the counts.
pub trait Reader {
    /// What it shows, where it tells that.
    ghost view: { Self → Option ViewData };

    /// What a keeper of a database keeps. For other readers it is any state.
    ghost state: { Self → StateData };

    /// The reference that it holds to another reader, by the number that proofs give it, and what stands behind it. No
    /// call changes either, so that whoever lends a reader knows it again after any reader through it.
    ghost lent: { Self → ℕ };

    ghost below: { Self → BelowData };

    /// A fact about the outside since an earlier moment, by what it told then, which every call keeps: what whoever
    /// made the reader knows, such as what a crash leaves. By it that passes through code which reads and commits by the
    /// traits alone.
    ghost sound: { Self → PastData → Type 0 } = { λ _ _. Unit {0} };

    /// How many records it has given.
    ghost fetched: { Self → ℕ };

    /// How often it has answered each fault that only its outside can cause.
    ghost causes: { Self → Causes };

    /// The schema.
    fn schema(&self) -> &Schema
        ensures { IfSome (view self.now) (λ shown. schema_of result.now ≡ shown.schema) };

    /// The record with an identifier, or `None` where there is none. Its fields are such as a record may have. After an
    /// `Err` nothing has changed but the count of its cause: a later fetch may succeed.
    fn fetch(&mut self, rid: Rid) -> Result<Option<Stored>, ReadFault>
        ensures found { IfOk result (IsFetched (view self.old) rid) }
        ensures own { IfOk result (λ found. IfSome found (λ stored. (stored.rid ≡ rid) × HasOwnFields stored.fields)) }
        ensures fault { IfErr result (MayFail (view self.old)) }
        ensures same { IsUnchanged view state sound lent below self.old self.new }
        ensures fetched { fetched self.new ≡ fetch_counted result (fetched self.old) }
        ensures causes { causes self.new ≡ read_counted result (causes self.old) };

    /// How many records `fetch` has given, up to the end of a `u64`.
    fn fetched(&self) -> u64
        ensures { result ≡ fetched self.now };

    /// How often it has answered each fault that only its outside can cause. No count falls.
    fn causes(&self) -> Causes
        ensures { result ≡ causes self.now };
}
