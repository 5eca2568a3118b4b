// Fields: names with values.
ghost use Rattle.std.specs.Prelude.{◌≡◌, IfOk, IfErr, OnOk, OnErr, IsSome, IsOk, IsTrue, ◌↔◌, is_some, option_map};
ghost use Rattle.ori_spec_data.specs.Value.{no_pairs};
ghost use Rattle.ori_spec_data.specs.Fields.{field, put, without, IsRising};
ghost use Rattle.ori_value.specs.Places.{IsAt, IsGap};
ghost use Rattle.ori_value.specs.View.{tree_of, fields_of};

use crate::value::Value;
use ori_bytes::{NoMemory, Text};
use std::alloc::Global;
use std::marker::Model;

/// Names and their values, which a contract sees as the pairs of a name and the value's plain tree. Names differ and
/// rise in byte order.
#[cycle(values)]
#[derive(Drop)]
pub struct FieldList {
    pairs: Vec<(Text, Value)>,
}

impl Model for FieldList {
    ghost use Rattle.ori_spec_data.specs.Value.{Fields, fields_nesting};
    ghost use Rattle.ori_value.specs.TreeCode.{coded_fields};

    ghost Value = { Fields };

    ghost coded = { coded_fields };

    ghost use Rattle.ori_spec_data.specs.Fields.{IsRising};
    ghost use Rattle.ori_value.specs.View.{fields_of};

    ghost view = { λ l. fields_of l.pairs.items };

    ghost invariant = { λ l. IsRising (fields_of l.pairs.items) };

    ghost size = { fields_nesting };

    ghost use Rattle.std.proofs.Common.{arith};
    ghost use Rattle.ori_value.specs.Nesting.{fields_fall, value_falls};

    ghost size_decreases = { λ a h. fields_fall _ a.pairs.items
        (λ p. Prim.omega (arith, value_falls p.1)) };
}

impl FieldList {
    /// No field; takes no memory.
    pub fn new(alloc: Global) -> Self
        ensures { result ≡ no_pairs }
    {
        FieldList {
            pairs: Vec::new(alloc),
        }
    }

    /// Owns a `Vec` of pairs in rising order of their names, which `names_rise` tests; takes no memory.
    pub fn from_vec(pairs: Vec<(Text, Value)>) -> Self
        requires { IsRising (fields_of pairs.items) }
        ensures { result ≡ fields_of pairs.items }
    {
        FieldList { pairs }
    }

    /// Gives the `Vec` back.
    pub fn into_vec(self) -> Vec<(Text, Value)>
        ensures all { fields_of result.items ≡ self }
        ensures rising { IsRising self }
    {
        self.pairs
    }

    /// The pairs, in rising order of their names.
    pub fn as_slice(&self) -> &[(Text, Value)]
        ensures all { fields_of result.now ≡ self.now }
        ensures rising { IsRising self.now }
    {
        self.pairs.as_slice()
    }

    /// The value at a name, found by binary search.
    pub fn get(&self, name: &str) -> Option<&Value>
        ensures { option_map (λ v. tree_of v.now) result ≡ field name.now self.now }
    {
        match self.search(name) {
            Ok(at) => Some(&self.pairs[at].1),
            Err(_) => None,
        }
    }

    /// Puts a value at a name, in place of the one there. Unchanged where memory is wanting, which it isn't where the
    /// name is there.
    pub fn set(&mut self, name: Text, value: Value) -> Result<(), NoMemory>
        ensures ok { OnOk result (self.new ≡ put name (tree_of value) self.old) }
        ensures err { OnErr result (self.new ≡ self.old) }
        ensures replaces { IsSome (field name self.old) → IsOk result }
    {
        match self.search(name.as_str()) {
            Ok(at) => {
                self.pairs[at] = (name, value);
                Ok(())
            }
            Err(at) => Ok(self.pairs.insert(at, (name, value))?),
        }
    }

    /// Takes the field with a name away, and says whether it was there.
    pub fn unset(&mut self, name: &str) -> bool
        ensures gone { self.new ≡ without name.now self.old }
        ensures was { result ≡ is_some (field name.now self.old) }
    {
        match self.search(name) {
            Ok(at) => {
                self.pairs.remove(at);
                true
            }
            Err(_) => false,
        }
    }

    /// A copy.
    #[cycle(copies)]
    pub fn copy(&self) -> Result<Self, NoMemory>
        ensures { IfOk result (λ l. l ≡ self.now) }
    {
        let mut pairs = Vec::with_capacity(*self.pairs.allocator(), self.pairs.len())?;
        for (name, value) in &self.pairs {
            pairs.push((name.copy()?, value.copy()?))?;
        }
        Ok(FieldList { pairs })
    }

    // Where the name is, or where it would go.
    fn search(&self, name: &str) -> Result<usize, usize>
        ensures found { IfOk result (IsAt name.now self.now) }
        ensures absent { IfErr result (IsGap name.now self.now) }
    {
        self.pairs
            .binary_search_by(|pair| pair.0.as_str().cmp(name))
    }
}

/// Whether the names of pairs differ and rise in byte order, as `FieldList::from_vec` asks.
pub fn names_rise(pairs: &[(Text, Value)]) -> bool
    ensures { IsTrue result ↔ IsRising (fields_of pairs.now) }
{
    pairs.is_sorted_by(|one, next| one.0.as_str() < next.0.as_str())
}
