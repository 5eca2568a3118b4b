// Lists of values.
ghost use Rattle.std.specs.Prelude.{◌≡◌, IfOk, OnOk, OnErr};
ghost use Rattle.ori_spec_data.specs.Value.{no_trees};
ghost use Rattle.ori_value.specs.View.{add_last, tree_of, trees_of};

use crate::value::Value;
use ori_bytes::NoMemory;
use std::alloc::Global;
use std::marker::Model;

/// A list of values, which a contract sees as the list of their plain trees.
#[cycle(values)]
#[derive(Drop)]
pub struct ValueList {
    values: Vec<Value>,
}

impl Model for ValueList {
    ghost use Rattle.ori_spec_data.specs.Value.{Trees, trees_nesting};
    ghost use Rattle.ori_value.specs.TreeCode.{coded_trees};

    ghost Value = { Trees };

    ghost coded = { coded_trees };

    ghost use Rattle.ori_value.specs.View.{trees_of};

    ghost view = { λ l. trees_of l.values.items };

    ghost size = { trees_nesting };

    ghost use Rattle.ori_value.specs.Nesting.{trees_fall};

    ghost size_decreases = { λ a h. trees_fall a.values.items };
}

impl ValueList {
    /// The empty list; takes no memory.
    pub fn new(alloc: Global) -> Self
        ensures { result ≡ no_trees }
    {
        ValueList {
            values: Vec::new(alloc),
        }
    }

    /// Owns a `Vec`; takes no memory.
    pub fn from_vec(values: Vec<Value>) -> Self
        ensures { result ≡ trees_of values.items }
    {
        ValueList { values }
    }

    /// Gives the `Vec` back.
    pub fn into_vec(self) -> Vec<Value>
        ensures { trees_of result.items ≡ self }
    {
        self.values
    }

    /// The values.
    pub fn as_slice(&self) -> &[Value]
        ensures { trees_of result.now ≡ self.now }
    {
        self.values.as_slice()
    }

    /// Adds a value at the end. Unchanged where memory is wanting.
    pub fn push(&mut self, value: Value) -> Result<(), NoMemory>
        ensures ok { OnOk result (self.new ≡ add_last (tree_of value) self.old) }
        ensures err { OnErr result (self.new ≡ self.old) }
    {
        self.values.push(value)?;
        Ok(())
    }

    /// A copy.
    #[cycle(copies)]
    pub fn copy(&self) -> Result<Self, NoMemory>
        ensures { IfOk result (λ l. l ≡ self.now) }
    {
        let mut values = Vec::with_capacity(*self.values.allocator(), self.values.len())?;
        for value in &self.values {
            values.push(value.copy()?)?;
        }
        Ok(ValueList { values })
    }
}
