//! Lists of named records, with a look-up by name in a number of steps that no choice of names makes long.
ghost use Rattle.std.specs.Prelude.{◌≡◌, ◌<◌, ◌^◌, ℕ, List, [], ◌∷◌, ◌++◌, length, map, position, nat_eq, None, OnOk, OnErr};
ghost use Rattle.std.specs.Cmp.Lexicographic.{pointwise};

use crate::records::{Case, Check, Element, Material, Node, Restraint, Section};
use std::alloc::{AllocError, Global};
use std::collections::BTreeMap;
use std::marker::Model;
use text_words::Name;

/// A record that has a name.
pub(crate) trait Named: Copy {
    ghost name_of: { Self → List ℕ };

    fn name(&self) -> Name
        ensures { result ≡ name_of self.now };
}

/// Records in the order in which they came, no two of one name.
#[derive(Drop)]
pub(crate) struct Table<T: Named> {
    numbers: BTreeMap<Name, u32>,
    records: Vec<T>,
}

impl<T: Named> Model for Table<T> {
    ghost use Rattle.std.specs.Prelude.{List, map};
    ghost use Rattle.model_types.specs.Numbering.{IsNumbering};

    ghost Value = { List T };

    ghost view = { λ t. t.records.items };

    ghost invariant = { λ t. IsNumbering t.numbers (map T.name_of t.records.items) };
}

impl<T: Named> Table<T> {
    /// A table with no record, which takes no memory.
    pub(crate) fn new(alloc: Global) -> Self
        ensures { result ≡ [] }
    {
        Table {
            numbers: BTreeMap::new(alloc),
            records: Vec::new(alloc),
        }
    }

    /// How many records.
    pub(crate) fn len(&self) -> usize
        ensures { result ≡ length self.now }
    {
        self.records.len()
    }

    /// The records, in order.
    pub(crate) fn as_slice(&self) -> &[T]
        ensures { result.now ≡ self.now }
    {
        self.records.as_slice()
    }

    /// The records, in order, without their names' look-up.
    pub(crate) fn into_vec(self) -> Vec<T>
        ensures { result.items ≡ self }
    {
        let Table {
            numbers: _,
            records,
        } = self;
        records
    }

    /// The number of the record of that name.
    pub(crate) fn find(&self, name: &Name) -> Option<u32>
        ensures { result ≡ position (pointwise nat_eq name.now) (map T.name_of self.now) }
    {
        self.numbers.get(name).copied()
    }

    /// Appends a record. An error leaves the table as it was.
    pub(crate) fn push(&mut self, item: T) -> Result<(), AllocError>
        requires absent { position (pointwise nat_eq (T.name_of item)) (map T.name_of self.old) ≡ None }
        requires room { length self.old < 2 ^ 32 }
        ensures ok { OnOk result (self.new ≡ self.old ++ item ∷ []) }
        ensures err { OnErr result (self.new ≡ self.old) }
    {
        let number = self.records.len() as u32;
        self.records.push(item)?;
        match self.numbers.insert(item.name(), number) {
            Ok(_) => Ok(()),
            Err(_) => {
                self.records.pop();
                Err(AllocError)
            }
        }
    }
}

impl Named for Material {
    ghost name_of = { λ r. r.name };

    fn name(&self) -> Name {
        self.name
    }
}

impl Named for Section {
    ghost name_of = { λ r. r.name };

    fn name(&self) -> Name {
        self.name
    }
}

impl Named for Node {
    ghost name_of = { λ r. r.name };

    fn name(&self) -> Name {
        self.name
    }
}

impl Named for Element {
    ghost name_of = { λ r. r.name };

    fn name(&self) -> Name {
        self.name
    }
}

impl Named for Restraint {
    ghost name_of = { λ r. r.name };

    fn name(&self) -> Name {
        self.name
    }
}

impl Named for Case {
    ghost name_of = { λ r. r.name };

    fn name(&self) -> Name {
        self.name
    }
}

impl Named for Check {
    ghost name_of = { λ r. r.name };

    fn name(&self) -> Name {
        self.name
    }
}
