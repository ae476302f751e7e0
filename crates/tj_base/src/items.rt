//! The small list type of public values, which contracts see as a list.
ghost use Rattle.std.specs.Prelude.{◌≡◌, [], ◌∷◌, ◌++◌, OnOk, OnErr};
ghost use Rattle.std.specs.Cmp.Lexicographic.{pointwise, lists_per, lists_equiv};

use crate::cell::CellId;
use crate::memory::Oom;
use crate::name::Name;
use std::marker::Model;

/// A list that a public value holds. It is made of a `Vec` and gives it back without taking memory.
// One list type for all public values: what holds of it is proved once.
#[derive(Debug, Drop)]
pub struct Items<T> {
    items: Vec<T>,
}

impl<T> Model for Items<T> {
    ghost use Rattle.std.specs.Prelude.{List};

    ghost Value = { List T };

    ghost view = { λ list. list.items.items };
}

/// Numbers, as a task printed them.
pub type NumList = Items<i64>;

/// Names of cells.
pub type NameList = Items<Name>;

/// Cells.
pub type CellList = Items<CellId>;

/// Places in a task's list of references.
pub type PlaceList = Items<u32>;

/// Bytes of a text.
pub type ByteList = Items<u8>;

impl<T> Items<T> {
    /// The list of a vector's elements.
    pub fn of(items: Vec<T>) -> Items<T>
        // The list has the vector's elements.
        ensures { result ≡ items.items }
    {
        Items { items }
    }

    /// The elements.
    pub fn items(&self) -> &[T]
        // It gives the list's elements as a slice.
        ensures { result.now ≡ self.now }
    {
        self.items.as_slice()
    }

    /// The vector of the elements.
    pub fn into_vec(self) -> Vec<T>
        // It gives the list's elements as a vector.
        ensures { result.items ≡ self }
    {
        self.items
    }
}

impl<T: Drop> Items<T> {
    /// Adds an element at the end.
    pub fn push(&mut self, item: T) -> Result<(), Oom>
        // After `Ok` the list has the element more, at its end.
        ensures ok { OnOk result (self.new ≡ self.old ++ item ∷ []) }
        // After an error the list is as before.
        ensures err { OnErr result (self.new ≡ self.old) }
    {
        self.items.push(item)?;
        Ok(())
    }
}

impl<T: PartialEq> PartialEq for Items<T> {
    ghost eq = { pointwise T.eq };

    ghost laws = { lists_per T.PartialEq.laws };

    fn eq(&self, other: &Items<T>) -> bool {
        self.items() == other.items()
    }
}

impl<T: Eq> Eq for Items<T> {
    ghost laws = { lists_equiv T.Eq.laws };
}
