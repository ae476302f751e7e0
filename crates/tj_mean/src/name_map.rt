//! A map from names. Its order is by length and then from the last number on, so names of different
//! lengths are told apart at once: in a chain of forks they are long and begin alike.
ghost use Rattle.std.specs.Prelude.{ℕ, ◌≡◌, List, Some, None, cond, option_copied, IfOk};
ghost use Rattle.tj_body.specs.Names.{same};
ghost use Rattle.tj_mean.specs.Inner.NameMaps.{value_at};

use std::alloc::Global;
use std::collections::BTreeMap;
use tj_base::{Name, Oom};

/// A value for each of some names.
#[derive(Drop)]
pub struct NameMap<V> {
    pub values: BTreeMap<Name, V>,
}

impl<V: Drop> NameMap<V> {
    /// No name has a value.
    pub fn new(alloc: Global) -> NameMap<V>
        ensures { (q : List ℕ) → value_at result q ≡ None }
    {
        NameMap {
            values: BTreeMap::new(alloc),
        }
    }

    /// The value of the name, if it has one.
    pub fn get(&self, name: &Name) -> Option<&V>
        ensures { option_copied result ≡ value_at self.now name.now }
    {
        self.values.get(name)
    }

    /// From now on the name has this value.
    pub fn put(&mut self, name: Name, value: V) -> Result<(), Oom>
        ensures { IfOk result (λ _. (q : List ℕ) → value_at self.new q
            ≡ cond (same q name) (Some value) (value_at self.old q)) }
    {
        self.values.insert(name, value)?;
        Ok(())
    }

    /// From now on the name has no value. It had this one.
    pub fn take(&mut self, name: &Name) -> Option<V>
        ensures value { result ≡ value_at self.old name.now }
        ensures stays { (q : List ℕ) → value_at self.new q
            ≡ cond (same q name.now) None (value_at self.old q) }
    {
        self.values.remove(name)
    }
}
