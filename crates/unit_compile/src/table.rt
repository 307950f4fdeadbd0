// Values by names.
ghost use Rattle.std.specs.Prelude.{◌≡◌, ℕ, List, Option, Some, None, is_some, bytes_eq, OnOk};
ghost use Rattle.std.specs.Map.{update};
ghost use Rattle.std.specs.Option.{option_copied};
ghost use Rattle.unit_compile.specs.Views.{in_table};

use std::alloc::{AllocError, Global};
use std::collections::HashMap;

/// What is known by names.
#[derive(Drop)]
pub(crate) struct Table<'a, V> {
    by_name: HashMap<&'a [u8], V>,
}

impl<'a, V> Table<'a, V> {
    /// A table with nothing in it. It takes no memory.
    pub(crate) fn new(alloc: Global) -> Table<'a, V>
        ensures { (name : List ℕ) → in_table result name ≡ None }
    {
        Table {
            by_name: HashMap::new(alloc),
        }
    }

    /// What is known by the name.
    pub(crate) fn get(&self, name: &[u8]) -> Option<&V>
        ensures { option_copied result ≡ in_table self.now name.now }
    {
        self.by_name.get(name)
    }

    /// Whether something is known by the name.
    pub(crate) fn has(&self, name: &[u8]) -> bool
        ensures { result ≡ is_some (in_table self.now name.now) }
    {
        self.get(name).is_some()
    }
}

impl<'a, V: Drop> Table<'a, V> {
    /// Makes the value known by the name.
    pub(crate) fn insert(&mut self, name: &'a [u8], value: V) -> Result<(), AllocError>
        ensures { OnOk result ((other : List ℕ) → in_table self.new other
            ≡ update bytes_eq (in_table self.old) name.now (Some value) other) }
    {
        self.by_name.insert(name, value)?;
        Ok(())
    }
}
