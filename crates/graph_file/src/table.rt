//! Names with their numbers.
ghost use Rattle.std.specs.Prelude.{◌≡◌, ◌<◌, [], ◌∷◌, ◌++◌, length, position, bytes_eq, false, IfSome, OnOk};
ghost use Rattle.std.specs.List.{list_any};

use indexmap::IndexSet;
use ratfun_text::Name;
use std::alloc::{AllocError, Global};
use std::marker::Model;

/// Distinct names in order, each found by its hash. Contracts see the list of the names.
#[derive(Drop)]
pub struct Table {
    names: IndexSet<Name>,
}

impl Model for Table {
    ghost use Rattle.std.specs.Prelude.{ℕ, List};

    ghost Value = { List (List ℕ) };

    ghost view = { λ table. table.names.keys };
}

impl Table {
    /// A table with no names.
    pub fn new(alloc: Global) -> Table
        ensures { result ≡ [] }
    {
        Table {
            names: IndexSet::new(alloc),
        }
    }

    /// How many names there are.
    pub fn len(&self) -> usize
        ensures { result ≡ length self.now }
    {
        self.names.len()
    }

    /// The number of a name, counted from 0.
    pub fn number(&self, name: &Name) -> Option<usize>
        ensures value { result ≡ position (λ other. bytes_eq other name.now) self.now }
        ensures within { IfSome result (λ number. number < length self.now) }
    {
        self.names.get_index_of(name)
    }

    /// Whether a name is among these.
    pub fn has(&self, name: &Name) -> bool
        ensures { result ≡ list_any (λ other. bytes_eq other name.now) self.now }
    {
        self.names.contains(name)
    }

    /// Puts one more name behind the others. Without memory they stay as they are.
    pub fn add(&mut self, alloc: Global, name: &Name) -> Result<(), AllocError>
        requires { list_any (λ other. bytes_eq other name.now) self.old ≡ false }
        ensures { OnOk result (self.new ≡ self.old ++ name.now ∷ []) }
    {
        let copy = Name::of(alloc, name.bytes())?;
        self.names.insert(copy)?;
        Ok(())
    }
}
