// A table of names, each with what it stands for.
ghost use Rattle.std.specs.Prelude.{◌≡◌, ℕ, if◌then◌else◌, List, [], bytes_eq, is_some, Some, None, OnOk, option_copied};
ghost use Rattle.std.specs.Option.{option_or};
ghost use Rattle.w2c_base.specs.Lookup.{named};

use crate::salted::Salted;
use indexmap::IndexMap;
use std::alloc::Global;
use std::marker::Model;
use w2c_base::Memory;

/// Names, each with what it stands for first. They are hashed by a key that all names of a unit decide together,
/// so that no choice of names makes finding one slow.
#[derive(Drop)]
pub struct NameTable<T> {
    entries: IndexMap<Vec<u8>, T, Salted>,
}

impl<T> Model for NameTable<T> {
    ghost use Rattle.std.specs.Prelude.{ℕ, List, map};

    ghost Value = { List (List ℕ × T) };

    ghost view = { λ table. map (λ e. (e.0.items, e.1)) table.entries.entries };
}

impl<T: Drop> NameTable<T> {
    /// No names, hashed by a key. It takes no memory.
    pub fn new(alloc: Global, salt: Salted) -> Self
        ensures { result ≡ [] }
    {
        NameTable {
            entries: IndexMap::with_hasher(alloc, salt),
        }
    }

    /// What a name stands for, None where it is not in the table.
    pub fn get(&self, name: &[u8]) -> Option<&T>
        ensures { option_copied result ≡ named name.now self.now }
    {
        self.entries.get(name)
    }

    /// Whether a name is in the table.
    pub fn has(&self, name: &[u8]) -> bool
        ensures { result ≡ is_some (named name.now self.now) }
    {
        self.get(name).is_some()
    }

    /// Lets a name stand for something, unless it stands for something already.
    pub fn enter(&mut self, alloc: Global, name: &[u8], of: T) -> Result<(), Memory>
        ensures { OnOk result ((q : List ℕ) → named q self.new ≡ option_or (named q self.old) (if bytes_eq name.now q then Some of else None)) }
    {
        if self.has(name) {
            return Ok(());
        }
        self.entries.insert(Vec::from_slice(alloc, name)?, of)?;
        Ok(())
    }
}

impl<T: Copy + Drop> NameTable<T> {
    /// What a name stands for, copied, None where it is not in the table.
    pub fn find(&self, name: &[u8]) -> Option<T>
        ensures { result ≡ named name.now self.now }
    {
        self.get(name).copied()
    }
}
