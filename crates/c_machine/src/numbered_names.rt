// Names whose count is known before they come, and the number of each.
ghost use Rattle.std.specs.Prelude.{◌≡◌, ℕ, if◌then◌else◌, List, [], map, bytes_eq, Some, None, IfOk, OnOk, option_copied};
ghost use Rattle.std.specs.Option.{option_or};
ghost use Rattle.w2c_base.specs.Lookup.{named};
ghost use Rattle.c_machine.specs.Names.{found_at};
ghost use Rattle.c_machine.specs.NumberedNames.{entries_of, entry_of};

use crate::names::Numbers;
use name_table::Salted;
use std::alloc::Global;
use std::boxed::Box;
use std::marker::Model;
use w2c_base::Memory;

// So many names are compared one by one: that takes no longer than to hash a name, and less memory, since a table begins with room for nine.
const MOST_COMPARED: usize = 8;

/// Names, each with the number that it was given first. Few take a list with room for them alone, more a table.
#[derive(Drop)]
pub struct NumberedNames {
    kept: KeptNames,
}

#[derive(Drop)]
enum KeptNames {
    Few(Vec<NumberedName>),
    // In a box, since few functions have so many names: without it each list would take the room of a table.
    Many(Box<Numbers>),
}

#[derive(Drop)]
struct NumberedName {
    name: Vec<u8>,
    number: usize,
}

impl Model for NumberedNames {
    ghost use Rattle.std.specs.Prelude.{ℕ, List};

    ghost Value = { List (List ℕ × ℕ) };

    ghost use Rattle.c_machine.specs.NumberedNames.{entries_of};

    ghost view = { λ names. entries_of names.kept };
}

impl NumberedNames {
    /// No names yet, and room for so many, hashed by a key where they are not few.
    pub fn with_room(alloc: Global, count: usize, salt: Salted) -> Result<NumberedNames, Memory>
        ensures { IfOk result (λ names. names ≡ []) }
    {
        Ok(NumberedNames {
            kept: none_kept(alloc, count, salt)?,
        })
    }

    /// Gives a name, where there is one, its number, unless it has one.
    #[tactic(auto, using(w2c_base::proofs::Options::or_none))]
    pub fn enter(&mut self, alloc: Global, name: Option<&[u8]>, number: usize) -> Result<(), Memory>
        ensures { OnOk result ((q : List ℕ) → named q self.new ≡ option_or (named q self.old) (found_at number (option_copied name.entry) q)) }
    {
        match name {
            Some(name) => self.put(alloc, name, number),
            None => Ok(()),
        }
    }

    fn put(&mut self, alloc: Global, name: &[u8], number: usize) -> Result<(), Memory>
        ensures { OnOk result ((q : List ℕ) → named q self.new ≡ option_or (named q self.old) (if bytes_eq name.now q then Some number else None)) }
    {
        match &mut self.kept {
            KeptNames::Few(names) => push_name(alloc, names, name, number),
            KeptNames::Many(numbers) => numbers.enter(alloc, Some(name), number),
        }
    }

    /// The number of a name, None where it has none.
    pub fn find(&self, name: &[u8]) -> Option<usize>
        ensures { result ≡ named name.now self.now }
    {
        match &self.kept {
            KeptNames::Few(names) => number_among(names.as_slice(), name),
            KeptNames::Many(numbers) => numbers.find(name),
        }
    }
}

fn none_kept(alloc: Global, count: usize, salt: Salted) -> Result<KeptNames, Memory>
    ensures { IfOk result (λ kept. entries_of kept ≡ []) }
{
    if count <= MOST_COMPARED {
        Ok(KeptNames::Few(Vec::with_capacity(alloc, count)?))
    } else {
        Ok(KeptNames::Many(Box::new(alloc, Numbers::new(alloc, salt))?))
    }
}

// A name at the end, where an earlier one with its letters is found before it.
fn push_name(
    alloc: Global,
    names: &mut Vec<NumberedName>,
    name: &[u8],
    number: usize,
) -> Result<(), Memory>
    ensures { OnOk result ((q : List ℕ) → named q (map entry_of names.new.items)
        ≡ option_or (named q (map entry_of names.old.items)) (if bytes_eq name.now q then Some number else None)) }
{
    names.push(NumberedName {
        name: Vec::from_slice(alloc, name)?,
        number,
    })?;
    Ok(())
}

// The number that stands first beside a name.
fn number_among(names: &[NumberedName], name: &[u8]) -> Option<usize>
    ensures { result ≡ named name.now (map entry_of names.now) }
{
    for one in names {
        if has_name(one, name) {
            return Some(one.number);
        }
    }
    None
}

fn has_name(one: &NumberedName, name: &[u8]) -> bool
    ensures { result ≡ bytes_eq one.now.name.items name.now }
{
    one.name.as_slice() == name
}
