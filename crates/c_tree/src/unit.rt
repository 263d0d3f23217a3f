// A unit as the list of its items.
ghost use Rattle.std.specs.Prelude.{◌≡◌, ◌<◌, ◌↔◌, ℕ, List, [], ◌∷◌, ◌++◌, length, slice_index_or, OnOk, OnErr, IsTrue};
ghost use Rattle.c_tree.specs.declared.token.CReadFault.{CReadFault};
ghost use Rattle.c_tree.specs.Tree as tree;
ghost use Rattle.c_tree.specs.Spelled.{CSpells, CUpto, Formed};
ghost use Rattle.c_tree.specs.WellFormed.{IsWellFormed};

use crate::formed::all_formed;
use crate::tree::Item;
use std::alloc::Global;
use std::marker::Model;
use w2c_base::{Memory, Sequence};

/// How many expressions may stand inside one another.
pub const DEPTH: usize = 100;

/// Bytes of a text that is read as a unit.
pub const UNIT_BYTES: usize = 67_108_864;

/// A unit: its items in order, without the include line in front of them.
#[derive(Drop)]
pub struct Unit {
    items: Sequence<Item>,
}

impl Model for Unit {
    ghost use Rattle.std.specs.Prelude.{List};
    ghost use Rattle.std.specs.Coded.{codes};
    ghost use Rattle.c_tree.specs.declared.tree.Item.{Item};
    ghost use Rattle.c_tree.specs.contracts.tree.Expr as expr;

    ghost Value = { List Item };

    ghost coded = { Prim.hlevel (codes, expr.the_row.coded) };

    ghost view = { λ unit. unit.items };
}

impl Unit {
    ghost use Rattle.c_tree.specs.View.{unit_of};

    /// No items. It takes no memory.
    pub fn new(alloc: Global) -> Self
        ensures { result ≡ [] }
    {
        Unit {
            items: Sequence::new(alloc),
        }
    }

    /// Puts an item at the end.
    pub fn push(&mut self, item: Item) -> Result<(), Memory>
        ensures ok { OnOk result (self.new ≡ self.old ++ item ∷ []) }
        ensures err { OnErr result (self.new ≡ self.old) }
    {
        self.items.push(item)
    }

    /// The number of items.
    pub fn len(&self) -> usize
        ensures { result ≡ length self.now }
    {
        self.items.len()
    }

    /// The item at a place, counted from 0.
    pub fn at(&self, i: usize) -> &Item
        requires { i < length self.now }
        ensures { result.now ≡ slice_index_or self.now i result.now }
    {
        self.items.at(i)
    }

    /// The items, to read.
    pub fn as_slice(&self) -> &[Item]
        ensures { result.now ≡ self.now }
    {
        self.items.as_slice()
    }

    /// Whether some text spells the unit.
    #[tactic(auto, using(crate::proofs::Tested::list_all_map))]
    pub fn formed(&self) -> bool
        ensures { IsTrue result ↔ Formed (unit_of self.now) }
    {
        all_formed(self.items.as_slice(), DEPTH)
    }
}

/// The law that some text spells a unit exactly where it is well formed.
pub fn well_formed_units_are_spelled()
    ensures formed { (unit : List tree.Item) → IsWellFormed unit → Formed unit }
    ensures well_formed { (unit : List tree.Item) → Formed unit → IsWellFormed unit }
{}

/// The law that a text spells at most one unit.
pub fn one_unit()
    ensures { (u v : List tree.Item) (text : List ℕ) → CSpells u text → CSpells v text → u ≡ v }
{}

/// The law that a text that spells a unit has no first fault.
pub fn spelled_texts_have_no_fault()
    ensures { (u : List tree.Item) (text : List ℕ) (fault : CReadFault) → CSpells u text → CUpto text fault → ⊥ }
{}
