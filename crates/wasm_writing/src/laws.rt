// The law of reading and writing. It is the contract of a function that does nothing.
ghost use Rattle.std.specs.Prelude.{◌≡◌, ℕ, List};
ghost use Rattle.wasm_tree.specs.declared.tree.Module.{Module as Tree};
ghost use Rattle.wasm_tree.specs.Bytes.{AreBytes};
ghost use Rattle.wasm_spelling.specs.ModuleFields.{Spells};
ghost use Rattle.wasm_spelling.specs.Places.{IsFormed, SameApartFromPlaces, SpellsAside};

/// What is written of a module spells one tree, so a reader gives this one, and it is the module
/// apart from places. A module that was read may be written.
pub fn what_is_written_is_read_again()
    ensures again { (written : Tree) (file : List ℕ) → SpellsAside written file
        → (tree : Tree) × SameApartFromPlaces written tree × Spells tree file
        × ((other : Tree) → Spells other file → other ≡ tree) }
    ensures formed { (tree : Tree) (file : List ℕ) → AreBytes file → Spells tree file → IsFormed tree }
{}
