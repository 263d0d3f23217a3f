// Laws of the format. Each is the contract of a function that does nothing.
ghost use Rattle.std.specs.Prelude.{◌≡◌, ℕ, ◌≤◌, ◌⊎◌, List, length};
ghost use Rattle.wasm_tree.specs.declared.tree.Module.{Module as Tree};
ghost use Rattle.wasm_tree.specs.Bytes.{AreBytes};
ghost use Rattle.wasm_tree.specs.Within.{WithinLimits};
ghost use Rattle.wasm_spelling.specs.declared.fault.ReadFault.{ReadFault as Fault};
ghost use Rattle.wasm_spelling.specs.ModuleFields.{Spells};
ghost use Rattle.wasm_spelling.specs.Places.{IsFormed};
ghost use Rattle.wasm_spelling.specs.Table.{Upto};

/// Bytes of at most 8,388,608 spell exactly one module or have exactly one first fault.
pub fn each_file_has_one_reading()
    ensures some { (bytes : List ℕ) → length bytes ≤ 8388608
        → ((tree : Tree) × Spells tree bytes) ⊎ ((fault : Fault) × Upto bytes fault) }
    ensures one_tree { (bytes : List ℕ) (tree other : Tree)
        → Spells tree bytes → Spells other bytes → tree ≡ other }
    ensures one_fault { (bytes : List ℕ) (fault other : Fault)
        → Upto bytes fault → Upto bytes other → fault ≡ other }
    ensures not_both { (bytes : List ℕ) (tree : Tree) (fault : Fault)
        → Spells tree bytes → Upto bytes fault → ⊥ }
{}

/// A module that has a file, places aside, keeps within the limits of reading. What a file spells has a file.
pub fn a_formed_module_keeps_within_the_limits()
    ensures within { (tree : Tree) → IsFormed tree → WithinLimits tree }
    ensures spelled { (tree : Tree) (bytes : List ℕ) → AreBytes bytes → Spells tree bytes → IsFormed tree }
{}
