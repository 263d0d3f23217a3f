// Laws of generated modules. Each is the contract of a function that does nothing.
ghost use Rattle.std.specs.Prelude.{ℕ, ◌≡◌, List, ◌≤◌, length};
ghost use Rattle.wasm_tree.specs.declared.tree.Module.{Module as Tree};
ghost use Rattle.wasm_spelling.specs.Places.{IsFormed, SameApartFromPlaces, SpellsAside};
ghost use Rattle.wasm_typing.specs.Verdict.{IsValid};
ghost use Rattle.w2c_gen.specs.Generated.{generated};
ghost use Rattle.w2c_gen.specs.GeneratedFile.{IsAcceptedAs, IsGeneratedFile};
ghost use Rattle.w2c_gen.specs.Samples.{file_of_one, file_of_two};

/// A generated module has a file.
pub fn generated_modules_are_formed()
    ensures { (n : ℕ) → n ≤ 20000 → IsFormed (generated n) }
{}

/// A generated module is valid, whatever its places are.
pub fn generated_modules_are_valid()
    ensures { (n : ℕ) (u : Tree) → 1 ≤ n → SameApartFromPlaces (generated n) u → IsValid u }
{}

/// Each file of a generated module is accepted, its shortest one among them, which is short enough for a file.
pub fn generated_files_are_accepted()
    ensures each { (n : ℕ) (bytes : List ℕ) → 1 ≤ n → SpellsAside (generated n) bytes → IsAcceptedAs (generated n) bytes }
    ensures shortest { (n : ℕ) (bytes : List ℕ) → 1 ≤ n → n ≤ 20000 → IsGeneratedFile n bytes → IsAcceptedAs (generated n) bytes }
    ensures small { (n : ℕ) (bytes : List ℕ) → n ≤ 20000 → IsGeneratedFile n bytes → length bytes ≤ 8388608 }
{}

/// A generated module has one shortest file.
pub fn a_generated_module_has_one_file()
    ensures some { (n : ℕ) → n ≤ 20000 → (bytes : List ℕ) × IsGeneratedFile n bytes }
    ensures one { (n : ℕ) (bytes other : List ℕ) → n ≤ 20000 → IsGeneratedFile n bytes → IsGeneratedFile n other → bytes ≡ other }
{}

/// The files of one and of two functions have 44 and 59 bytes, which are written out.
pub fn the_files_of_one_and_two_functions()
    ensures one { IsGeneratedFile 1 file_of_one }
    ensures length_of_one { length file_of_one ≡ 44 }
    ensures two { IsGeneratedFile 2 file_of_two }
    ensures length_of_two { length file_of_two ≡ 59 }
{}
