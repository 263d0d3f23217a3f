// The law of functions behind the imports.
ghost use Rattle.std.specs.Prelude.{◌≡◌, ◌+◌, ◌<◌, ℕ, List, slice_get, None};
ghost use Rattle.wasm_tree.specs.declared.tree.Module.{Module};
ghost use Rattle.wasm_tree.specs.declared.entries.BodyEntry.{BodyEntry};
ghost use Rattle.wasm_tree.specs.IndexSpaces.{at_defined, imported_funcs};

/// The laws that the function with an index behind the imports has the body of its number, and that an
/// import has none.
#[tactic(auto, using(crate::proofs::BehindImports::defined_behind_imports, crate::proofs::BehindImports::none_of_an_import))]
pub fn bodies_stand_behind_imports()
    ensures own { (m : Module) (bodies : List BodyEntry) (index j : ℕ) → index ≡ imported_funcs m + j
        → at_defined m bodies index ≡ slice_get bodies j }
    ensures imported { (m : Module) (bodies : List BodyEntry) (index : ℕ) → index < imported_funcs m
        → at_defined m bodies index ≡ None }
{}
