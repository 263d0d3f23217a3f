// Closed cases of units, by computation.
ghost use Rattle.std.specs.Prelude.{◌≡◌, [], ◌∷◌, map};
ghost use Rattle.c_tree.specs.Scope.{name_of};
ghost use Rattle.c_init.specs.Init.{init_stmts};
ghost use Rattle.unit_definition.specs.Exports.{export_func};
ghost use Rattle.unit_definition.specs.Items.{items};
ghost use Rattle.unit_definition.specs.Samples as sample;
ghost use Rattle.unit_definition.specs.EveryKindAgain as every_kind;
ghost use Rattle.unit_definition.specs.LinkerModule as linker;

/// A module with a memory, a table, a global and segments.
pub fn object_cases()
    ensures names { map name_of (items sample.owner) ≡ sample.owner_names }
    ensures init { init_stmts sample.owner ≡ sample.owner_init }
{}

/// A module that imports a memory and a global, tests the memory's limits, calls an import at its start,
/// and exports the global again.
pub fn import_cases()
    ensures names { map name_of (items sample.taker) ≡ sample.taker_names }
    ensures init { init_stmts sample.taker ≡ sample.taker_init }
    ensures again { map (export_func sample.taker) sample.taker.tree.exports ≡ sample.exports_again ∷ [] }
{}

/// A module that imports a function, a table, a memory and a global, and exports all four again.
pub fn every_kind_cases()
    ensures init { init_stmts every_kind.again ≡ every_kind.again_init }
    ensures again { map (export_func every_kind.again) every_kind.again.tree.exports ≡ every_kind.again_exports }
    ensures whole { items every_kind.again ≡ every_kind.again_items }
{}

/// A module as a linker writes it: a memory, a table, a stack pointer, and a function that uses the stack.
pub fn linker_cases()
    ensures init { init_stmts linker.linked ≡ linker.linked_init }
    ensures exports { map (export_func linker.linked) linker.linked.tree.exports ≡ linker.linked_exports }
    ensures whole { items linker.linked ≡ linker.linked_items }
{}
