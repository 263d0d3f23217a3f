// Closed cases of ending alike, by computation.
ghost use Rattle.std.specs.Prelude.{◌≡◌, true, false, [], ◌∷◌, codes, None};
ghost use Rattle.w2c_base.specs.declared.trap.TrapKind.TheVariants.{Unreachable, MemoryOut};
ghost use Rattle.w2c_base.specs.declared.value.Value.TheVariants.{I32, I64};
ghost use Rattle.c_tree.specs.DefinedNames.{global_name};
ghost use Rattle.alike.specs.Alike.{Alike, got_past_limits};
ghost use Rattle.alike.specs.Samples.{linked, run_unit, module_run, unit_run, module_memory, unit_memory, own, static_func, exported_func};
ghost use Rattle.wasm_meaning.specs.Samples as wasm;
ghost use Rattle.wasm_meaning.specs.Execution as exec;
ghost use Rattle.wasm_meaning.specs.Run as modules;
ghost use Rattle.c_meaning.specs.State as state;
ghost use Rattle.c_meaning.specs.Run as units;

/// Two runs that end alike, and which modules got past their import limits.
pub fn alike_cases()
    ensures two_constants { Alike linked (wasm.run_alone wasm.two_constants (codes "f") [] 5 []) run_unit }
    ensures got_past { got_past_limits (wasm.run_both (wasm.exports_table None) (wasm.imports_table 2 None) [] 9) 1 ≡ true }
    ensures not_got_past { got_past_limits (wasm.run_both (wasm.exports_table None) (wasm.imports_table 3 None) [] 9) 1 ≡ false }
    ensures earlier_got_past { got_past_limits (wasm.run_both (wasm.exports_table None) (wasm.imports_table 3 None) [] 9) 0 ≡ true }
    ensures name_of_a_global { global_name 5 ≡ codes "g5" }
{}

/// Ends of runs that are alike, with the element's function under each of its names.
pub fn alike_ends()
    ensures static_name { Alike linked
        (module_run (module_memory (1 ∷ 2 ∷ [])) own (I32 5) modules.Ended)
        (unit_run (unit_memory (1 ∷ 2 ∷ [])) (static_func (codes "f0")) 4 (I32 5) units.Ended) }
    ensures exported_name { Alike linked
        (module_run (module_memory (1 ∷ 2 ∷ [])) own (I32 5) (modules.Stopped (exec.Trapped MemoryOut)))
        (unit_run (unit_memory (1 ∷ 2 ∷ [])) exported_func 4 (I32 5) (units.Stopped (state.Trapped MemoryOut))) }
    ensures memory_without_bytes { Alike linked
        (module_run None own (I32 5) modules.Ended)
        (unit_run (unit_memory []) (static_func (codes "f0")) 4 (I32 5) units.Ended) }
{}

/// Ends of runs that differ in one thing.
pub fn unlike_ends()
    ensures byte { Alike linked
        (module_run (module_memory (1 ∷ 2 ∷ [])) own (I32 5) modules.Ended)
        (unit_run (unit_memory (1 ∷ 3 ∷ [])) (static_func (codes "f0")) 4 (I32 5) units.Ended) → ⊥ }
    ensures memory_of_the_unit_alone { Alike linked
        (module_run None own (I32 5) modules.Ended)
        (unit_run (unit_memory (1 ∷ 2 ∷ [])) (static_func (codes "f0")) 4 (I32 5) units.Ended) → ⊥ }
    ensures memory_of_the_module_alone { Alike linked
        (module_run (module_memory []) own (I32 5) modules.Ended)
        (unit_run None (static_func (codes "f0")) 4 (I32 5) units.Ended) → ⊥ }
    ensures global { Alike linked
        (module_run (module_memory (1 ∷ 2 ∷ [])) own (I32 5) modules.Ended)
        (unit_run (unit_memory (1 ∷ 2 ∷ [])) (static_func (codes "f0")) 4 (I32 6) units.Ended) → ⊥ }
    ensures type_of_a_global { Alike linked
        (module_run (module_memory (1 ∷ 2 ∷ [])) own (I32 5) modules.Ended)
        (unit_run (unit_memory (1 ∷ 2 ∷ [])) (static_func (codes "f0")) 4 (I64 5) units.Ended) → ⊥ }
    ensures function { Alike linked
        (module_run (module_memory (1 ∷ 2 ∷ [])) own (I32 5) modules.Ended)
        (unit_run (unit_memory (1 ∷ 2 ∷ [])) (static_func (codes "f1")) 4 (I32 5) units.Ended) → ⊥ }
    ensures host_function { Alike linked
        (module_run (module_memory (1 ∷ 2 ∷ [])) own (I32 5) modules.Ended)
        (unit_run (unit_memory (1 ∷ 2 ∷ [])) (state.HostFunc 0 0) 4 (I32 5) units.Ended) → ⊥ }
    ensures signature { Alike linked
        (module_run (module_memory (1 ∷ 2 ∷ [])) own (I32 5) modules.Ended)
        (unit_run (unit_memory (1 ∷ 2 ∷ [])) (static_func (codes "f0")) 5 (I32 5) units.Ended) → ⊥ }
    ensures kind_of_a_trap { Alike linked
        (module_run (module_memory (1 ∷ 2 ∷ [])) own (I32 5) (modules.Stopped (exec.Trapped MemoryOut)))
        (unit_run (unit_memory (1 ∷ 2 ∷ [])) (static_func (codes "f0")) 4 (I32 5) (units.Stopped (state.Trapped Unreachable))) → ⊥ }
    ensures trap_for_an_end { Alike linked
        (module_run (module_memory (1 ∷ 2 ∷ [])) own (I32 5) modules.Ended)
        (unit_run (unit_memory (1 ∷ 2 ∷ [])) (static_func (codes "f0")) 4 (I32 5) (units.Stopped (state.Trapped MemoryOut))) → ⊥ }
{}
