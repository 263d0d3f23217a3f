// Closed cases of translated bodies, by computation.
ghost use Rattle.std.specs.Prelude.{◌≡◌, false, [], ◌∷◌, codes, Some};
ghost use Rattle.w2c_base.specs.declared.value.ValType.TheVariants as type;
ghost use Rattle.wasm_tree.specs.Samples.{code_of, three_blocks};
ghost use Rattle.wasm_typing.specs.Samples.{context};
ghost use Rattle.c_helpers.specs.declared.operation.Helper.TheVariants.{Num};
ghost use Rattle.c_helpers.specs.declared.operation.NumOp.TheVariants.{I32DivS};
ghost use Rattle.c_helpers.specs.Needed.{helpers_of};
ghost use Rattle.body_definition.specs.Labels.{labels_in};
ghost use Rattle.body_definition.specs.Body.{body_of, has_slot, most_operands};
ghost use Rattle.body_definition.specs.Samples as sample;

/// Bodies of small functions: dead code, both branches of an `if`, branches that move their value or
/// need not, and a table of branches out of nested blocks.
pub fn body_cases()
    ensures leaves_early { body_of (sample.one_procedure sample.leaves_early) (codes "m") 0 ≡ sample.procedure_f0 sample.leaves_early_c }
    ensures both_branches { body_of (sample.one_function sample.both_branches) (codes "m") 0
        ≡ sample.function_f0 (sample.slot (sample.i 0) ∷ sample.slot (sample.i 1) ∷ []) sample.both_branches_c }
    ensures branches_on_conditions { body_of (sample.one_function sample.branches_on_conditions) (codes "m") 0
        ≡ sample.function_f0 (sample.slot (sample.i 0) ∷ sample.slot (sample.i 1) ∷ sample.slot (sample.i 2) ∷ []) sample.branches_on_conditions_c }
    ensures three_blocks { body_of (sample.one_function three_blocks) (codes "m") 0
        ≡ sample.function_f0 (sample.slot (sample.i 0) ∷ sample.slot (sample.i 1) ∷ sample.slot (sample.i 2) ∷ []) sample.three_blocks_c }
    ensures imports_objects { body_of sample.imports_objects (codes "m") 0
        ≡ sample.function_f0 sample.imports_objects_locals sample.imports_objects_c }
{}

/// How many labels and slots nested blocks take, and the helper of a division.
pub fn need_cases()
    ensures labels { labels_in (code_of three_blocks) ≡ 6 }
    ensures operands { most_operands (context (type.I32 ∷ []) (Some type.I32)) (code_of three_blocks) ≡ 3 }
    ensures no_wide_slot { has_slot type.I64 (context (type.I32 ∷ []) (Some type.I32)) (code_of three_blocks) 0 ≡ false }
    ensures helpers { helpers_of (sample.one_function sample.branches_on_conditions) ≡ Num I32DivS ∷ [] }
{}
