// Small bodies and modules, and what the definitions say of them.
ghost use Rattle.std.specs.Prelude.{◌≡◌, ℤ, pos, ℕ, [], ◌∷◌, codes, Some, None};
ghost use Rattle.w2c_base.specs.declared.value.ValType.TheVariants as ty;
ghost use Rattle.wasm_tree.specs.Instructions.{no_else, Block, Br, Drop as Dropped, If, I32Const, Binary, Load};
ghost use Rattle.wasm_tree.specs.declared.operators.BinaryOp.TheVariants.{Add};
ghost use Rattle.wasm_tree.specs.declared.operators.LoadOp.TheVariants.{I32Load};
ghost use Rattle.wasm_tree.specs.declared.entries.ExportKind.TheVariants as kind;
ghost use Rattle.wasm_typing.specs.declared.fault.ValidCause.TheVariants as cause;
ghost use Rattle.wasm_typing.specs.Typing.{BodyHasType};
ghost use Rattle.wasm_typing.specs.BodyFault.{FirstBodyFault};
ghost use Rattle.wasm_typing.specs.ModuleFaults.{module_faults};
ghost use Rattle.wasm_typing.specs.Verdict.{Verdict, Accepted, IsValid, first_fault};
ghost use Rattle.wasm_typing.specs.Samples.{code_from, context, body, gets_own_global, no_module, memories_and_exports, two_functions};

/// Bodies and their first faults.
pub fn body_cases()
    // behind a branch everything has a type
    ensures dead_code { BodyHasType (context [] None)
        (code_from 0 (Block None (code_from 2 (Br 0 ∷ Binary ty.I32 Add ∷ Dropped ∷ [])) 6 ∷ [])) }

    // `if` without `else` has no result: at its end
    ensures if_without_else { FirstBodyFault (context [] (Some ty.I32))
        (body (code_from 33 (I32Const (pos 1) ∷ If (Some ty.I32) (code_from 36 (I32Const (pos 5) ∷ [])) no_else 37 ∷ [])) 38)
        (record { place = 37; cause = cause.TypeMismatch }) }

    // two operands are left: at the end of the body
    ensures two_results { FirstBodyFault (context [] (Some ty.I32))
        (body (code_from 31 (I32Const (pos 40) ∷ I32Const (pos 2) ∷ [])) 33)
        (record { place = 33; cause = cause.TypeMismatch }) }

    // an access of four bytes is aligned to at most four
    ensures alignment { FirstBodyFault (context [] (Some ty.I32))
        (body (code_from 0 (I32Const (pos 0) ∷ Load I32Load (record { align = 3; offset = 0 }) ∷ [])) 2)
        (record { place = 1; cause = cause.Alignment }) }
{}

/// Modules and their faults.
#[tactic(auto, unfolding(crate::specs::ModuleFaults::module_faults))]
pub fn module_cases()
    ensures empty { Verdict no_module Accepted }
    ensures tie { first_fault (module_faults (memories_and_exports
        (record { min = 1; max = None; place = 11 } ∷ record { min = 70001; max = Some 70000; place = 13 } ∷ []) []))
        ≡ Some (record { place = 13; cause = cause.TooManyMemories }) }
    ensures two_faults { first_fault (module_faults (memories_and_exports []
        (record { name = codes "m"; kind = kind.Memory; index = 0; name_place = 11; index_place = 14 }
        ∷ record { name = codes "m"; kind = kind.Func; index = 0; name_place = 15; index_place = 18 } ∷ [])))
        ≡ Some (record { place = 14; cause = cause.UnknownMemory }) }
    // an initial value gets imported globals alone
    ensures own_global { first_fault (module_faults gets_own_global) ≡ Some (record { place = 18; cause = cause.UnknownGlobal }) }
    // the second body leaves nothing
    ensures second_body { IsValid (two_functions (body (code_from 24 (I32Const (pos 1) ∷ [])) 26) (body (code_from 29 []) 29)) → ⊥ }
{}
