// Closed cases of the definitions, chosen by hand from the standard's text, by computation.
ghost use Rattle.std.specs.Prelude.{◌≡◌, true, false, [], ◌∷◌, codes, map, Some, None};
ghost use Rattle.w2c_base.specs.declared.trap.TrapKind.TheVariants as trap;
ghost use Rattle.w2c_base.specs.declared.value.ValType.TheVariants as type;
ghost use Rattle.w2c_base.specs.declared.value.Value.TheVariants.{I32, I64};
ghost use Rattle.w2c_base.specs.Run.{Gave, Asked, CallEnded, Init, Call, values_in};
ghost use Rattle.c_tree.specs.declared.tree.CType.TheVariants as c_type;
ghost use Rattle.c_tree.specs.declared.tree.COp.TheVariants as op;
ghost use Rattle.c_meaning.specs.State.{Is, Bad, Number, Pointer, FuncPointer, UnitFunc, Trapped, Undefined, Asks, Stuck};
ghost use Rattle.c_meaning.specs.Operators.{operate};
ghost use Rattle.c_meaning.specs.Linking.{NotDefined, Twice, TypeDiffers, fits, func_type, link_refusal, is_init_symbol};
ghost use Rattle.c_meaning.specs.Primitives.{Gives, IsUndefined, get, put, mem_new, mem_len, mem_grow, tab_sig, tab_fn, tab_set, tab_new, primitives};
ghost use Rattle.c_meaning.specs.Run.{Ended, OutOfSteps, Stopped, c_run};
ghost use Rattle.c_meaning.specs.Samples as sample;
ghost use Rattle.c_tree.specs.Runtime as header;

/// Operators at their edges.
pub fn operator_cases()
    ensures sum_wraps { operate op.Add (I32 4294967295) (I32 1) ≡ Is (I32 0) }
    ensures difference_wraps { operate op.Sub (I64 0) (I64 1) ≡ Is (I64 18446744073709551615) }
    ensures quotient_by_0 { operate op.Div (I32 7) (I32 0) ≡ Bad 1 }
    ensures remainder_by_0 { operate op.Rem (I64 7) (I64 0) ≡ Bad 1 }
    ensures shift_by_31 { operate op.Shl (I32 3) (I32 31) ≡ Is (I32 2147483648) }
    ensures shift_by_32 { operate op.Shl (I32 1) (I32 32) ≡ Bad 2 }
    ensures wide_shift_by_32 { operate op.Shr (I64 4294967296) (I64 32) ≡ Is (I64 1) }
    ensures wide_shift_by_64 { operate op.Shr (I64 1) (I64 64) ≡ Bad 2 }
    ensures comparison_is_unsigned { operate op.Lt (I64 18446744073709551615) (I64 0) ≡ Is (I32 0) }
    ensures unequal { operate op.Ne (I32 1) (I32 2) ≡ Is (I32 1) }
{}

/// Primitives: what is undefined, the least kind first.
pub fn primitive_cases()
    ensures bytes_are_little_endian { get 2 type.I32 (sample.pointer (codes "m0") ∷ Number (I64 1) ∷ []) sample.machine ≡ Gives sample.machine (Some (Number (I32 770))) }
    ensures get_past_the_end { get 2 type.I32 (sample.pointer (codes "m0") ∷ Number (I64 2) ∷ []) sample.machine ≡ IsUndefined 6 }
    ensures get_of_null { get 2 type.I32 (Pointer None ∷ Number (I64 2) ∷ []) sample.machine ≡ IsUndefined 4 }
    ensures put_past_the_end { put 8 type.I64 (sample.pointer (codes "m0") ∷ Number (I64 0) ∷ Number (I64 0) ∷ []) sample.machine ≡ IsUndefined 6 }
    ensures memory_made_twice { mem_new (sample.pointer (codes "m0") ∷ Number (I32 0) ∷ Number (I64 0) ∷ []) sample.machine ≡ IsUndefined 8 }
    ensures length_in_bytes { mem_len (sample.pointer (codes "m0") ∷ []) sample.machine ≡ Gives sample.machine (Some (Number (I64 3))) }
    ensures growth_past_the_maximum { mem_grow (sample.pointer (codes "m0") ∷ Number (I32 2) ∷ []) sample.machine ≡ Gives sample.machine (Some (Number (I32 4294967295))) }
    ensures signature_of_an_empty_element { tab_sig (sample.pointer (codes "t0") ∷ Number (I64 0) ∷ []) sample.machine ≡ Gives sample.machine (Some (Number (I64 0))) }
    ensures function_of_an_empty_element { tab_fn (sample.pointer (codes "t0") ∷ Number (I64 0) ∷ []) sample.machine ≡ Gives sample.machine (Some (FuncPointer None)) }
    ensures place_past_the_length { tab_fn (sample.pointer (codes "t0") ∷ Number (I64 1) ∷ []) sample.machine ≡ IsUndefined 7 }
    ensures null_before_the_place { tab_set (sample.pointer (codes "t0") ∷ Number (I64 1) ∷ FuncPointer None ∷ Number (I64 0) ∷ []) sample.machine ≡ IsUndefined 4 }
    ensures place_before_the_signature { tab_set (sample.pointer (codes "t0") ∷ Number (I64 1) ∷ FuncPointer (Some (UnitFunc 0 [])) ∷ Number (I64 0) ∷ []) sample.machine ≡ IsUndefined 7 }
    ensures signature_of_0 { tab_set (sample.pointer (codes "t0") ∷ Number (I64 0) ∷ FuncPointer (Some (UnitFunc 0 [])) ∷ Number (I64 0) ∷ []) sample.machine ≡ IsUndefined 8 }
    ensures table_too_long { tab_new (sample.pointer (codes "t0") ∷ Number (I32 1000001) ∷ Number (I64 0) ∷ []) sample.machine ≡ IsUndefined 8 }
{}

/// Runs of small units.
pub fn run_cases()
    ensures quotient { values_in (sample.run_alone sample.division 7 2 2 []).events ≡ Some (I32 3) ∷ [] }
    ensures quotient_in_too_few_statements { (sample.run_alone sample.division 7 2 1 []).outcome ≡ OutOfSteps }
    ensures division_by_0 { (sample.run_alone sample.division 1 0 2 []).outcome ≡ Stopped (Undefined 1 (record { unit = 0; item = 0; statement = 1 })) }
    ensures shift_by_32_behind_a_label { (sample.run_alone sample.shift 1 32 9 []).outcome ≡ Stopped (Undefined 2 (record { unit = 0; item = 0; statement = 3 })) }
    ensures element { values_in (sample.run_alone sample.array_element 1 0 1 []).events ≡ Some (I32 8) ∷ [] }
    ensures element_past_the_count { (sample.run_alone sample.array_element 2 0 1 []).outcome ≡ Stopped (Undefined 3 (record { unit = 0; item = 1; statement = 1 })) }
    ensures init_functions_run_first { values_in (sample.run_alone sample.with_init 0 0 3 []).events ≡ Some (I32 5) ∷ [] }
    ensures phase_of_an_init_function { (sample.run_alone sample.with_init 0 0 1 []).phase ≡ Init 0 }
    ensures phase_of_a_call { (sample.run_alone sample.with_init 0 0 2 []).phase ≡ Call 0 }
    ensures trap { (sample.run_alone sample.trapping 8 0 1 []).outcome ≡ Stopped (Trapped trap.Exhaustion) }
    ensures trap_of_no_kind { (sample.run_alone sample.trapping 12 0 1 []).outcome ≡ Stopped (Undefined 8 (record { unit = 0; item = 0; statement = 1 })) }
    ensures call_through_null { (sample.run_alone sample.through_null 0 0 9 []).outcome ≡ Stopped (Undefined 4 (record { unit = 0; item = 0; statement = 2 })) }
    ensures call_through_another_type { (sample.run_alone sample.through_another_type 0 0 9 []).outcome ≡ Stopped (Undefined 5 (record { unit = 0; item = 0; statement = 2 })) }
    ensures host_replies { values_in (sample.run_alone (sample.host_call c_type.U64) 3 0 2 (Gave (Some (I64 1)) ∷ [])).events ≡ Some (I32 3) ∷ [] }
    ensures host_reply_of_another_type { (sample.run_alone (sample.host_call c_type.U64) 3 0 2 (Gave None ∷ [])).outcome ≡ Stopped Asks }
    ensures host_reply_past_the_width { (sample.run_alone (sample.host_call c_type.U64) 3 0 2 (Gave (Some (I64 18446744073709551616)) ∷ [])).outcome ≡ Stopped Asks }
    ensures what_happened { (sample.run_alone (sample.host_call c_type.U64) 3 0 2 (Gave (Some (I64 1)) ∷ [])).events ≡ Asked sample.tick (Some (Gave (Some (I64 1)))) ∷ CallEnded (Some (I32 3)) ∷ [] }
    ensures last_ask_is_told { (sample.run_alone (sample.host_call c_type.U64) 3 0 2 (Gave None ∷ [])).events ≡ Asked sample.tick None ∷ [] }
    ensures no_units { (c_run (record { units = []; hosts = [] }) [] 0 []).outcome ≡ Ended }
{}

/// Values of another type than the place that takes them.
pub fn type_cases()
    ensures narrow_to_wide_local { (sample.run_alone sample.narrow_to_wide 3 0 9 []).outcome ≡ Stopped Stuck }
    ensures narrow_to_wide_variable { (sample.run_alone (sample.sets_variable c_type.U64) 3 0 9 []).outcome ≡ Stopped Stuck }
    ensures narrow_to_narrow_variable { (sample.run_alone (sample.sets_variable c_type.U32) 3 0 9 []).outcome ≡ Ended }
    ensures narrow_through_a_wide_pointer { (sample.run_alone (sample.sets_pointed c_type.U64 c_type.PtrU64) 3 0 9 []).outcome ≡ Stopped Stuck }
    ensures narrow_through_a_pointer { values_in (sample.run_alone (sample.sets_pointed c_type.U32 c_type.PtrU32) 3 0 9 []).events ≡ Some (I32 3) ∷ [] }
    ensures wide_result_of_a_narrow_function { (sample.run_alone sample.returns_wide 3 0 9 []).outcome ≡ Stopped Stuck }
    ensures no_result_of_a_narrow_function { (sample.run_alone sample.returns_none 3 0 9 []).outcome ≡ Stopped Stuck }
    ensures wide_argument { (c_run (sample.alone sample.division) (sample.call_with (I64 7) (I32 2) ∷ []) 9 []).outcome ≡ Stopped Stuck }
    ensures call_fits { fits (sample.alone sample.division) (sample.call_with (I32 4294967295) (I32 2)) ≡ true }
    ensures call_with_a_wide_argument { fits (sample.alone sample.division) (sample.call_with (I64 7) (I32 2)) ≡ false }
    ensures call_past_the_width { fits (sample.alone sample.division) (sample.call_with (I32 4294967296) (I32 2)) ≡ false }
{}

/// Refusals of the linker, and symbols of init functions.
pub fn link_cases()
    ensures linked { link_refusal (sample.alone (sample.host_call c_type.U64)) ≡ None }
    ensures type_differs { link_refusal (sample.alone (sample.host_call c_type.U32)) ≡ Some (TypeDiffers 0 (codes "w2cZ_envZ_fZ_tick")) }
    ensures not_defined { link_refusal (record { units = sample.host_call c_type.U64 ∷ []; hosts = [] }) ≡ Some (NotDefined 0 (codes "w2cZ_envZ_fZ_tick")) }
    ensures twice { link_refusal (record { units = sample.host_call c_type.U64 ∷ sample.division ∷ []; hosts = [] }) ≡ Some (Twice 1 sample.symbol) }
    ensures type_is_that_for_other_units { func_type (sample.alone sample.defined_both_ways) (UnitFunc 0 sample.symbol) ≡ Some (record { params = c_type.U32 ∷ c_type.U32 ∷ []; result = c_type.U32 }) }
    ensures primitives_are_those_of_the_header { map (λ e. e.0) primitives ≡ map (λ d. d.0) header.primitives }
    ensures init_symbol { is_init_symbol (codes "w2cZ_aZ20bZ_i") ≡ true }
    ensures init_symbol_of_no_name { is_init_symbol (codes "w2cZ_Z_i") ≡ false }
    ensures init_symbol_of_a_byte_of_256 { is_init_symbol (codes "w2cZ_ZG0Z_i") ≡ false }
    ensures init_symbol_of_a_small_digit { is_init_symbol (codes "w2cZ_Za0Z_i") ≡ false }
    ensures init_symbol_of_an_underscore { is_init_symbol (codes "w2cZ_Z_0Z_i") ≡ false }
    ensures export_symbol { is_init_symbol (codes "w2cZ_aZ_fZ_i") ≡ false }
{}
