// Closed cases of the definitions, chosen by hand from the standard's text, by computation.
ghost use Rattle.std.specs.Prelude.{◌≡◌, true, false, pos, [], ◌∷◌, codes, Some, None};
ghost use Rattle.w2c_base.specs.declared.trap.TrapKind.TheVariants as trap;
ghost use Rattle.w2c_base.specs.declared.value.ValType.TheVariants as type;
ghost use Rattle.w2c_base.specs.declared.value.Value.TheVariants.{I32, I64};
ghost use Rattle.w2c_base.specs.Run.{Gave, HostTrapped, Asked, CallEnded, Init, values_in, Call as CallPhase};
ghost use Rattle.wasm_tree.specs.Instructions.{Return, Select, If, BrIf, Call, LocalGet, LocalSet, Load, Store, I64Const, else_code, Unreachable, Drop, Nop, Block, Loop, Br, I32Const, Binary, MemoryCopy, MemoryFill, Extend};
ghost use Rattle.wasm_tree.specs.declared.operators.UnaryOp.TheVariants.{Clz, Ctz, Popcnt};
ghost use Rattle.wasm_tree.specs.declared.operators.BinaryOp.TheVariants.{Add, Sub, DivS, RemS, And, Shl, ShrS, Rotl, Rotr};
ghost use Rattle.wasm_tree.specs.declared.operators.CompareOp.TheVariants.{LtS, LtU};
ghost use Rattle.wasm_tree.specs.declared.operators.LoadOp.TheVariants.{I32Load8U, I32Load, I32Load8S, I64Load32S};
ghost use Rattle.wasm_tree.specs.declared.operators.StoreOp.TheVariants.{I32Store, I32Store8, I64Store16};
ghost use Rattle.wasm_tree.specs.declared.operators.ExtendOp.TheVariants.{I32Extend8S};
ghost use Rattle.wasm_meaning.specs.Operators.{Gives, Traps, unary, binary, compare, extend_s};
ghost use Rattle.wasm_meaning.specs.LinkedSet.{IsLinked, ModuleFunc, body_of, func_type};
ghost use Rattle.wasm_meaning.specs.Memories.{load_number, store_number, copy_bytes, fill_bytes};
ghost use Rattle.wasm_meaning.specs.Execution.{Normal, Returned, Stops, Trapped, Asks, OutOfSteps, Stuck};
ghost use Rattle.wasm_meaning.specs.Run.{Ended, Fits, Stopped, wasm_run};
ghost use Rattle.wasm_meaning.specs.Samples as sample;

/// Operators at their edges.
pub fn operator_cases()
    ensures sum_wraps { binary Add 32 4294967295 1 ≡ Gives 0 }
    ensures difference_wraps { binary Sub 32 0 1 ≡ Gives 4294967295 }
    ensures quotient_is_rounded_toward_zero { binary DivS 32 4294967289 2 ≡ Gives 4294967293 }
    ensures quotient_of_the_least_by_minus_1 { binary DivS 64 9223372036854775808 18446744073709551615 ≡ Traps trap.IntOverflow }
    ensures quotient_by_0 { binary DivS 32 1 0 ≡ Traps trap.DivByZero }
    ensures remainder_has_the_dividends_sign { binary RemS 32 4294967289 2 ≡ Gives 4294967295 }
    ensures remainder_of_the_least_by_minus_1 { binary RemS 32 2147483648 4294967295 ≡ Gives 0 }
    ensures common_bits { binary And 32 12 10 ≡ Gives 8 }
    ensures shift_by_the_width { binary Shl 32 1 32 ≡ Gives 1 }
    ensures signed_shift_past_the_width { binary ShrS 32 4294967288 33 ≡ Gives 4294967292 }
    ensures rotation_past_the_width { binary Rotl 32 2147483649 33 ≡ Gives 3 }
    ensures rotation_by_the_width { binary Rotr 32 5 32 ≡ Gives 5 }
    ensures minus_1_is_less_than_0 { compare LtS 64 18446744073709551615 0 ≡ true }
    ensures greatest_is_not_less_than_0 { compare LtU 64 18446744073709551615 0 ≡ false }
    ensures sign_of_a_byte { extend_s 8 32 128 ≡ 4294967168 }
    ensures sign_of_32_bits { extend_s 32 64 2147483648 ≡ 18446744071562067968 }
    ensures bits_above_do_not_count { extend_s 8 32 385 ≡ 4294967169 }
    ensures no_sign { extend_s 16 64 65663 ≡ 127 }
{}

/// Counts of bits.
pub fn count_cases()
    ensures leading_zeros_of_0 { unary Clz 32 0 ≡ 32 }
    ensures trailing_zeros_of_0 { unary Ctz 64 0 ≡ 64 }
    ensures ones_of_0 { unary Popcnt 32 0 ≡ 0 }
    ensures ones_of_a_byte { unary Popcnt 64 255 ≡ 8 }
    ensures ones_of_the_greatest { unary Popcnt 64 18446744073709551615 ≡ 64 }
{}

/// Loads and stores at the ends of a memory.
pub fn memory_cases()
    ensures load_at_the_beginning { load_number I32Load (1 ∷ 2 ∷ 3 ∷ 4 ∷ 5 ∷ []) 0 ≡ Gives 67305985 }
    ensures load_at_the_end { load_number I32Load (1 ∷ 2 ∷ 3 ∷ 4 ∷ 5 ∷ []) 1 ≡ Gives 84148994 }
    ensures load_past_the_end { load_number I32Load (1 ∷ 2 ∷ 3 ∷ 4 ∷ 5 ∷ []) 2 ≡ Traps trap.MemoryOut }
    ensures address_past_32_bits { load_number I32Load8S (1 ∷ 2 ∷ 3 ∷ 4 ∷ 5 ∷ []) 4294967296 ≡ Traps trap.MemoryOut }
    ensures sign_of_a_loaded_byte { load_number I32Load8S (255 ∷ []) 0 ≡ Gives 4294967295 }
    ensures sign_of_32_loaded_bits { load_number I64Load32S (0 ∷ 0 ∷ 0 ∷ 128 ∷ []) 0 ≡ Gives 18446744071562067968 }
    ensures store_keeps_the_low_bytes { store_number I64Store16 (1 ∷ 2 ∷ 3 ∷ 4 ∷ []) 1 65538 ≡ Some (1 ∷ 2 ∷ 0 ∷ 4 ∷ []) }
    ensures store_past_the_end { store_number I64Store16 (1 ∷ 2 ∷ []) 1 7 ≡ None }
    ensures copy_upwards { copy_bytes (1 ∷ 2 ∷ 3 ∷ 4 ∷ 5 ∷ []) 1 0 3 ≡ Some (1 ∷ 1 ∷ 2 ∷ 3 ∷ 5 ∷ []) }
    ensures copy_downwards { copy_bytes (1 ∷ 2 ∷ 3 ∷ 4 ∷ 5 ∷ []) 0 1 3 ≡ Some (2 ∷ 3 ∷ 4 ∷ 4 ∷ 5 ∷ []) }
    ensures copy_from_past_the_end { copy_bytes (1 ∷ 2 ∷ 3 ∷ []) 0 2 2 ≡ None }
    ensures copy_to_past_the_end { copy_bytes (1 ∷ 2 ∷ 3 ∷ []) 2 0 2 ≡ None }
    ensures no_bytes_at_the_end { copy_bytes (1 ∷ 2 ∷ []) 2 2 0 ≡ Some (1 ∷ 2 ∷ []) }
    ensures no_bytes_past_the_end { copy_bytes (1 ∷ 2 ∷ []) 0 3 0 ≡ None }
    ensures fill { fill_bytes (1 ∷ 2 ∷ 3 ∷ []) 1 263 2 ≡ Some (1 ∷ 7 ∷ 7 ∷ []) }
    ensures fill_past_the_end { fill_bytes (1 ∷ 2 ∷ 3 ∷ []) 2 0 2 ≡ None }
    ensures fill_nothing_past_the_end { fill_bytes (1 ∷ 2 ∷ 3 ∷ []) 4 0 0 ≡ None }
{}

/// Runs of small modules.
pub fn run_cases()
    ensures empty_module { (wasm_run (record { modules = record { name = []; tree = sample.no_module } ∷ []; hosts = [] }) [] 1 []).outcome ≡ Ended }
    ensures empty_module_costs_a_step { (wasm_run (record { modules = record { name = []; tree = sample.no_module } ∷ []; hosts = [] }) [] 0 []).outcome ≡ Stopped OutOfSteps }
    ensures two_constants { values_in (sample.run_alone sample.two_constants (codes "f") [] 5 []).events ≡ Some (I32 42) ∷ [] }
    ensures two_constants_in_too_few_steps { (sample.run_alone sample.two_constants (codes "f") [] 4 []).outcome ≡ Stopped OutOfSteps }
    ensures too_many_active_functions { (sample.run_alone sample.calls_itself (codes "f") [] 1026 []).outcome ≡ Stopped (Trapped trap.Exhaustion) }
    ensures calls_take_steps { (sample.run_alone sample.calls_itself (codes "f") [] 1025 []).outcome ≡ Stopped OutOfSteps }
    ensures call_through_the_table { values_in (sample.run_alone sample.indirect_calls (codes "c") (I32 0 ∷ []) 20 []).events ≡ Some (I32 4) ∷ [] }
    ensures empty_element { (sample.run_alone sample.indirect_calls (codes "c") (I32 1 ∷ []) 20 []).outcome ≡ Stopped (Trapped trap.Empty) }
    ensures element_of_another_type { (sample.run_alone sample.indirect_calls (codes "c") (I32 2 ∷ []) 20 []).outcome ≡ Stopped (Trapped trap.Signature) }
    ensures past_the_table { (sample.run_alone sample.indirect_calls (codes "c") (I32 3 ∷ []) 20 []).outcome ≡ Stopped (Trapped trap.TableOut) }
    ensures host_ticks { values_in (sample.run_alone sample.host_ticks (codes "r") [] 9 (Gave (Some (I64 1)) ∷ Gave (Some (I64 2)) ∷ [])).events ≡ Some (I64 3) ∷ [] }
    ensures reply_of_another_type { (sample.run_alone sample.host_ticks (codes "r") [] 9 (Gave (Some (I32 1)) ∷ [])).outcome ≡ Stopped Asks }
    ensures host_trap { (sample.run_alone sample.host_ticks (codes "r") [] 9 (HostTrapped ∷ [])).outcome ≡ Stopped (Trapped trap.HostTrap) }
    ensures reply_past_the_width { (sample.run_alone sample.host_ticks (codes "r") [] 9 (Gave (Some (I64 18446744073709551616)) ∷ [])).outcome ≡ Stopped Asks }
    ensures greatest_reply { values_in (sample.run_alone sample.host_ticks (codes "r") [] 9 (Gave (Some (I64 18446744073709551615)) ∷ Gave (Some (I64 2)) ∷ [])).events ≡ Some (I64 1) ∷ [] }
    ensures what_happened { (sample.run_alone sample.host_ticks (codes "r") [] 9 (Gave (Some (I64 1)) ∷ Gave (Some (I64 2)) ∷ [])).events
        ≡ Asked sample.tick (Some (Gave (Some (I64 1)))) ∷ Asked sample.tick (Some (Gave (Some (I64 2)))) ∷ CallEnded (Some (I64 3)) ∷ [] }
    ensures last_ask_is_told { (sample.run_alone sample.host_ticks (codes "r") [] 9 (Gave (Some (I64 1)) ∷ Gave None ∷ [])).events
        ≡ Asked sample.tick (Some (Gave (Some (I64 1)))) ∷ Asked sample.tick None ∷ [] }
    ensures result_of_another_type { (sample.run_alone (sample.gives (Some type.I32) (I64Const (pos 1) ∷ []) sample.no_module) (codes "f") [] 9 []).outcome ≡ Stopped Stuck }
    ensures returned_value_of_another_type { (sample.run_alone (sample.gives (Some type.I32) (I64Const (pos 1) ∷ Return ∷ []) sample.no_module) (codes "f") [] 9 []).outcome ≡ Stopped Stuck }
    ensures returned_value { values_in (sample.run_alone (sample.gives (Some type.I32) (I64Const (pos 1) ∷ I32Const (pos 7) ∷ Return ∷ Unreachable ∷ []) sample.no_module) (codes "f") [] 9 []).events ≡ Some (I32 7) ∷ [] }
    ensures mutable_global_is_set { (sample.run_alone (sample.sets_global true) (codes "f") [] 9 []).outcome ≡ Ended }
    ensures immutable_global_is_not { (sample.run_alone (sample.sets_global false) (codes "f") [] 9 []).outcome ≡ Stopped Stuck }
    ensures phase_of_a_call { (sample.run_alone sample.host_ticks (codes "r") [] 9 []).phase ≡ CallPhase 0 }
{}

/// Instructions with control.
pub fn control_cases()
    ensures branch_to_the_inner_label { sample.run_code sample.three_blocks (I32 0) 100 ≡ Normal 92 (I32 10 ∷ []) (sample.state_of (I32 0)) }
    ensures branch_to_the_middle_label { sample.run_code sample.three_blocks (I32 1) 100 ≡ Normal 94 (I32 9 ∷ []) (sample.state_of (I32 1)) }
    ensures branch_to_the_default_label { sample.run_code sample.three_blocks (I32 4294967295) 100 ≡ Normal 96 (I32 7 ∷ []) (sample.state_of (I32 4294967295)) }
    ensures trap_in_a_nested_block { sample.run_code (Block None (sample.code_of (Block None (sample.code_of (Unreachable ∷ [])) 0 ∷ [])) 0 ∷ Br 0 ∷ []) (I32 0) 1 ≡ Stops (Trapped trap.Unreachable) (sample.state_of (I32 0)) }
    ensures endless_loop { sample.run_code (Loop None (sample.code_of (Br 0 ∷ [])) 0 ∷ []) (I32 0) 5 ≡ Stops OutOfSteps (sample.state_of (I32 0)) }
    ensures dead_code_behind_a_branch { sample.run_code (Block None (sample.code_of (Br 0 ∷ Binary type.I32 Add ∷ Drop ∷ [])) 0 ∷ []) (I32 0) 1 ≡ Normal 0 [] (sample.state_of (I32 0)) }
    ensures free_instructions { sample.run_code (Nop ∷ Block None (sample.code_of []) 0 ∷ Loop None (sample.code_of []) 0 ∷ []) (I32 0) 0 ≡ Normal 0 [] (sample.state_of (I32 0)) }
{}

/// Operands of another type than the place that takes them, and instructions that choose.
pub fn operand_cases()
    ensures local_of_another_type { sample.run_code (I64Const (pos 1) ∷ LocalSet 0 ∷ []) (I32 0) 9 ≡ Stops Stuck (sample.state_of (I32 0)) }
    ensures local_of_its_type { sample.run_code (I32Const (pos 1) ∷ LocalSet 0 ∷ []) (I32 0) 9 ≡ Normal 7 [] (sample.state_of (I32 1)) }
    ensures select_of_two_types { sample.run_code (I32Const (pos 1) ∷ I64Const (pos 2) ∷ LocalGet 0 ∷ Select ∷ []) (I32 0) 9 ≡ Stops Stuck (sample.state_of (I32 0)) }
    ensures select_by_0 { sample.run_code (I64Const (pos 1) ∷ I64Const (pos 2) ∷ LocalGet 0 ∷ Select ∷ []) (I32 0) 9 ≡ Normal 5 (I64 2 ∷ []) (sample.state_of (I32 0)) }
    ensures select_by_another { sample.run_code (I64Const (pos 1) ∷ I64Const (pos 2) ∷ LocalGet 0 ∷ Select ∷ []) (I32 3) 9 ≡ Normal 5 (I64 1 ∷ []) (sample.state_of (I32 3)) }
    ensures label_of_another_type { sample.run_code (Block (Some type.I32) (sample.code_of (I64Const (pos 1) ∷ Br 0 ∷ [])) 0 ∷ []) (I32 0) 9 ≡ Stops Stuck (sample.state_of (I32 0)) }
    ensures if_by_0 { sample.run_code (LocalGet 0 ∷ If (Some type.I32) (sample.code_of (I32Const (pos 5) ∷ [])) (else_code 0 (sample.code_of (I32Const (pos 6) ∷ []))) 0 ∷ []) (I32 0) 9 ≡ Normal 6 (I32 6 ∷ []) (sample.state_of (I32 0)) }
    ensures if_by_another { sample.run_code (LocalGet 0 ∷ If (Some type.I32) (sample.code_of (I32Const (pos 5) ∷ [])) (else_code 0 (sample.code_of (I32Const (pos 6) ∷ []))) 0 ∷ []) (I32 8) 9 ≡ Normal 6 (I32 5 ∷ []) (sample.state_of (I32 8)) }
    ensures branch_if_0 { sample.run_code (Block (Some type.I32) (sample.code_of (I32Const (pos 7) ∷ LocalGet 0 ∷ BrIf 0 ∷ Drop ∷ I32Const (pos 8) ∷ [])) 0 ∷ []) (I32 0) 9 ≡ Normal 5 (I32 8 ∷ []) (sample.state_of (I32 0)) }
    ensures branch_if_another { sample.run_code (Block (Some type.I32) (sample.code_of (I32Const (pos 7) ∷ LocalGet 0 ∷ BrIf 0 ∷ Drop ∷ I32Const (pos 8) ∷ [])) 0 ∷ []) (I32 2) 9 ≡ Normal 6 (I32 7 ∷ []) (sample.state_of (I32 2)) }
    ensures early_return { sample.run_code (I32Const (pos 7) ∷ Return ∷ Unreachable ∷ []) (I32 0) 9 ≡ Returned 7 (I32 7 ∷ []) (sample.state_of (I32 0)) }
{}

/// Loads and stores that run, on the module's own memory and on an imported one.
pub fn access_cases()
    ensures load { sample.run_on_memory 0 (LocalGet 0 ∷ Load I32Load8U (record { align = 0; offset = 3 }) ∷ []) (I32 1) ≡ Normal 7 (I32 5 ∷ []) (sample.memory_state (1 ∷ 2 ∷ 3 ∷ 4 ∷ 5 ∷ []) (I32 1)) }
    ensures load_of_imported { sample.run_on_memory 1 (LocalGet 0 ∷ Load I32Load (record { align = 0; offset = 0 }) ∷ []) (I32 1) ≡ Normal 7 (I32 84148994 ∷ []) (sample.memory_state (1 ∷ 2 ∷ 3 ∷ 4 ∷ 5 ∷ []) (I32 1)) }
    ensures load_past_the_end { sample.run_on_memory 0 (LocalGet 0 ∷ Load I32Load8U (record { align = 0; offset = 4 }) ∷ []) (I32 1) ≡ Stops (Trapped trap.MemoryOut) (sample.memory_state (1 ∷ 2 ∷ 3 ∷ 4 ∷ 5 ∷ []) (I32 1)) }
    ensures store { sample.run_on_memory 0 (LocalGet 0 ∷ I64Const (pos 65538) ∷ Store I64Store16 (record { align = 0; offset = 1 }) ∷ []) (I32 1) ≡ Normal 6 [] (sample.memory_state (1 ∷ 2 ∷ 2 ∷ 0 ∷ 5 ∷ []) (I32 1)) }
    ensures store_to_imported { sample.run_on_memory 1 (LocalGet 0 ∷ I32Const (pos 9) ∷ Store I32Store8 (record { align = 0; offset = 4 }) ∷ []) (I32 0) ≡ Normal 6 [] (sample.memory_state (1 ∷ 2 ∷ 3 ∷ 4 ∷ 9 ∷ []) (I32 0)) }
    ensures store_of_another_type { sample.run_on_memory 0 (LocalGet 0 ∷ I64Const (pos 9) ∷ Store I32Store8 (record { align = 0; offset = 0 }) ∷ []) (I32 0) ≡ Stops Stuck (sample.memory_state (1 ∷ 2 ∷ 3 ∷ 4 ∷ 5 ∷ []) (I32 0)) }
    ensures store_past_the_end { sample.run_on_memory 1 (LocalGet 0 ∷ I32Const (pos 9) ∷ Store I32Store (record { align = 0; offset = 2 }) ∷ []) (I32 0) ≡ Stops (Trapped trap.MemoryOut) (sample.memory_state (1 ∷ 2 ∷ 3 ∷ 4 ∷ 5 ∷ []) (I32 0)) }
{}

/// Bytes copied and filled, and a number extended: what they leave, and what they cost.
pub fn bulk_cases()
    ensures copy { sample.run_on_memory 0 (I32Const (pos 1) ∷ I32Const (pos 0) ∷ LocalGet 0 ∷ MemoryCopy ∷ []) (I32 3) ≡ Normal 2 [] (sample.memory_state (1 ∷ 1 ∷ 2 ∷ 3 ∷ 5 ∷ []) (I32 3)) }
    ensures copy_in_imported { sample.run_on_memory 1 (I32Const (pos 0) ∷ I32Const (pos 1) ∷ LocalGet 0 ∷ MemoryCopy ∷ []) (I32 3) ≡ Normal 2 [] (sample.memory_state (2 ∷ 3 ∷ 4 ∷ 4 ∷ 5 ∷ []) (I32 3)) }
    ensures copy_past_the_end { sample.run_on_memory 0 (I32Const (pos 1) ∷ I32Const (pos 0) ∷ LocalGet 0 ∷ MemoryCopy ∷ []) (I32 5) ≡ Stops (Trapped trap.MemoryOut) (sample.memory_state (1 ∷ 2 ∷ 3 ∷ 4 ∷ 5 ∷ []) (I32 5)) }
    ensures copy_of_no_bytes { sample.run_on_memory 0 (I32Const (pos 5) ∷ I32Const (pos 5) ∷ LocalGet 0 ∷ MemoryCopy ∷ []) (I32 0) ≡ Normal 5 [] (sample.memory_state (1 ∷ 2 ∷ 3 ∷ 4 ∷ 5 ∷ []) (I32 0)) }
    ensures copy_of_no_bytes_past_the_end { sample.run_on_memory 0 (I32Const (pos 6) ∷ I32Const (pos 0) ∷ LocalGet 0 ∷ MemoryCopy ∷ []) (I32 0) ≡ Stops (Trapped trap.MemoryOut) (sample.memory_state (1 ∷ 2 ∷ 3 ∷ 4 ∷ 5 ∷ []) (I32 0)) }
    ensures fill { sample.run_on_memory 0 (I32Const (pos 1) ∷ I32Const (pos 263) ∷ LocalGet 0 ∷ MemoryFill ∷ []) (I32 4) ≡ Normal 1 [] (sample.memory_state (1 ∷ 7 ∷ 7 ∷ 7 ∷ 7 ∷ []) (I32 4)) }
    ensures fill_in_too_few_steps { sample.run_on_memory 0 (Nop ∷ I32Const (pos 0) ∷ I32Const (pos 7) ∷ I32Const (pos 0) ∷ Drop ∷ I32Const (pos 0) ∷ Drop ∷ LocalGet 0 ∷ MemoryFill ∷ []) (I32 4) ≡ Stops OutOfSteps (sample.memory_state (1 ∷ 2 ∷ 3 ∷ 4 ∷ 5 ∷ []) (I32 4)) }
    ensures extend { sample.run_code (I32Const (pos 384) ∷ Extend I32Extend8S ∷ []) (I32 0) 9 ≡ Normal 7 (I32 4294967168 ∷ []) (sample.state_of (I32 0)) }
{}

/// Sets that are linked: what their imports stand for, and how many modules there may be.
pub fn linking_cases()
    ensures host_function { IsLinked (sample.alone sample.host_ticks) }
    ensures function_of_the_second_host { IsLinked (sample.behind_another_host sample.host_ticks) }
    ensures host_function_handed_on { IsLinked (sample.both sample.hands_on_tick
        (sample.imports_func (codes "a") (codes "t") (sample.func_type [] (Some type.I64)))) }
    ensures functions_and_a_global { IsLinked (sample.both sample.exports_global (sample.imports_global None)) }
    // limits are no part of it
    ensures table { IsLinked (sample.both (sample.exports_table None) (sample.imports_table 3 (Some 3))) }
    ensures memory { IsLinked (sample.both sample.exports_memory (sample.imports_memory (codes "m") 1)) }
    ensures sixteen_modules { IsLinked (sample.empty_modules (sample.names_up_to 16) (sample.env ∷ [])) }
{}

/// Imports that keep a set from being linked.
pub fn unlinked_import_cases()
    ensures another_result { IsLinked (sample.both sample.two_constants
        (sample.imports_func (codes "a") (codes "f") (sample.func_type [] (Some type.I64)))) → ⊥ }
    ensures a_parameter_more { IsLinked (sample.both sample.two_constants
        (sample.imports_func (codes "a") (codes "f") (sample.func_type (type.I32 ∷ []) (Some type.I32)))) → ⊥ }
    ensures no_such_export { IsLinked (sample.both sample.two_constants
        (sample.imports_func (codes "a") (codes "g") (sample.func_type [] (Some type.I32)))) → ⊥ }
    ensures no_such_module { IsLinked (sample.both sample.two_constants
        (sample.imports_func (codes "c") (codes "f") (sample.func_type [] (Some type.I32)))) → ⊥ }
    ensures later_module { IsLinked (sample.both
        (sample.imports_func (codes "b") (codes "f") (sample.func_type [] (Some type.I32))) sample.two_constants) → ⊥ }
    ensures own_export { IsLinked (sample.alone sample.imports_its_own) → ⊥ }
    ensures host_function_of_another_type { IsLinked (sample.alone
        (sample.imports_func (codes "env") (codes "tick") (sample.func_type [] (Some type.I32)))) → ⊥ }
    ensures no_such_function_of_the_host { IsLinked (sample.alone
        (sample.imports_func (codes "env") (codes "tock") (sample.func_type [] (Some type.I64)))) → ⊥ }
    ensures global_of_another_type { IsLinked (sample.both sample.exports_global
        (sample.imports_one_global (codes "g") type.I64 true)) → ⊥ }
    ensures global_that_changes { IsLinked (sample.both sample.exports_global
        (sample.imports_one_global (codes "g") type.I32 false)) → ⊥ }
    ensures function_for_a_global { IsLinked (sample.both sample.exports_global
        (sample.imports_one_global (codes "inc") type.I32 true)) → ⊥ }
    ensures global_for_a_function { IsLinked (sample.both sample.exports_global
        (sample.imports_func (codes "a") (codes "g") (sample.func_type [] (Some type.I32)))) → ⊥ }
    ensures table_for_a_memory { IsLinked (sample.both (sample.exports_table None) (sample.imports_memory (codes "t") 0)) → ⊥ }
    ensures no_such_table { IsLinked (sample.both sample.exports_memory (sample.imports_table 0 None)) → ⊥ }
{}

/// Names that keep a set from being linked, and modules that are too many.
pub fn unlinked_name_cases()
    ensures a_module_twice { IsLinked (sample.empty_modules (codes "a" ∷ codes "b" ∷ codes "a" ∷ []) []) → ⊥ }
    ensures a_module_named_as_a_host { IsLinked (sample.empty_modules (codes "a" ∷ codes "env" ∷ []) (sample.env ∷ [])) → ⊥ }
    ensures a_host_twice { IsLinked (sample.empty_modules [] (sample.env ∷ sample.env ∷ [])) → ⊥ }
    ensures a_function_of_a_host_twice { IsLinked (sample.empty_modules [] (sample.ticks_twice ∷ [])) → ⊥ }
    ensures seventeen_modules { IsLinked (sample.empty_modules (sample.names_up_to 17) []) → ⊥ }
{}

/// Calls that fit and calls that do not, and functions that an index stands for.
pub fn call_cases()
    ensures fits { Fits (sample.alone sample.indirect_calls) (sample.call_of (codes "c") (I32 4294967295 ∷ [])) }
    ensures host_function_handed_on { Fits (sample.alone sample.hands_on_tick) (sample.call_of (codes "t") []) }
    ensures no_such_module { Fits (sample.alone sample.indirect_calls)
        (record { module_name = codes "n"; export_name = codes "c"; args = I32 0 ∷ [] }) → ⊥ }
    ensures host_is_no_module { Fits (sample.alone sample.host_ticks)
        (record { module_name = codes "env"; export_name = codes "tick"; args = [] }) → ⊥ }
    ensures no_such_export { Fits (sample.alone sample.indirect_calls) (sample.call_of (codes "d") (I32 0 ∷ [])) → ⊥ }
    ensures export_is_no_function { Fits (sample.alone (sample.exports_table None)) (sample.call_of (codes "t") []) → ⊥ }
    ensures argument_missing { Fits (sample.alone sample.indirect_calls) (sample.call_of (codes "c") []) → ⊥ }
    ensures argument_too_many { Fits (sample.alone sample.indirect_calls) (sample.call_of (codes "c") (I32 0 ∷ I32 0 ∷ [])) → ⊥ }
    ensures argument_of_another_type { Fits (sample.alone sample.indirect_calls) (sample.call_of (codes "c") (I64 0 ∷ [])) → ⊥ }
    ensures argument_past_the_width { Fits (sample.alone sample.indirect_calls) (sample.call_of (codes "c") (I32 4294967296 ∷ [])) → ⊥ }
    ensures own_function { body_of (sample.alone sample.host_ticks) 0 1 ≡ Some (sample.body (Call 0 ∷ Call 0 ∷ Binary type.I64 Add ∷ [])) }
    ensures imported_function_has_no_body { body_of (sample.alone sample.host_ticks) 0 0 ≡ None }
    ensures imported_function_has_no_type { func_type (sample.alone sample.host_ticks) (ModuleFunc 0 0) ≡ None }
{}

/// Instantiation: imports, limits, segments and the start function.
pub fn instantiation_cases()
    ensures values_of_linked_modules { values_in (sample.run_both sample.exports_global (sample.imports_global None) (codes "run" ∷ codes "again" ∷ []) 30).events ≡ Some (I32 12) ∷ Some (I32 7) ∷ [] }
    ensures start_function_runs_first { values_in (sample.run_both sample.exports_global (sample.imports_global (sample.start_at 1)) (codes "again" ∷ []) 30).events ≡ Some (I32 7) ∷ [] }
    ensures start_call_is_free { (sample.run_both sample.exports_global (sample.imports_global (sample.start_at 1)) [] 8).outcome ≡ Ended }
    ensures start_function_costs_its_instructions { (sample.run_both sample.exports_global (sample.imports_global (sample.start_at 1)) [] 7).outcome ≡ Stopped OutOfSteps }
    ensures initial_value_of_another_type { (sample.run_alone sample.wide_for_narrow (codes "f") [] 9 []).outcome ≡ Stopped Stuck }
    ensures limits_fit { (sample.run_both (sample.exports_table (Some 3)) (sample.imports_table 2 (Some 3)) [] 9).outcome ≡ Ended }
    ensures table_too_short { (sample.run_both (sample.exports_table (Some 3)) (sample.imports_table 3 (Some 3)) [] 9).outcome ≡ Stopped (Trapped trap.ImportLimits) }
    ensures maximum_too_great { (sample.run_both (sample.exports_table (Some 4)) (sample.imports_table 2 (Some 3)) [] 9).outcome ≡ Stopped (Trapped trap.ImportLimits) }
    ensures maximum_is_missing { (sample.run_both (sample.exports_table None) (sample.imports_table 2 (Some 3)) [] 9).outcome ≡ Stopped (Trapped trap.ImportLimits) }
    ensures phase_of_the_second_module { (sample.run_both (sample.exports_table None) (sample.imports_table 3 None) [] 9).phase ≡ Init 1 }
    ensures byte_past_the_end { (sample.run_alone (sample.small_memory (sample.data_at (pos 0) (65 ∷ []) ∷ [])) (codes "grow") (I32 0 ∷ []) 9 []).outcome ≡ Stopped (Trapped trap.SegmentOut) }
    ensures no_bytes_at_the_end { values_in (sample.run_alone (sample.small_memory (sample.data_at (pos 0) [] ∷ [])) (codes "grow") (I32 0 ∷ []) 9 []).events ≡ Some (I32 0) ∷ [] }
    ensures growth_past_the_maximum { values_in (sample.run_alone (sample.small_memory []) (codes "grow") (I32 2 ∷ []) 9 []).events ≡ Some (I32 4294967295) ∷ [] }
    ensures second_segment_past_the_end { (sample.run_alone sample.second_segment_past_the_end (codes "t") [] 9 []).outcome ≡ Stopped (Trapped trap.SegmentOut) }
    ensures bounds_before_the_first_write { (sample.run_alone sample.second_segment_past_the_end (codes "t") [] 9 []).store
        ≡ record { memory = None; table = Some (record { elements = None ∷ None ∷ []; max = None }); globals = [] } ∷ [] }
    ensures empty_segment_past_the_end { (sample.run_alone sample.segment_past_the_end (codes "t") [] 9 []).outcome ≡ Stopped (Trapped trap.SegmentOut) }
{}
