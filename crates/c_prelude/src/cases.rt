// Closed cases of the helpers' trees at the edges of their operators, by computation.
ghost use Rattle.std.specs.Prelude.{◌≡◌, [], ◌∷◌, codes, Some, None};
ghost use Rattle.w2c_base.specs.declared.trap.TrapKind.TheVariants as trap;
ghost use Rattle.w2c_base.specs.declared.value.Value.TheVariants.{I32, I64};
ghost use Rattle.c_meaning.specs.State.{Number, FuncPointer, UnitFunc};
ghost use Rattle.c_helpers.specs.declared.operation.NumOp.TheVariants as num;
ghost use Rattle.wasm_tree.specs.declared.operators.LoadOp.TheVariants as load;
ghost use Rattle.wasm_tree.specs.declared.operators.StoreOp.TheVariants as store;
ghost use Rattle.c_helpers.specs.declared.operation.Helper.TheVariants as helper;
ghost use Rattle.c_prelude.specs.Calls.{GivesBack, TrapsWith};
ghost use Rattle.c_prelude.specs.Samples as sample;

/// Division, shifts, counts, comparisons and sign extension.
pub fn number_cases()
    ensures least_by_minus_1 { sample.called (helper.Num num.I32DivS) (Number (I32 2147483648) ∷ Number (I32 4294967295) ∷ []) 6 ≡ sample.ended (TrapsWith sample.machine trap.IntOverflow) }
    ensures minus_7_by_2 { sample.called (helper.Num num.I32DivS) (Number (I32 4294967289) ∷ Number (I32 2) ∷ []) 4 ≡ sample.ended (GivesBack sample.machine (Some (Number (I32 4294967293)))) }
    ensures wide_7_by_minus_2 { sample.called (helper.Num num.I64DivS) (Number (I64 7) ∷ Number (I64 18446744073709551614) ∷ []) 4 ≡ sample.ended (GivesBack sample.machine (Some (Number (I64 18446744073709551613)))) }
    ensures quotient_by_0 { sample.called (helper.Num num.I64DivU) (Number (I64 7) ∷ Number (I64 0) ∷ []) 2 ≡ sample.ended (TrapsWith sample.machine trap.DivByZero) }
    ensures remainder_has_the_dividends_sign { sample.called (helper.Num num.I32RemS) (Number (I32 4294967289) ∷ Number (I32 2) ∷ []) 4 ≡ sample.ended (GivesBack sample.machine (Some (Number (I32 4294967295)))) }
    ensures remainder_of_the_least_by_minus_1 { sample.called (helper.Num num.I32RemS) (Number (I32 2147483648) ∷ Number (I32 4294967295) ∷ []) 5 ≡ sample.ended (GivesBack sample.machine (Some (Number (I32 0)))) }
    ensures signed_shift_past_the_width { sample.called (helper.Num num.I32ShrS) (Number (I32 4294967288) ∷ Number (I32 33) ∷ []) 3 ≡ sample.ended (GivesBack sample.machine (Some (Number (I32 4294967292)))) }
    ensures rotation_past_the_width { sample.called (helper.Num num.I32Rotl) (Number (I32 2147483649) ∷ Number (I32 33) ∷ []) 2 ≡ sample.ended (GivesBack sample.machine (Some (Number (I32 3)))) }
    ensures rotation_by_the_width { sample.called (helper.Num num.I64Rotr) (Number (I64 5) ∷ Number (I64 64) ∷ []) 2 ≡ sample.ended (GivesBack sample.machine (Some (Number (I64 5)))) }
    ensures leading_zeros_of_0 { sample.called (helper.Num num.I32Clz) (Number (I32 0) ∷ []) 16 ≡ sample.ended (GivesBack sample.machine (Some (Number (I32 32)))) }
    ensures trailing_zeros_of_0 { sample.called (helper.Num num.I64Ctz) (Number (I64 0) ∷ []) 19 ≡ sample.ended (GivesBack sample.machine (Some (Number (I64 64)))) }
    ensures trailing_zeros_of_40 { sample.called (helper.Num num.I32Ctz) (Number (I32 40) ∷ []) 16 ≡ sample.ended (GivesBack sample.machine (Some (Number (I32 3)))) }
    ensures ones_of_the_greatest { sample.called (helper.Num num.I64Popcnt) (Number (I64 18446744073709551615) ∷ []) 7 ≡ sample.ended (GivesBack sample.machine (Some (Number (I64 64)))) }
    ensures minus_1_is_less_than_0 { sample.called (helper.Num num.I64LtS) (Number (I64 18446744073709551615) ∷ Number (I64 0) ∷ []) 1 ≡ sample.ended (GivesBack sample.machine (Some (Number (I32 1)))) }
    ensures sign_of_a_word { sample.called (helper.Num num.I64ExtendI32S) (Number (I32 2147483648) ∷ []) 1 ≡ sample.ended (GivesBack sample.machine (Some (Number (I64 18446744071562067968)))) }
    ensures sign_of_the_low_byte { sample.called (helper.Num num.I32Extend8S) (Number (I32 384) ∷ []) 1 ≡ sample.ended (GivesBack sample.machine (Some (Number (I32 4294967168)))) }
    ensures sign_of_two_low_bytes { sample.called (helper.Num num.I32Extend16S) (Number (I32 98303) ∷ []) 1 ≡ sample.ended (GivesBack sample.machine (Some (Number (I32 32767)))) }
    ensures wide_sign_of_the_low_byte { sample.called (helper.Num num.I64Extend8S) (Number (I64 255) ∷ []) 1 ≡ sample.ended (GivesBack sample.machine (Some (Number (I64 18446744073709551615)))) }
    ensures wide_sign_of_two_low_bytes { sample.called (helper.Num num.I64Extend16S) (Number (I64 32768) ∷ []) 1 ≡ sample.ended (GivesBack sample.machine (Some (Number (I64 18446744073709518848)))) }
    ensures wide_sign_of_the_low_word { sample.called (helper.Num num.I64Extend32S) (Number (I64 6442450944) ∷ []) 1 ≡ sample.ended (GivesBack sample.machine (Some (Number (I64 18446744071562067968)))) }
{}

/// Loads and stores at the end of a memory of five bytes, and elements of a table of two.
pub fn object_cases()
    ensures load_at_the_end { sample.called (helper.Load load.I32Load) (sample.memory ∷ Number (I32 1) ∷ Number (I32 0) ∷ []) 5 ≡ sample.ended (GivesBack sample.machine (Some (Number (I32 2231632642)))) }
    ensures load_past_the_end { sample.called (helper.Load load.I32Load) (sample.memory ∷ Number (I32 1) ∷ Number (I32 1) ∷ []) 4 ≡ sample.ended (TrapsWith sample.machine trap.MemoryOut) }
    ensures address_past_32_bits { sample.called (helper.Load load.I32Load8U) (sample.memory ∷ Number (I32 4294967295) ∷ Number (I32 1) ∷ []) 4 ≡ sample.ended (TrapsWith sample.machine trap.MemoryOut) }
    ensures sign_of_a_byte { sample.called (helper.Load load.I64Load8S) (sample.memory ∷ Number (I32 0) ∷ Number (I32 4) ∷ []) 5 ≡ sample.ended (GivesBack sample.machine (Some (Number (I64 18446744073709551493)))) }
    ensures store_keeps_the_low_bytes { sample.called (helper.Store store.I64Store16) (sample.memory ∷ Number (I32 1) ∷ Number (I32 2) ∷ Number (I64 65538) ∷ []) 5 ≡ sample.ended (GivesBack (sample.with_bytes (255 ∷ 2 ∷ 3 ∷ 2 ∷ 0 ∷ [])) None) }
    ensures store_past_the_end { sample.called (helper.Store store.I32Store8) (sample.memory ∷ Number (I32 5) ∷ Number (I32 0) ∷ Number (I32 1) ∷ []) 4 ≡ sample.ended (TrapsWith sample.machine trap.MemoryOut) }
    ensures less_than_a_page { sample.called helper.Size (sample.memory ∷ []) 2 ≡ sample.ended (GivesBack sample.machine (Some (Number (I32 0)))) }
    ensures element { sample.called helper.Element (sample.table ∷ Number (I32 1) ∷ Number (I64 7) ∷ []) 8 ≡ sample.ended (GivesBack sample.machine (Some (FuncPointer (Some (UnitFunc 0 (codes "f0")))))) }
    ensures element_of_another_type { sample.called helper.Element (sample.table ∷ Number (I32 1) ∷ Number (I64 8) ∷ []) 7 ≡ sample.ended (TrapsWith sample.machine trap.Signature) }
    ensures empty_element { sample.called helper.Element (sample.table ∷ Number (I32 0) ∷ Number (I64 7) ∷ []) 6 ≡ sample.ended (TrapsWith sample.machine trap.Empty) }
    ensures past_the_table { sample.called helper.Element (sample.table ∷ Number (I32 2) ∷ Number (I64 7) ∷ []) 4 ≡ sample.ended (TrapsWith sample.machine trap.TableOut) }
{}

/// Bytes copied and filled, overlapping, at the end of a memory and past it.
pub fn byte_cases()
    ensures copied_up_past_its_own_end { sample.called_with (1 ∷ 2 ∷ 3 ∷ 4 ∷ []) helper.Copy (sample.memory ∷ Number (I32 1) ∷ Number (I32 0) ∷ Number (I32 3) ∷ []) 21 ≡ sample.ended (GivesBack (sample.with_bytes (1 ∷ 1 ∷ 2 ∷ 3 ∷ [])) None) }
    ensures copied_down_past_its_own_end { sample.called_with (1 ∷ 2 ∷ 3 ∷ 4 ∷ []) helper.Copy (sample.memory ∷ Number (I32 0) ∷ Number (I32 1) ∷ Number (I32 3) ∷ []) 27 ≡ sample.ended (GivesBack (sample.with_bytes (2 ∷ 3 ∷ 4 ∷ 4 ∷ [])) None) }
    ensures copied_onto_itself { sample.called_with (1 ∷ 2 ∷ 3 ∷ 4 ∷ []) helper.Copy (sample.memory ∷ Number (I32 1) ∷ Number (I32 1) ∷ Number (I32 2) ∷ []) 21 ≡ sample.ended (GivesBack (sample.with_bytes (1 ∷ 2 ∷ 3 ∷ 4 ∷ [])) None) }
    ensures no_byte_copied_at_the_end { sample.called_with (255 ∷ 2 ∷ 3 ∷ 4 ∷ 133 ∷ []) helper.Copy (sample.memory ∷ Number (I32 5) ∷ Number (I32 5) ∷ Number (I32 0) ∷ []) 8 ≡ sample.ended (GivesBack (sample.with_bytes (255 ∷ 2 ∷ 3 ∷ 4 ∷ 133 ∷ [])) None) }
    ensures no_byte_copied_past_the_end { sample.called helper.Copy (sample.memory ∷ Number (I32 6) ∷ Number (I32 0) ∷ Number (I32 0) ∷ []) 6 ≡ sample.ended (TrapsWith sample.machine trap.MemoryOut) }
    ensures copy_from_past_the_end { sample.called helper.Copy (sample.memory ∷ Number (I32 0) ∷ Number (I32 3) ∷ Number (I32 3) ∷ []) 7 ≡ sample.ended (TrapsWith sample.machine trap.MemoryOut) }
    ensures copy_past_32_bits { sample.called helper.Copy (sample.memory ∷ Number (I32 4294967295) ∷ Number (I32 0) ∷ Number (I32 4294967295) ∷ []) 6 ≡ sample.ended (TrapsWith sample.machine trap.MemoryOut) }
    ensures filled_with_the_low_byte { sample.called_with (255 ∷ 2 ∷ 3 ∷ 4 ∷ 133 ∷ []) helper.Fill (sample.memory ∷ Number (I32 1) ∷ Number (I32 511) ∷ Number (I32 3) ∷ []) 18 ≡ sample.ended (GivesBack (sample.with_bytes (255 ∷ 255 ∷ 255 ∷ 255 ∷ 133 ∷ [])) None) }
    ensures no_byte_filled_at_the_end { sample.called_with (255 ∷ 2 ∷ 3 ∷ 4 ∷ 133 ∷ []) helper.Fill (sample.memory ∷ Number (I32 5) ∷ Number (I32 1) ∷ Number (I32 0) ∷ []) 6 ≡ sample.ended (GivesBack (sample.with_bytes (255 ∷ 2 ∷ 3 ∷ 4 ∷ 133 ∷ [])) None) }
    ensures no_byte_filled_past_the_end { sample.called helper.Fill (sample.memory ∷ Number (I32 6) ∷ Number (I32 1) ∷ Number (I32 0) ∷ []) 5 ≡ sample.ended (TrapsWith sample.machine trap.MemoryOut) }
    ensures filled_past_the_end { sample.called helper.Fill (sample.memory ∷ Number (I32 3) ∷ Number (I32 1) ∷ Number (I32 3) ∷ []) 5 ≡ sample.ended (TrapsWith sample.machine trap.MemoryOut) }
{}
