// Files of a few bytes, and what the definitions say of them.
ghost use Rattle.std.specs.Prelude.{◌≡◌, [], ◌∷◌, ◌++◌};
ghost use Rattle.wasm_spelling.specs.declared.fault.ReadFault.TheVariants.{Malformed, Float, Limit};
ghost use Rattle.wasm_spelling.specs.declared.fault.Cause.TheVariants as cause;
ghost use Rattle.wasm_spelling.specs.declared.fault.Which.TheVariants as which;
ghost use Rattle.wasm_spelling.specs.ModuleFields.{Spells};
ghost use Rattle.wasm_spelling.specs.Table.{Upto};
ghost use Rattle.wasm_spelling.specs.Reading.{no_module};
ghost use Rattle.wasm_spelling.specs.Samples.{head, padded, announces_none, copying, copies};

/// The smallest module, and first faults.
pub fn file_cases()
    ensures empty { Spells no_module head }
    ensures padded_count { Spells no_module padded }
    ensures seven_bytes { Upto (0x00 ∷ 0x61 ∷ 0x73 ∷ 0x6D ∷ 0x01 ∷ 0x00 ∷ 0x00 ∷ []) (Malformed 7 cause.UnexpectedEnd) }
    ensures unused_bits { Upto (head ++ 0x01 ∷ 0x80 ∷ 0x80 ∷ 0x80 ∷ 0x80 ∷ 0x10 ∷ []) (Malformed 9 cause.UnusedBits) }
    ensures order { Upto (head ++ 0x03 ∷ 0x01 ∷ 0x00 ∷ 0x01 ∷ 0x01 ∷ 0x00 ∷ []) (Malformed 11 cause.SectionOrder) }
    ensures float_type { Upto (head ++ 0x01 ∷ 0x05 ∷ 0x01 ∷ 0x60 ∷ 0x00 ∷ 0x01 ∷ 0x7D ∷ []) (Float 14) }
    ensures no_code { Upto (head ++ 0x03 ∷ 0x02 ∷ 0x01 ∷ 0x00 ∷ []) (Malformed 12 cause.CountDiffers) }
    ensures parameters { Upto (head ++ 0x01 ∷ 0x03 ∷ 0x01 ∷ 0x60 ∷ 0x3D ∷ []) (Limit 12 which.Parameters) }
    ensures most_parameters { Upto (head ++ 0x01 ∷ 0x03 ∷ 0x01 ∷ 0x60 ∷ 0x3C ∷ []) (Malformed 13 cause.UnexpectedEnd) }
    ensures pages { Upto (head ++ 0x05 ∷ 0x05 ∷ 0x01 ∷ 0x00 ∷ 0x81 ∷ 0x80 ∷ 0x01 ∷ []) (Limit 12 which.MemoryPages) }
    ensures opcode { Upto (head ++ 0x06 ∷ 0x04 ∷ 0x01 ∷ 0x7F ∷ 0x00 ∷ 0x06 ∷ []) (Malformed 13 cause.BadOpcode) }
    ensures no_data { Upto (head ++ 0x0C ∷ 0x01 ∷ 0x01 ∷ []) (Malformed 11 cause.CountDiffers) }
    ensures no_data_wanted { Spells announces_none (head ++ 0x0C ∷ 0x01 ∷ 0x00 ∷ []) }
    ensures other_data { Upto (head ++ 0x0C ∷ 0x01 ∷ 0x00 ∷ 0x0B ∷ 0x02 ∷ 0x01 ∷ 0x00 ∷ []) (Malformed 13 cause.CountDiffers) }
    ensures data_count_behind_code { Upto (head ++ 0x0A ∷ 0x01 ∷ 0x00 ∷ 0x0C ∷ 0x01 ∷ 0x00 ∷ []) (Malformed 11 cause.SectionOrder) }
    ensures section_id { Upto (head ++ 0x0D ∷ 0x00 ∷ []) (Malformed 8 cause.BadSectionId) }
    ensures sub_opcode { Upto (head ++ 0x06 ∷ 0x05 ∷ 0x01 ∷ 0x7F ∷ 0x00 ∷ 0xFC ∷ 0x0C ∷ []) (Malformed 14 cause.BadOpcode) }
    ensures copied { Spells copies copying }
{}
