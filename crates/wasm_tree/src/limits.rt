// The limits of the definitions, and those of the code.
ghost use Rattle.std.specs.Prelude.{◌≡◌};
ghost use Rattle.w2c_base.specs.declared.limits.TheConstants.{ALL_LOCALS, BLOCK_DEPTH, FUNCTIONS, LOCALS, MEMORY_PAGES, MODULE_BYTES, NAME_LENGTH, PARAMETERS, RESULTS, TABLE_LENGTH};
ghost use Rattle.wasm_tree.specs.Limits.{most_all_locals, most_blocks, most_functions, most_locals, most_memory_pages, most_module_bytes, most_name_bytes, most_parameters, most_results, most_table_elements};

/// The law that the limits of the definitions are the constants of w2c_base, by which readers and writers test.
pub fn limits_are_those_of_the_code()
    ensures module_bytes { most_module_bytes ≡ MODULE_BYTES }
    ensures parameters { most_parameters ≡ PARAMETERS }
    ensures results { most_results ≡ RESULTS }
    ensures name_length { most_name_bytes ≡ NAME_LENGTH }
    ensures functions { most_functions ≡ FUNCTIONS }
    ensures locals { most_locals ≡ LOCALS }
    ensures all_locals { most_all_locals ≡ ALL_LOCALS }
    ensures block_depth { most_blocks ≡ BLOCK_DEPTH }
    ensures memory_pages { most_memory_pages ≡ MEMORY_PAGES }
    ensures table_length { most_table_elements ≡ TABLE_LENGTH }
{}
