// Closed cases of shapes, by computation.
ghost use Rattle.unit_rules.specs.Misshapen as misshapen;
ghost use Rattle.unit_rules.specs.Shape.{HasShape};

/// Units that have not the shape of their module, each in one thing.
pub fn shape_cases()
    ensures defines_its_import { HasShape misshapen.shaped misshapen.defines_its_import → ⊥ }
    ensures without_export { HasShape misshapen.shaped misshapen.without_export → ⊥ }
    ensures without_import { HasShape misshapen.shaped misshapen.without_import → ⊥ }
    ensures import_of_another_type { HasShape misshapen.shaped misshapen.import_of_another_type → ⊥ }
    ensures without_function { HasShape misshapen.shaped misshapen.without_function → ⊥ }
    ensures without_memory { HasShape misshapen.shaped misshapen.without_memory → ⊥ }
    ensures one_global_more { HasShape misshapen.shaped misshapen.one_global_more → ⊥ }
    ensures export_of_another_type { HasShape misshapen.shaped misshapen.export_of_another_type → ⊥ }
    ensures memory_gives_the_table { HasShape misshapen.shaped misshapen.memory_gives_the_table → ⊥ }
    ensures init_of_another_type { HasShape misshapen.shaped misshapen.init_of_another_type → ⊥ }
{}
