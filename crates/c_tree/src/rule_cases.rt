// Closed cases of the rules, by computation: for each rule a unit that keeps it, and units that
// break it and no other.
ghost use Rattle.std.specs.Prelude.{◌≡◌, false, [], ◌∷◌, ◌++◌, codes, Some, None};
ghost use Rattle.c_tree.specs.declared.tree.CType.TheVariants as type;
ghost use Rattle.c_tree.specs.declared.tree.Num.TheVariants.{N32, N64, Plain};
ghost use Rattle.c_tree.specs.declared.tree.COp.TheVariants as op;
ghost use Rattle.c_tree.specs.Tree as tree;
ghost use Rattle.c_tree.specs.FirstBroken.{broken_rules, first_broken};
ghost use Rattle.c_tree.specs.RuleSamples as sample;

/// Declarations of one name.
pub fn declaration_cases()
    ensures declared_and_defined { broken_rules (sample.f_declared ∷ sample.f_declared ∷ sample.f_defined ∷ []) ≡ [] }
    ensures defined_twice { broken_rules (sample.f_defined ∷ sample.f_defined ∷ []) ≡ sample.at 1 0 1 ∷ [] }
    ensures variable_twice { broken_rules (sample.variable type.U32 (codes "g") None ∷ sample.variable type.U32 (codes "g") None ∷ []) ≡ sample.at 1 0 1 ∷ [] }
    ensures variable_and_function { broken_rules (sample.f_defined ∷ sample.variable type.U32 (codes "f") None ∷ []) ≡ sample.at 1 0 1 ∷ [] }
    ensures other_type { broken_rules (sample.declaration false type.U32 sample.symbol ((type.Void, None) ∷ []) ∷ sample.declaration false type.U64 sample.symbol ((type.Void, None) ∷ []) ∷ []) ≡ sample.at 1 0 1 ∷ [] }
    ensures static_is_not_defined { broken_rules (sample.f_declared ∷ sample.f_declared ∷ []) ≡ sample.at 0 0 5 ∷ sample.at 1 0 5 ∷ [] }
{}

/// Reserved names, and names that hide others.
pub fn name_cases()
    ensures own_names { broken_rules (sample.external ((type.U32, codes "z", N32 0) ∷ []) (sample.gives sample.x ∷ []) ∷ []) ≡ [] }
    ensures external_without_symbol { broken_rules (sample.declaration false type.Void (codes "h") ((type.Void, None) ∷ []) ∷ []) ≡ sample.at 0 0 2 ∷ [] }
    ensures runtime_local { broken_rules (sample.external ((type.U32, codes "w2c_z", N32 0) ∷ []) (sample.gives sample.x ∷ []) ∷ []) ≡ sample.at 0 0 2 ∷ [] }
    ensures label_with_symbol { broken_rules (sample.alone (tree.Label (codes "w2cZ_L") ∷ sample.gives sample.x ∷ [])) ≡ sample.at 0 1 2 ∷ [] }
    ensures parameter_without_a_name { broken_rules (sample.f_without_parameter_name ∷ []) ≡ sample.at 0 0 6 ∷ [] }
    ensures local_as_parameter { broken_rules (sample.external ((type.U32, codes "x", N32 0) ∷ []) (sample.gives sample.y ∷ []) ∷ []) ≡ sample.at 0 0 6 ∷ [] }
    ensures local_hides_a_later_variable { broken_rules (sample.external ((type.U32, codes "g", N32 0) ∷ []) (sample.gives sample.x ∷ []) ∷ sample.variable type.U32 (codes "g") None ∷ []) ≡ sample.at 0 0 6 ∷ [] }
{}

/// Types and first values of what is declared.
pub fn type_cases()
    ensures array { broken_rules (tree.Array (codes "d") 2 (7 ∷ 8 ∷ []) ∷ []) ≡ [] }
    ensures array_of_another_count { broken_rules (tree.Array (codes "d") 3 (7 ∷ 8 ∷ []) ∷ []) ≡ sample.at 0 0 3 ∷ [] }
    ensures void_among_parameters { broken_rules (sample.declaration false type.U32 sample.symbol ((type.U32, None) ∷ (type.Void, None) ∷ []) ∷ []) ≡ sample.at 0 0 3 ∷ [] }
    ensures memory_as_parameter { broken_rules (sample.declaration false type.U32 sample.symbol ((type.Mem, None) ∷ []) ∷ []) ≡ sample.at 0 0 3 ∷ [] }
    ensures element_type { broken_rules (sample.behind (sample.variable type.FnPtr (codes "e") (Some (Plain 0)) ∷ []) (sample.call_through (codes "e") type.Void type.U32)) ≡ [] }
    ensures table_in_a_written_type { broken_rules (sample.behind (sample.variable type.FnPtr (codes "e") (Some (Plain 0)) ∷ []) (sample.call_through (codes "e") type.Tab type.U32)) ≡ sample.at 1 1 3 ∷ [] }
    ensures first_values { broken_rules (sample.variable type.U32 (codes "a") (Some (N32 5)) ∷ sample.variable type.U64 (codes "b") (Some (N64 5)) ∷ sample.variable type.PtrMem (codes "c") (Some (Plain 0)) ∷ sample.variable type.Mem (codes "m") None ∷ []) ≡ [] }
    ensures wide_first_value { broken_rules (sample.variable type.U32 (codes "a") (Some (N64 5)) ∷ []) ≡ sample.at 0 0 4 ∷ [] }
    ensures pointer_to_no_null { broken_rules (sample.variable type.PtrMem (codes "c") (Some (Plain 1)) ∷ []) ≡ sample.at 0 0 4 ∷ [] }
    ensures memory_with_a_first_value { broken_rules (sample.variable type.Mem (codes "m") (Some (Plain 0)) ∷ []) ≡ sample.at 0 0 4 ∷ [] }
{}

/// Labels, and names that are used.
pub fn use_cases()
    ensures label { broken_rules (sample.alone (tree.Label (codes "L") ∷ tree.Goto (codes "L") ∷ [])) ≡ [] }
    ensures missing_label { broken_rules (sample.alone (tree.Goto (codes "L9") ∷ [])) ≡ sample.at 0 1 7 ∷ [] }
    ensures label_twice { broken_rules (sample.alone (tree.Label (codes "L") ∷ tree.Label (codes "L") ∷ sample.gives sample.x ∷ [])) ≡ sample.at 0 2 7 ∷ [] }
    ensures declared_before { broken_rules (sample.variable type.U32 (codes "g") None ∷ sample.alone (sample.gives (sample.by_name (codes "g")) ∷ [])) ≡ [] }
    ensures not_declared { broken_rules (sample.alone (sample.gives (sample.by_name (codes "g")) ∷ [])) ≡ sample.at 0 1 8 ∷ [] }
    ensures declared_after { broken_rules (sample.external [] (sample.call (codes "f") [] ∷ sample.gives sample.x ∷ []) ∷ sample.f_defined ∷ []) ≡ sample.at 0 1 8 ∷ [] }
    ensures function_as_a_variable { broken_rules (sample.f_defined ∷ sample.alone (sample.gives (sample.by_name (codes "f")) ∷ [])) ≡ sample.at 1 1 8 ∷ [] }
    ensures itself { broken_rules (sample.alone (tree.Call (Some (codes "x")) (tree.Called sample.symbol) (tree.Value sample.x ∷ tree.Value sample.y ∷ []) ∷ sample.gives sample.x ∷ [])) ≡ [] }
{}

/// Types of expressions, and of assignments, calls and results.
pub fn expression_cases()
    ensures sum { broken_rules (sample.alone (sample.gives (tree.Op op.Add sample.x (sample.word 1)) ∷ [])) ≡ [] }
    ensures sum_of_two_types { broken_rules (sample.alone (sample.gives (tree.Op op.Add sample.x (tree.Number (N64 1))) ∷ [])) ≡ sample.at 0 1 9 ∷ [] }
    ensures narrowed_comparison { broken_rules (sample.alone (sample.gives (tree.To32 (tree.Op op.Lt sample.x sample.y)) ∷ [])) ≡ [] }
    ensures comparison_as_a_value { broken_rules (sample.alone (sample.gives (tree.Op op.Lt sample.x sample.y) ∷ [])) ≡ sample.at 0 1 9 ∷ [] }
    ensures widened_comparison { broken_rules (sample.alone (tree.Set (codes "w2c_depth") (tree.Value (tree.To32 (tree.To64 (tree.Op op.Lt sample.x sample.y)))) ∷ sample.gives sample.x ∷ [])) ≡ sample.at 0 1 9 ∷ [] }
    ensures if_without_a_comparison { broken_rules (sample.alone (tree.Label (codes "L") ∷ tree.If op.Add sample.x sample.y (codes "L") ∷ sample.gives sample.x ∷ [])) ≡ sample.at 0 2 9 ∷ [] }
    ensures narrowed_element { broken_rules (tree.Array (codes "d") 1 (7 ∷ []) ∷ sample.alone (sample.gives (tree.To32 (tree.At (codes "d") sample.x)) ∷ [])) ≡ [] }
    ensures element_as_a_value { broken_rules (tree.Array (codes "d") 1 (7 ∷ []) ∷ sample.alone (sample.gives (tree.At (codes "d") sample.x) ∷ [])) ≡ sample.at 1 1 9 ∷ [] }
    ensures plain_number { broken_rules (sample.alone (sample.gives (tree.Number (Plain 1)) ∷ [])) ≡ sample.at 0 1 9 ∷ [] }
    ensures wide_result { broken_rules (sample.alone (sample.gives (tree.Number (N64 1)) ∷ [])) ≡ sample.at 0 1 10 ∷ [] }
    ensures result_left_out { broken_rules (sample.alone (tree.ReturnNone ∷ [])) ≡ sample.at 0 1 10 ∷ [] }
    ensures address { broken_rules (sample.behind (sample.variable type.Mem (codes "m") None ∷ []) (sample.call (codes "w2c_put4") (tree.Address (codes "m") ∷ tree.Value (tree.Number (N64 0)) ∷ tree.Value sample.x ∷ []))) ≡ [] }
    ensures argument_left_out { broken_rules (sample.behind (sample.variable type.Mem (codes "m") None ∷ []) (sample.call (codes "w2c_put4") (tree.Address (codes "m") ∷ tree.Value (tree.Number (N64 0)) ∷ []))) ≡ sample.at 1 1 10 ∷ [] }
    ensures address_of_a_parameter { broken_rules (sample.behind (sample.takes type.PtrU32 ∷ []) (sample.call (codes "w2cZ_h") (tree.Address (codes "y") ∷ []))) ≡ sample.at 1 1 10 ∷ [] }
    ensures address_of_a_variable { broken_rules (sample.behind (sample.variable type.U32 (codes "g") None ∷ sample.takes type.PtrU32 ∷ []) (sample.call (codes "w2cZ_h") (tree.Address (codes "g") ∷ []))) ≡ [] }
    ensures function_of_the_unit { broken_rules (sample.behind (sample.takes type.FnPtr ∷ []) (sample.call (codes "w2cZ_h") (tree.OfFunction (codes "w2cZ_h") ∷ []))) ≡ [] }
    ensures function_of_the_runtime { broken_rules (sample.behind (sample.takes type.FnPtr ∷ []) (sample.call (codes "w2cZ_h") (tree.OfFunction (codes "w2c_trap") ∷ []))) ≡ sample.at 1 1 10 ∷ [] }
    ensures through_no_element { broken_rules (sample.alone (sample.call_through (codes "x") type.Void type.U32 ∷ sample.gives sample.x ∷ [])) ≡ sample.at 0 1 9 ∷ [] }
    ensures memory_as_a_value { broken_rules (sample.behind (sample.variable type.Mem (codes "m") None ∷ sample.takes type.PtrMem ∷ []) (sample.call (codes "w2cZ_h") (tree.Value (sample.by_name (codes "m")) ∷ []))) ≡ sample.at 2 1 9 ∷ [] }
    ensures assigned_void { broken_rules (sample.behind (sample.f_defined ∷ []) (tree.Call (Some (codes "x")) (tree.Called (codes "f")) [])) ≡ sample.at 1 1 10 ∷ [] }
{}

/// Cases of a switch, and the last statement of a body.
pub fn ending_cases()
    ensures switch { broken_rules (sample.alone (tree.Label (codes "L") ∷ sample.switch_of sample.x (N32 0) (N32 1) ∷ [])) ≡ [] }
    ensures equal_cases { broken_rules (sample.alone (tree.Label (codes "L") ∷ sample.switch_of sample.x (N32 1) (N32 1) ∷ [])) ≡ sample.at 0 2 11 ∷ [] }
    ensures wide_case { broken_rules (sample.alone (tree.Label (codes "L") ∷ sample.switch_of sample.x (N32 0) (N64 1) ∷ [])) ≡ sample.at 0 2 11 ∷ [] }
    ensures trap_at_the_end { broken_rules (sample.alone (sample.call (codes "w2c_trap") (tree.Value sample.x ∷ []) ∷ [])) ≡ [] }
    ensures no_jump_at_the_end { broken_rules (sample.alone (sample.gives sample.x ∷ tree.Null ∷ [])) ≡ sample.at 0 2 12 ∷ [] }
    ensures no_statement { broken_rules (sample.alone []) ≡ sample.at 0 0 12 ∷ [] }
{}

/// The first broken rule of units that break two.
pub fn order_cases()
    ensures none { first_broken (sample.alone (sample.gives sample.x ∷ [])) ≡ None }
    ensures item_before_rule { first_broken (sample.alone (tree.Goto (codes "L9") ∷ []) ++ sample.f_defined ∷ sample.f_defined ∷ []) ≡ Some (sample.at 0 1 7) }
    ensures statement_before_rule { first_broken (sample.alone (tree.Goto (codes "L9") ∷ tree.Label (codes "w2c_L") ∷ sample.gives sample.x ∷ [])) ≡ Some (sample.at 0 1 7) }
    ensures rule_at_one_statement { broken_rules (sample.alone (tree.Label (codes "w2c_L") ∷ tree.Label (codes "w2c_L") ∷ sample.gives sample.x ∷ [])) ≡ sample.at 0 1 2 ∷ sample.at 0 2 2 ∷ sample.at 0 2 7 ∷ [] }
{}
