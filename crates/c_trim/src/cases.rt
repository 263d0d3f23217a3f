// Closed cases of the definitions: by computation, and for every unit that is the trimmed one.
ghost use Rattle.std.specs.Prelude.{◌≡◌, true, false, List, [], ◌∷◌, codes};
ghost use Rattle.c_tree.specs.Tree as tree;
ghost use Rattle.c_tree.specs.FirstBroken.{broken_rules};
ghost use Rattle.c_trim.specs.Trim.{IsTrimmed, external_names, leads, names};
ghost use Rattle.w2c_base.specs.declared.value.Value.TheVariants.{I32};
ghost use Rattle.c_meaning.specs.State.{Undefined};
ghost use Rattle.c_meaning.specs.Run.{Stopped, c_run};
ghost use Rattle.c_meaning.specs.Samples.{call_with};
ghost use Rattle.c_trim.specs.Runs.{among, new_number, new_outcome, new_place};
ghost use Rattle.c_trim.specs.Samples as sample;

/// Chains of names.
pub fn chain_cases()
    ensures element { external_names (sample.by_element true) (codes "f0") ≡ true }
    ensures primitive { external_names (sample.by_element true) (codes "w2c_tab_set") ≡ true }
    ensures called { names (sample.by_element true) (codes "f0") (codes "h") ≡ true }
    ensures by_one { leads (sample.by_element true) (codes "f0" ∷ []) (codes "h") ≡ true }
    ensures not_outside { leads (sample.by_element true) (codes "g" ∷ []) (codes "f0") ≡ false }
    ensures not_named { external_names (sample.by_element true) (codes "h") ≡ false }
    ensures in_a_circle { leads sample.each_other (codes "g" ∷ codes "f" ∷ []) (codes "f") ≡ false }
{}

/// The samples keep the rules.
pub fn sample_cases()
    ensures not_named { broken_rules sample.not_named ≡ [] }
    ensures each_other { broken_rules sample.each_other ≡ [] }
    ensures by_element { broken_rules (sample.by_element true) ≡ [] }
{}

/// Where a division by 0 stands before and after trimming, and the numbers of items.
pub fn place_cases()
    ensures before { (c_run (among [] sample.not_named [] []) (call_with (I32 1) (I32 0) ∷ []) 2 []).outcome
        ≡ Stopped (Undefined 1 (record { unit = 0; item = 1; statement = 1 })) }
    ensures after { (c_run (among [] (sample.quotient ∷ []) [] []) (call_with (I32 1) (I32 0) ∷ []) 2 []).outcome
        ≡ Stopped (Undefined 1 (record { unit = 0; item = 0; statement = 1 })) }
    ensures new { new_outcome (λ name. false) sample.not_named 0 (Stopped (Undefined 1 (record { unit = 0; item = 1; statement = 1 })))
        ≡ Stopped (Undefined 1 (record { unit = 0; item = 0; statement = 1 })) }
    ensures other_unit { new_place (λ name. false) sample.not_named 1 (record { unit = 0; item = 1; statement = 1 })
        ≡ record { unit = 0; item = 1; statement = 1 } }
    ensures behind_both { new_number (λ name. false) sample.each_other 4 ≡ 0 }
{}

/// What stays: of a unit with a function that is not named, of one with two that only call each other, and of one
/// with a function that an element of a table holds.
pub fn trimmed_cases()
    ensures not_named { (t : List tree.Item) → IsTrimmed sample.not_named t → t ≡ sample.quotient ∷ [] }
    ensures each_other { (t : List tree.Item) → IsTrimmed sample.each_other t → t ≡ sample.quotient ∷ [] }
    ensures by_element { (t : List tree.Item) → IsTrimmed (sample.by_element true) t → t ≡ sample.by_element false }
{}
