// What holds of the one unit that linked units become.
ghost use Rattle.std.specs.Prelude.{◌≡◌, ℕ, List, Some, None, option_map, slice_get};
ghost use Rattle.w2c_base.specs.Lookup.{if_found};
ghost use Rattle.w2c_base.specs.Run.{Reply};
ghost use Rattle.c_tree.specs.Tree as tree;
ghost use Rattle.c_tree.specs.FirstBroken.{KeepsRules};
ghost use Rattle.c_tree.specs.Spelled.{Formed};
ghost use Rattle.c_meaning.specs.State.{Name};
ghost use Rattle.c_meaning.specs.Linking.{Program, SymbolCall, external_func, fits, func_type, link_refusal};
ghost use Rattle.c_meaning.specs.Run.{c_run};
ghost use Rattle.c_renaming.specs.Merging.{MayMerge};
ghost use Rattle.c_renaming.specs.NewNames.{is_outside, name_in};
ghost use Rattle.c_renaming.specs.Renaming.{address};
ghost use Rattle.c_renaming.specs.Same.{SameRun};
ghost use Rattle.c_merge.specs.Merge.{AreLinked, as_one, may_name, merge_names, merged};

/// The law that units which link, and of which each keeps the rules, may become one.
pub fn linked_units_may_merge()
    ensures { (p : Program) → AreLinked p → MayMerge p name_in is_outside (may_name p) }
{}

/// The law that the one unit keeps every rule that the linked units keep.
pub fn merged_units_keep_the_rules()
    ensures { (p : Program) → AreLinked p → KeepsRules (merged p.units) }
{}

/// The law that some text spells the one unit where some text spells each of the units.
pub fn merged_units_are_spelled()
    ensures { (p : Program) → ((u : ℕ) (items : List tree.Item) → slice_get p.units u ≡ Some items → Formed items)
        → Formed (merged p.units) }
{}

/// The law that the one unit runs as the linked units do: with the same calls, which fit it alike, the
/// same replies and the same budget it comes to the same phase, the same events and the same outcome,
/// the place of what is undefined renamed, and to the same objects under their new names.
pub fn merged_units_run_the_same()
    ensures fits { (p : Program) → AreLinked p → (c : SymbolCall) → fits (as_one p) c ≡ fits p c }
    ensures runs { (p : Program) → AreLinked p → (calls : List SymbolCall) (m : ℕ) (replies : List Reply)
        → SameRun (merge_names p) (c_run p calls m replies) (c_run (as_one p) calls m replies) }
{}

/// The law that the one unit links with the same hosts, and that each name which units see in common stands for the function
/// that it stood for, which is now one of the one unit, or is a host's, with the same type.
pub fn merged_units_link_the_same()
    ensures links { (p : Program) → AreLinked p → link_refusal (as_one p) ≡ None }
    ensures found { (p : Program) → AreLinked p → (x : Name)
        → external_func (as_one p) x ≡ option_map (address (merge_names p)) (external_func p x) }
    ensures typed { (p : Program) → AreLinked p → (x : Name)
        → if_found (external_func (as_one p) x) (func_type (as_one p)) ≡ if_found (external_func p x) (func_type p) }
{}
