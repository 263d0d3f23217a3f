// The laws of lines.
ghost use Rattle.std.specs.Prelude.{◌≡◌, ◌+◌, ◌++◌, ℕ, List, length, map, slice_index_or, zip};
ghost use Rattle.std.specs.List.Sorted.{IsPermutation, IsStrictlySortedBy};
ghost use Rattle.std.specs.Map.{keys_of};
ghost use Rattle.w2c_base.specs.Lookup.{AreDistinct};
ghost use Rattle.w2c_base.specs.Run.{Event, Host, values_in};
ghost use Rattle.c_meaning.specs.State.{CValue, Memory, Name, Table};
ghost use Rattle.crun_lines.specs.NameOrder.{in_order, name_order, numbered_from};
ghost use Rattle.crun_lines.specs.RunLines.{event_lines};

/// The law that the lines of what happens later stand behind those of what happened before.
#[tactic(auto, using(crate::proofs::Events::event_lines_append))]
pub fn lines_stand_in_the_order_of_the_run()
    ensures { (hosts : List Host) (k : ℕ) (events more : List Event) → event_lines hosts k (events ++ more)
        ≡ event_lines hosts k events ++ event_lines hosts (k + length (values_in events)) more }
{}

/// The laws that objects in the order of their names are those that stand at the numbers of the names in
/// order. Objects have their numbers in the order of their names in the unit.
#[tactic(auto, using(crate::proofs::ByNumber::found_by_number))]
pub fn objects_are_told_by_their_numbers()
    ensures variables { (names : List Name) (objects : List CValue) (d : CValue) → length names ≡ length objects
        → in_order (zip names objects) ≡ map (λ e. (e.0, slice_index_or objects e.1 d)) (in_order (numbered_from 0 names)) }
    ensures memories { (names : List Name) (objects : List Memory) (d : Memory) → length names ≡ length objects
        → in_order (zip names objects) ≡ map (λ e. (e.0, slice_index_or objects e.1 d)) (in_order (numbered_from 0 names)) }
    ensures tables { (names : List Name) (objects : List Table) (d : Table) → length names ≡ length objects
        → in_order (zip names objects) ≡ map (λ e. (e.0, slice_index_or objects e.1 d)) (in_order (numbered_from 0 names)) }
{}

/// The laws of the order of names: each stands before those behind it, and where all differ none is lost.
#[tactic(auto, using(crate::proofs::InOrder::names_ascend, crate::proofs::InOrder::none_is_lost))]
pub fn names_have_one_order()
    ensures ascend { (entries : List (Name × ℕ)) → IsStrictlySortedBy name_order (keys_of (in_order entries)) }
    ensures all { (entries : List (Name × ℕ)) → AreDistinct (keys_of entries) → IsPermutation entries (in_order entries) }
{}
