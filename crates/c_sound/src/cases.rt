// Units that show what the law rests on.
ghost use Rattle.std.specs.Prelude.{◌≡◌, [], ◌∷◌, None, Some, codes, false, true};
ghost use Rattle.w2c_base.specs.declared.value.Value.TheVariants.{I32, I64};
ghost use Rattle.c_tree.specs.declared.tree.CType.TheVariants as c_type;
ghost use Rattle.c_tree.specs.FirstBroken.{first_broken};
ghost use Rattle.c_meaning.specs.State.{Stuck};
ghost use Rattle.c_meaning.specs.Linking.{NotDefined, fits, link_refusal};
ghost use Rattle.c_meaning.specs.Run.{Stopped, c_run};
ghost use Rattle.c_meaning.specs.Samples as sample;
ghost use Rattle.c_sound.specs.Samples.{alone_without_hosts};

/// Each premise is needed: a unit that breaks a rule, units that do not link, and a call that does
/// not fit are stuck, where the other premises hold.
pub fn each_premise_is_needed()
    ensures rule_is_broken { first_broken sample.narrow_to_wide ≡ Some (record { item = 0; statement = 1; rule = 10 }) }
    ensures broken_rule_links { link_refusal (sample.alone sample.narrow_to_wide) ≡ None }
    ensures broken_rule_fits { fits (sample.alone sample.narrow_to_wide) (sample.call_with (I32 3) (I32 0)) ≡ true }
    ensures broken_rule_is_stuck { (c_run (sample.alone sample.narrow_to_wide) (sample.call_with (I32 3) (I32 0) ∷ []) 9 []).outcome ≡ Stopped Stuck }
    ensures refused_keeps_rules { first_broken (sample.host_call c_type.U64) ≡ None }
    ensures refused { link_refusal (alone_without_hosts (sample.host_call c_type.U64)) ≡ Some (NotDefined 0 (codes "w2cZ_envZ_fZ_tick")) }
    ensures refused_fits { fits (alone_without_hosts (sample.host_call c_type.U64)) (sample.call_with (I32 3) (I32 0)) ≡ true }
    ensures refused_is_stuck { (c_run (alone_without_hosts (sample.host_call c_type.U64)) (sample.call_with (I32 3) (I32 0) ∷ []) 9 []).outcome ≡ Stopped Stuck }
    ensures misfit_keeps_rules { first_broken sample.division ≡ None }
    ensures misfit_links { link_refusal (sample.alone sample.division) ≡ None }
    ensures misfit { fits (sample.alone sample.division) (sample.call_with (I64 7) (I32 2)) ≡ false }
    ensures misfit_is_stuck { (c_run (sample.alone sample.division) (sample.call_with (I64 7) (I32 2) ∷ []) 9 []).outcome ≡ Stopped Stuck }
{}
