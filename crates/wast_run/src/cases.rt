// Closed cases of the definitions: what commands come to, the words of scripts, their lines and their status.
ghost use Rattle.std.specs.Prelude.{◌≡◌, [], ◌∷◌, Some, codes};
ghost use Rattle.w2c_base.specs.declared.value.Value.TheVariants.{I32};
ghost use Rattle.w2c_io.specs.Contents.{Contents};
ghost use Rattle.wast_script.specs.Commands.{AssertReturn, Invoke};
ghost use Rattle.wast_run.specs.declared.word.Word.TheVariants.{Failed, NoSuchCall, Ok as Right, OutOfSteps, Refused, Unlinked};
ghost use Rattle.wast_run.specs.Report.{Comes, at_first, keeping, report_of, report_status};
ghost use Rattle.wast_run.specs.Samples.{sum_call, with_constants};

/// A call with the module that adds 40 and 2: an assertion that it gives 42, or another value, or with too few statements; and the
/// call alone, with the module and without it.
pub fn commands_come_to_words()
    ensures sum { (contents : Contents) → Comes contents 50 with_constants (AssertReturn sum_call (Some (I32 42))) Right with_constants }
    ensures other_value { (contents : Contents)
        → Comes contents 50 with_constants (AssertReturn sum_call (Some (I32 41))) Failed with_constants }
    ensures other_value_is_wrong { (contents : Contents)
        → Comes contents 50 with_constants (AssertReturn sum_call (Some (I32 41))) Right with_constants → ⊥ }
    ensures few_statements { (contents : Contents)
        → Comes contents 1 with_constants (AssertReturn sum_call (Some (I32 42))) OutOfSteps with_constants }
    ensures kept { (contents : Contents) → Comes contents 0 with_constants (Invoke sum_call) Right (keeping with_constants sum_call) }
    ensures no_such_call { (contents : Contents) → Comes contents 0 at_first (Invoke sum_call) NoSuchCall at_first }
    ensures there_is_such_a_call { (contents : Contents)
        → Comes contents 0 with_constants (Invoke sum_call) NoSuchCall with_constants → ⊥ }
{}

/// No command; a module with an assertion that holds; a module that is joined too soon and once more behind its import, with a call
/// and an assertion; and a word of each kind.
pub fn reports_of_words()
    ensures none { report_of [] ≡ codes "total 0 ok 0\n" }
    ensures none_status { report_status [] ≡ 0 }
    ensures right { report_of (Right ∷ Right ∷ []) ≡ codes "command 1 ok\ncommand 2 ok\ntotal 2 ok 2\n" }
    ensures right_status { report_status (Right ∷ Right ∷ []) ≡ 0 }
    ensures one_wrong { report_of (Unlinked ∷ Right ∷ Right ∷ Right ∷ Right ∷ [])
        ≡ codes "command 1 unlinked\ncommand 2 ok\ncommand 3 ok\ncommand 4 ok\ncommand 5 ok\ntotal 5 ok 4\n" }
    ensures one_wrong_status { report_status (Unlinked ∷ Right ∷ Right ∷ Right ∷ Right ∷ []) ≡ 1 }
    ensures each { report_of (Refused ∷ NoSuchCall ∷ Failed ∷ OutOfSteps ∷ [])
        ≡ codes "command 1 refused\ncommand 2 no such call\ncommand 3 failed\ncommand 4 out of steps\ntotal 4 ok 0\n" }
    ensures each_status { report_status (Refused ∷ NoSuchCall ∷ Failed ∷ OutOfSteps ∷ []) ≡ 1 }
{}
