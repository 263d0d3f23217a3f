// Laws of the definitions. Each is the contract of a function that does nothing.
ghost use Rattle.std.specs.Prelude.{◌≡◌, ◌≤◌, ◌⊎◌, ℕ, List, length};
ghost use Rattle.wasm_tree.specs.declared.entries.BodyEntry.{BodyEntry as Body};
ghost use Rattle.wasm_typing.specs.declared.fault.Fault.{Fault as BodyFault};
ghost use Rattle.wasm_typing.specs.Context.{Context};
ghost use Rattle.wasm_typing.specs.Typing.{BodyHasType};
ghost use Rattle.wasm_typing.specs.BodyFault.{FirstBodyFault};
ghost use Rattle.wasm_tree.specs.declared.tree.Module.{Module as Tree};
ghost use Rattle.wasm_typing.specs.Verdict.{Outcome, Verdict, Accepted, IsValid};
ghost use Rattle.wasm_valid.specs.FileVerdict.{FileVerdict, IsVerdictOn};

/// A body has a typing or a first fault, never both, and one first fault at most.
pub fn each_body_has_a_typing_or_one_first_fault()
    ensures either { (c : Context) (body : Body)
        → BodyHasType c body.code ⊎ ((fault : BodyFault) × FirstBodyFault c body fault) }
    ensures not_both { (c : Context) (body : Body) (fault : BodyFault)
        → BodyHasType c body.code → FirstBodyFault c body fault → ⊥ }
    ensures one { (c : Context) (body : Body) (fault other : BodyFault)
        → FirstBodyFault c body fault → FirstBodyFault c body other → fault ≡ other }
{}

/// A module has one verdict, and is accepted exactly where it is valid.
pub fn each_module_has_one_verdict()
    ensures some { (m : Tree) → (outcome : Outcome) × Verdict m outcome }
    ensures one { (m : Tree) (outcome other : Outcome) → Verdict m outcome → Verdict m other → outcome ≡ other }
    ensures accepted { (m : Tree) → IsValid m → Verdict m Accepted }
    ensures valid { (m : Tree) → Verdict m Accepted → IsValid m }
{}

/// Bytes of at most 8,388,608 have one verdict: a first reading fault, or the module that they spell with what is said of it.
pub fn each_file_has_one_verdict()
    ensures some { (bytes : List ℕ) → length bytes ≤ 8388608 → (verdict : FileVerdict) × IsVerdictOn bytes verdict }
    ensures one { (bytes : List ℕ) (verdict other : FileVerdict)
        → IsVerdictOn bytes verdict → IsVerdictOn bytes other → verdict ≡ other }
{}
