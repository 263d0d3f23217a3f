// Linked units that keep the rules have a rule for each statement that they come to, and what a run tells only grows.
ghost use Rattle.std.specs.Prelude.{◌≡◌, ◌≢◌, ◌∷◌, ◌++◌, ℕ, List, [], None, Some, true};
ghost use Rattle.std.specs.List.{AllByRecursion};
ghost use Rattle.w2c_base.specs.Run.{Call, Event, Init, Phase, Reply};
ghost use Rattle.c_tree.specs.declared.tree.CType.{CType};
ghost use Rattle.c_tree.specs.Rules.{proper_types};
ghost use Rattle.c_tree.specs.Tree as tree;
ghost use Rattle.c_meaning.specs.Linking.{Program, SymbolCall, called_func, fits, func_type, init_functions, link_refusal};
ghost use Rattle.c_meaning.specs.Machine.{fresh};
ghost use Rattle.c_meaning.specs.Run.{CRun, Entry, Going, Over, Pending, Progress, Stopped, after, begin_entry, entries_of, run_of};
ghost use Rattle.c_meaning.specs.State.{CValue, FuncAddress, Machine, State, Stuck};
ghost use Rattle.c_meaning.specs.Step.{c_step, call};
ghost use Rattle.c_sound.specs.Events.{events_of};
ghost use Rattle.c_sound.specs.NeverStuck.{AllFit, KeepRules, NeverStuck};
ghost use Rattle.c_sound.specs.Typed.{Begins, OfTypes, TypedMachine, TypedPhase, TypedProgram, TypedRun, TypedState, TypedStep};

/// The law that no run of linked units, each of which keeps the rules, is stuck.
#[tactic(auto, using(crate::proofs::Sound::never_stuck))]
pub fn linked_units_are_never_stuck()
    ensures { (p : Program) → KeepRules p → link_refusal p ≡ None → NeverStuck p }
{}

/// The laws that linked units which keep the rules are a typed program, that a function of one, with
/// arguments of its parameters' types, begins in a typed state, and that a statement of a typed state
/// is not stuck and leads to a typed state, or ends a function with a value of its type.
pub fn typed_states_stay_typed()
    ensures program { (p : Program) → KeepRules p → link_refusal p ≡ None → TypedProgram p }
    ensures begin { (p : Program) → TypedProgram p → (m : Machine) → TypedMachine p m → (f : FuncAddress) (ty : tree.FuncType) (args : List CValue)
        → func_type p f ≡ Some ty → OfTypes p (proper_types ty.params) args → TypedStep p ty.result (call p f m args []) }
    ensures step { (p : Program) → TypedProgram p → (last : CType) (state : State) → TypedState p last state → TypedStep p last (c_step p state) }
{}

/// The laws of runs of typed programs: what calls that fit begin is well typed; and a run of entries
/// that are is typed as long as it goes on, and over for another reason than that it is stuck.
pub fn typed_programs_run_typed()
    ensures entries { (p : Program) → TypedProgram p → (calls : List SymbolCall) → AllFit p calls → AllByRecursion (Begins p) (entries_of p calls) }
    ensures going { (p : Program) → TypedProgram p → (replies : List Reply) (n : ℕ) (entries : List Entry) → AllByRecursion (Begins p) entries
        → (pending : Pending) (state : State) → after p n (begin_entry p (fresh p replies) (Init 0) entries) ≡ Going pending state
        → TypedPhase p pending.phase state }
    ensures over { (p : Program) → TypedProgram p → (replies : List Reply) (n : ℕ) (entries : List Entry) → AllByRecursion (Begins p) entries
        → (run : CRun) → after p n (begin_entry p (fresh p replies) (Init 0) entries) ≡ Over run → run.outcome ≢ Stopped Stuck }
{}

/// The laws of one entry of a typed program, from any machine whose objects are typed: an init function and a call that
/// fits are well typed to begin; the run of one is typed as long as it goes on; where it is over it is not stuck, and
/// where it has ended the objects are typed.
pub fn entries_run_typed()
    ensures call { (p : Program) → TypedProgram p → (k : ℕ) (c : SymbolCall) → fits p c ≡ true
        → Begins p (record { phase = Call k; func = called_func p c; args = c.args }) }
    ensures init { (p : Program) → TypedProgram p → (k : ℕ) → AllByRecursion (λ f. Begins p (record { phase = Init k; func = Some f; args = [] })) (init_functions p) }
    ensures begin { (p : Program) → TypedProgram p → (m : Machine) → TypedMachine p m → (last : Phase) (e : Entry) → Begins p e
        → TypedRun p (begin_entry p m last (e ∷ [])) }
    ensures run { (p : Program) → TypedProgram p → (n : ℕ) (x : Progress) → TypedRun p x → TypedRun p (after p n x) }
{}

/// The laws that what a run tells only grows, whatever the units are: the events after so many statements more begin with
/// those so far, where the run then stands, and in the run that it gives if it is left there.
pub fn runs_tell_more()
    ensures after { (p : Program) (n : ℕ) (x : Progress) → (more : List Event) × (events_of (after p n x) ≡ events_of x ++ more) }
    ensures run { (p : Program) (n : ℕ) (x : Progress) → (more : List Event) × ((run_of (after p n x)).events ≡ events_of x ++ more) }
{}
