// The laws of runs.
ghost use Rattle.std.specs.Prelude.{◌≡◌, ◌≢◌, ◌+◌, ◌<◌, ◌≤◌, ◌++◌, ℕ, List, [], ◌∷◌, All, Option, Some, true, length, map};
ghost use Rattle.w2c_base.specs.declared.value.Value.{Value};
ghost use Rattle.w2c_base.specs.Run.{Reply, values_in};
ghost use Rattle.w2c_mangle.specs.Symbols.{init_symbol_of};
ghost use Rattle.w2c_base.specs.Values.{type_of, types_of};
ghost use Rattle.c_meaning.specs.Linking.{Program, SymbolCall, is_init_symbol};
ghost use Rattle.c_tree.specs.TypesInC.{c_result_of, c_type_of};
ghost use Rattle.c_meaning.specs.State.{CValue, Machine, Number};
ghost use Rattle.c_meaning.specs.Step.{Step, are_of_types, is_returned, put_in};
ghost use Rattle.c_meaning.specs.Run.{Ended, IsGoing, OutOfSteps, Progress, after, c_run, c_start};

/// The law that a run of m + k statements goes on from where it stands after m.
#[tactic(auto, using(crate::proofs::Longer::after_sum))]
pub fn runs_split()
    ensures { (p : Program) (m k : ℕ) (progress : Progress) → after p (m + k) progress ≡ after p k (after p m progress) }
{}

/// The laws that a run which is not out of steps is the same with more statements, and that one
/// which is out of steps is so with fewer.
#[tactic(auto, using(crate::proofs::Longer::run_longer, crate::proofs::Longer::run_shorter))]
pub fn larger_budgets_give_the_same_run()
    ensures longer { (p : Program) (calls : List SymbolCall) (replies : List Reply) (n m : ℕ) → n ≤ m
        → (c_run p calls n replies).outcome ≢ OutOfSteps
        → c_run p calls m replies ≡ c_run p calls n replies }
    ensures shorter { (p : Program) (calls : List SymbolCall) (replies : List Reply) (n m : ℕ) → n ≤ m
        → (c_run p calls m replies).outcome ≡ OutOfSteps
        → (c_run p calls n replies).outcome ≡ OutOfSteps }
{}

/// The law that a run is out of steps exactly where it is still on its way after its statements.
#[tactic(auto, using(crate::proofs::OnTheWay::out_is_going, crate::proofs::OnTheWay::going_is_out))]
pub fn out_of_steps_exactly_on_the_way()
    ensures only { (p : Program) (calls : List SymbolCall) (replies : List Reply) (m : ℕ)
        → (c_run p calls m replies).outcome ≡ OutOfSteps → IsGoing (after p m (c_start p calls replies)) }
    ensures always { (p : Program) (calls : List SymbolCall) (replies : List Reply) (m : ℕ)
        → IsGoing (after p m (c_start p calls replies)) → (c_run p calls m replies).outcome ≡ OutOfSteps }
{}

/// The laws of runs over longer lists of calls. The init functions alone give no values. A run that does not end is that
/// of every longer list; the values of one that ends stand in front of those of every longer list; and one call more
/// gives one value where it ends, and none where it does not.
pub fn calls_run_one_after_another()
    ensures inits { (p : Program) (n : ℕ) (replies : List Reply) → values_in (c_run p [] n replies).events ≡ [] }
    ensures stopped { (p : Program) (calls more : List SymbolCall) (n : ℕ) (replies : List Reply)
        → (c_run p calls n replies).outcome ≢ Ended → c_run p (calls ++ more) n replies ≡ c_run p calls n replies }
    ensures values { (p : Program) (calls more : List SymbolCall) (n : ℕ) (replies : List Reply)
        → (c_run p calls n replies).outcome ≡ Ended
        → (rest : List (Option Value)) × (values_in (c_run p (calls ++ more) n replies).events ≡ values_in (c_run p calls n replies).events ++ rest) }
    ensures one { (p : Program) (calls : List SymbolCall) (c : SymbolCall) (n : ℕ) (replies : List Reply)
        → (c_run p calls n replies).outcome ≡ Ended
        → ((c_run p (calls ++ c ∷ []) n replies).outcome ≡ Ended
        → (v : Option Value) × (values_in (c_run p (calls ++ c ∷ []) n replies).events ≡ values_in (c_run p calls n replies).events ++ v ∷ []))
        × ((c_run p (calls ++ c ∷ []) n replies).outcome ≢ Ended
        → values_in (c_run p (calls ++ c ∷ []) n replies).events ≡ values_in (c_run p calls n replies).events) }
{}

/// The law that the test for symbols of init functions finds exactly those of names of 1 to 1,024 bytes.
#[tactic(auto, using(crate::proofs::InitSymbols::init_symbols_found, crate::proofs::InitSymbols::found_are_init_symbols))]
pub fn init_symbols_are_found()
    ensures found { (name : List ℕ) → 1 ≤ length name → length name ≤ 1024 → All (λ b. b < 256) name
        → is_init_symbol (init_symbol_of name) ≡ true }
    ensures right { (symbol : List ℕ) → is_init_symbol symbol ≡ true → (name : List ℕ) × (symbol ≡ init_symbol_of name)
        × (1 ≤ length name) × (length name ≤ 1024) × All (λ b. b < 256) name }
{}

/// The laws that a number goes where one of its type is held, and that arguments fit parameters of their types.
#[tactic(auto, using(crate::proofs::Takes::put_number, crate::proofs::Takes::numbers_of_their_types, crate::proofs::Takes::number_is_returned))]
pub fn numbers_go_where_they_fit()
    ensures held { (m : Machine) (held : Option CValue) (old v : Value) (does : Step) → held ≡ Some (Number old) → type_of old ≡ type_of v
        → put_in m held (Number v) does ≡ does }
    ensures params { (args : List Value) → are_of_types (map c_type_of (types_of args)) (map Number args) ≡ true }
    ensures result { (v : Value) → is_returned (c_result_of (Some (type_of v))) (Some (Number v)) ≡ true }
{}
