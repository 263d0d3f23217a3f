// The laws of operators and runs.
ghost use Rattle.std.specs.Prelude.{◌≡◌, ◌≢◌, ◌^◌, ◌<◌, ◌≤◌, ℕ, List, Some};
ghost use Rattle.std.specs.List.{AllByRecursion};
ghost use Rattle.w2c_base.specs.declared.value.ValType.{ValType};
ghost use Rattle.w2c_base.specs.Run.{Reply};
ghost use Rattle.w2c_base.specs.Values.{bits, type_of};
ghost use Rattle.w2c_base.specs.declared.value.Value.{Value};
ghost use Rattle.wasm_tree.specs.declared.operators.UnaryOp.{UnaryOp};
ghost use Rattle.wasm_tree.specs.declared.operators.BinaryOp.{BinaryOp};
ghost use Rattle.wasm_tree.specs.declared.operators.LoadOp.{LoadOp};
ghost use Rattle.wasm_tree.specs.declared.operators.ExtendOp.{ExtendOp};
ghost use Rattle.wasm_tree.specs.Accesses.{load_access, extend_width, extend_type};
ghost use Rattle.wasm_meaning.specs.Memories.{load_number};
ghost use Rattle.wasm_meaning.specs.Operators.{AnswerFits, unary, binary, extend_s};
ghost use Rattle.wasm_meaning.specs.LinkedSet.{LinkedSet};
ghost use Rattle.wasm_meaning.specs.Execution.{Done, OutOfSteps, of_one_type, of_type};
ghost use Rattle.wasm_meaning.specs.Run.{ListedCall, Stopped, wasm_run};

/// The law that what an operator gives, a load from bytes or an extended number has its width.
#[tactic(auto, using(crate::proofs::Fits::binary_fits, crate::proofs::Fits::unary_fits, crate::proofs::Fits::load_fits, crate::proofs::Fits::extend_fits))]
pub fn operators_fit()
    ensures binary { (t : ValType) (op : BinaryOp) (x y : ℕ) → x < 2 ^ bits t → y < 2 ^ bits t
        → AnswerFits (bits t) (binary op (bits t) x y) }
    ensures unary { (t : ValType) (op : UnaryOp) (x : ℕ) → x < 2 ^ bits t → unary op (bits t) x < 2 ^ bits t }
    ensures load { (op : LoadOp) (bytes : List ℕ) (address : ℕ) → AllByRecursion (λ b. b < 256) bytes
        → AnswerFits (bits (load_access op).ty) (load_number op bytes address) }
    ensures extended { (op : ExtendOp) (x : ℕ) → extend_s (extend_width op) (bits (extend_type op)) x < 2 ^ bits (extend_type op) }
{}

/// The laws that a run which is not out of steps is the same with a larger budget, and that one
/// which is out of steps is so with a smaller one.
#[tactic(auto, using(crate::proofs::LongerRun::run_longer, crate::proofs::LongerRun::run_shorter))]
pub fn larger_budgets_give_the_same_run()
    ensures longer { (s : LinkedSet) (calls : List ListedCall) (replies : List Reply) (n m : ℕ) → n ≤ m
        → (wasm_run s calls n replies).outcome ≢ Stopped OutOfSteps
        → wasm_run s calls m replies ≡ wasm_run s calls n replies }
    ensures shorter { (s : LinkedSet) (calls : List ListedCall) (replies : List Reply) (n m : ℕ) → n ≤ m
        → (wasm_run s calls m replies).outcome ≡ Stopped OutOfSteps
        → (wasm_run s calls n replies).outcome ≡ Stopped OutOfSteps }
{}

/// The laws that a value goes where one of its type is wanted.
#[tactic(auto, using(crate::proofs::Typed::of_its_type, crate::proofs::Typed::of_the_same_type))]
pub fn values_go_where_they_fit()
    ensures wanted { (t : ValType) (v w : Value) → t ≡ type_of v → of_type t v w ≡ Some w }
    ensures held { (v w : Value) (does : Done) → type_of v ≡ type_of w → of_one_type v w does ≡ does }
{}
