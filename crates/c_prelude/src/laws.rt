// Laws of helpers and of the statements that call them.
ghost use Rattle.std.specs.Prelude.{◌≡◌, ℕ, List, Option, Some, slice_get};
ghost use Rattle.c_tree.specs.Tree as tree;
ghost use Rattle.c_meaning.specs.State.{CValue, Frame, Machine, Name, Running};
ghost use Rattle.c_meaning.specs.Linking.{Program};
ghost use Rattle.c_meaning.specs.Run.{Pending};
ghost use Rattle.c_helpers.specs.declared.operation.Helper.{Helper};
ghost use Rattle.c_helpers.specs.declared.operation.TheConstants.{HELPERS};
ghost use Rattle.c_helpers.specs.Helpers.{helper_of};
ghost use Rattle.c_prelude.specs.Calls.{CallComesBetween, CallComesTo, CallEnd};
ghost use Rattle.c_prelude.specs.Statements.{Calls, StatementComesBetween, StatementComesTo};

/// The law that helpers that differ have names that differ.
pub fn names_of_helpers_differ()
    ensures { (a b : Helper) → (helper_of a).name ≡ (helper_of b).name → a ≡ b }
{}

/// The law that every helper stands in the list of all.
#[tactic(auto, using(crate::proofs::Functions::listed))]
pub fn every_helper_is_listed()
    ensures { (which : Helper) → (i : ℕ) × (slice_get HELPERS i ≡ Some which) }
{}

/// The law that a statement which calls a function of its unit comes to the end of the call, within
/// one statement more.
pub fn call_statements_come_to_the_end_of_the_call()
    ensures { (p : Program) (pending : Pending) (most : ℕ) (m : Machine) (r : Running) (target : Option Name) (f : tree.Func)
        (values : List CValue) (rest : List tree.Stmt) (end : CallEnd) (below : List Frame)
        → Calls p m r target f values rest → CallComesTo most f values m end
        → StatementComesTo p pending most m r target rest end below }
{}

/// The law that such a statement takes at least one statement more than the call at least takes, too.
pub fn call_statements_take_as_long_as_the_call()
    ensures { (p : Program) (pending : Pending) (least most : ℕ) (m : Machine) (r : Running) (target : Option Name) (f : tree.Func)
        (values : List CValue) (rest : List tree.Stmt) (end : CallEnd) (below : List Frame)
        → Calls p m r target f values rest → CallComesBetween least most f values m end
        → StatementComesBetween p pending least most m r target rest end below }
{}
