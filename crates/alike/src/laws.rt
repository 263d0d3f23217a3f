// What follows from ending alike.
ghost use Rattle.std.specs.Prelude.{◌≡◌, ◌≢◌, ℕ};
ghost use Rattle.wasm_meaning.specs.LinkedSet.{LinkedSet};
ghost use Rattle.wasm_meaning.specs.Run.{WasmRun};
ghost use Rattle.wasm_meaning.specs.Execution as exec;
ghost use Rattle.wasm_meaning.specs.Run as wasm;
ghost use Rattle.c_meaning.specs.State.{Place, Undefined, Stuck};
ghost use Rattle.c_meaning.specs.Run.{CRun, OutOfSteps, Stopped};
ghost use Rattle.alike.specs.Alike.{Alike};

/// The law that of two runs that end alike none is stuck or out of steps, and the C run is not
/// undefined.
pub fn alike_runs_are_defined()
    ensures never_undefined { (s : LinkedSet) (w : WasmRun) (run : CRun) → Alike s w run
        → (kind : ℕ) (place : Place) → run.outcome ≢ Stopped (Undefined kind place) }
    ensures never_stuck { (s : LinkedSet) (w : WasmRun) (run : CRun) → Alike s w run
        → (run.outcome ≢ Stopped Stuck) × (w.outcome ≢ wasm.Stopped exec.Stuck) }
    ensures never_out_of_steps { (s : LinkedSet) (w : WasmRun) (run : CRun) → Alike s w run
        → (run.outcome ≢ OutOfSteps) × (w.outcome ≢ wasm.Stopped exec.OutOfSteps) }
{}
