// Runs of linked units without hosts: their init functions, the calls that were kept, and a last one.
ghost use Rattle.std.specs.Prelude.{◌≡◌, ◌∷◌, ◌++◌, [], true, List, length, map, None, IfOk, IfSome};
ghost use Rattle.w2c_base.specs.Run.{Call as InCall};
ghost use Rattle.c_tree.specs.View.{unit_of};
ghost use Rattle.c_meaning.specs.Linking.{SymbolCall, fits};
ghost use Rattle.c_meaning.specs.Run.{c_run};
ghost use Rattle.c_sound.specs.NeverStuck.{AllFit};
ghost use Rattle.crun.specs.declared.outcome.Standing.TheVariants as standing;
ghost use Rattle.c_hosts.specs.Asking.{hosts_of};
ghost use Rattle.crun.specs.Sessions.{program_of, IsLast};
ghost use Rattle.wast_run.specs.Ran.{alone, run_of, symbol_of, stop_in, symbols_in, symbols_of, CameTo, HasRan, IsBehind, RunsTheSame, StopsAt};

use c_hosts::HostModule;
use crun::{Outcome, Session, Stop};
use std::alloc::Global;
use w2c_base::{Bytes, Memory};
use w2c_mangle::{SymbolKind, export_symbol};
use wast_script::Call;

/// What a run came to: in its last call, or before that in an init function or an earlier call, which did not end.
#[derive(Clone, Copy)]
pub(crate) enum Ran {
    Last(Outcome),
    Before(Outcome),
}

/// Runs the units of a session without hosts, from fresh objects and with at most so many statements, and gives the session
/// back.
pub(crate) fn run_again<H: HostModule>(
    alloc: Global,
    session: Session<H>,
    kept: &[&Call],
    last: &Call,
    steps: u64,
) -> Result<(Ran, Session<H>), Memory>
    requires no_hosts { session.hosts ≡ [] }
    requires fit { AllFit (alone (map unit_of session.linked.0)) (symbols_of kept.now last.now) }
    ensures ran { IfOk result (λ r. HasRan (c_run (alone (map unit_of session.linked.0)) (symbols_of kept.now last.now) steps []) (length kept.now) r.0) }
    ensures linked { IfOk result (λ r. r.1.linked ≡ session.linked) }
    ensures hosts { IfOk result (λ r. r.1.hosts ≡ []) }
{
    let mut session = match session.restart(steps) {
        Ok(session) => session,
        Err(Memory) => return Err(Memory),
    };
    match run_all(alloc, &mut session, kept, last) {
        Ok(ran) => Ok((ran, session)),
        Err(Memory) => {
            drop(session);
            Err(Memory)
        }
    }
}

// The same with a session that has run nothing.
fn run_all<H: HostModule>(
    alloc: Global,
    session: &mut Session<H>,
    kept: &[&Call],
    last: &Call,
) -> Result<Ran, Memory>
    requires fresh { session.old.standing ≡ standing.Fresh }
    requires no_hosts { session.old.hosts ≡ [] }
    requires none_asked { session.old.journal ≡ [] }
    requires fit { AllFit (program_of H.HostModule session.old) (symbols_of kept.now last.now) }
    ensures ran { IfOk result (HasRan (run_of H.HostModule session.old (symbols_of kept.now last.now)) (length kept.now)) }
    ensures linked { session.new.linked ≡ session.old.linked }
    ensures hosts { hosts_of H.HostModule session.new.hosts ≡ hosts_of H.HostModule session.old.hosts }
{
    match run_inits(session) {
        Ok(None) => {}
        Ok(Some(stop)) => return Ok(Ran::Before(stop)),
        Err(Memory) => return Err(Memory),
    }
    match run_kept(alloc, session, kept) {
        Ok(None) => {}
        Ok(Some(stop)) => return Ok(Ran::Before(stop)),
        Err(Memory) => return Err(Memory),
    }
    match run_call(alloc, session, last) {
        Ok(outcome) => Ok(Ran::Last(outcome)),
        Err(Memory) => Err(Memory),
    }
}

// Runs the init functions. Gives the outcome of the last that was begun where it is no end.
fn run_inits<H: HostModule>(session: &mut Session<H>) -> Result<Option<Outcome>, Memory>
    requires fresh { session.old.standing ≡ standing.Fresh }
    requires no_hosts { session.old.hosts ≡ [] }
    requires none_asked { session.old.journal ≡ [] }
    ensures behind { IfOk result (λ stop. stop ≡ None → IsBehind H.HostModule session.new []) }
    ensures stopped { IfOk result (λ stop. IfSome stop (λ o. (rest : List SymbolCall)
        → StopsAt o 0 (run_of H.HostModule session.old rest))) }
    ensures same { RunsTheSame H.HostModule session.old session.new }
{
    match session.init() {
        Ok(outcome) => Ok(stop_of(outcome)),
        Err(Memory) => Err(Memory),
    }
}

// Runs calls behind the init functions, until one does not end. Gives its outcome.
fn run_kept<H: HostModule>(
    alloc: Global,
    session: &mut Session<H>,
    kept: &[&Call],
) -> Result<Option<Outcome>, Memory>
    requires behind { IsBehind H.HostModule session.old [] }
    requires fit { AllFit (program_of H.HostModule session.old) (symbols_in kept.now) }
    ensures behind { IfOk result (λ stop. stop ≡ None → IsBehind H.HostModule session.new (symbols_in kept.now)) }
    ensures stopped { IfOk result (λ stop. IfSome stop (λ o. (rest : List SymbolCall)
        → StopsAt o (length kept.now) (run_of H.HostModule session.old (symbols_in kept.now ++ rest)))) }
    ensures same { RunsTheSame H.HostModule session.old session.new }
{
    for call in kept {
        let outcome = match run_call(alloc, session, call) {
            Ok(outcome) => outcome,
            Err(Memory) => return Err(Memory),
        };
        match stop_of(outcome) {
            None => {}
            Some(stop) => return Ok(Some(stop)),
        }
    }
    Ok(None)
}

// Runs one call.
fn run_call<H: HostModule>(
    alloc: Global,
    session: &mut Session<H>,
    call: &Call,
) -> Result<Outcome, Memory>
    requires ready { session.old.standing ≡ standing.Ready }
    requires fits { fits (program_of H.HostModule session.old) (symbol_of call.now) ≡ true }
    ensures behind { IfOk result (λ o. stop_in o ≡ None → (done : List SymbolCall) → IsBehind H.HostModule session.old done
        → IsBehind H.HostModule session.new (done ++ symbol_of call.now ∷ [])) }
    ensures came { IfOk result (λ o. (done rest : List SymbolCall) → IsBehind H.HostModule session.old done → IsLast o rest
        → CameTo o (InCall (length done)) (run_of H.HostModule session.old (done ++ symbol_of call.now ∷ rest))) }
    ensures same { RunsTheSame H.HostModule session.old session.new }
{
    let symbol = match symbol_for(alloc, call) {
        Ok(symbol) => symbol,
        Err(Memory) => return Err(Memory),
    };
    match session.call(symbol.as_slice(), call.args.as_slice()) {
        Ok(outcome) => Ok(outcome),
        Err(Stop::Memory) => Err(Memory),
        Err(Stop::Over(_)) => unreachable!(),
    }
}

// The symbol of the function that a call names.
fn symbol_for(alloc: Global, call: &Call) -> Result<Bytes, Memory>
    ensures { IfOk result (λ symbol. symbol ≡ (symbol_of call.now).symbol) }
{
    export_symbol(
        alloc,
        call.module_name.as_bytes(),
        SymbolKind::Func,
        call.field_name.as_bytes(),
    )
}

// An outcome that is no end.
fn stop_of(outcome: Outcome) -> Option<Outcome>
    ensures { result ≡ stop_in outcome }
{
    match outcome {
        Outcome::Ended(_) => None,
        Outcome::Trapped(_) => Some(outcome),
        Outcome::Undefined(_) => Some(outcome),
        Outcome::OutOfSteps => Some(outcome),
    }
}
