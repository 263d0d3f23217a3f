// Runs a session: its init functions, then calls, and writes their lines while they run.
ghost use Rattle.std.specs.Prelude.{◌≡◌, ◌≤◌, ◌<◌, ◌^◌, ◌∷◌, ◌++◌, [], true, List, ℕ, length, map, Option, None, IfOk, IfSome, OnErr};
ghost use Rattle.w2c_io.specs.Causes.{WriteCause};
ghost use Rattle.c_tree.specs.View.{unit_of};
ghost use Rattle.c_meaning.specs.Linking.{fits, Program, SymbolCall};
ghost use Rattle.crun.specs.declared.outcome.Standing.TheVariants as standing;
ghost use Rattle.crun.specs.Sessions.{State};
ghost use Rattle.crun_job.specs.Seen.{call_seen, calls_seen, AllFit};
ghost use Rattle.crun_cli.specs.Playing.{HasPlayed, IsBehind, IsLeft};
ghost use Rattle.crun_cli.specs.Recording.{AreToFill, HasAsked, HasPartLeaving, HasRecordedLeaving, HasTaken, IsBlank};

use crate::show::show;
use crate::telling::{status, tell};
use c_hosts::{HostModule, Journal};
use crun::{Session, Stop};
use crun_job::NamedCall;
use crun_lines::Phase;
use host_replay::JournalFile;
use std::alloc::Global;
use w2c_base::Memory;
use w2c_io::{Sink, WriteAnswer};

/// What a run comes to: its status, and the journal file that was handed in, with the run's calls of hosts.
#[derive(Drop)]
pub struct Played {
    pub status: u8,
    pub journal: Option<JournalFile>,
}

/// Runs the init functions of a session that has run nothing, then these calls in order, until one does not end. Writes while it
/// runs a line for each call of a host, for each call that ended, and for what did not end, and at last the state where it is to
/// be shown. Gives the status: 0 where all ended, 1 for a trap, 7 where the statements are spent, 8 where what is undefined came
/// up. A journal file, which has the modules of the hosts and no calls, comes back as the journal of the run. The session keeps
/// its hosts as the run, or the part of it that was run, left them: none is asked behind it.
///
/// # Errors
///
/// `Failed` where the stream failed, `Memory` where memory was wanting; then a prefix of the lines is written.
pub fn play<H: HostModule, O: Sink>(
    alloc: Global,
    session: &mut Session<H>,
    calls: &[NamedCall],
    shows_state: bool,
    journal: Option<JournalFile>,
    out: &mut O,
) -> Result<Played, WriteAnswer>
    requires fresh { session.old.standing ≡ standing.Fresh }
    requires none_asked { session.old.journal ≡ [] }
    requires fit { AllFit (map unit_of session.old.linked.0) calls.now }
    requires blank { IsBlank H.HostModule session.old.hosts journal }
    ensures ran { IfOk result (λ played. HasRecordedLeaving H.HostModule session.old.hosts (map unit_of session.old.linked.0) (calls_seen calls.now) session.old.steps
        shows_state (O.told out.old) (O.told out.new) played.status journal played.journal session.new.hosts) }
    ensures part { OnErr result (HasPartLeaving H.HostModule session.old.hosts (map unit_of session.old.linked.0) (calls_seen calls.now) session.old.steps
        shows_state (O.told out.old) (O.told out.new) session.new.hosts) }
    ensures cause { WriteCause (O.faults out.old) (O.faults out.new) result }
{
    let status = match play_and_show(alloc, session, calls, shows_state, out) {
        Ok(status) => status,
        Err(answer) => return Err(answer),
    };
    match filled(journal, session.journal()) {
        Ok(journal) => Ok(Played { status, journal }),
        Err(Memory) => Err(WriteAnswer::Memory),
    }
}

// A journal file without calls, with those of a run.
fn filled(journal: Option<JournalFile>, asks: &Journal) -> Result<Option<JournalFile>, Memory>
    requires fit { AreToFill journal asks.now }
    ensures { IfOk result (HasTaken journal asks.now) }
{
    let Some(mut file) = journal else {
        return Ok(None);
    };
    file.add(asks)?;
    Ok(Some(file))
}

// Runs what is to run, and shows the state where it is to be shown.
fn play_and_show<H: HostModule, O: Sink>(
    alloc: Global,
    session: &mut Session<H>,
    calls: &[NamedCall],
    shows_state: bool,
    out: &mut O,
) -> Result<u8, WriteAnswer>
    requires fresh { session.old.standing ≡ standing.Fresh }
    requires none_asked { session.old.journal ≡ [] }
    requires fit { AllFit (map unit_of session.old.linked.0) calls.now }
    ensures ran { IfOk result (λ status. HasAsked H.HostModule session.old.hosts (map unit_of session.old.linked.0) (calls_seen calls.now) session.old.steps shows_state
        (O.told out.old) (O.told out.new) status session.new.journal session.new.hosts) }
    ensures part { OnErr result (HasPartLeaving H.HostModule session.old.hosts (map unit_of session.old.linked.0) (calls_seen calls.now) session.old.steps
        shows_state (O.told out.old) (O.told out.new) session.new.hosts) }
    ensures cause { WriteCause (O.faults out.old) (O.faults out.new) result }
{
    let status = match play_all(alloc, session, calls, out) {
        Ok(status) => status,
        Err(answer) => return Err(answer),
    };
    if !shows_state {
        return Ok(status);
    }
    match show(alloc, session, out) {
        Ok(()) => Ok(status),
        Err(answer) => Err(answer),
    }
}

// Runs the init functions and the calls.
fn play_all<H: HostModule, O: Sink>(
    alloc: Global,
    session: &mut Session<H>,
    calls: &[NamedCall],
    out: &mut O,
) -> Result<u8, WriteAnswer>
    requires fresh { session.old.standing ≡ standing.Fresh }
    requires none_asked { session.old.journal ≡ [] }
    requires fit { AllFit (map unit_of session.old.linked.0) calls.now }
    ensures played { IfOk result (HasPlayed H.HostModule session.old session.new (calls_seen calls.now) (O.told out.old) (O.told out.new)) }
    ensures left { OnErr result (IsLeft H.HostModule session.old session.new (calls_seen calls.now) (O.told out.old) (O.told out.new)) }
    ensures cause { WriteCause (O.faults out.old) (O.faults out.new) result }
{
    match play_inits(alloc, session, out) {
        Ok(None) => match play_calls(alloc, session, calls, out) {
            Ok(status) => Ok(status),
            Err(answer) => Err(answer),
        },
        Ok(Some(status)) => Ok(status),
        Err(answer) => Err(answer),
    }
}

// Runs the init functions. Gives the status where one of them did not end.
fn play_inits<H: HostModule, O: Sink>(
    alloc: Global,
    session: &mut Session<H>,
    out: &mut O,
) -> Result<Option<u8>, WriteAnswer>
    requires fresh { session.old.standing ≡ standing.Fresh }
    requires none_asked { session.old.journal ≡ [] }
    ensures behind { IfOk result (λ status. status ≡ None → IsBehind H.HostModule session.old session.new [] (O.told out.old) (O.told out.new)) }
    ensures played { IfOk result (λ status. IfSome status (λ s. (calls : List SymbolCall)
        → HasPlayed H.HostModule session.old session.new calls (O.told out.old) (O.told out.new) s)) }
    ensures left { OnErr result ((calls : List SymbolCall) → IsLeft H.HostModule session.old session.new calls (O.told out.old) (O.told out.new)) }
    ensures cause { WriteCause (O.faults out.old) (O.faults out.new) result }
{
    let outcome = match session.init() {
        Ok(outcome) => outcome,
        Err(Memory) => return Err(WriteAnswer::Memory),
    };
    let last = (session.inits_run() as u64).saturating_sub(1);
    match tell(alloc, session, 0, Phase::Init(last), outcome, out) {
        Ok(()) => Ok(status(outcome)),
        Err(answer) => Err(answer),
    }
}

// Runs calls behind the init functions.
fn play_calls<H: HostModule, O: Sink>(
    alloc: Global,
    session: &mut Session<H>,
    calls: &[NamedCall],
    out: &mut O,
) -> Result<u8, WriteAnswer>
    requires ready { session.old.standing ≡ standing.Ready }
    requires fit { AllFit (map unit_of session.old.linked.0) calls.now }
    ensures played { IfOk result (λ status. (e : State H) (old : Option (List ℕ)) → IsBehind H.HostModule e session.old [] old (O.told out.old)
        → HasPlayed H.HostModule e session.new (calls_seen calls.now) old (O.told out.new) status) }
    ensures left { OnErr result ((e : State H) (old : Option (List ℕ)) → IsBehind H.HostModule e session.old [] old (O.told out.old)
        → IsLeft H.HostModule e session.new (calls_seen calls.now) old (O.told out.new)) }
    ensures cause { WriteCause (O.faults out.old) (O.faults out.new) result }
{
    for (index, call) in calls.iter().enumerate() {
        match play_call(alloc, session, index, call, out) {
            Ok(None) => {}
            Ok(Some(status)) => return Ok(status),
            Err(answer) => return Err(answer),
        }
    }
    Ok(0)
}

// Runs one call, with the number of those before it. Gives the status where it did not end.
fn play_call<H: HostModule, O: Sink>(
    alloc: Global,
    session: &mut Session<H>,
    index: usize,
    call: &NamedCall,
    out: &mut O,
) -> Result<Option<u8>, WriteAnswer>
    requires ready { session.old.standing ≡ standing.Ready }
    requires fits { (p : Program) → p.units ≡ map unit_of session.old.linked.0 → fits p (call_seen call.now) ≡ true }
    requires last { index < 2 ^ 63 }
    ensures goes_on { IfOk result (λ status. status ≡ None → (e : State H) (done : List SymbolCall) (old : Option (List ℕ)) → length done ≡ index
        → IsBehind H.HostModule e session.old done old (O.told out.old)
        → IsBehind H.HostModule e session.new (done ++ call_seen call.now ∷ []) old (O.told out.new)) }
    ensures ready { IfOk result (λ status. status ≡ None → session.new.standing ≡ standing.Ready) }
    ensures played { IfOk result (λ status. IfSome status (λ s. (e : State H) (done more : List SymbolCall) (old : Option (List ℕ)) → length done ≡ index
        → IsBehind H.HostModule e session.old done old (O.told out.old)
        → HasPlayed H.HostModule e session.new (done ++ call_seen call.now ∷ more) old (O.told out.new) s)) }
    ensures left { OnErr result ((e : State H) (done more : List SymbolCall) (old : Option (List ℕ)) → length done ≡ index
        → IsBehind H.HostModule e session.old done old (O.told out.old)
        → IsLeft H.HostModule e session.new (done ++ call_seen call.now ∷ more) old (O.told out.new)) }
    ensures cause { WriteCause (O.faults out.old) (O.faults out.new) result }
    ensures linked { session.new.linked ≡ session.old.linked }
{
    let from = session.journal().len();
    let outcome = match session.call(call.symbol.as_slice(), call.args.as_slice()) {
        Ok(outcome) => outcome,
        Err(Stop::Memory) => return Err(WriteAnswer::Memory),
        Err(Stop::Over(_)) => unreachable!(),
    };
    match tell(
        alloc,
        session,
        from,
        Phase::Call(index as u64),
        outcome,
        out,
    ) {
        Ok(()) => Ok(status(outcome)),
        Err(answer) => Err(answer),
    }
}
