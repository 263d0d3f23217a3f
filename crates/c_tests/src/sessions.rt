// Sessions of a unit that asks a host, which counts its calls, with a counter of its drops.
use crate::texts::checked;
use c_hosts::{HostFunction, HostModule, HostReply};
use c_link::link;
use crun::{Kept, Outcome, Phase, Session, Stop, UndefinedAt, host_symbols};
use std::alloc::Global;
use std::cell::Cell;
use std::test::Fail;
use w2c_base::{Bytes, FuncType, Memory, TrapKind, Types, ValType, Value};

// Asks the host, traps where x is 0, and divides by 0 where it is 1.
const UNIT: &str = "#include \"w2c_rt.h\"
u64 w2cZ_countZ_fZ_tick(u32 x);
u64 w2cZ_f(u32 x) {
u64 r = 0ull;
r = w2cZ_countZ_fZ_tick(x);
if (x < 1u) goto T;
r = (5ull / (u64) (x - 1u));
return r;
T: w2c_trap(1u);
return r;
}
";

// A host `count` with a function `tick` of type [i32] -> [i64], which counts its calls.
struct Counter<'a> {
    name: Bytes,
    tick: HostFunction,
    calls: u64,
    drops: &'a Cell<u64>,
}

impl Drop for Counter<'_> {
    fn drop(self) {
        self.drops.set(self.drops.get().wrapping_add(1));
        let Counter {
            name: _,
            tick: _,
            calls: _,
            drops: _,
        } = self;
    }
}

impl HostModule for Counter<'_> {
    ghost use Rattle.std.specs.Prelude.{◌≡◌, ◌∷◌, [], Some, ℕ};
    ghost use Rattle.w2c_base.specs.declared.value.Value.TheVariants.{I64};

    ghost name_of = { λ h. h.name };

    ghost functions_of = { λ h. h.tick ∷ [] };

    ghost state = { λ h. h.calls ∷ [] };

    ghost may = { λ h before i args answer after. (n : ℕ) × (after ≡ n ∷ []) };

    fn name(&self) -> &[u8] {
        self.name.as_slice()
    }

    fn count(&self) -> usize {
        1
    }

    fn function(&self, _i: usize) -> &HostFunction {
        &self.tick
    }

    fn call(&mut self, _i: usize, _args: &[Value]) -> HostReply {
        if self.tick.ty.result != Some(ValType::I64) {
            return HostReply::Trap;
        }
        self.calls = self.calls.wrapping_add(1);
        HostReply::Value(Some(Value::I64(self.calls)))
    }
}

fn new_counter(alloc: Global, drops: &Cell<u64>) -> Result<Counter<'_>, Fail> {
    let mut params = Types::new(alloc);
    params.push(ValType::I32)?;
    Ok(Counter {
        name: Bytes::from_vec(b"count".to_vec(alloc)?),
        tick: HostFunction {
            name: Bytes::from_vec(b"tick".to_vec(alloc)?),
            ty: FuncType {
                params,
                result: Some(ValType::I64),
            },
        },
        calls: 0,
        drops,
    })
}

fn session<'a>(
    alloc: Global,
    drops: &'a Cell<u64>,
    steps: u64,
) -> Result<Session<Counter<'a>>, Fail> {
    let mut hosts = Vec::new(alloc);
    hosts.push(new_counter(alloc, drops)?)?;
    let Ok(symbols) = host_symbols(alloc, hosts.as_slice()) else {
        return Err(Fail::new("the symbols differ"));
    };
    let mut units = Vec::new(alloc);
    units.push(checked(alloc, UNIT)?)?;
    let Ok(linked) = link(alloc, units, symbols.as_slice()) else {
        return Err(Fail::new("the unit links"));
    };
    Ok(Session::start(alloc, linked, hosts, steps)?)
}

// What f with a number comes to, None where the session is fresh or the call does not fit.
fn call_f(session: &mut Session<Counter<'_>>, x: u32) -> Option<Result<Outcome, Stop>> {
    let args = [Value::I32(x)];
    if session.phase() == Phase::Fresh || !session.linked().fits(b"w2cZ_f", &args) {
        return None;
    }
    Some(session.call(b"w2cZ_f", &args))
}

// A number, how many statements are run, and what f with that number comes to, called, and called again.
type Row = (u32, u64, Result<Outcome, Stop>, Result<Outcome, Stop>);

const UNDEFINED: UndefinedAt = UndefinedAt {
    kind: 1,
    unit: 0,
    item: 1,
    statement: 3,
};

// Behind each outcome but an end the session is over.
const ROWS: [Row; 4] = [
    (
        5,
        100,
        Ok(Outcome::Ended(Some(Value::I64(1)))),
        Ok(Outcome::Ended(Some(Value::I64(1)))),
    ),
    (
        0,
        100,
        Ok(Outcome::Trapped(TrapKind::Unreachable)),
        Err(Stop::Over(Kept::Trapped(TrapKind::Unreachable))),
    ),
    (
        1,
        100,
        Ok(Outcome::Undefined(UNDEFINED)),
        Err(Stop::Over(Kept::Undefined(UNDEFINED))),
    ),
    (
        5,
        1,
        Ok(Outcome::OutOfSteps),
        Err(Stop::Over(Kept::OutOfSteps)),
    ),
];

// Whether the session's calls of f with the row's number come to what the row says.
fn calls_come_to(session: &mut Session<Counter<'_>>, row: &Row) -> Result<bool, Memory> {
    let (x, _, wanted, wanted_again) = *row;
    if session.phase() == Phase::Fresh {
        session.init()?;
    }
    let outcome = call_f(session, x);
    let again = call_f(session, x);
    Ok(outcome == Some(wanted) && again == Some(wanted_again))
}

// Whether it is so, and the host is dropped once behind the calls.
fn comes_to(alloc: Global, row: &Row) -> Result<bool, Fail> {
    let drops = Cell::new(0);
    let mut session = session(alloc, &drops, row.1)?;
    let came = calls_come_to(&mut session, row);
    session.close();
    Ok(came? && drops.get() == 1)
}

// The number of the first row that is not so.
fn first_other(alloc: Global) -> Result<Option<usize>, Fail> {
    for (i, row) in ROWS.iter().enumerate() {
        if !comes_to(alloc, row)? {
            return Ok(Some(i));
        }
    }
    Ok(None)
}

#[test]
fn calls_behind_each_outcome(rt: HostRuntime) -> Result<(), Fail> {
    assert_eq!(rt; first_other(rt.alloc())?, None);
    Ok(())
}

// Whether the init functions and a call end, and what the session tells then.
fn a_call_is_told(session: &mut Session<Counter<'_>>) -> Result<bool, Memory> {
    let mut begun = Outcome::OutOfSteps;
    if session.phase() == Phase::Fresh {
        begun = session.init()?;
    }
    let ended = call_f(session, 5);
    let (hosts, objects) = session.hosts_and_objects();
    Ok(
        begun == Outcome::Ended(None)
            && ended == Some(Ok(Outcome::Ended(Some(Value::I64(1)))))
            && session.phase() == Phase::Ready
            && session.journal().len() == 1
            && session.inits_run() == 0
            && session.host_count() == 1
            && hosts.len() == 1
            && objects.len() == 1
            && session.variable(0, b"g") == None,
    )
}

#[test]
fn a_call_ends(rt: HostRuntime) -> Result<(), Fail> {
    let drops = Cell::new(0);
    let mut session = session(rt.alloc(), &drops, 100)?;
    let told = a_call_is_told(&mut session);
    session.close();
    assert!(rt; told?);
    Ok(())
}
