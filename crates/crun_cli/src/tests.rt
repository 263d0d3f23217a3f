// Command lines over files in memory: the status, the lines and the files that stand, and that the host is dropped once. That
// ordinary input meets no want of memory is said here alone. More rows are in bench/rows.
mod units;

use crate::top::crun_top;
use c_hosts::{BoxedHost, HostFunction, HostModule, HostReply};
use env_host::Env;
use std::alloc::Global;
use std::boxed::Box;
use std::cell::Cell;
use std::rc::Rc;
use std::test::Fail;
use units::{
    A_C, ADD_C, ASKS_C, B_C, DIVISION_C, JOURNAL, KEPT_C, LOADS_C, MERGED_C, SEGMENTS_C, SPARE_C,
};
use w2c_base::{Memory, Value};
use w2c_io::{MemFiles, MemSink};

#[derive(Clone, Copy)]
struct Row {
    words: &'static str,
    // What the file `calls` holds.
    calls: &'static str,
    // The put on the output that fails, 0 for none. The output holds a part then.
    failing: u64,
    status: u8,
    out: &'static str,
    err: &'static str,
    // A file that stands behind the run, if one is looked at.
    file: Option<(&'static str, &'static str)>,
}

const FILES: [(&str, &str); 9] = [
    ("add.c", ADD_C),
    ("m.c", LOADS_C),
    ("a.c", A_C),
    ("b.c", B_C),
    ("s.c", SEGMENTS_C),
    ("u.c", DIVISION_C),
    ("spare.c", SPARE_C),
    ("h.c", ASKS_C),
    ("kept.c", KEPT_C),
];

// Each over the files that those before it left.
const ROWS: [Row; 22] = [
    Row {
        words: "--steps 100000 --calls calls add.c",
        calls: "add add 4294967295 1\n",
        failing: 0,
        status: 0,
        out: "call 1 = i32:0\n",
        err: "",
        file: None,
    },
    Row {
        words: "--steps 100000 --calls calls m.c",
        calls: "m near 65532\n",
        failing: 0,
        status: 0,
        out: "call 1 = i32:0\n",
        err: "",
        file: None,
    },
    Row {
        words: "--steps 100000 --calls calls m.c",
        calls: "m near 65533\n",
        failing: 0,
        status: 1,
        out: "call 1 trap 2 memory out of bounds\n",
        err: "",
        file: None,
    },
    Row {
        words: "--steps 100000 --calls calls m.c",
        calls: "m far 1\n",
        failing: 0,
        status: 1,
        out: "call 1 trap 2 memory out of bounds\n",
        err: "",
        file: None,
    },
    Row {
        words: "--steps 100000 --calls calls a.c b.c",
        calls: "b run\na peek\nb again\n",
        failing: 0,
        status: 0,
        out: "call 1 = i32:11\ncall 2 = i32:5\ncall 3 = i32:7\n",
        err: "",
        file: None,
    },
    Row {
        words: "--steps 100000 --calls calls --state s.c",
        calls: "",
        failing: 0,
        status: 1,
        out: "init 1 trap 10 segment out of bounds\nstate 0 m0 pages 1\n",
        err: "",
        file: None,
    },
    Row {
        words: "--steps 100000 --calls calls u.c",
        calls: "u q 7 2\n",
        failing: 0,
        status: 0,
        out: "call 1 = i32:3\n",
        err: "",
        file: None,
    },
    Row {
        words: "--steps 100000 --calls calls u.c",
        calls: "u q 1 0\n",
        failing: 0,
        status: 8,
        out: "call 1 undefined 1 unit 0 item 0 statement 1\n",
        err: "",
        file: None,
    },
    Row {
        words: "--steps 1 --calls calls u.c",
        calls: "u q 7 2\n",
        failing: 0,
        status: 7,
        out: "call 1 out of steps\n",
        err: "",
        file: None,
    },
    Row {
        words: "--steps 100000 --calls calls --state a.c",
        calls: "a inc\n",
        failing: 0,
        status: 0,
        out: "call 1 = i32:6\nstate 0 g0 u32:6\nstate 0 m0 pages 1\n",
        err: "",
        file: None,
    },
    Row {
        words: "--steps 100000 --calls calls h.c",
        calls: "h r\n",
        failing: 0,
        status: 0,
        out: "host env tick = i64:1\nhost env tick = i64:2\ncall 1 = i64:3\n",
        err: "",
        file: None,
    },
    Row {
        words: "--steps 100000 --calls calls b.c",
        calls: "",
        failing: 0,
        status: 6,
        out: "",
        err: "crun: b.c: undefined w2cZ_aZ_mZ_mem\n",
        file: None,
    },
    Row {
        words: "--merge ab.c a.c b.c",
        calls: "",
        failing: 0,
        status: 0,
        out: "",
        err: "",
        file: None,
    },
    Row {
        words: "--steps 100000 --calls calls ab.c",
        calls: "b run\na peek\nb again\n",
        failing: 0,
        status: 0,
        out: "call 1 = i32:11\ncall 2 = i32:5\ncall 3 = i32:7\n",
        err: "",
        file: None,
    },
    Row {
        words: "--merge mu.c u.c",
        calls: "",
        failing: 0,
        status: 0,
        out: "",
        err: "",
        file: Some(("mu.c", MERGED_C)),
    },
    Row {
        words: "--trim t.c spare.c",
        calls: "",
        failing: 0,
        status: 0,
        out: "",
        err: "",
        file: Some(("t.c", DIVISION_C)),
    },
    Row {
        words: "--steps 100000 --calls calls --record j h.c",
        calls: "h r\n",
        failing: 0,
        status: 0,
        out: "host env tick = i64:1\nhost env tick = i64:2\ncall 1 = i64:3\n",
        err: "",
        file: Some(("j", JOURNAL)),
    },
    Row {
        words: "--steps 100000 --calls calls --replay j --record k h.c",
        calls: "h r\n",
        failing: 0,
        status: 0,
        out: "host env tick = i64:1\nhost env tick = i64:2\ncall 1 = i64:3\n",
        err: "",
        file: Some(("k", JOURNAL)),
    },
    Row {
        words: "--steps 400 --calls calls --state add.c kept.c",
        calls: "add add 40 2\nkept f 5\nkept f 0\n",
        failing: 0,
        status: 0,
        out: "call 1 = i32:42\nhost env tick = i64:1\ncall 2 = i64:1\nhost env tick = i64:2\ncall 3 = i64:2\nstate 1 g0 u32:12\nstate 1 m0 pages 1\nstate 1 m0 at 0 00000068690000000000000000000000\nstate 1 m0 at 16 00000000020000000000000000000000\nstate 1 t0 length 3\nstate 1 t0 at 1 unit 1 f1 8\nstate 1 t0 at 2 host 0 tick 5\n",
        err: "",
        file: None,
    },
    Row {
        words: "--steps 100000 --calls calls add.c",
        calls: "add add 1\n",
        failing: 0,
        status: 2,
        out: "",
        err: "crun: calls line 1\n",
        file: None,
    },
    Row {
        words: "--steps 100000 --calls calls none.c",
        calls: "",
        failing: 0,
        status: 3,
        out: "",
        err: "crun: none.c: read fault\n",
        file: None,
    },
    Row {
        words: "--steps 100000 --calls calls u.c",
        calls: "u q 7 2\n",
        failing: 1,
        status: 4,
        out: "call 1 = i32:3\n",
        err: "crun: write fault\n",
        file: None,
    },
];

// The host `env`, with a counter of drops.
struct Watched {
    env: Env,
    drops: Rc<Cell<u64>>,
}

impl Drop for Watched {
    fn drop(self) {
        self.drops.set(self.drops.get().wrapping_add(1));
        let Watched { env: _, drops: _ } = self;
    }
}

impl HostModule for Watched {
    ghost use Rattle.std.specs.Prelude.{◌∷◌, []};
    ghost use Rattle.env_host.specs.EnvHost.{env_functions, env_name, MayAnswer};

    ghost name_of = { λ h. env_name };

    ghost functions_of = { λ h. env_functions };

    ghost state = { λ h. h.env ∷ [] };

    ghost may = { λ h before function args reply after. MayAnswer before function args reply after };

    fn name(&self) -> &[u8] {
        self.env.name()
    }

    fn count(&self) -> usize {
        self.env.count()
    }

    fn function(&self, i: usize) -> &HostFunction {
        self.env.function(i)
    }

    fn call(&mut self, i: usize, args: &[Value]) -> HostReply {
        self.env.call(i, args)
    }
}

fn words_of(alloc: Global, text: &str) -> Result<Vec<String>, Memory> {
    let mut words = Vec::new(alloc);
    for word in text.split_whitespace() {
        words.push(String::from_str(alloc, word)?)?;
    }
    Ok(words)
}

fn unit_files(alloc: Global) -> Result<MemFiles, Memory> {
    let mut files = MemFiles::new(alloc);
    for (name, text) in FILES {
        files.add(name, text.as_bytes())?;
    }
    Ok(files)
}

// The status of these words with a host whose drops are counted.
fn watched_status(
    alloc: Global,
    words: &[String],
    files: &mut MemFiles,
    out: &mut MemSink,
    err: &mut MemSink,
    drops: &Rc<Cell<u64>>,
) -> Result<u8, Memory> {
    let env = Env::new(alloc)?;
    let host = Box::new(
        alloc,
        Watched {
            env,
            drops: drops.clone()?,
        },
    )?;
    let mut hosts = Vec::new(alloc);
    hosts.push(BoxedHost { host })?;
    Ok(crun_top(alloc, words, files, out, err, hosts))
}

fn is_said(row: &Row, out: &[u8], err: &[u8]) -> bool {
    let lines = row.out.as_bytes();
    let is_part = row.failing > 0 && lines.starts_with(out);
    (is_part || out == lines) && err == row.err.as_bytes()
}

fn stands(row: &Row, files: &MemFiles) -> bool {
    match row.file {
        Some((name, text)) => files.get(name) == Some(text.as_bytes()),
        None => true,
    }
}

// What is otherwise, if anything is.
fn wrong(alloc: Global, row: &Row, files: &mut MemFiles) -> Result<Option<&'static str>, Memory> {
    files.add("calls", row.calls.as_bytes())?;
    let words = words_of(alloc, row.words)?;
    let drops = Rc::new(alloc, Cell::new(0u64))?;
    let mut err = MemSink::new(alloc);
    let mut out = MemSink::new(alloc);
    out.fail(row.failing)?;
    let status = watched_status(alloc, words.as_slice(), files, &mut out, &mut err, &drops)?;
    if drops.get() != 1 {
        return Ok(Some("the host's drops"));
    }
    let is_so = status == row.status
        && is_said(row, out.bytes(), err.bytes())
        && stands(row, files);
    Ok(if is_so { None } else { Some(row.words) })
}

// The number of the first row that comes out otherwise, and what of it.
fn first_wrong(alloc: Global) -> Result<Option<(usize, &'static str)>, Memory> {
    let mut files = unit_files(alloc)?;
    for (i, row) in ROWS.iter().enumerate() {
        if let Some(what) = wrong(alloc, row, &mut files)? {
            return Ok(Some((i, what)));
        }
    }
    Ok(None)
}

#[test]
fn command_lines(rt: HostRuntime) -> Result<(), Fail> {
    assert_eq!(rt; first_wrong(rt.alloc())?, None);
    Ok(())
}
