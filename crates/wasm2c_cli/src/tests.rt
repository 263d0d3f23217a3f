// Command lines over files in memory: the status, the line on the error stream and the files that stand. That ordinary input
// meets no want of memory is said here alone. More rows are in bench/rows.
use crate::top::{sure_top, wasm2c_top};
use std::alloc::Global;
use std::test::Fail;
use w2c_base::Memory;
use w2c_files::write_file;
use w2c_io::{Files, MemFiles, MemSink, StdFiles, StdSink, SureFiles, SureSink};

// What is said of a file behind a run.
#[derive(Clone, Copy)]
enum Stands {
    Whole(&'static str),
    Begins(&'static str),
    // As this other file.
    As(&'static str),
    Nowhere,
}

use Stands::{As, Begins, Nowhere, Whole};

#[derive(Clone, Copy)]
struct Row {
    words: &'static str,
    status: u8,
    said: &'static str,
    stand: &'static [(&'static str, Stands)],
}

const INCLUDE: &str = "#include \"w2c_rt.h\"\n";

// The header of `add.wasm`, whose function `add` adds two numbers.
const ADD_H: &str = "/* made by wasm2c; int has 32 bits and every character of a name counts */
#ifndef W2CZ_addZ_H
#define W2CZ_addZ_H
#include \"w2c_rt.h\"
void w2cZ_addZ_i(void);
u32 w2cZ_addZ_fZ_add(u32, u32);
#endif
";

// Of `a.wasm`, which exports a memory, a global and two functions.
const A_H: &str = "/* made by wasm2c; int has 32 bits and every character of a name counts */
#ifndef W2CZ_aZ_H
#define W2CZ_aZ_H
#include \"w2c_rt.h\"
void w2cZ_aZ_i(void);
w2c_mem *w2cZ_aZ_mZ_mem(void);
u32 *w2cZ_aZ_vZ_g(void);
u32 w2cZ_aZ_fZ_inc(void);
u32 w2cZ_aZ_fZ_peek(void);
#endif
";

// Of `b.wasm`, which imports these.
const B_H: &str = "/* made by wasm2c; int has 32 bits and every character of a name counts */
#ifndef W2CZ_bZ_H
#define W2CZ_bZ_H
#include \"w2c_rt.h\"
void w2cZ_bZ_i(void);
u32 w2cZ_bZ_fZ_run(void);
u32 w2cZ_bZ_fZ_again(void);
#endif
";

// The unit and the header of `real.wasm`, which is as a linker writes it: memory, table, global, a function and a custom section.
const REAL_C: &str = "#include \"w2c_rt.h\"
static w2c_tab t0;
static w2c_mem m0;
static u32 g0;
static u32 f0(u32);
static u32 i32_load(w2c_mem * m, u32 b, u32 o) {
u64 a = 0ull;
u64 n = 0ull;
u32 v = 0u;
a = ((u64) b + (u64) o);
n = w2c_mem_len(m);
if ((a + 4ull) > n) goto T;
v = w2c_get4(m, a);
return v;
T: w2c_trap(2u);
return 0u;
}
static void i32_store(w2c_mem * m, u32 b, u32 o, u32 v) {
u64 a = 0ull;
u64 n = 0ull;
a = ((u64) b + (u64) o);
n = w2c_mem_len(m);
if ((a + 4ull) > n) goto T;
w2c_put4(m, a, v);
return;
T: w2c_trap(2u);
}
static u32 f0(u32 l0) {
u32 l1 = 0u;
u32 i0 = 0u;
u32 i1 = 0u;
if (w2c_depth < 1024u) goto L0;
w2c_trap(8u);
return i0;
L0: w2c_depth = (w2c_depth + 1u);
i0 = g0;
i1 = 16u;
i0 = (i0 - i1);
l1 = i0;
i1 = l0;
i32_store(& m0, i0, 12u, i1);
i0 = l1;
i0 = i32_load(& m0, i0, 12u);
i1 = l0;
i0 = (i0 * i1);
w2c_depth = (w2c_depth - 1u);
return i0;
}
w2c_mem * w2cZ_realZ_mZ_memory(void) {
return & m0;
}
u32 w2cZ_realZ_fZ_f(u32 a0) {
u32 r = 0u;
r = f0(a0);
return r;
}
void w2cZ_realZ_i(void) {
;
w2c_tab_new(& t0, 1u, 1ull);
w2c_mem_new(& m0, 2u, 4294967296ull);
g0 = 66560u;
return;
}
";

const REAL_H: &str = "/* made by wasm2c; int has 32 bits and every character of a name counts */
#ifndef W2CZ_realZ_H
#define W2CZ_realZ_H
#include \"w2c_rt.h\"
void w2cZ_realZ_i(void);
w2c_mem *w2cZ_realZ_mZ_memory(void);
u32 w2cZ_realZ_fZ_f(u32);
#endif
";

// The header of a generated module.
const GEN_H: &str = "/* made by wasm2c; int has 32 bits and every character of a name counts */
#ifndef W2CZ_genZ_H
#define W2CZ_genZ_H
#include \"w2c_rt.h\"
void w2cZ_genZ_i(void);
u32 w2cZ_genZ_fZ_run(u32);
#endif
";

// Adds two numbers.
const ADD: &[u8] =
    b"\0asm\x01\0\0\0\x01\x07\x01`\x02\x7f\x7f\x01\x7f\x03\x02\x01\0\x07\x07\x01\x03add\0\0\n\t\x01\x07\0 \0 \x01j\x0b";

// Two constants and their sum, and the unit.
const TWO: &[u8] =
    b"\0asm\x01\0\0\0\x01\x05\x01`\0\x01\x7f\x03\x02\x01\0\x07\x05\x01\x01f\0\0\n\t\x01\x07\0A(A\x02j\x0b";

const TWO_C: &str = "#include \"w2c_rt.h\"
static u32 f0(void);
static u32 f0(void) {
u32 i0 = 0u;
u32 i1 = 0u;
if (w2c_depth < 1024u) goto L0;
w2c_trap(8u);
return i0;
L0: w2c_depth = (w2c_depth + 1u);
i0 = 40u;
i1 = 2u;
i0 = (i0 + i1);
w2c_depth = (w2c_depth - 1u);
return i0;
}
u32 w2cZ_twoZ_fZ_f(void) {
u32 r = 0u;
r = f0();
return r;
}
void w2cZ_twoZ_i(void) {
;
return;
}
";

// The modules.
const FILES: [(&str, &[u8]); 5] = [
    ("add.wasm", ADD),
    ("seven.wasm", b"\0asm\x01\0\0"),
    (
        "a.wasm",
        b"\0asm\x01\0\0\0\x01\x05\x01`\0\x01\x7f\x03\x03\x02\0\0\x05\x03\x01\0\x01\x06\x06\x01\x7f\x01A\x05\x0b\x07\x18\x04\x03mem\x02\0\x01g\x03\0\x03inc\0\0\x04peek\0\x01\n\x15\x02\x0b\0#\0A\x01j$\0#\0\x0b\x07\0A\0(\x02\0\x0b",
    ),
    (
        "b.wasm",
        b"\0asm\x01\0\0\0\x01\x05\x01`\0\x01\x7f\x02\x19\x03\x01a\x03mem\x02\0\x01\x01a\x01g\x03\x7f\x01\x01a\x03inc\0\0\x03\x02\x01\0\x07\x0f\x02\x03run\0\x01\x05again\0\0\n\x13\x01\x11\0A\0#\06\x02\0\x10\0A\0(\x02\0j\x0b",
    ),
    (
        "real.wasm",
        b"\0asm\x01\0\0\0\x01\x06\x01`\x01\x7f\x01\x7f\x03\x02\x01\0\x04\x05\x01p\x01\x01\x01\x05\x03\x01\0\x02\x06\x08\x01\x7f\x01A\x80\x88\x04\x0b\x07\x0e\x02\x06memory\x02\0\x01f\0\0\n\x1a\x01\x18\x01\x01\x7f#\0A\x10k\"\x01 \06\x02\x0c \x01(\x02\x0c \0l\x0b\0\x0b\x04name\x01\x04\x01\0\x01f",
    ),
];

// Each over the files that those before it left.
const ROWS: [Row; 9] = [
    Row {
        words: "add.wasm -o add.c",
        status: 0,
        said: "",
        stand: &[("add.c", Begins(INCLUDE)), ("add.h", Whole(ADD_H))],
    },
    Row {
        words: "seven.wasm -o seven.c",
        status: 1,
        said: "wasm2c: seven.wasm: malformed at 7: unexpected end\n",
        stand: &[("seven.c", Nowhere), ("seven.h", Nowhere)],
    },
    Row {
        words: "--dir out a.wasm b.wasm",
        status: 0,
        said: "",
        stand: &[
            ("out/a.c", Begins(INCLUDE)),
            ("out/a.h", Whole(A_H)),
            ("out/b.c", Begins(INCLUDE)),
            ("out/b.h", Whole(B_H)),
        ],
    },
    Row {
        words: "real.wasm -o real.c",
        status: 0,
        said: "",
        stand: &[("real.c", Whole(REAL_C)), ("real.h", Whole(REAL_H))],
    },
    Row {
        words: "--gen 20000 -o g.c",
        status: 0,
        said: "wasm2c: gen 20000: 322195 bytes, 20000 functions\n",
        stand: &[("g.c", Begins(INCLUDE)), ("g.h", Whole(GEN_H))],
    },
    Row {
        words: "--gen 20000 -o again.c",
        status: 0,
        said: "wasm2c: gen 20000: 322195 bytes, 20000 functions\n",
        stand: &[("again.c", As("g.c")), ("again.h", Whole(GEN_H))],
    },
    Row {
        words: "--runtime rt",
        status: 0,
        said: "",
        stand: &[
            ("rt/w2c_rt.h", Begins("#ifndef W2C_RT_H\n")),
            ("rt/w2c_rt.c", Begins("#include <stdio.h>\n")),
        ],
    },
    Row {
        words: "add.wasm",
        status: 2,
        said: "wasm2c: bad command line\n",
        stand: &[],
    },
    Row {
        words: "none.wasm -o none.c",
        status: 3,
        said: "wasm2c: none.wasm: read fault\n",
        stand: &[("none.c", Nowhere)],
    },
];

fn words_of(alloc: Global, text: &str) -> Result<Vec<String>, Memory> {
    let mut words = Vec::new(alloc);
    for word in text.split_whitespace() {
        words.push(String::from_str(alloc, word)?)?;
    }
    Ok(words)
}

fn modules(alloc: Global) -> Result<MemFiles, Memory> {
    let mut files = MemFiles::new(alloc);
    for (name, bytes) in FILES {
        files.add(name, bytes)?;
    }
    Ok(files)
}

fn is_so(files: &MemFiles, name: &str, wanted: Stands) -> bool {
    match (files.get(name), wanted) {
        (Some(text), Whole(whole)) => text == whole.as_bytes(),
        (Some(text), Begins(front)) => text.starts_with(front.as_bytes()),
        (Some(text), As(other)) => files.get(other) == Some(text),
        (None, Nowhere) => true,
        _ => false,
    }
}

fn all_stand(files: &MemFiles, row: &Row) -> bool {
    for (name, wanted) in row.stand {
        if !is_so(files, name, *wanted) {
            return false;
        }
    }
    true
}

fn comes_out(alloc: Global, row: &Row, files: &mut MemFiles) -> Result<bool, Memory> {
    let words = words_of(alloc, row.words)?;
    let mut err = MemSink::new(alloc);
    let status = wasm2c_top(alloc, words.as_slice(), files, &mut err);
    Ok(status == row.status && err.bytes() == row.said.as_bytes() && all_stand(files, row))
}

// The first row over files and a stream that never fail.
fn comes_out_surely(alloc: Global) -> Result<bool, Memory> {
    let words = words_of(alloc, "add.wasm -o add.c")?;
    let mut files = SureFiles::new(alloc);
    let mut err = SureSink::new(alloc);
    files.add("add.wasm", ADD)?;
    let status = sure_top(alloc, words.as_slice(), &mut files, &mut err);
    Ok(status == 0 && err.bytes().is_empty() && files.get("add.h") == Some(ADD_H.as_bytes()))
}

// The words of the first row that comes out otherwise.
fn first_wrong(alloc: Global) -> Result<Option<&'static str>, Memory> {
    if !comes_out_surely(alloc)? {
        return Ok(Some("files that never fail"));
    }
    let mut files = modules(alloc)?;
    for row in &ROWS {
        if !comes_out(alloc, row, &mut files)? {
            return Ok(Some(row.words));
        }
    }
    Ok(None)
}

// The words of the stored run, over the files of the system: the text that is read again there.
fn is_stored(rt: &HostRuntime, alloc: Global) -> Result<bool, Fail> {
    let words = words_of(alloc, "two.wasm -o two.c")?;
    let mut err = StdSink::err(rt);
    let mut files = StdFiles::new(rt, alloc);
    write_file("two.wasm", TWO, &mut files)?;
    let status = wasm2c_top(alloc, words.as_slice(), &mut files, &mut err);
    let text = files.read(alloc, "two.c", 4096)?;
    Ok(status == 0 && text.as_slice() == TWO_C.as_bytes())
}

#[test]
fn command_lines(rt: HostRuntime) -> Result<(), Fail> {
    let alloc = rt.alloc();
    assert_eq!(rt; (first_wrong(alloc)?, is_stored(&rt, alloc)?), (None, true));
    Ok(())
}
