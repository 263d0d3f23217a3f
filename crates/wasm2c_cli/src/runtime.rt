// The two files of the runtime that units are compiled with.
ghost use Rattle.std.specs.Prelude.{◌≡◌, ◌++◌, ◌≤◌, IfErr, IfOk, OnOk, string_bytes};
ghost use Rattle.w2c_io.specs.Passed.{Passes};
ghost use Rattle.w2c_files.specs.Passing.{WritesFiles};
ghost use Rattle.w2c_files.specs.Standing.{written};
ghost use Rattle.wasm2c_words.specs.CommandLine.{runtime};
ghost use Rattle.wasm2c_cli.specs.declared.work.Finished.TheVariants.{Written};
ghost use Rattle.wasm2c_cli.specs.Parts.{FinishesLine, StopsWriting, runtime_under};
ghost use Rattle.wasm2c_cli.specs.PartsPassing.{EndsWriting, PassesWhole, TriesLine};
ghost use Rattle.wasm2c_cli.specs.Runtime.{runtime_header, runtime_source};
ghost use Rattle.wasm2c_cli.specs.Stops.{KeepsCurrent, StopsLine};

use crate::stop::Stop;
use crate::work::Finished;
use crate::writing::stop_for;
use std::alloc::{AllocError, Global};
use w2c_files::write_file;
use w2c_io::Files;

/// Writes the header and the source of the runtime into a directory.
pub fn write_runtime<F: Files>(alloc: Global, dir: &str, files: &mut F) -> Result<Finished, Stop>
    ensures done { IfOk result (FinishesLine (runtime dir.now) (F.told files.old) (F.told files.new)) }
    ensures current { IfErr result (KeepsCurrent (F.current files.old) (F.current files.new)) }
    ensures reads { F.read_faults files.old ≤ F.read_faults files.new }
    ensures writes { F.write_faults files.old ≤ F.write_faults files.new }
    ensures reads_kept { OnOk result (F.read_faults files.new ≡ F.read_faults files.old) }
    ensures writes_kept { OnOk result (F.write_faults files.new ≡ F.write_faults files.old) }
    ensures stop { IfErr result (StopsLine (runtime dir.now) (F.told files.old) (F.told files.new)
        (F.read_faults files.old) (F.read_faults files.new) (F.write_faults files.old) (F.write_faults files.new) (F.fault_name files.new)) }
    ensures passed { OnOk result (Passes (F.trace files.old) (F.trace files.new) (PassesWhole (runtime dir.now))) }
    ensures tried { IfErr result (λ stop. Passes (F.trace files.old) (F.trace files.new) (TriesLine (runtime dir.now) stop)) }
{
    let header = name_in(alloc, dir, "/w2c_rt.h")?;
    let source = name_in(alloc, dir, "/w2c_rt.c")?;
    write_texts(alloc, header.as_str(), source.as_str(), files)
}

fn name_in(alloc: Global, dir: &str, name: &str) -> Result<String, AllocError>
    ensures { IfOk result (λ path. string_bytes path ≡ dir.now ++ name.now) }
{
    let mut path = String::from_str(alloc, dir)?;
    path.push_str(name)?;
    Ok(path)
}

// Writes the header, then the source, into files of these names.
fn write_texts<F: Files>(
    alloc: Global,
    header_file: &str,
    source_file: &str,
    files: &mut F,
) -> Result<Finished, Stop>
    ensures done { IfOk result (λ f. f ≡ Written) }
    ensures whole { IfOk result (λ _. F.told files.new ≡ written (F.told files.old) (runtime_under header_file.now source_file.now)) }
    ensures reads { F.read_faults files.new ≡ F.read_faults files.old }
    ensures later { F.write_faults files.old ≤ F.write_faults files.new }
    ensures kept { OnOk result (F.write_faults files.new ≡ F.write_faults files.old) }
    ensures stop { IfErr result (StopsWriting (F.told files.old) (F.told files.new) (runtime_under header_file.now source_file.now)
        (F.write_faults files.old) (F.write_faults files.new) (F.fault_name files.new)) }
    ensures passed { OnOk result (Passes (F.trace files.old) (F.trace files.new)
        (WritesFiles (runtime_under header_file.now source_file.now))) }
    ensures tried { IfErr result (λ stop. Passes (F.trace files.old) (F.trace files.new)
        (EndsWriting (runtime_under header_file.now source_file.now) stop)) }
{
    if let Err(answer) = write_file(header_file, header().as_bytes(), files) {
        return Err(stop_for(alloc, answer, header_file));
    }
    if let Err(answer) = write_file(source_file, source().as_bytes(), files) {
        return Err(stop_for(alloc, answer, source_file));
    }
    Ok(Finished::Written)
}

fn header() -> &'static str
    ensures { result.now ≡ runtime_header }
{
    "#ifndef W2C_RT_H
#define W2C_RT_H
#include <stdint.h>
typedef uint8_t u8;
typedef uint32_t u32;
typedef uint64_t u64;
typedef void (*w2c_fn)(void);
typedef struct { u8 *bytes; u64 len; u64 max; } w2c_mem;
typedef struct { w2c_fn fn; u64 sig; } w2c_elem;
typedef struct { w2c_elem *elems; u64 len; u64 max; } w2c_tab;
extern u32 w2c_depth;
void w2c_trap(u32);
void w2c_mem_new(w2c_mem *, u32, u64);
u64 w2c_mem_len(w2c_mem *);
u64 w2c_mem_max(w2c_mem *);
u32 w2c_mem_grow(w2c_mem *, u32);
u32 w2c_get1(w2c_mem *, u64);
u32 w2c_get2(w2c_mem *, u64);
u32 w2c_get4(w2c_mem *, u64);
u64 w2c_get8(w2c_mem *, u64);
void w2c_put1(w2c_mem *, u64, u32);
void w2c_put2(w2c_mem *, u64, u32);
void w2c_put4(w2c_mem *, u64, u32);
void w2c_put8(w2c_mem *, u64, u64);
void w2c_tab_new(w2c_tab *, u32, u64);
u64 w2c_tab_len(w2c_tab *);
u64 w2c_tab_max(w2c_tab *);
u64 w2c_tab_sig(w2c_tab *, u64);
w2c_fn w2c_tab_fn(w2c_tab *, u64);
void w2c_tab_set(w2c_tab *, u64, w2c_fn, u64);
#endif
"
}

fn source() -> &'static str
    ensures { result.now ≡ runtime_source }
{
    "#include <stdio.h>
#include <stdlib.h>
#include <string.h>
#include \"w2c_rt.h\"
u32 w2c_depth;
static void *zeros(u64 n) {
    void *p = calloc(n ? (size_t)n : 1, 1);
    if (!p) { fputs(\"want of memory\\n\", stderr); exit(5); }
    return p;
}
void w2c_trap(u32 k) { fprintf(stderr, \"trap %lu\\n\", (unsigned long)k); exit(1); }
void w2c_mem_new(w2c_mem *m, u32 min, u64 max) {
    m->len = (u64)min * 65536; m->max = max; m->bytes = zeros(m->len);
}
u64 w2c_mem_len(w2c_mem *m) { return m->len; }
u64 w2c_mem_max(w2c_mem *m) { return m->max; }
u32 w2c_mem_grow(w2c_mem *m, u32 d) {
    u64 old = m->len / 65536, top = m->max < 16384 ? m->max : 16384;
    u8 *b;
    if (old + d > top) return 4294967295u;
    if (d == 0) return (u32)old;
    b = zeros((old + d) * 65536);
    if (m->len) memcpy(b, m->bytes, (size_t)m->len);
    free(m->bytes); m->bytes = b; m->len = (old + d) * 65536;
    return (u32)old;
}
u32 w2c_get1(w2c_mem *m, u64 a) { return m->bytes[a]; }
u32 w2c_get2(w2c_mem *m, u64 a) { return w2c_get1(m, a) | w2c_get1(m, a + 1) << 8; }
u32 w2c_get4(w2c_mem *m, u64 a) { return w2c_get2(m, a) | w2c_get2(m, a + 2) << 16; }
u64 w2c_get8(w2c_mem *m, u64 a) { return w2c_get4(m, a) | (u64)w2c_get4(m, a + 4) << 32; }
void w2c_put1(w2c_mem *m, u64 a, u32 v) { m->bytes[a] = (u8)v; }
void w2c_put2(w2c_mem *m, u64 a, u32 v) { w2c_put1(m, a, v); w2c_put1(m, a + 1, v >> 8); }
void w2c_put4(w2c_mem *m, u64 a, u32 v) { w2c_put2(m, a, v); w2c_put2(m, a + 2, v >> 16); }
void w2c_put8(w2c_mem *m, u64 a, u64 v) { w2c_put4(m, a, (u32)v); w2c_put4(m, a + 4, (u32)(v >> 32)); }
void w2c_tab_new(w2c_tab *t, u32 len, u64 max) {
    t->elems = zeros((u64)len * sizeof(w2c_elem)); t->len = len; t->max = max;
}
u64 w2c_tab_len(w2c_tab *t) { return t->len; }
u64 w2c_tab_max(w2c_tab *t) { return t->max; }
u64 w2c_tab_sig(w2c_tab *t, u64 i) { return t->elems[i].sig; }
w2c_fn w2c_tab_fn(w2c_tab *t, u64 i) { return t->elems[i].fn; }
void w2c_tab_set(w2c_tab *t, u64 i, w2c_fn f, u64 sig) { t->elems[i].fn = f; t->elems[i].sig = sig; }
"
}
