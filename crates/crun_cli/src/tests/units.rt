// The texts of units that the rows run, and of those that they write.

// As wasm2c writes it, of a module whose function adds two numbers.
pub const ADD_C: &str = "#include \"w2c_rt.h\"
static u32 f0(u32, u32);
static u32 f0(u32 l0, u32 l1) {
u32 i0 = 0u;
u32 i1 = 0u;
if (w2c_depth < 1024u) goto L0;
w2c_trap(8u);
return i0;
L0: w2c_depth = (w2c_depth + 1u);
i0 = l0;
i1 = l1;
i0 = (i0 + i1);
w2c_depth = (w2c_depth - 1u);
return i0;
}
u32 w2cZ_addZ_fZ_add(u32 a0, u32 a1) {
u32 r = 0u;
r = f0(a0, a1);
return r;
}
void w2cZ_addZ_i(void) {
;
return;
}
";

// Loads of four bytes, `near` without an offset and `far` with the greatest.
pub const LOADS_C: &str = "#include \"w2c_rt.h\"
static w2c_mem m0;
static u32 f0(u32);
static u32 f1(u32);
static u32 i32_load(w2c_mem * m, u32 b, u32 o) {
u64 a = 0ull;
u64 n = 0ull;
u32 v = 0u;
a = ((u64) b + (u64) o);
n = w2c_mem_len(m);
if ((a + 4ull) > n) goto T;
v = w2c_get4(m, a);
return v;
T: w2c_trap(2u);
return 0u;
}
static u32 f0(u32 l0) {
u32 i0 = 0u;
if (w2c_depth < 1024u) goto L0;
w2c_trap(8u);
return i0;
L0: w2c_depth = (w2c_depth + 1u);
i0 = l0;
i0 = i32_load(& m0, i0, 0u);
w2c_depth = (w2c_depth - 1u);
return i0;
}
static u32 f1(u32 l0) {
u32 i0 = 0u;
if (w2c_depth < 1024u) goto L0;
w2c_trap(8u);
return i0;
L0: w2c_depth = (w2c_depth + 1u);
i0 = l0;
i0 = i32_load(& m0, i0, 4294967295u);
w2c_depth = (w2c_depth - 1u);
return i0;
}
u32 w2cZ_mZ_fZ_near(u32 a0) {
u32 r = 0u;
r = f0(a0);
return r;
}
u32 w2cZ_mZ_fZ_far(u32 a0) {
u32 r = 0u;
r = f1(a0);
return r;
}
void w2cZ_mZ_i(void) {
;
w2c_mem_new(& m0, 1u, 4294967296ull);
return;
}
";

// As wasm2c writes it, of a module that exports a memory, a global, and two functions.
pub const A_C: &str = "#include \"w2c_rt.h\"
static w2c_mem m0;
static u32 g0;
static u32 f0(void);
static u32 f1(void);
static u32 i32_load(w2c_mem * m, u32 b, u32 o) {
u64 a = 0ull;
u64 n = 0ull;
u32 v = 0u;
a = ((u64) b + (u64) o);
n = w2c_mem_len(m);
if ((a + 4ull) > n) goto T;
v = w2c_get4(m, a);
return v;
T: w2c_trap(2u);
return 0u;
}
static u32 f0(void) {
u32 i0 = 0u;
u32 i1 = 0u;
if (w2c_depth < 1024u) goto L0;
w2c_trap(8u);
return i0;
L0: w2c_depth = (w2c_depth + 1u);
i0 = g0;
i1 = 1u;
i0 = (i0 + i1);
g0 = i0;
i0 = g0;
w2c_depth = (w2c_depth - 1u);
return i0;
}
static u32 f1(void) {
u32 i0 = 0u;
if (w2c_depth < 1024u) goto L0;
w2c_trap(8u);
return i0;
L0: w2c_depth = (w2c_depth + 1u);
i0 = 0u;
i0 = i32_load(& m0, i0, 0u);
w2c_depth = (w2c_depth - 1u);
return i0;
}
w2c_mem * w2cZ_aZ_mZ_mem(void) {
return & m0;
}
u32 * w2cZ_aZ_vZ_g(void) {
return & g0;
}
u32 w2cZ_aZ_fZ_inc(void) {
u32 r = 0u;
r = f0();
return r;
}
u32 w2cZ_aZ_fZ_peek(void) {
u32 r = 0u;
r = f1();
return r;
}
void w2cZ_aZ_i(void) {
;
w2c_mem_new(& m0, 1u, 4294967296ull);
g0 = 5u;
return;
}
";

// As wasm2c writes it, of a module that imports these.
pub const B_C: &str = "#include \"w2c_rt.h\"
static w2c_mem * pm0;
static u32 * pg0;
w2c_mem * w2cZ_aZ_mZ_mem(void);
u32 * w2cZ_aZ_vZ_g(void);
u32 w2cZ_aZ_fZ_inc(void);
static u32 f1(void);
static u32 i32_load(w2c_mem * m, u32 b, u32 o) {
u64 a = 0ull;
u64 n = 0ull;
u32 v = 0u;
a = ((u64) b + (u64) o);
n = w2c_mem_len(m);
if ((a + 4ull) > n) goto T;
v = w2c_get4(m, a);
return v;
T: w2c_trap(2u);
return 0u;
}
static void i32_store(w2c_mem * m, u32 b, u32 o, u32 v) {
u64 a = 0ull;
u64 n = 0ull;
a = ((u64) b + (u64) o);
n = w2c_mem_len(m);
if ((a + 4ull) > n) goto T;
w2c_put4(m, a, v);
return;
T: w2c_trap(2u);
}
static u32 f1(void) {
u32 i0 = 0u;
u32 i1 = 0u;
if (w2c_depth < 1024u) goto L0;
w2c_trap(8u);
return i0;
L0: w2c_depth = (w2c_depth + 1u);
i0 = 0u;
i1 = (* pg0);
i32_store(pm0, i0, 0u, i1);
i0 = w2cZ_aZ_fZ_inc();
i1 = 0u;
i1 = i32_load(pm0, i1, 0u);
i0 = (i0 + i1);
w2c_depth = (w2c_depth - 1u);
return i0;
}
u32 w2cZ_bZ_fZ_run(void) {
u32 r = 0u;
r = f1();
return r;
}
u32 w2cZ_bZ_fZ_again(void) {
u32 r = 0u;
r = w2cZ_aZ_fZ_inc();
return r;
}
void w2cZ_bZ_i(void) {
u64 n = 0ull;
;
pm0 = w2cZ_aZ_mZ_mem();
n = w2c_mem_len(pm0);
if ((n / 65536ull) < 1ull) goto L0;
pg0 = w2cZ_aZ_vZ_g();
return;
L0: w2c_trap(9u);
}
";

// Its second segment is past the end of its memory.
pub const SEGMENTS_C: &str = "#include \"w2c_rt.h\"
static w2c_mem m0;
void w2cZ_sZ_i(void) {
u64 n = 0ull;
w2c_mem_new(& m0, 1u, 4294967296ull);
n = w2c_mem_len(& m0);
if ((0ull + 1ull) > n) goto L0;
if ((65536ull + 1ull) > n) goto L0;
w2c_put1(& m0, 0ull, 65u);
w2c_put1(& m0, 65536ull, 0u);
return;
L0: w2c_trap(10u);
}
";

// Divides, by 0 too.
pub const DIVISION_C: &str = "#include \"w2c_rt.h\"
u32 w2cZ_uZ_fZ_q(u32 x, u32 y) {
u32 z = 0u;
z = (x / y);
return z;
}
";

// The same with a function that nothing needs.
pub const SPARE_C: &str = "#include \"w2c_rt.h\"
static u32 h(u32 a) { return a; }
u32 w2cZ_uZ_fZ_q(u32 x, u32 y) {
u32 z = 0u;
z = (x / y);
return z;
}
";

// The first of these merged alone.
pub const MERGED_C: &str = "#include \"w2c_rt.h\"
u32 w2cZ_uZ_fZ_q(u32 u0_x, u32 u0_y) {
u32 u0_z = 0u;
u0_z = (u0_x / u0_y);
return u0_z;
}
";

// As wasm2c writes it, of a module that asks the host `env` twice.
pub const ASKS_C: &str = "#include \"w2c_rt.h\"
u64 w2cZ_envZ_fZ_tick(void);
static u64 f1(void);
static u64 f1(void) {
u64 j0 = 0ull;
u64 j1 = 0ull;
if (w2c_depth < 1024u) goto L0;
w2c_trap(8u);
return j0;
L0: w2c_depth = (w2c_depth + 1u);
j0 = w2cZ_envZ_fZ_tick();
j1 = w2cZ_envZ_fZ_tick();
j0 = (j0 + j1);
w2c_depth = (w2c_depth - 1u);
return j0;
}
u64 w2cZ_hZ_fZ_r(void) {
u64 r = 0ull;
r = f1();
return r;
}
void w2cZ_hZ_i(void) {
;
return;
}
";

// With a segment, a table that holds a function of its own and one of the host, a global and a memory.
pub const KEPT_C: &str = "#include \"w2c_rt.h\"
static w2c_tab t0;
static w2c_mem m0;
static u32 g0;
static const u8 d0[2] = {
104, 105};
u64 w2cZ_envZ_fZ_tick(void);
static u64 f1(u32);
static u64 i64_load(w2c_mem * m, u32 b, u32 o) {
u64 a = 0ull;
u64 n = 0ull;
u64 v = 0ull;
a = ((u64) b + (u64) o);
n = w2c_mem_len(m);
if ((a + 8ull) > n) goto T;
v = w2c_get8(m, a);
return (u64) v;
T: w2c_trap(2u);
return 0ull;
}
static void i64_store(w2c_mem * m, u32 b, u32 o, u64 v) {
u64 a = 0ull;
u64 n = 0ull;
a = ((u64) b + (u64) o);
n = w2c_mem_len(m);
if ((a + 8ull) > n) goto T;
w2c_put8(m, a, v);
return;
T: w2c_trap(2u);
}
static u64 f1(u32 l0) {
u32 i0 = 0u;
u32 i1 = 0u;
u64 j0 = 0ull;
u64 j1 = 0ull;
if (w2c_depth < 1024u) goto L0;
w2c_trap(8u);
return j0;
L0: w2c_depth = (w2c_depth + 1u);
i0 = g0;
i1 = l0;
i0 = (i0 + i1);
g0 = i0;
i0 = 20u;
j1 = w2cZ_envZ_fZ_tick();
i64_store(& m0, i0, 0u, j1);
i0 = 20u;
j0 = i64_load(& m0, i0, 0u);
w2c_depth = (w2c_depth - 1u);
return j0;
}
u64 w2cZ_keptZ_fZ_f(u32 a0) {
u64 r = 0ull;
r = f1(a0);
return r;
}
void w2cZ_keptZ_i(void) {
u64 n = 0ull;
u64 k = 0ull;
;
w2c_tab_new(& t0, 3u, 4294967296ull);
w2c_mem_new(& m0, 1u, 2ull);
g0 = 7u;
n = w2c_tab_len(& t0);
if (((u64) 1u + 2ull) > n) goto L1;
n = w2c_mem_len(& m0);
if (((u64) 3u + 2ull) > n) goto L1;
w2c_tab_set(& t0, ((u64) 1u + 0ull), (w2c_fn) f1, 8ull);
w2c_tab_set(& t0, ((u64) 1u + 1ull), (w2c_fn) w2cZ_envZ_fZ_tick, 5ull);
k = 0ull;
L2: w2c_put1(& m0, ((u64) 3u + k), (u32) d0[k]);
k = (k + 1ull);
if (k < 2ull) goto L2;
return;
L1: w2c_trap(10u);
}
";

// The journal of a run of the unit that asks twice.
pub const JOURNAL: &str = "module env
function put_i32 i32 = none
function put_i64 i64 = none
function tick = i64
host env tick = i64:1
host env tick = i64:2
";
