// The host `env`.
ghost use Rattle.std.specs.Prelude.{◌≡◌, ◌∷◌, [], None, IfOk};
ghost use Rattle.env_host.specs.EnvHost.{tick as tick_of};

use c_hosts::{HostFunction, HostModule, HostReply};
use std::alloc::Global;
use std::marker::Model;
use w2c_base::{Bytes, FuncType, Memory, Types, ValType, Value};

/// The host `env` with the functions `put_i32: [i32] -> []`, `put_i64: [i64] -> []` and `tick: [] -> i64`. Contracts see how
/// often `tick` was called, modulo 2^64.
#[derive(Drop)]
pub struct Env {
    name: Bytes,
    put_i32: HostFunction,
    put_i64: HostFunction,
    tick: HostFunction,
    ticks: u64,
}

impl Model for Env {
    ghost use Rattle.std.specs.Prelude.{◌≡◌, ◌<◌, ◌^◌, ℕ};
    ghost use Rattle.env_host.specs.EnvHost.{env_name, put_i32 as put_i32_of, put_i64 as put_i64_of, tick as tick_of};

    ghost Value = { ℕ };

    ghost view = { λ env. env.ticks };

    ghost invariant = { λ env. (env.name ≡ env_name) × (env.put_i32 ≡ put_i32_of) × (env.put_i64 ≡ put_i64_of) × (env.tick ≡ tick_of)
        × (env.ticks < 2 ^ 64) };
}

impl Env {
    /// The host before its first call.
    pub fn new(alloc: Global) -> Result<Env, Memory>
        ensures { IfOk result (λ env. env ≡ 0) }
    {
        Ok(Env {
            name: bytes_of(alloc, b"env")?,
            put_i32: put_function(alloc, b"put_i32", ValType::I32)?,
            put_i64: put_function(alloc, b"put_i64", ValType::I64)?,
            tick: tick_function(alloc)?,
            ticks: 0,
        })
    }
}

impl HostModule for Env {
    ghost use Rattle.std.specs.Prelude.{◌∷◌, []};
    ghost use Rattle.env_host.specs.EnvHost.{env_functions, env_name, MayAnswer};

    ghost name_of = { λ env. env_name };

    ghost functions_of = { λ env. env_functions };

    ghost state = { λ env. env ∷ [] };

    ghost may = { λ env before function args reply after. MayAnswer before function args reply after };

    fn name(&self) -> &[u8] {
        self.name.as_slice()
    }

    fn count(&self) -> usize {
        3
    }

    fn function(&self, i: usize) -> &HostFunction {
        match i {
            0 => &self.put_i32,
            1 => &self.put_i64,
            _ => &self.tick,
        }
    }

    fn call(&mut self, i: usize, _args: &[Value]) -> HostReply {
        if i < 2 {
            return HostReply::Value(None);
        }
        self.ticks = self.ticks.wrapping_add(1);
        HostReply::Value(Some(Value::I64(self.ticks)))
    }
}

// A function that takes a value and gives none.
fn put_function(alloc: Global, name: &[u8], ty: ValType) -> Result<HostFunction, Memory>
    ensures { IfOk result (λ f. f ≡ record { name = name.now; ty = record { params = ty ∷ []; result = None } }) }
{
    let mut params = Types::new(alloc);
    params.push(ty)?;
    Ok(HostFunction {
        name: bytes_of(alloc, name)?,
        ty: FuncType {
            params,
            result: None,
        },
    })
}

fn tick_function(alloc: Global) -> Result<HostFunction, Memory>
    ensures { IfOk result (λ f. f ≡ tick_of) }
{
    Ok(HostFunction {
        name: bytes_of(alloc, b"tick")?,
        ty: FuncType {
            params: Types::new(alloc),
            result: Some(ValType::I64),
        },
    })
}

fn bytes_of(alloc: Global, text: &[u8]) -> Result<Bytes, Memory>
    ensures { IfOk result (λ bytes. bytes ≡ text.now) }
{
    let mut bytes = Bytes::new(alloc);
    bytes.extend(text)?;
    Ok(bytes)
}
