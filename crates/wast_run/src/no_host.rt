// The host of runs without hosts.
ghost use Rattle.std.specs.Prelude.{◌≡◌};

use c_hosts::{HostFunction, HostModule, HostReply};
use w2c_base::{Bytes, Value};

/// A host whose functions trap. None is made: it is the type of the hosts of a session that has none.
#[derive(Drop)]
pub(crate) struct NoHost {
    name: Bytes,
    functions: Vec<HostFunction>,
}

impl HostModule for NoHost {
    ghost use Rattle.std.specs.Prelude.{◌≡◌, []};
    ghost use Rattle.c_meaning.specs.declared.reply.HostReply.TheVariants.{Trap};

    ghost name_of = { λ h. h.name };

    ghost functions_of = { λ h. h.functions.items };

    ghost state = { λ h. [] };

    ghost may = { λ h before i args reply after. (reply ≡ Trap) × (after ≡ before) };

    fn name(&self) -> &[u8] {
        self.name.as_slice()
    }

    fn count(&self) -> usize {
        self.functions.len()
    }

    fn function(&self, i: usize) -> &HostFunction {
        &self.functions[i]
    }

    fn call(&mut self, _i: usize, _args: &[Value]) -> HostReply {
        HostReply::Trap
    }
}
