// Host modules, which units call.
ghost use Rattle.std.specs.Prelude.{◌≡◌, ◌↔◌, ◌<◌, ℕ, List, IfSome, length, slice_get, Some};
ghost use Rattle.w2c_base.specs.declared.value.Value.{Value as AnyValue};

use c_meaning::HostReply;
use std::boxed::Box;
use w2c_base::{Bytes, FuncType, Value};

/// A function that a host offers.
#[derive(Drop)]
pub struct HostFunction {
    pub name: Bytes,
    pub ty: FuncType,
}

/// A host module. Its name, its functions and what its calls may do never change.
pub trait HostModule: Drop {
    ghost use Rattle.c_hosts.specs.declared.host.HostFunction.{HostFunction};
    ghost use Rattle.c_meaning.specs.declared.reply.HostReply.{HostReply};
    ghost use Rattle.c_hosts.specs.Hosts.{IsReply, TakesArgs};

    /// The name.
    ghost name_of: { Self → List ℕ };

    /// The functions, in order.
    ghost functions_of: { Self → List HostFunction };

    /// The state, as numbers.
    ghost state: { Self → List ℕ };

    /// What a call may answer: the state before it, the function's number, the arguments, the
    /// reply, and the state after it.
    ghost may: { Self → List ℕ → ℕ → List AnyValue → HostReply → List ℕ → Type 0 };

    /// The host's name, as a module's.
    fn name(&self) -> &[u8]
        ensures { result.now ≡ name_of self.now };

    /// The number of functions.
    fn count(&self) -> usize
        ensures { result ≡ length (functions_of self.now) };

    /// The function with a number, counted from 0.
    fn function(&self, i: usize) -> &HostFunction
        requires { i < length (functions_of self.now) }
        ensures { slice_get (functions_of self.now) i ≡ Some result.now };

    /// Calls the function with a number.
    fn call(&mut self, i: usize, args: &[Value]) -> HostReply
        requires number { i < length (functions_of self.old) }
        requires args { IfSome (slice_get (functions_of self.old) i) (λ f. TakesArgs f args.now) }
        ensures answers { may self.old (state self.old) i args.now result (state self.new) }
        ensures value { IfSome (slice_get (functions_of self.old) i) (λ f. IsReply f result) }
        ensures name { name_of self.new ≡ name_of self.old }
        ensures functions { functions_of self.new ≡ functions_of self.old }
        ensures may { (before : List ℕ) (k : ℕ) (args : List AnyValue) (reply : HostReply) (after : List ℕ)
            → may self.new before k args reply after ↔ may self.old before k args reply after };
}

/// A host in a box, which is a host as well.
#[derive(Drop)]
pub struct BoxedHost {
    pub host: Box<dyn HostModule>,
}

impl HostModule for BoxedHost {
    ghost name_of = { λ s. (HostModule-box s.host).name_of s.host.value };

    ghost functions_of = { λ s. (HostModule-box s.host).functions_of s.host.value };

    ghost state = { λ s. (HostModule-box s.host).state s.host.value };

    ghost may = { λ s. (HostModule-box s.host).may s.host.value };

    fn name(&self) -> &[u8] {
        self.host.name()
    }

    fn count(&self) -> usize {
        self.host.count()
    }

    fn function(&self, i: usize) -> &HostFunction {
        self.host.function(i)
    }

    fn call(&mut self, i: usize, args: &[Value]) -> HostReply {
        self.host.call(i, args)
    }
}
