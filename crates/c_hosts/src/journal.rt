// What hosts were asked and replied.
ghost use Rattle.std.specs.Prelude.{◌≡◌, ◌<◌, ◌∷◌, ◌++◌, [], length, slice_index_or, OnErr, OnOk, List};
ghost use Rattle.c_meaning.specs.declared.reply.HostReply.TheVariants as reply;
ghost use Rattle.c_hosts.specs.declared.journal.Asked.{Asked};
ghost use Rattle.c_hosts.specs.Journals.{asked, with_reply};

use c_meaning::HostReply;
use c_thread::HostCall;
use std::alloc::Global;
use std::marker::Model;
use w2c_base::{Memory, Value, Values};

/// A call of a host's function, both by number from 0, that was answered.
#[derive(Drop)]
pub struct Asked {
    pub host: usize,
    pub function: usize,
    pub args: Values,
    pub reply: HostReply,
}

/// What hosts were asked and replied, in order.
#[derive(Drop)]
pub struct Journal {
    asks: Vec<Asked>,
}

impl Model for Journal {
    ghost use Rattle.std.specs.Prelude.{List};
    ghost use Rattle.c_hosts.specs.declared.journal.Asked.{Asked};

    ghost Value = { List Asked };

    ghost view = { λ journal. journal.asks.items };
}

impl Journal {
    /// Nothing was asked.
    pub fn new(alloc: Global) -> Journal
        ensures { result ≡ [] }
    {
        Journal {
            asks: Vec::new(alloc),
        }
    }

    /// Adds an ask behind the others. Memory leaves it unchanged.
    pub fn push(&mut self, ask: Asked) -> Result<(), Memory>
        ensures ok { OnOk result (self.new ≡ self.old ++ ask ∷ []) }
        ensures err { OnErr result (self.new ≡ self.old) }
    {
        self.asks.push(ask)?;
        Ok(())
    }

    /// The number of asks.
    pub fn len(&self) -> usize
        ensures { result ≡ length self.now }
    {
        self.asks.len()
    }

    /// The ask at a place, counted from 0.
    pub fn at(&self, i: usize) -> &Asked
        requires { i < length self.now }
        ensures { result.now ≡ slice_index_or self.now i result.now }
    {
        &self.asks[i]
    }

    /// The asks, to read.
    pub fn as_slice(&self) -> &[Asked]
        ensures { result.now ≡ self.now }
    {
        self.asks.as_slice()
    }

    // Takes the room for an ask, before the host is called: it stands at the end, and its reply is to come.
    pub(crate) fn open(&mut self, call: HostCall) -> Result<(), Memory>
        ensures ok { OnOk result (self.new ≡ self.old ++ asked call reply.Trap ∷ []) }
        ensures err { OnErr result (self.new ≡ self.old) }
    {
        self.asks.push(Asked {
            host: call.host,
            function: call.function,
            args: Values::from_vec(call.args),
            reply: HostReply::Trap,
        })?;
        Ok(())
    }

    // The arguments of the last ask.
    pub(crate) fn last_args(&self) -> &[Value]
        requires { 0 < length self.now }
        ensures { (front : List Asked) (a : Asked) → self.now ≡ front ++ a ∷ [] → result.now ≡ a.args }
    {
        self.asks[self.len() - 1].args.as_slice()
    }

    // The reply to the last ask.
    pub(crate) fn put_reply(&mut self, reply: HostReply)
        requires { 0 < length self.old }
        ensures { (front : List Asked) (a : Asked) → self.old ≡ front ++ a ∷ [] → self.new ≡ front ++ with_reply reply a ∷ [] }
    {
        let last = self.len() - 1;
        self.asks[last].reply = reply;
    }
}
