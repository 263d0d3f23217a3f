// What hosts reply.
use w2c_base::Value;

/// A host's answer to a call: a value of the function's result type, none where it has none, or a
/// trap, which ends the run with kind 11.
#[derive(Clone, Copy, Debug, PartialEq, Eq)]
pub enum HostReply {
    Value(Option<Value>),
    Trap,
}
