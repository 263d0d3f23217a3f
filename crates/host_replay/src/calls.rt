// The calls of one module of a journal.
ghost use Rattle.std.specs.Prelude.{◌≡◌, ◌∷◌, ◌++◌, [], IfOk, OnOk};
ghost use Rattle.host_replay.specs.Replaying.{calls_of};

use crate::entry::copy;
use c_hosts::Asked;
use std::alloc::Global;
use w2c_base::Memory;

/// The calls of the module with a number, in order.
pub(crate) fn calls_of(alloc: Global, k: usize, entries: &[Asked]) -> Result<Vec<Asked>, Memory>
    ensures { IfOk result (λ calls. calls.items ≡ calls_of k entries.now) }
{
    let mut calls = Vec::new(alloc);
    for entry in entries {
        put_call(alloc, &mut calls, k, entry)?;
    }
    Ok(calls)
}

// Puts a call at the end, where it is of the module.
fn put_call(alloc: Global, calls: &mut Vec<Asked>, k: usize, entry: &Asked) -> Result<(), Memory>
    ensures { OnOk result (calls.new.items ≡ calls.old.items ++ calls_of k (entry.now ∷ [])) }
{
    if entry.host == k {
        calls.push(copy(alloc, entry)?)?;
    }
    Ok(())
}
