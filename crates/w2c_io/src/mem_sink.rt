// A sink in memory. Chosen puts fail.
ghost use Rattle.std.specs.Prelude.{◌≡◌, ◌++◌, ◌/◌, ℕ, List, [], IsTrue, Some, OnOk, OnErr, IsErrOf, length, take};
ghost use Rattle.w2c_io.specs.Contents.{extended, IsPrefix};
ghost use Rattle.w2c_io.specs.Causes.{WriteCause, count_after_write};
ghost use Rattle.w2c_io.specs.declared.answers.WriteAnswer.TheVariants as writing;

use crate::plan::FaultPlan;
use crate::writing::first_half;
use crate::{Sink, WriteAnswer};
use std::alloc::Global;
use w2c_base::Memory;

/// A sink in memory. A put that is to fail appends the first half of its piece, rounded down.
#[derive(Drop)]
pub struct MemSink {
    bytes: Vec<u8>,
    puts: FaultPlan,
    faults: u64,
}

impl MemSink {
    ghost use Rattle.w2c_io.specs.InMemory.{mem_bytes, mem_faults, plan_of_puts, PlansOne};

    /// Nothing was put, and no put is to fail.
    pub fn new(alloc: Global) -> Self
        ensures bytes { mem_bytes result ≡ [] }
        ensures calls { (plan_of_puts result).calls ≡ 0 }
        ensures planned { (plan_of_puts result).planned.items ≡ [] }
        ensures faults { mem_faults result ≡ 0 }
    {
        MemSink {
            bytes: Vec::new(alloc),
            puts: FaultPlan::new(alloc),
            faults: 0,
        }
    }

    /// All that was put.
    pub fn bytes(&self) -> &[u8]
        ensures { result.now ≡ mem_bytes self.now }
    {
        self.bytes.as_slice()
    }

    /// The nth put fails, counted from 1.
    pub fn fail(&mut self, nth: u64) -> Result<(), Memory>
        ensures bytes { mem_bytes self.new ≡ mem_bytes self.old }
        ensures faults { mem_faults self.new ≡ mem_faults self.old }
        ensures ok { OnOk result (PlansOne (plan_of_puts self.old) (plan_of_puts self.new) nth) }
        ensures err_calls { OnErr result ((plan_of_puts self.new).calls ≡ (plan_of_puts self.old).calls) }
        ensures err_planned { OnErr result ((plan_of_puts self.new).planned.items ≡ (plan_of_puts self.old).planned.items) }
    {
        self.puts.plan(nth)?;
        Ok(())
    }
}

impl Sink for MemSink {
    ghost use Rattle.w2c_io.specs.InMemory.{mem_bytes, mem_faults, plan_of_puts};
    ghost use Rattle.w2c_io.specs.Planned.{is_planned, CountsOne};

    ghost told = { λ s. Some (mem_bytes s) };

    ghost faults = { mem_faults };

    fn put(&mut self, piece: &[u8]) -> Result<(), WriteAnswer>
        ensures written { OnOk result (Some (mem_bytes self.new) ≡ extended (Some (mem_bytes self.old)) piece.now) }
        ensures part { OnErr result ((part : List ℕ) × IsPrefix part piece.now
            × (Some (mem_bytes self.new) ≡ extended (Some (mem_bytes self.old)) part)) }
        ensures cause { WriteCause (mem_faults self.old) (mem_faults self.new) result }

        // Exactly the planned puts fail, append the first half, and each is counted.
        ensures only_planned { IsErrOf result writing.Failed → IsTrue (is_planned (plan_of_puts self.old)) }
        ensures all_planned { IsTrue (is_planned (plan_of_puts self.old)) → OnOk result ⊥ }
        ensures counted { CountsOne (plan_of_puts self.old) (plan_of_puts self.new) }
        ensures faults { mem_faults self.new ≡ count_after_write result (mem_faults self.old) }
        ensures half { IsErrOf result writing.Failed → mem_bytes self.new ≡ mem_bytes self.old ++ take (length piece.now / 2) piece.now }
    {
        if self.puts.call() {
            self.bytes.extend_from_slice(first_half(piece))?;
            self.faults = self.faults.saturating_add(1);
            return Err(WriteAnswer::Failed);
        }
        self.bytes.extend_from_slice(piece)?;
        Ok(())
    }
}
