// Which calls of one kind fail.
ghost use Rattle.std.specs.Prelude.{◌≡◌, ◌==◌, ◌+◌, ◌-◌, ◌^◌, ◌++◌, ◌∷◌, [], min, OnOk, OnErr};
ghost use Rattle.std.specs.List.{list_any};

use std::alloc::{AllocError, Global};

/// The calls that were made, and the numbers of those that are planned to fail.
#[derive(Drop)]
pub struct FaultPlan {
    pub calls: u64,
    pub planned: Vec<u64>,
}

impl FaultPlan {
    /// No call was made, and none is planned to fail.
    pub fn new(alloc: Global) -> Self
        ensures calls { result.calls ≡ 0 }
        ensures planned { result.planned.items ≡ [] }
    {
        FaultPlan {
            calls: 0,
            planned: Vec::new(alloc),
        }
    }

    /// Plans the nth call to fail, counted from 1.
    pub fn plan(&mut self, nth: u64) -> Result<(), AllocError>
        ensures calls { self.new.calls ≡ self.old.calls }
        ensures ok { OnOk result (self.new.planned.items ≡ self.old.planned.items ++ nth ∷ []) }
        ensures err { OnErr result (self.new.planned.items ≡ self.old.planned.items) }
    {
        self.planned.push(nth)?;
        Ok(())
    }

    /// Counts a call, and says whether it is to fail.
    pub fn call(&mut self) -> bool
        ensures calls { self.new.calls ≡ min (self.old.calls + 1) (2 ^ 64 - 1) }
        ensures planned { self.new.planned.items ≡ self.old.planned.items }
        ensures fails { result ≡ list_any (λ nth. nth == self.new.calls) self.old.planned.items }
    {
        self.calls = self.calls.saturating_add(1);
        let calls = self.calls;
        self.planned.iter().any(|nth| *nth == calls)
    }
}
