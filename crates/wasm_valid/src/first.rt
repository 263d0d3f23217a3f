// The first of faults that are entered one by one.
ghost use Rattle.std.specs.Prelude.{◌≡◌, [], ◌∷◌, None};
ghost use Rattle.wasm_typing.specs.ModuleFaults.{fault_if};
ghost use Rattle.wasm_valid.specs.Entered.{entered};

use wasm_typing::{Fault, ValidCause};

/// The fault with the least place; of several there the one that was entered first.
#[derive(Clone, Copy)]
pub(crate) struct FirstFault {
    found: Option<Fault>,
}

impl FirstFault {
    /// No fault.
    pub(crate) fn new() -> FirstFault
        ensures { result.found ≡ None }
    {
        FirstFault { found: None }
    }

    /// One more fault.
    pub(crate) fn enter(&mut self, place: u32, cause: ValidCause)
        ensures { self.new.found ≡ entered self.old.found (record { place = place; cause = cause } ∷ []) }
    {
        let is_first = match self.found {
            None => true,
            Some(fault) => place < fault.place,
        };
        if is_first {
            self.found = Some(Fault { place, cause });
        }
    }

    /// One more fault where a test holds.
    pub(crate) fn enter_if(&mut self, test: bool, place: u32, cause: ValidCause)
        ensures { self.new.found ≡ entered self.old.found (fault_if test place cause) }
    {
        if test {
            self.enter(place, cause);
        }
    }

    /// The first fault, if there is one.
    pub(crate) fn found(&self) -> Option<Fault>
        ensures { result ≡ self.now.found }
    {
        self.found
    }
}
