// Which slots of a height have occurred.
ghost use Rattle.std.specs.Prelude.{◌≡◌};
ghost use Rattle.body_emitter.specs.Marks.{has_mark, no_mark, with_mark};

use w2c_base::ValType;

/// Whether an operand of each type has stood at a height.
#[derive(Clone, Copy)]
pub struct Mark {
    pub(crate) narrow: bool,
    pub(crate) wide: bool,
}

impl Mark {
    pub(crate) fn none() -> Mark
        ensures { result ≡ no_mark }
    {
        Mark {
            narrow: false,
            wide: false,
        }
    }

    pub(crate) fn with(self, ty: ValType) -> Mark
        ensures { result ≡ with_mark ty self }
    {
        match ty {
            ValType::I32 => Mark {
                narrow: true,
                wide: self.wide,
            },
            ValType::I64 => Mark {
                narrow: self.narrow,
                wide: true,
            },
        }
    }

    pub(crate) fn has(self, ty: ValType) -> bool
        ensures { result ≡ has_mark ty self }
    {
        match ty {
            ValType::I32 => self.narrow,
            ValType::I64 => self.wide,
        }
    }
}
