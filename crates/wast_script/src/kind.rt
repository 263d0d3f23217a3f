// Which command an object is, and for which cause a call is to trap, by their texts.
ghost use Rattle.std.specs.Prelude.{◌≡◌};
ghost use Rattle.std.specs.List.{find};
ghost use Rattle.std.specs.Str.{bytes_eq};
ghost use Rattle.w2c_base.specs.Trap.{text_of};
ghost use Rattle.wast_script.specs.Forms.{cause_named, kind_named, kind_text};

use w2c_base::TrapKind;

/// A kind of command.
#[derive(Clone, Copy)]
pub(crate) enum Kind {
    Module,
    Call,
    AssertReturn,
    AssertTrap,
    AssertInvalid,
    AssertMalformed,
}

const KINDS: [Kind; 6] = [
    Kind::Module,
    Kind::Call,
    Kind::AssertReturn,
    Kind::AssertTrap,
    Kind::AssertInvalid,
    Kind::AssertMalformed,
];

impl Kind {
    /// Its text, as the member `type` has it.
    pub fn text(&self) -> &'static str
        ensures { result.now ≡ kind_text self.now }
    {
        match self {
            Kind::Module => "module",
            Kind::Call => "call",
            Kind::AssertReturn => "assert_return",
            Kind::AssertTrap => "assert_trap",
            Kind::AssertInvalid => "assert_invalid",
            Kind::AssertMalformed => "assert_malformed",
        }
    }

    /// The kind that a text names.
    pub fn named(text: &str) -> Option<Kind>
        ensures { result ≡ kind_named text.now }
    {
        kind_among(&KINDS, text)
    }
}

fn kind_among(kinds: &[Kind], text: &str) -> Option<Kind>
    ensures { result ≡ find (λ kind. bytes_eq (kind_text kind) text.now) kinds.now }
{
    for kind in kinds {
        if kind.text() == text {
            return Some(*kind);
        }
    }
    None
}

const CAUSES: [TrapKind; 11] = [
    TrapKind::Unreachable,
    TrapKind::MemoryOut,
    TrapKind::DivByZero,
    TrapKind::IntOverflow,
    TrapKind::TableOut,
    TrapKind::Empty,
    TrapKind::Signature,
    TrapKind::Exhaustion,
    TrapKind::ImportLimits,
    TrapKind::SegmentOut,
    TrapKind::HostTrap,
];

/// The cause of traps that a text names.
pub(crate) fn cause_named(text: &str) -> Option<TrapKind>
    ensures { result ≡ cause_named text.now }
{
    cause_among(&CAUSES, text)
}

fn cause_among(causes: &[TrapKind], text: &str) -> Option<TrapKind>
    ensures { result ≡ find (λ cause. bytes_eq (text_of cause) text.now) causes.now }
{
    for cause in causes {
        if cause.text() == text {
            return Some(*cause);
        }
    }
    None
}
