// Whole texts.
ghost use Rattle.std.specs.Prelude.{◌≡◌, ◌≢◌, ◌<◌, ◌≤◌, List, length, IfOk, IfErr, IsErrOf, MatchResult};
ghost use Rattle.c_tree.specs.Tree as tree;
ghost use Rattle.c_tree.specs.Spelled.{CSpells, CUpto};
ghost use Rattle.c_tree.specs.View.{unit_of};
ghost use Rattle.c_lex.specs.Reading.{Reads};
ghost use Rattle.c_read.specs.Items as spec;

use crate::item::item;
use c_lex::Cursor;
use c_tree::{CReadFault, Kind, Tok, UNIT_BYTES, Unit};
use std::alloc::Global;

fn not_end(kind: Kind) -> bool
    ensures { result ≡ spec.not_end kind }
{
    !matches!(kind, Kind::Fixed(Tok::End))
}

/// Items up to the end.
fn items(alloc: Global, cursor: &mut Cursor<'_>) -> Result<Unit, CReadFault>
    ensures reads { Reads unit_of (spec.items cursor.old) result cursor.new }
    ensures kept { length cursor.new ≤ length cursor.old }
{
    let mut unit = Unit::new(alloc);
    'more: while not_end(cursor.peek()) {
        let item = item(alloc, cursor)?;
        unit.push(item)?;
    }
    Ok(unit)
}

/// The include line and the items.
#[tactic(auto, unfolding(crate::specs::Items::unit))]
fn unit(alloc: Global, cursor: &mut Cursor<'_>) -> Result<Unit, CReadFault>
    ensures reads { Reads unit_of (spec.unit cursor.old) result cursor.new }
{
    cursor.expect(Tok::Include)?;
    items(alloc, cursor)
}

/// The unit that a text spells. UnitTooLong exactly where the text has more than 67,108,864 bytes;
/// else a unit exactly where the text spells one, and then that unit, or want of memory; else the
/// fault of the first faulty token, or want of memory.
pub fn read_unit(alloc: Global, bytes: &[u8]) -> Result<Unit, CReadFault>
    ensures too_long { UNIT_BYTES < length bytes.now → result ≡ Err CReadFault.UnitTooLong }
    ensures only_long { IsErrOf result CReadFault.UnitTooLong → UNIT_BYTES < length bytes.now }
    ensures spelled { IfOk result (λ unit. CSpells (unit_of unit) bytes.now) }
    ensures complete { (u : List tree.Item) → CSpells u bytes.now → length bytes.now ≤ UNIT_BYTES
        → MatchResult result (λ unit. unit_of unit ≡ u) (λ fault. fault ≡ CReadFault.Memory) }
    ensures fault { length bytes.now ≤ UNIT_BYTES
        → IfErr result (λ fault. fault ≢ CReadFault.Memory → CUpto bytes.now fault) }
{
    if bytes.len() > UNIT_BYTES {
        return Err(CReadFault::UnitTooLong);
    }
    let mut cursor = Cursor::new(bytes);
    unit(alloc, &mut cursor)
}
