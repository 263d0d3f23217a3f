// The function that is called by its symbol.
ghost use Rattle.std.specs.Prelude.{◌≡◌, List, IfSome, IsSome, option_map, true};
ghost use Rattle.w2c_base.specs.declared.value.Value.{Value};
ghost use Rattle.w2c_base.specs.Lookup.{if_found};
ghost use Rattle.c_meaning.specs.Linking.{Program, called_func, fits};
ghost use Rattle.c_objects.specs.Views.{Naming};
ghost use Rattle.c_thread.specs.Sights.{symbol_in};
ghost use Rattle.crun_startup.specs.Called.{AreSymbols, IsSeenAt, unit_item};
ghost use Rattle.crun_startup.specs.Inits.{address_in};

use c_objects::FuncId;
use c_thread::Symbols;

/// The function of a symbol that a unit defines for all units, by the numbers of its unit and of
/// its item there. None exactly where no unit defines one, as where the symbol is a host's. It
/// takes one question to the table, whatever the number of units.
pub fn called_function(symbols: &Symbols, symbol: &[u8]) -> Option<(usize, usize)>
    ensures found { result ≡ if_found (symbol_in symbols.now symbol.now) unit_item }
    ensures meaning { (names : Naming) (p : Program) (args : List Value) → AreSymbols names p symbols.now
        → option_map (address_in names) result ≡ called_func p (record { symbol = symbol.now; args = args }) }
    ensures defined { IfSome result (λ f. (names : Naming) (p : Program) → AreSymbols names p symbols.now
        → IsSeenAt p symbol.now f) }
    ensures fits { (names : Naming) (p : Program) (args : List Value) → AreSymbols names p symbols.now
        → fits p (record { symbol = symbol.now; args = args }) ≡ true → IsSome result }
{
    seen_item(symbols, symbol)
}

fn seen_item(symbols: &Symbols, symbol: &[u8]) -> Option<(usize, usize)>
    ensures { result ≡ if_found (symbol_in symbols.now symbol.now) unit_item }
{
    match symbols.find(symbol) {
        Some(func) => item_of_unit(func),
        None => None,
    }
}

fn item_of_unit(func: FuncId) -> Option<(usize, usize)>
    ensures { result ≡ unit_item func }
{
    match func {
        FuncId::Unit(unit, item) => Some((unit, item)),
        FuncId::Host(_, _) => None,
    }
}
