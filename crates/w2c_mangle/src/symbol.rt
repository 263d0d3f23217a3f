// Symbols: the C identifiers of a module's exports and of its init function.
ghost use Rattle.std.specs.Prelude.{◌≡◌, ◌≢◌, ℕ, ◌<◌, List, All, IfOk};
ghost use Rattle.w2c_mangle.specs.declared.symbol.SymbolKind.{SymbolKind};
ghost use Rattle.w2c_mangle.specs.Symbols.{kind_letter, export_symbol_of, init_symbol_of, IsSymbol};

use crate::escaping::put_escaped;
use std::alloc::Global;
use w2c_base::{Bytes, Memory};

/// What an export is.
#[derive(Clone, Copy, Debug, PartialEq, Eq)]
pub enum SymbolKind {
    Func,
    Table,
    Memory,
    /// An immutable global.
    Const,
    /// A mutable global.
    Var,
}

impl SymbolKind {
    fn letter(self) -> u8
        ensures { result ≡ kind_letter self }
    {
        match self {
            SymbolKind::Func => b'f',
            SymbolKind::Table => b't',
            SymbolKind::Memory => b'm',
            SymbolKind::Const => b'c',
            SymbolKind::Var => b'v',
        }
    }
}

/// The symbol of a module's export. Distinct arguments have distinct symbols.
pub fn export_symbol(
    alloc: Global,
    module: &[u8],
    kind: SymbolKind,
    name: &[u8],
) -> Result<Bytes, Memory>
    ensures { IfOk result (λ symbol. symbol ≡ export_symbol_of «module».now kind name.now) }
{
    let mut symbol = Bytes::new(alloc);
    symbol.extend(b"w2cZ_")?;
    put_escaped(&mut symbol, module)?;
    symbol.extend(b"Z_")?;
    symbol.push(kind.letter())?;
    symbol.extend(b"Z_")?;
    put_escaped(&mut symbol, name)?;
    Ok(symbol)
}

/// The symbol of a module's init function.
pub fn init_symbol(alloc: Global, module: &[u8]) -> Result<Bytes, Memory>
    ensures { IfOk result (λ symbol. symbol ≡ init_symbol_of «module».now) }
{
    let mut symbol = Bytes::new(alloc);
    symbol.extend(b"w2cZ_")?;
    put_escaped(&mut symbol, module)?;
    symbol.extend(b"Z_i")?;
    Ok(symbol)
}

/// The law that export symbols are equal only where module, kind and name are.
pub fn equal_export_symbols_have_equal_parts()
    ensures { (m n : List ℕ) (j k : SymbolKind) (x y : List ℕ) → All (λ b. b < 256) m → All (λ b. b < 256) n
        → export_symbol_of m j x ≡ export_symbol_of n k y → (m ≡ n) × (j ≡ k) × (x ≡ y) }
{}

/// The law that the symbols of two init functions are equal only where the modules are.
pub fn equal_init_symbols_have_equal_modules()
    ensures { (m n : List ℕ) → All (λ b. b < 256) m → All (λ b. b < 256) n
        → init_symbol_of m ≡ init_symbol_of n → m ≡ n }
{}

/// The law that no export, of the same module or another, has the symbol of an init function.
pub fn init_symbols_are_no_export_symbols()
    ensures { (m n : List ℕ) (k : SymbolKind) (x : List ℕ) → All (λ b. b < 256) m → All (λ b. b < 256) n
        → init_symbol_of m ≢ export_symbol_of n k x }
{}

/// The law that symbols are C identifiers that begin with `w2cZ_`.
pub fn symbols_are_identifiers()
    ensures exports { (m : List ℕ) (k : SymbolKind) (x : List ℕ) → All (λ b. b < 256) m → All (λ b. b < 256) x
        → IsSymbol (export_symbol_of m k x) }
    ensures inits { (m : List ℕ) → All (λ b. b < 256) m → IsSymbol (init_symbol_of m) }
{}
