// Whether a module may join others, and whether a call fits them, by the tables of what they offer.
ghost use Rattle.std.specs.Prelude.{◌≡◌, ◌<◌, ℕ, true, length, slice_get, Some, None};
ghost use Rattle.std.specs.List.{list_all};
ghost use Rattle.w2c_base.specs.Values.{is_number};
ghost use Rattle.wasm_set.specs.declared.set_module.SetModule.{SetModule as Joined};
ghost use Rattle.wasm_set.specs.Offers.{offered};
ghost use Rattle.wasm_set.specs.Tables.{AreTables};
ghost use Rattle.wasm_set.specs.Joining.{is_given, may_join, module_named, module_takes};

use crate::SetModule;
use crate::offer::{Offer, OfferTable};
use crate::types::{gives_if_any, offer_takes};
use w2c_base::Value;
use wasm_tree::{Import, Module};

/// The most modules of a set.
const MOST_MODULES: usize = 16;

/// Whether a module may join others: there is room, no other has its name, and these offer all that it imports.
pub(crate) fn may_join(
    modules: &[SetModule],
    tables: &[OfferTable],
    name: &[u8],
    m: &Module,
) -> bool
    requires { AreTables tables.now modules.now }
    ensures { result ≡ may_join modules.now name.now m.now }
{
    if modules.len() >= MOST_MODULES {
        return false;
    }
    match place_of(modules, name) {
        Some(_) => false,
        None => gives_all(modules, tables, m),
    }
}

// Whether modules offer all that another imports.
fn gives_all(modules: &[SetModule], tables: &[OfferTable], m: &Module) -> bool
    requires { AreTables tables.now modules.now }
    ensures { result ≡ list_all (is_given modules.now m.now) m.now.imports }
{
    for import in m.imports.as_slice() {
        if !gives(modules, tables, m, import) {
            return false;
        }
    }
    true
}

// Whether a module offers what an import of another asks for.
fn gives(modules: &[SetModule], tables: &[OfferTable], m: &Module, import: &Import) -> bool
    requires { AreTables tables.now modules.now }
    ensures { result ≡ is_given modules.now m.now import.now }
{
    match place_of(modules, import.module.as_slice()) {
        None => false,
        Some(k) => {
            let offer = offer_at(modules, tables, k, import.field.as_slice());
            gives_if_any(modules[k].module.module(), offer, m, import)
        }
    }
}

/// Whether the module of a name offers a function under another name whose type takes these values.
pub(crate) fn takes(
    modules: &[SetModule],
    tables: &[OfferTable],
    module_name: &[u8],
    name: &[u8],
    args: &[Value],
) -> bool
    requires { AreTables tables.now modules.now }
    ensures types { result ≡ module_takes (module_named modules.now module_name.now) name.now args.now }
    ensures numbers { result ≡ true → list_all is_number args.now ≡ true }
{
    match place_of(modules, module_name) {
        None => false,
        Some(k) => {
            let offer = offer_at(modules, tables, k, name);
            offer_takes(modules[k].module.module(), offer, args)
        }
    }
}

// The place of the module of a name.
fn place_of(modules: &[SetModule], name: &[u8]) -> Option<usize>
    ensures found { (k : ℕ) → result ≡ Some k → module_named modules.now name.now ≡ slice_get modules.now k }
    ensures within { (k : ℕ) → result ≡ Some k → k < length modules.now }
    ensures none { result ≡ None → module_named modules.now name.now ≡ None }
{
    for i in 0..modules.len() {
        if modules[i].name.as_slice() == name {
            return Some(i);
        }
    }
    None
}

// What the module at a place offers under a name.
fn offer_at(modules: &[SetModule], tables: &[OfferTable], k: usize, name: &[u8]) -> Option<Offer>
    requires tables { AreTables tables.now modules.now }
    requires within { k < length modules.now }
    ensures { (m : Joined) → slice_get modules.now k ≡ Some m → result ≡ offered m.«module» name.now }
{
    match tables[k].find(name) {
        Some(offer) => offer,
        None => None,
    }
}
