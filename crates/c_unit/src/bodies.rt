// The functions that a module's own functions are translated to, and their declarations.
ghost use Rattle.std.specs.Prelude.{◌≡◌, ◌+◌, ◌<◌, length, IfOk};
ghost use Rattle.wasm_tree.specs.IndexSpaces.{imported_funcs};
ghost use Rattle.c_tree.specs.View.{item_of};
ghost use Rattle.packed_stmts.specs.PackedItems.{packed_func_of};
ghost use Rattle.body_definition.specs.Body.{body_of};
ghost use Rattle.unit_definition.specs.Items.{prototype};

use crate::items::prototype_if;
use c_body::{defined_type, packed_function};
use c_init::Source;
use c_tree::Item;
use packed_stmts::PackedFunc;
use w2c_base::Memory;

// The index of the function that the module defines with a number.
#[tactic(auto, using(c_init::proofs::Countable::few_funcs))]
fn own_index(source: &Source, number: usize) -> u32
    requires { number < length source.now.tree.now.funcs }
    ensures { result ≡ imported_funcs source.now.tree.now + number }
{
    (source.spaces().imported_funcs() + number) as u32
}

/// The function of C that is translated from the module's own function with a number.
pub(crate) fn body(source: &Source, number: usize) -> Result<PackedFunc, Memory>
    requires { number < length source.now.tree.now.funcs }
    ensures { IfOk result (λ f. packed_func_of f ≡ body_of source.now.tree.now source.now.name.now (imported_funcs source.now.tree.now + number)) }
{
    let index = own_index(source, number);
    packed_function(source.alloc, source.checked, source.spaces(), index)
}

/// The declaration of that function.
pub(crate) fn prototype(source: &Source, number: usize) -> Result<Item, Memory>
    requires { number < length source.now.tree.now.funcs }
    ensures { IfOk result (λ item. item_of item ≡ prototype (body_of source.now.tree.now source.now.name.now (imported_funcs source.now.tree.now + number))) }
{
    let index = own_index(source, number);
    let ty = defined_type(source.spaces(), index);
    prototype_if(source.alloc, source.tree, source.name, index, ty)
}
