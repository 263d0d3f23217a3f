// The helpers, and what each of them does.
ghost use Rattle.std.specs.Prelude.{◌≡◌, IfOk};
ghost use Rattle.c_tree.specs.View.{func_of};
ghost use Rattle.c_helpers.specs.Helpers.{helper_of};
ghost use Rattle.c_prelude.specs.Operators.{DoesItsInstruction};
ghost use Rattle.c_prelude.specs.Functions.{IsStaticFunction, helper_type};

use c_helpers::Helper;
use c_tree::Func;
use std::alloc::Global;
use w2c_base::Memory;

/// The function of a helper. For an operator on numbers it takes the operands and gives the result,
/// or traps as the operator does (WebAssembly Core 1.0, 4.3.2). A load takes a pointer to a memory,
/// a base and an offset, a store the value too; both trap where the access passes the memory's end
/// (4.4.4). `Size` takes a pointer to a memory and gives its number of pages. `Element` takes a
/// pointer to a table, an index and a signature number, and gives the element's function; it traps
/// past the table's end, else at an empty element, else at one of another signature (4.4.5). `Copy` and
/// `Fill` take a pointer to a memory, the first place that is written, then the first that is read or
/// the number whose low byte is written, and how many bytes there are. They trap where these places
/// pass the memory's end, before a byte is written, and overlapping bytes are copied as they were
/// before (Core 2.0, 4.4.7). A call ends within 390 statements, that of `Element` within 100; where it
/// copies or fills bytes it takes more statements than there are bytes, and at most 20 more for each.
/// It is static, and named for its instruction. `Memory` comes only where memory was wanting.
pub fn helper(alloc: Global, which: Helper) -> Result<Func, Memory>
    ensures tree { IfOk result (λ func. func_of func ≡ helper_of which) }
    ensures does { IfOk result (λ func. DoesItsInstruction which (func_of func)) }
    ensures function { IfOk result (λ func. IsStaticFunction (helper_type which) (func_of func)) }
{
    let func = c_helpers::helper(alloc, which)?;
    Ok(func)
}
