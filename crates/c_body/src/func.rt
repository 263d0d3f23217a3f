// The function of a body.
ghost use Rattle.std.specs.Prelude.{◌≡◌, ◌<◌, ◌^◌, ◌++◌, length, replicate, IfOk, OnOk};
ghost use Rattle.std.specs.Option.{option_copied};
ghost use Rattle.w2c_base.specs.Lookup.{if_found};
ghost use Rattle.w2c_base.specs.declared.value.ValType.TheVariants as type;
ghost use Rattle.wasm_tree.specs.IndexSpaces.{declared_locals, type_in};
ghost use Rattle.wasm_typing.specs.Context.{context_of};
ghost use Rattle.c_tree.specs.View.{func_of as func_seen};
ghost use Rattle.packed_stmts.specs.PackedItems.{packed_body_of, packed_func_of};
ghost use Rattle.c_symbols.specs.Spaces.{named_of};
ghost use Rattle.body_forms.specs.Variables as variables;
ghost use Rattle.body_emitter.specs.SlotVariables as slot_variables;
ghost use Rattle.c_body.specs.Around.{setting_of};
ghost use Rattle.body_definition.specs.Body as function;
ghost use Rattle.c_body.specs.Ready.{BodyIsReady};

use crate::around::Around;
use body_emitter::{Emitter, Mark, parts, put_element, put_slots};
use body_forms::{declared, params};
use c_symbols::{IndexSpaces, func_name};
use c_tree::{CType, Func, Locals, Name, Params, c_result};
use packed_stmts::{PackedBody, PackedFunc};
use std::alloc::Global;
use w2c_base::{FuncType, Memory, ValType};
use wasm_tree::{BodyEntry, Code, Run};
use wasm_typing::ValidModule;

// Locals of one type.
fn put_run(types: &mut Vec<ValType>, run: Run) -> Result<(), Memory>
    ensures { OnOk result (types.new.items ≡ types.old.items ++ replicate run.count run.ty) }
{
    for _ in 0..run.count {
        types.push(run.ty)?;
    }
    Ok(())
}

// The types of the declared locals.
fn declared_types(alloc: Global, body: &BodyEntry) -> Result<Vec<ValType>, Memory>
    ensures { IfOk result (λ types. types.items ≡ declared_locals body.now.runs) }
{
    let mut types = Vec::new(alloc);
    for run in body.runs.as_slice() {
        put_run(&mut types, *run)?;
    }
    Ok(types)
}

// The parameters' types, and then those of the declared locals.
fn all_types(alloc: Global, ty: &FuncType, own: &[ValType]) -> Result<Vec<ValType>, Memory>
    ensures { IfOk result (λ types. types.items ≡ ty.now.params ++ own.now) }
{
    let mut types = Vec::from_slice(alloc, ty.params.as_slice())?;
    types.extend_from_slice(own)?;
    Ok(types)
}

// The declared locals, and behind them the variables for slots and for an element.
fn all_locals(
    alloc: Global,
    first: usize,
    own: &[ValType],
    marks: &[Mark],
    is_indirect: bool,
) -> Result<Locals, Memory>
    requires { first < 2 ^ 63 }
    ensures { IfOk result (λ locals. locals ≡ ((variables.locals_from first own.now
        ++ slot_variables.slots_from type.I32 0 marks.now)
        ++ slot_variables.slots_from type.I64 0 marks.now)
        ++ slot_variables.element_if is_indirect) }
{
    let mut locals = declared(alloc, first, own)?;
    put_slots(alloc, &mut locals, ValType::I32, marks)?;
    put_slots(alloc, &mut locals, ValType::I64, marks)?;
    put_element(alloc, &mut locals, is_indirect)?;
    Ok(locals)
}

// The variables and the statements of a body, whose own locals are numbered from the first on.
fn whole_body(
    around: &Around,
    first: usize,
    own: &[ValType],
    code: &Code,
) -> Result<PackedBody, Memory>
    requires first { first < 2 ^ 63 }
    requires ready { BodyIsReady (setting_of around.now).context code.now }
    ensures { IfOk result (λ b. packed_body_of b ≡ record {
      locals = variables.locals_from first own.now
          ++ (function.slots_of type.I32 (setting_of around.now).context code.now
          ++ (function.slots_of type.I64 (setting_of around.now).context code.now
          ++ function.element_local code.now));
      stmts = function.stmts_of (setting_of around.now) code.now;
    }) }
{
    let mut emitter = Emitter::empty(around.alloc);
    around.body(&mut emitter, code)?;
    let marks = emitter.operands.marks.as_slice();
    let made = all_locals(around.alloc, first, own, marks, emitter.is_indirect);
    let stmts = parts(emitter);
    let locals = made?;
    Ok(PackedBody { locals, stmts })
}

// The variables and the statements of a function of this type and this body.
fn content(
    alloc: Global,
    spaces: &IndexSpaces,
    ty: &FuncType,
    body: &BodyEntry,
) -> Result<PackedBody, Memory>
    requires { BodyIsReady (context_of spaces.now.tree.now ty.now body.now) body.now.code }
    ensures { IfOk result (λ b. packed_body_of b ≡ record {
      locals = variables.locals_from (length ty.now.params) (declared_locals body.now.runs)
          ++ (function.slots_of type.I32 (context_of spaces.now.tree.now ty.now body.now) body.now.code
          ++ (function.slots_of type.I64 (context_of spaces.now.tree.now ty.now body.now) body.now.code
          ++ function.element_local body.now.code));
      stmts = function.stmts_of (record { named = named_of spaces.now; context = context_of spaces.now.tree.now ty.now body.now }) body.now.code;
    }) }
{
    let own = declared_types(alloc, body)?;
    let all = all_types(alloc, ty, own.as_slice())?;
    let around = Around {
        alloc,
        spaces,
        locals: all.as_slice(),
        result: ty.result,
    };
    whole_body(&around, ty.params.len(), own.as_slice(), &body.code)
}

// The function with an index, of this type and this body.
fn defined(
    alloc: Global,
    spaces: &IndexSpaces,
    index: u32,
    ty: &FuncType,
    body: &BodyEntry,
) -> Result<PackedFunc, Memory>
    requires { BodyIsReady (context_of spaces.now.tree.now ty.now body.now) body.now.code }
    ensures { IfOk result (λ f. packed_func_of f ≡ function.func_of (named_of spaces.now) index ty.now body.now) }
{
    let params = params(alloc, ty.params.as_slice())?;
    let name = func_name(alloc, index)?;
    let content = content(alloc, spaces, ty, body)?;
    let head = Func {
        is_static: true,
        result: c_result(ty.result),
        name,
        params,
        body: None,
    };
    Ok(PackedFunc {
        head,
        body: Some(content),
    })
}

/// The type of the function that the module defines with an index.
#[tactic(auto, using(body_definition::proofs::Zipped::no_func_type, body_definition::proofs::Zipped::no_body_type, body_definition::proofs::Zipped::type_of_both))]
pub fn defined_type<'a>(spaces: &IndexSpaces<'a>, index: u32) -> Option<&'a FuncType>
    ensures { option_copied result ≡ if_found (function.defined_at spaces.now.tree.now index) (λ d. type_in spaces.now.tree.now d.0.type_index) }
{
    match spaces.func_at(index) {
        None => None,
        Some(func) => match spaces.body_at(index) {
            None => None,
            Some(_) => spaces.ty(func.type_index),
        },
    }
}

/// The function with an index, by the module's index spaces, its statements packed. It is the translation of the function that the
/// module defines with it. Its one error is want of memory.
pub fn packed_function(
    alloc: Global,
    m: &ValidModule,
    spaces: &IndexSpaces,
    index: u32,
) -> Result<PackedFunc, Memory>
    requires { m.now ≡ spaces.now.tree.now }
    ensures { IfOk result (λ f. packed_func_of f ≡ function.body_of spaces.now.tree.now spaces.now.name.now index) }
{
    match spaces.func_at(index) {
        None => no_func(alloc),
        Some(func) => match spaces.body_at(index) {
            None => no_func(alloc),
            Some(body) => match spaces.ty(func.type_index) {
                None => no_func(alloc),
                Some(ty) => {
                    // What the check found of the module comes with it.
                    m.module();
                    defined(alloc, spaces, index, ty, body)
                }
            },
        },
    }
}

// What stands for a function that is not there.
fn no_func(alloc: Global) -> Result<PackedFunc, Memory>
    ensures { IfOk result (λ f. packed_func_of f ≡ function.no_func) }
{
    let head = Func {
        is_static: true,
        result: CType::Void,
        name: Name::new(alloc),
        params: Params::new(alloc),
        body: None,
    };
    Ok(PackedFunc { head, body: None })
}

// The same function with all its statements.
fn function(
    alloc: Global,
    m: &ValidModule,
    spaces: &IndexSpaces,
    index: u32,
) -> Result<Func, Memory>
    requires { m.now ≡ spaces.now.tree.now }
    ensures { IfOk result (λ f. func_seen f ≡ function.body_of spaces.now.tree.now spaces.now.name.now index) }
{
    packed_function(alloc, m, spaces, index)?.whole()
}

/// The function that the function of a module with an index is translated to, under the module's name. Of many
/// functions of one module it is better to make `IndexSpaces` once.
#[tactic(auto, using(c_symbols::proofs::FewParams::few_params_of))]
pub fn body(alloc: Global, m: &ValidModule, name: &[u8], index: u32) -> Result<Func, Memory>
    ensures { IfOk result (λ f. func_seen f ≡ function.body_of m.now name.now index) }
{
    let tree = m.module();
    let spaces = IndexSpaces::new(alloc, tree, name)?;
    function(alloc, m, &spaces, index)
}
