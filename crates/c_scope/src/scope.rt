// The names at a statement of a function.
ghost use Rattle.std.specs.Prelude.{◌≡◌, ◌++◌, is_some, option_map, Some, None, if◌then◌else◌, codes, [], ◌∷◌};
ghost use Rattle.w2c_base.specs.Lookup.{named};
ghost use Rattle.c_tree.specs.declared.tree.CType.TheVariants.{U32};
ghost use Rattle.c_tree.specs.View.{func_of, body_of};
ghost use Rattle.c_tree.specs.Scope.{param_variables, local_variables, variables, file_variables, arrays, functions, file_functions, is_among};
ghost use Rattle.c_tree.specs.Runtime.{primitives};
ghost use Rattle.c_scope.specs.Tables.{Finds};
ghost use Rattle.c_scope.specs.Signatures.{signature_type};

use crate::file_scope::FileScope;
use crate::signature::Signature;
use c_tree::{Body, CType, Func, Primitive, is_depth};
use name_table::NameTable;

/// Where a statement stands: the names of file scope up to its function, which is declared too, and
/// the function with its parameters and local variables.
#[derive(Clone, Copy)]
pub struct Scope<'s, 'a> {
    pub file: &'s FileScope<'a>,
    own: &'s NameTable<CType>,
    pub func: &'s Func,
    pub body: &'s Body,
    ghost own_found: { Finds own.now (param_variables (func_of func.now) ++ local_variables (body_of body.now)) },
}

impl<'s, 'a> Scope<'s, 'a> {
    ghost use Rattle.c_scope.specs.FileItems.{declared};
    ghost use Rattle.c_scope.specs.ScopeOf.{scope_of};

    /// The scope of a function's statements.
    pub fn new(
        file: &'s FileScope<'a>,
        own: &'s NameTable<CType>,
        func: &'s Func,
        body: &'s Body,
    ) -> Self
        requires { Finds own.now (param_variables (func_of func.now) ++ local_variables (body_of body.now)) }
        ensures { scope_of result ≡ record { declared = declared file.now; func = func_of func.now; body = body_of body.now } }
    {
        Scope {
            file,
            own,
            func,
            body,
        }
    }

    /// The type of a variable, a parameter or a local variable.
    pub fn variable(&self, name: &[u8]) -> Option<CType>
        ensures { result ≡ named name.now (variables (scope_of self.now)) }
    {
        self.own
            .find(name)
            .or(self.file.variable(name))
            .or(runtime_variable(name))
    }

    /// The type of a variable of file scope.
    pub fn file_variable(&self, name: &[u8]) -> Option<CType>
        ensures { result ≡ named name.now (file_variables (scope_of self.now)) }
    {
        self.file.variable(name)
    }

    /// Whether a name is an array's.
    pub fn has_array(&self, name: &[u8]) -> bool
        ensures { result ≡ is_among name.now (arrays (scope_of self.now)) }
    {
        self.file.has_array(name)
    }

    /// Whether a name is that of a function that the unit declares.
    pub fn has_file_function(&self, name: &[u8]) -> bool
        ensures { result ≡ is_some (named name.now (file_functions (scope_of self.now))) }
    {
        self.file.function(name).is_some()
    }

    /// The type of a function: one of the unit, or one of the runtime.
    pub fn function(&self, name: &[u8]) -> Option<Signature<'s>>
        ensures { option_map signature_type result ≡ named name.now (functions (scope_of self.now)) }
    {
        match self.file.function(name) {
            Some(f) => Some(Signature::Declared(f)),
            None => runtime_function(name),
        }
    }
}

fn runtime_function<'a>(name: &[u8]) -> Option<Signature<'a>>
    ensures { option_map signature_type result ≡ named name.now primitives }
{
    match Primitive::of_name(name) {
        Some(p) => Some(Signature::Runtime(p)),
        None => None,
    }
}

/// The runtime's one variable.
fn runtime_variable(name: &[u8]) -> Option<CType>
    ensures { result ≡ named name.now ((codes "w2c_depth", U32) ∷ []) }
{
    if is_depth(name) {
        Some(CType::U32)
    } else {
        None
    }
}
