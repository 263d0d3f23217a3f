// Valid modules (WebAssembly Core 1.0, 3.4.10).
ghost use Rattle.std.specs.Prelude.{◌≡◌};
ghost use Rattle.wasm_tree.specs.Within.{WithinLimits};
ghost use Rattle.wasm_typing.specs.Verdict.{IsValid};

use std::marker::Model;
use wasm_tree::Module;

/// A module in which every body has a typing, which has no fault outside its bodies, and which keeps within the limits
/// of reading.
#[derive(Drop)]
pub struct ValidModule {
    tree: Module,
}

impl Model for ValidModule {
    ghost use Rattle.std.specs.Coded.{codes};
    ghost use Rattle.wasm_tree.specs.declared.tree.Module.{Module as Tree};
    ghost use Rattle.wasm_tree.specs.contracts.code.Code as code;
    ghost use Rattle.wasm_tree.specs.Within.{WithinLimits};
    ghost use Rattle.wasm_typing.specs.Verdict.{IsValid};

    ghost Value = { Tree };

    ghost coded = { Prim.hlevel (codes, code.the_row.coded) };

    ghost view = { λ v. v.tree };

    ghost invariant = { λ v. IsValid v.tree × WithinLimits v.tree };
}

impl ValidModule {
    /// A module of which it is known that it is valid and keeps within the limits of reading: nothing is checked again.
    pub fn known(m: Module) -> ValidModule
        requires valid { IsValid m }
        requires within { WithinLimits m }
        ensures { result ≡ m }
    {
        ValidModule { tree: m }
    }

    /// The module that is known to be valid.
    pub fn module(&self) -> &Module
        ensures same { result.now ≡ self.now }
        ensures valid { IsValid result.now }
        ensures within { WithinLimits result.now }
    {
        &self.tree
    }
}
