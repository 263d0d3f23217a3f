// Instructions, and lists of them (WebAssembly Core 1.0, 2.4 and 5.4).
ghost use Rattle.std.specs.Prelude.{◌≡◌, ◌<◌, ◌++◌, ◌∷◌, [], Some, OnOk, OnErr};
ghost use Rattle.wasm_tree.specs.Instructions.{end_code};
ghost use Rattle.wasm_tree.specs.Appended.{◌+>◌, code_length, instr_at};
ghost use Rattle.wasm_tree.specs.Views.{instr_tree, code_tree};

use crate::operators::Kind;
use std::alloc::Global;
use std::marker::Model;
use w2c_base::{Memory, Sequence};

/// Indexes in order, as the labels of a `br_table`.
pub type Indexes = Sequence<u32>;

/// Where a load or a store acts: the alignment's exponent, and the offset that is added to the address.
#[derive(Clone, Copy, Debug, PartialEq, Eq)]
pub struct MemArg {
    pub align: u32,
    pub offset: u32,
}

/// Instructions in order, without the `end` that closes them.
#[cycle(code)]
#[derive(Drop)]
pub struct Code {
    list: Vec<Instr>,
}

/// An instruction with the place of its opcode.
#[cycle(code)]
#[derive(Drop)]
pub struct Instr {
    pub place: u32,
    pub kind: Kind,
}

/// The second branch of an `if`, with the place of its `else`.
#[cycle(code)]
#[derive(Drop)]
pub struct ElsePart {
    pub code: Code,
    pub place: u32,
}

impl Model for Code {
    ghost use Rattle.std.specs.Prelude.{List, []};
    ghost use Rattle.wasm_tree.specs.Instructions.{Code as CodeTree};

    ghost Value = { CodeTree };

    ghost use Rattle.std.specs.Coded.{code_by, codes};
    ghost use Rattle.wasm_tree.specs.Stored.{Mark, marks, unmark, newest, comes_back};

    ghost coded = { code_by (List Mark) (Prim.hlevel codes) marks (λ ms. newest (unmark ms [])) comes_back };

    ghost use Rattle.wasm_tree.specs.Views.{code_tree};

    ghost view = { λ a. code_tree a.list.items };

    ghost use Rattle.wasm_tree.specs.Size.{code_size};

    ghost size = { code_size };

    ghost use Rattle.wasm_tree.specs.Falls.{falls};

    ghost size_decreases = { λ a h. falls a.list.items };
}

impl Code {
    /// No instructions. It takes no memory.
    pub fn new(alloc: Global) -> Self
        ensures { result ≡ end_code }
    {
        Code {
            list: Vec::new(alloc),
        }
    }

    /// Puts an instruction at the end.
    pub fn push(&mut self, item: Instr) -> Result<(), Memory>
        ensures ok { OnOk result (self.new ≡ self.old +> instr_tree item) }
        ensures err { OnErr result (self.new ≡ self.old) }
    {
        put(&mut self.list, item)?;
        Ok(())
    }

    /// Gives back the room that no instruction takes, unless there are many.
    pub fn fit(&mut self)
        ensures { self.new ≡ self.old }
    {
        fit_short(&mut self.list);
    }

    /// The number of instructions, those inside others not counted.
    pub fn len(&self) -> usize
        ensures { result ≡ code_length self.now }
    {
        self.as_slice().len()
    }

    /// The instruction at a place in the list, counted from 0.
    pub fn at(&self, i: usize) -> &Instr
        requires { i < code_length self.now }
        ensures { Some (instr_tree result.now) ≡ instr_at i self.now }
    {
        &self.list[i]
    }

    /// The instructions, to read.
    pub fn as_slice(&self) -> &[Instr]
        ensures { code_tree result.now ≡ self.now }
    {
        self.list.as_slice()
    }
}

// Gives back the room that no item takes. A long list would stand twice while it is moved, and most of its room was never touched.
fn fit_short<T>(list: &mut Vec<T>)
    ensures { list.new.items ≡ list.old.items }
{
    if list.len() <= 1024 {
        list.shrink_to_fit();
    }
}

// Puts an item at the end. Blocks of one instruction are many, and a list would begin with room for four.
fn put<T: Drop>(list: &mut Vec<T>, item: T) -> Result<(), Memory>
    ensures ok { OnOk result (list.new.items ≡ list.old.items ++ item ∷ []) }
    ensures err { OnErr result (list.new.items ≡ list.old.items) }
{
    if list.is_empty() {
        list.reserve_exact(1)?;
    }
    list.push(item)?;
    Ok(())
}
