// Functions and items of a unit whose statements are packed.
ghost use Rattle.std.specs.Prelude.{◌≡◌, IfOk};
ghost use Rattle.c_tree.specs.View.{func_of, item_of, maybe_body_of};
ghost use Rattle.packed_stmts.specs.PackedItems.{maybe_packed_body_of, packed_func_of, packed_item_of};

use crate::stmts::Parts;
use c_tree::{Body, Func, Item, Locals};
use w2c_base::Memory;

/// The local variables of a function, and its statements.
#[derive(Drop)]
pub struct PackedBody {
    pub locals: Locals,
    pub stmts: Parts,
}

/// A function: what stands in front of its body, as a declaration, and the body, where it has one.
#[derive(Drop)]
pub struct PackedFunc {
    pub head: Func,
    pub body: Option<PackedBody>,
}

/// An item of a unit: as it is, or a function whose statements are packed.
#[derive(Drop)]
pub enum PackedItem {
    Whole(Item),
    Func(PackedFunc),
}

fn whole_body(body: Option<PackedBody>) -> Result<Option<Body>, Memory>
    ensures { IfOk result (λ whole. maybe_body_of whole ≡ maybe_packed_body_of body) }
{
    match body {
        None => Ok(None),
        Some(body) => {
            let PackedBody { locals, stmts } = body;
            let stmts = stmts.all()?;
            Ok(Some(Body { locals, stmts }))
        }
    }
}

impl PackedFunc {
    /// The function with all its statements. Its one error is want of memory.
    pub fn whole(self) -> Result<Func, Memory>
        ensures { IfOk result (λ func. func_of func ≡ packed_func_of self) }
    {
        let PackedFunc { head, body } = self;
        let body = whole_body(body)?;
        let mut func = head;
        func.body = body;
        Ok(func)
    }
}

impl PackedItem {
    /// The item with all its statements. Its one error is want of memory.
    pub fn whole(self) -> Result<Item, Memory>
        ensures { IfOk result (λ item. item_of item ≡ packed_item_of self) }
    {
        match self {
            PackedItem::Whole(item) => Ok(item),
            PackedItem::Func(func) => {
                let func = func.whole()?;
                Ok(Item::Func(func))
            }
        }
    }
}
