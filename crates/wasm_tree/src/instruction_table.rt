// The table of instructions is exact.
ghost use Rattle.std.specs.Prelude.{◌≡◌, ℕ, Some};
ghost use Rattle.wasm_tree.specs.Instructions.{Kind};
ghost use Rattle.wasm_tree.specs.InstructionTable.{Row, row_of};
ghost use Rattle.wasm_tree.specs.Forms.{HasRow, Makes};

/// The law that each instruction but a block stands in the row of its opcode, and that a row makes
/// instructions of its opcode alone.
pub fn the_instruction_table_is_exact()
    ensures each_has_its_row { (kind : Kind) → HasRow kind }
    ensures each_row_makes_its_own { (opcode : ℕ) (r : Row) → row_of opcode ≡ Some r → Makes opcode r.form }
{}
