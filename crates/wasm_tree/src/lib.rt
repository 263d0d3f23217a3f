//! WebAssembly modules as trees, with the places of their entries and instructions in the file.
#![tactic(auto)]

mod code;
mod defined;
mod entries;
mod instruction_table;
mod limits;
mod opcodes;
mod operators;
mod tree;

pub use code::{Code, ElsePart, Indexes, Instr, MemArg};
pub use defined::bodies_stand_behind_imports;
pub use entries::{
    BodyEntries, BodyEntry, DataCount, ElementEntries, ElementEntry, Export, ExportKind, Exports,
    FuncEntries, FuncEntry, FuncRef, FuncRefs, GlobalEntries, GlobalEntry, Import, ImportKind,
    Imports, Limits, LimitsEntries, LimitsEntry, Run, Runs, SegmentEntries, SegmentEntry, Start,
    TypeEntries, TypeEntry,
};
pub use instruction_table::the_instruction_table_is_exact;
pub use limits::limits_are_those_of_the_code;
pub use opcodes::{
    BLOCK, BR_TABLE, CALL_INDIRECT, I32_CONST, I64_CONST, IF, LOOP, MEMORY_COPY, MEMORY_FILL,
    MEMORY_GROW, MEMORY_SIZE, Op, PREFIX,
};
pub use operators::{
    Access, AccessOp, BinaryOp, CompareOp, ExtendOp, IndexOp, Kind, LoadOp, Numeric, Parts, Simple,
    StoreOp, UnaryOp,
};
pub use tree::Module;
