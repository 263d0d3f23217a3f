// The entries of a module's sections (WebAssembly Core 1.0, 2.5 and 5.5). A place is a byte offset
// from the start of the file.
use crate::Code;
use w2c_base::{Bytes, FuncType, Sequence, ValType};

/// A function type, with the place of its entry.
#[derive(Drop)]
pub struct TypeEntry {
    pub place: u32,
    pub ty: FuncType,
}

/// The least and the greatest size of a table in elements or of a memory in pages, with the place of
/// the flag.
#[derive(Clone, Copy, Debug, PartialEq, Eq)]
pub struct Limits {
    pub min: u32,
    pub max: Option<u32>,
    pub place: u32,
}

/// What is imported: a function by its type's index, or a global by its type and whether it is mutable.
#[derive(Clone, Copy, Debug, PartialEq, Eq)]
pub enum ImportKind {
    Func(u32),
    Table(Limits),
    Memory(Limits),
    Global(ValType, bool),
}

/// An import, with the place of the byte after its kind.
#[derive(Drop)]
pub struct Import {
    pub module: Bytes,
    pub field: Bytes,
    pub kind: ImportKind,
    pub place: u32,
}

/// A defined function's type.
#[derive(Clone, Copy, Debug, PartialEq, Eq)]
pub struct FuncEntry {
    pub type_index: u32,
    pub place: u32,
}

/// A defined table or memory.
#[derive(Clone, Copy, Debug, PartialEq, Eq)]
pub struct LimitsEntry {
    pub limits: Limits,
    pub place: u32,
}

/// A defined global, with the place of its initial expression.
#[derive(Drop)]
pub struct GlobalEntry {
    pub ty: ValType,
    pub mutable: bool,
    pub code: Code,
    pub place: u32,
}

/// What is exported.
#[derive(Clone, Copy, Debug, PartialEq, Eq)]
pub enum ExportKind {
    Func,
    Table,
    Memory,
    Global,
}

/// An export, with the places of its name's length and of its index.
#[derive(Drop)]
pub struct Export {
    pub name: Bytes,
    pub kind: ExportKind,
    pub index: u32,
    pub name_place: u32,
    pub index_place: u32,
}

/// The start function.
#[derive(Clone, Copy, Debug, PartialEq, Eq)]
pub struct Start {
    pub index: u32,
    pub place: u32,
}

/// How many data segments there are, where a section says so before the bodies (Core 2.0, 5.5.15).
#[derive(Clone, Copy, Debug, PartialEq, Eq)]
pub struct DataCount {
    pub count: u32,
    pub place: u32,
}

/// A function in an element segment.
#[derive(Clone, Copy, Debug, PartialEq, Eq)]
pub struct FuncRef {
    pub index: u32,
    pub place: u32,
}

/// An element segment, with the places of its first byte and of its offset's.
#[derive(Drop)]
pub struct ElementEntry {
    pub table: u32,
    pub offset: Code,
    pub funcs: FuncRefs,
    pub place: u32,
    pub offset_place: u32,
}

/// A data segment, with the places of its first byte and of its offset's.
#[derive(Drop)]
pub struct SegmentEntry {
    pub memory: u32,
    pub offset: Code,
    pub bytes: Bytes,
    pub place: u32,
    pub offset_place: u32,
}

/// So many locals of one type.
#[derive(Clone, Copy, Debug, PartialEq, Eq)]
pub struct Run {
    pub count: u32,
    pub ty: ValType,
}

/// A function's locals and body, with the place of its final `end`.
#[derive(Drop)]
pub struct BodyEntry {
    pub runs: Runs,
    pub code: Code,
    pub end_place: u32,
}

/// The types of a module.
pub type TypeEntries = Sequence<TypeEntry>;

/// The imports of a module.
pub type Imports = Sequence<Import>;

/// The defined functions of a module.
pub type FuncEntries = Sequence<FuncEntry>;

/// The defined tables, or memories, of a module.
pub type LimitsEntries = Sequence<LimitsEntry>;

/// The defined globals of a module.
pub type GlobalEntries = Sequence<GlobalEntry>;

/// The exports of a module.
pub type Exports = Sequence<Export>;

/// The functions of an element segment.
pub type FuncRefs = Sequence<FuncRef>;

/// The element segments of a module.
pub type ElementEntries = Sequence<ElementEntry>;

/// The data segments of a module.
pub type SegmentEntries = Sequence<SegmentEntry>;

/// The runs of locals of a body.
pub type Runs = Sequence<Run>;

/// The bodies of a module.
pub type BodyEntries = Sequence<BodyEntry>;
