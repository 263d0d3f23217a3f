// What a module offers under a name.
use name_table::NameTable;
use w2c_base::ValType;

/// What an export is of: a function by its type's index in the module, a table, a memory, or a global by its type and
/// whether it is mutable.
#[derive(Clone, Copy)]
pub(crate) enum Offer {
    Func(u32),
    Table,
    Memory,
    Global(ValType, bool),
}

/// Names, each with what is offered under it. There is nothing where the export's index is out of range.
pub(crate) type OfferTable = NameTable<Option<Offer>>;
