// The functions of the runtime, one by one.
ghost use Rattle.std.specs.Prelude.{◌≡◌, map, option_map};
ghost use Rattle.w2c_base.specs.Lookup.{named};
ghost use Rattle.c_tree.specs.Primitives.{all_primitives, by_name, bytes_of, primitive_name, primitive_type, type_at};
ghost use Rattle.c_tree.specs.Runtime.{primitives};
ghost use Rattle.c_tree.specs.TypesInC.{c_type_of};

use crate::tree::CType;

/// How many bytes are read or written.
#[derive(Clone, Copy, Debug, PartialEq, Eq)]
pub enum Width {
    One,
    Two,
    Four,
    Eight,
}

impl Width {
    /// The number of these bytes.
    pub fn bytes(self) -> u64
        ensures { result ≡ bytes_of self }
    {
        match self {
            Width::One => 1,
            Width::Two => 2,
            Width::Four => 4,
            Width::Eight => 8,
        }
    }

    /// The type of the number that is read or written.
    pub fn ctype(self) -> CType
        ensures { result ≡ c_type_of (type_at self) }
    {
        match self {
            Width::One | Width::Two | Width::Four => CType::U32,
            Width::Eight => CType::U64,
        }
    }
}

/// A function of the runtime.
#[derive(Clone, Copy, Debug, PartialEq, Eq)]
pub enum Primitive {
    Trap,
    MemNew,
    MemLen,
    MemMax,
    MemGrow,
    Get(Width),
    Put(Width),
    TabNew,
    TabLen,
    TabMax,
    TabSig,
    TabFn,
    TabSet,
}

// Each, in the order of the runtime header.
const PRIMITIVES: [Primitive; 19] = [
    Primitive::Trap,
    Primitive::MemNew,
    Primitive::MemLen,
    Primitive::MemMax,
    Primitive::MemGrow,
    Primitive::Get(Width::One),
    Primitive::Get(Width::Two),
    Primitive::Get(Width::Four),
    Primitive::Get(Width::Eight),
    Primitive::Put(Width::One),
    Primitive::Put(Width::Two),
    Primitive::Put(Width::Four),
    Primitive::Put(Width::Eight),
    Primitive::TabNew,
    Primitive::TabLen,
    Primitive::TabMax,
    Primitive::TabSig,
    Primitive::TabFn,
    Primitive::TabSet,
];

impl Primitive {
    /// The primitive of a name.
    pub fn of_name(name: &[u8]) -> Option<Primitive>
        ensures found { result ≡ named name.now (map by_name all_primitives) }
        ensures typed { option_map primitive_type result ≡ named name.now primitives }
    {
        find(name, &PRIMITIVES)
    }

    /// Its name.
    pub fn name(self) -> &'static [u8]
        ensures { result.now ≡ primitive_name self }
    {
        match self {
            Primitive::Trap => b"w2c_trap",
            Primitive::MemNew => b"w2c_mem_new",
            Primitive::MemLen => b"w2c_mem_len",
            Primitive::MemMax => b"w2c_mem_max",
            Primitive::MemGrow => b"w2c_mem_grow",
            Primitive::Get(Width::One) => b"w2c_get1",
            Primitive::Get(Width::Two) => b"w2c_get2",
            Primitive::Get(Width::Four) => b"w2c_get4",
            Primitive::Get(Width::Eight) => b"w2c_get8",
            Primitive::Put(Width::One) => b"w2c_put1",
            Primitive::Put(Width::Two) => b"w2c_put2",
            Primitive::Put(Width::Four) => b"w2c_put4",
            Primitive::Put(Width::Eight) => b"w2c_put8",
            Primitive::TabNew => b"w2c_tab_new",
            Primitive::TabLen => b"w2c_tab_len",
            Primitive::TabMax => b"w2c_tab_max",
            Primitive::TabSig => b"w2c_tab_sig",
            Primitive::TabFn => b"w2c_tab_fn",
            Primitive::TabSet => b"w2c_tab_set",
        }
    }

    /// The type of its result.
    pub fn result_type(self) -> CType
        ensures { result ≡ (primitive_type self).result }
    {
        match self {
            Primitive::Trap
            | Primitive::MemNew
            | Primitive::Put(_)
            | Primitive::TabNew
            | Primitive::TabSet => CType::Void,
            Primitive::MemLen
            | Primitive::MemMax
            | Primitive::TabLen
            | Primitive::TabMax
            | Primitive::TabSig => CType::U64,
            Primitive::MemGrow => CType::U32,
            Primitive::Get(width) => width.ctype(),
            Primitive::TabFn => CType::FnPtr,
        }
    }

    /// The types of its parameters.
    pub fn param_types(self) -> &'static [CType]
        ensures { result.now ≡ (primitive_type self).params }
    {
        match self {
            Primitive::Trap => &[CType::U32],
            Primitive::MemNew => &[CType::PtrMem, CType::U32, CType::U64],
            Primitive::MemLen | Primitive::MemMax => &[CType::PtrMem],
            Primitive::MemGrow => &[CType::PtrMem, CType::U32],
            Primitive::Get(_) => &[CType::PtrMem, CType::U64],
            Primitive::Put(Width::One | Width::Two | Width::Four) => {
                &[CType::PtrMem, CType::U64, CType::U32]
            }
            Primitive::Put(Width::Eight) => &[CType::PtrMem, CType::U64, CType::U64],
            Primitive::TabNew => &[CType::PtrTab, CType::U32, CType::U64],
            Primitive::TabLen | Primitive::TabMax => &[CType::PtrTab],
            Primitive::TabSig | Primitive::TabFn => &[CType::PtrTab, CType::U64],
            Primitive::TabSet => &[CType::PtrTab, CType::U64, CType::FnPtr, CType::U64],
        }
    }
}

// The first of a name.
fn find(name: &[u8], all: &[Primitive]) -> Option<Primitive>
    ensures { result ≡ named name.now (map by_name all.now) }
{
    for one in all {
        if one.name() == name {
            return Some(*one);
        }
    }
    None
}
