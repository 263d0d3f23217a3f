// What names stand for while a function of linked units runs.
ghost use Rattle.std.specs.Prelude.{◌≡◌, option_copied};
ghost use Rattle.c_objects.specs.Stores.{var_at};
ghost use Rattle.c_thread.specs.Sights.{bytes_in, func_at, func_in, held_in, object_in, symbol_in};

use c_machine::{NumberedNames, Numbers};
use c_objects::{FuncId, Held, Object, ObjectId, Store};
use c_tree::{Item, Unit, is_depth};
use std::rc::Rc;
use w2c_base::Value;

/// The functions that units and hosts define for all units, by their symbols.
#[derive(Drop)]
pub struct Symbols {
    pub numbers: Numbers,
    pub funcs: Vec<FuncId>,
}

impl Symbols {
    /// The function of a symbol.
    pub fn find(&self, symbol: &[u8]) -> Option<FuncId>
        ensures { result ≡ symbol_in self.now symbol.now }
    {
        self.funcs.get(self.numbers.find(symbol)?).copied()
    }
}

/// The tables of a unit's objects by kind, of its arrays and of the functions that it defines by their
/// items, and of the functions that all units see, which the units share.
#[derive(Drop)]
pub struct ObjectTables {
    pub unit: usize,
    pub vars: NumberedNames,
    pub memories: NumberedNames,
    pub tables: NumberedNames,
    pub arrays: Numbers,
    pub functions: Numbers,
    pub symbols: Rc<Symbols>,
}

impl ObjectTables {
    /// The function of a name: one that the unit defines, else one that all units see.
    pub fn func(&self, name: &[u8]) -> Option<FuncId>
        ensures { result ≡ func_at self.now name.now }
    {
        match self.functions.find(name) {
            Some(item) => Some(FuncId::Unit(self.unit, item)),
            None => self.symbols.find(name),
        }
    }
}

/// What names stand for while a function runs.
#[derive(Clone, Copy)]
pub struct UnitScope<'a> {
    pub depth: u32,
    pub unit: usize,
    pub items: &'a Unit,
    pub objects: &'a ObjectTables,
    pub locals: &'a NumberedNames,
    pub values: &'a [Held],
    pub store: &'a Store,
}

impl<'a> UnitScope<'a> {
    /// The value of w2c_depth, a parameter or local, or a variable of the unit.
    pub fn held(&self, name: &[u8]) -> Option<Held>
        ensures { result ≡ held_in self.now name.now }
    {
        if is_depth(name) {
            return Some(Held::Number(Value::I32(self.depth)));
        }
        if let Some(place) = self.locals.find(name) {
            if let Some(value) = self.values.get(place) {
                return Some(*value);
            }
        }
        let number = self.objects.vars.find(name)?;
        self.store.var(ObjectId {
            unit: self.unit,
            object: Object::Variable(number),
        })
    }

    /// The bytes of an array.
    pub fn bytes(&self, name: &[u8]) -> Option<&'a [u8]>
        ensures { option_copied result ≡ bytes_in self.now name.now }
    {
        match self.items.as_slice().get(self.objects.arrays.find(name)?)? {
            Item::Array(_, _, bytes) => Some(bytes.as_slice()),
            Item::Var(_, _, _) => None,
            Item::Func(_) => None,
        }
    }

    /// What the variable there holds.
    pub fn var(&self, at: ObjectId) -> Option<Held>
        ensures { result ≡ var_at self.now.store.now.units.items at }
    {
        self.store.var(at)
    }

    /// The object of a name.
    pub fn object(&self, name: &[u8]) -> Option<ObjectId>
        ensures { result ≡ object_in self.now name.now }
    {
        let object = match self.objects.vars.find(name) {
            Some(number) => Object::Variable(number),
            None => match self.objects.memories.find(name) {
                Some(number) => Object::Memory(number),
                None => Object::Table(self.objects.tables.find(name)?),
            },
        };
        Some(ObjectId {
            unit: self.unit,
            object,
        })
    }

    /// The function of a name.
    pub fn func(&self, name: &[u8]) -> Option<FuncId>
        ensures { result ≡ func_in self.now name.now }
    {
        self.objects.func(name)
    }
}
