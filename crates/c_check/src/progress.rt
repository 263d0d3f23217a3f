// How far the pass over a unit has come.
ghost use Rattle.std.specs.Prelude.{◌≡◌, ◌+◌, ◌<◌, true, None, map, length, slice_index_or, IfOk};
ghost use Rattle.c_tree.specs.View.{item_of};
ghost use Rattle.c_scope.specs.FileItems.{declared};
ghost use Rattle.c_scope.specs.Tables.{Knows};
ghost use Rattle.c_rules.specs.FirstRule.{item_breaks};
ghost use Rattle.c_check.specs.Places.{item_place};
ghost use Rattle.c_rules.specs.UnitNames.{FindsFirst, names_of, defined_of, none_clash};

use crate::declarations::{Earlier, enter_first};
use crate::names::{declared_names, defined_name, defined_names, put};
use c_rules::salt_of;
use c_scope::FileScope;
use c_tree::Item;
use name_table::NameTable;
use std::alloc::Global;
use w2c_base::Memory;

/// The scope in front of an item, with the names that the whole unit declares and defines, and the
/// earlier declarations, none of which clash.
pub struct Progress<'a> {
    pub file: FileScope<'a>,
    pub names: NameTable<()>,
    pub defined: NameTable<()>,
    pub earlier: Earlier<'a>,
    ghost names_known: { Knows names (names_of (map item_of file.items.now)) },
    ghost defined_known: { Knows defined (defined_of (map item_of file.items.now)) },
    ghost earlier_known: { Knows earlier.defined (defined_of (declared file)) },
    ghost kept: { none_clash (declared file) ≡ true },
}

// By hand, so that each place which drops it is proved by one call.
impl Drop for Progress<'_> {
    fn drop(self) {
        let Progress {
            file: _,
            names: _,
            defined: _,
            earlier: _,
        } = self;
    }
}

impl<'a> Progress<'a> {
    /// In front of a unit's first item.
    pub fn new(alloc: Global, items: &'a [Item]) -> Result<Self, Memory>
        ensures items { IfOk result (λ progress. progress.file.items.now ≡ items.now) }
        ensures count { IfOk result (λ progress. progress.file.count ≡ 0) }
        ensures first { IfOk result (λ progress. FindsFirst progress.earlier.first (declared progress.file)) }
    {
        let salt = salt_of(items);
        let names = declared_names(alloc, salt, items)?;
        let defined = defined_names(alloc, salt, items)?;
        let earlier = Earlier::new(alloc, salt);
        let file = FileScope::new(alloc, salt, items);
        Ok(Progress {
            file,
            names,
            defined,
            earlier,
        })
    }

    /// Behind the next item too, which breaks no rule by itself.
    pub fn behind_next(self, alloc: Global, item: &'a Item) -> Result<Self, Memory>
        requires room { self.file.count < length self.file.items.now }
        requires next { item.now ≡ slice_index_or self.file.items.now self.file.count item.now }
        requires kept { item_breaks (item_place self.file item.now) ≡ None }
        requires found { FindsFirst self.earlier.first (declared self.file) }
        ensures items { IfOk result (λ progress. progress.file.items.now ≡ self.entry.file.items.now) }
        ensures count { IfOk result (λ progress. progress.file.count ≡ self.entry.file.count + 1) }
        ensures first { IfOk result (λ progress. FindsFirst progress.earlier.first (declared progress.file)) }
    {
        let Progress {
            file,
            names,
            defined,
            mut earlier,
        } = self;
        enter_first(alloc, &mut earlier.first, item)?;
        put(alloc, &mut earlier.defined, defined_name(item))?;
        let file = file.behind_next(alloc)?;
        Ok(Progress {
            file,
            names,
            defined,
            earlier,
        })
    }
}
