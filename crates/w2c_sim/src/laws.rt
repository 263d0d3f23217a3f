// Laws of texts and of linked units. Each is the contract of a function that does nothing.
ghost use Rattle.std.specs.Prelude.{◌≡◌, List, ℕ};
ghost use Rattle.wasm_tree.specs.declared.tree.Module.{Module as Tree};
ghost use Rattle.wasm_typing.specs.Verdict.{Accepted};
ghost use Rattle.wasm_valid.specs.FileVerdict.{Read, IsVerdictOn};
ghost use Rattle.w2c_sim.specs.Selections.{TranslationTheorem};
ghost use Rattle.w2c_sim.specs.Translation.{text_of, IsModuleOf, SpellsUnit};

use unit_meaning::{units_do_what_modules_do, units_of_a_linked_set_link};
use unit_rules::units_are_proper;

/// The translation theorem: the units that the texts of translated files spell, in any selection and order
/// that makes a linked set with any hosts, link, and do what the files' modules do, both ways; no run of
/// them is undefined or stuck.
pub fn linked_units_do_what_modules_do()
    ensures { TranslationTheorem }
{
    units_do_what_modules_do();
    units_of_a_linked_set_link();
    units_are_proper();
}

/// A file has one module at most, so its texts depend on its bytes and the name alone; the verdict on the file
/// is that this module is accepted. The text of its unit spells one unit, which keeps the rules of the subset of
/// C and has the module's shape.
pub fn texts_spell_units()
    ensures one { (bytes name : List ℕ) (tree other : Tree)
        → IsModuleOf bytes name tree → IsModuleOf bytes name other → tree ≡ other }
    ensures accepted { (bytes name : List ℕ) (tree : Tree) → IsModuleOf bytes name tree → IsVerdictOn bytes (Read tree Accepted) }
    ensures unit { (bytes name : List ℕ) (tree : Tree)
        → IsModuleOf bytes name tree → SpellsUnit (record { name = name; tree = tree }) (text_of tree name) }
{
    units_are_proper();
}
