// The names of the files of a set.
ghost use Rattle.std.specs.Prelude.{◌≡◌, ◌++◌, ◌<◌, All, IfOk, OnOk, IsTrue, List, ℕ, true, codes, string_bytes};
ghost use Rattle.w2c_io.specs.Contents.{Name};
ghost use Rattle.w2c_mangle.specs.Escaping.{escaped};
ghost use Rattle.w2c_files.specs.CFile.{is_c_file};
ghost use Rattle.wasm2c_words.specs.Names.{are_distinct, header_name_of};
ghost use Rattle.wasm2c_words.specs.SetFiles.{c_file_of, files_of, header_of};

use std::alloc::{AllocError, Global};
use w2c_base::Memory;
use w2c_mangle::escape;

/// The name of a module's C file in a directory: `DIR/NAME.c` with the name escaped.
pub fn c_file_in(alloc: Global, dir: &str, module_name: &[u8]) -> Result<String, Memory>
    ensures { IfOk result (λ name. string_bytes name ≡ c_file_of dir.now module_name.now) }
{
    file_in(alloc, dir, module_name, ".c")
}

/// The name of the header beside it: `DIR/NAME.h` with the name escaped.
pub fn header_in(alloc: Global, dir: &str, module_name: &[u8]) -> Result<String, Memory>
    ensures { IfOk result (λ name. string_bytes name ≡ header_of dir.now module_name.now) }
{
    file_in(alloc, dir, module_name, ".h")
}

// The directory, a slash, the escaped name and the ending.
fn file_in(alloc: Global, dir: &str, module_name: &[u8], ending: &str) -> Result<String, Memory>
    ensures { IfOk result (λ name. string_bytes name
        ≡ dir.now ++ (codes "/" ++ (escaped module_name.now ++ ending.now))) }
{
    let escaped = escape(alloc, module_name)?;
    let mut name = String::from_str(alloc, dir)?;
    name.push('/')?;
    put_ascii(&mut name, escaped.as_slice())?;
    name.push_str(ending)?;
    Ok(name)
}

fn put_ascii(name: &mut String, text: &[u8]) -> Result<(), AllocError>
    requires { All (λ b. b < 128) text.now }
    ensures { OnOk result (string_bytes name.new ≡ string_bytes name.old ++ text.now) }
{
    for byte in text {
        name.push(*byte as char)?;
    }
    Ok(())
}

/// The law that the files of a set have distinct names where its modules have, and that a header stands beside its C
/// file.
pub fn files_of_a_set_are_distinct()
    ensures distinct { (dir : Name) (module_names : List (List ℕ)) → are_distinct module_names ≡ true
        → are_distinct (files_of dir module_names) ≡ true }
    ensures c_file { (dir : Name) (module_name : List ℕ) → IsTrue (is_c_file (c_file_of dir module_name)) }
    ensures beside { (dir : Name) (module_name : List ℕ)
        → header_name_of (c_file_of dir module_name) ≡ header_of dir module_name }
{}
