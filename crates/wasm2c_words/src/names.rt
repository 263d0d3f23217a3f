// Names of files and of modules.
ghost use Rattle.std.specs.Prelude.{◌≡◌, IfOk, IsTrue, map, string_bytes};
ghost use Rattle.std.specs.List.{list_all, list_any};
ghost use Rattle.std.specs.Str.{bytes_eq};
ghost use Rattle.wasm2c_words.specs.Names.{are_distinct as are_distinct_names, header_name_of, module_name_of};
ghost use Rattle.w2c_files.specs.CFile.{is_c_file};
ghost use Rattle.w2c_files.specs.Words.{names_of};
ghost use Rattle.program_words.specs.Tests.{is_module_name as is_module_name_of};

use crate::file_name::module_name;
use program_words::is_module_name;
use std::alloc::{AllocError, Global};

/// The name of the header beside a C file: `.h` in place of `.c`. An error where memory is wanting.
pub fn header_name(alloc: Global, output: &str) -> Result<String, AllocError>
    requires { IsTrue (is_c_file output.now) }
    ensures { IfOk result (λ name. string_bytes name ≡ header_name_of output.now) }
{
    let mut name = String::from_str(alloc, output)?;
    name.pop();
    name.push('h')?;
    Ok(name)
}

/// Whether the modules of the files have names that a module may have.
pub(crate) fn are_module_names(files: &[&str]) -> bool
    ensures { result ≡ list_all is_module_name_of (map module_name_of (names_of files.now)) }
{
    are_of_modules(files)
}

fn are_of_modules(files: &[&str]) -> bool
    ensures { result ≡ list_all (λ file. is_module_name_of (module_name_of file.now)) files.now }
{
    files.iter().all(|file| is_of_module(*file))
}

fn is_of_module(file: &str) -> bool
    ensures { result ≡ is_module_name_of (module_name_of file.now) }
{
    is_module_name(module_name(file.as_bytes()))
}

/// Whether the names of the files' modules are distinct.
pub(crate) fn are_distinct(files: &[&str]) -> bool
    ensures { result ≡ are_distinct_names (map module_name_of (names_of files.now)) }
{
    let mut rest = files;
    while !rest.is_empty() {
        let file = rest[0];
        rest = &rest[1..];
        if is_among(rest, module_name(file.as_bytes())) {
            return false;
        }
    }
    true
}

fn is_among(files: &[&str], name: &[u8]) -> bool
    ensures { result ≡ list_any (λ file. bytes_eq (module_name_of file.now) name.now) files.now }
{
    files.iter().any(|file| is_named(*file, name))
}

fn is_named(file: &str, name: &[u8]) -> bool
    ensures { result ≡ bytes_eq (module_name_of file.now) name.now }
{
    module_name(file.as_bytes()) == name
}
