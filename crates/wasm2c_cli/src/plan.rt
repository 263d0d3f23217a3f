// The modules that a line asks for, with the names of their files.
ghost use Rattle.std.specs.Prelude.{◌≡◌, IfOk, IsTrue, map};
ghost use Rattle.w2c_files.specs.CFile.{is_c_file};
ghost use Rattle.wasm2c_cli.specs.Parts.{seen_target, seen_targets};
ghost use Rattle.wasm2c_cli.specs.Plan.{target, target_in};
ghost use Rattle.w2c_files.specs.Words.{names_of};

use std::alloc::Global;
use w2c_base::Memory;
use w2c_files::name_at;
use wasm2c_words::{c_file_in, header_in, header_name, module_name};

/// A module to translate: its name, the C file, and the header beside it.
#[derive(Drop)]
pub struct Target<'a> {
    pub module_name: &'a [u8],
    pub c_file: String,
    pub header: String,
}

impl<'a> Target<'a> {
    /// A module under a name, in a C file.
    pub fn beside(alloc: Global, output: &str, module_name: &'a [u8]) -> Result<Target<'a>, Memory>
        requires { IsTrue (is_c_file output.now) }
        ensures { IfOk result (λ t. seen_target t ≡ target output.now module_name.now) }
    {
        Ok(Target {
            module_name,
            c_file: String::from_str(alloc, output)?,
            header: header_name(alloc, output)?,
        })
    }

    /// The module of a file of a set, in its directory.
    pub fn within(alloc: Global, dir: &str, input: &'a str) -> Result<Target<'a>, Memory>
        ensures { IfOk result (λ t. seen_target t ≡ target_in dir.now input.now) }
    {
        let module_name = module_name(input.as_bytes());
        Ok(Target {
            module_name,
            c_file: c_file_in(alloc, dir, module_name)?,
            header: header_in(alloc, dir, module_name)?,
        })
    }
}

/// The modules of the files of a set.
pub fn set_targets<'a>(
    alloc: Global,
    dir: &str,
    inputs: &[&'a str],
) -> Result<Vec<Target<'a>>, Memory>
    ensures { IfOk result (λ targets. seen_targets targets.items ≡ map (target_in dir.now) (names_of inputs.now)) }
{
    let mut targets = Vec::new(alloc);
    for k in 0..inputs.len() {
        targets.push(Target::within(alloc, dir, name_at(inputs, k))?)?;
    }
    Ok(targets)
}
