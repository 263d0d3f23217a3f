// The form that values fit, and the tests of its words.
ghost use Rattle.std.specs.Prelude.{◌≡◌, option_map};
ghost use Rattle.wasm2c_words.specs.CommandLine.{are_names as are_names_of, generation as generation_of, is_set as is_set_of, line_of_values, line_with_count as with_count_of, line_with_dir as with_dir_of, line_with_output as with_output_of, line_with_runtime as with_runtime_of, translation as translation_of};
ghost use Rattle.w2c_files.specs.Words.{names_of};
ghost use Rattle.wasm2c_words.specs.Seen.{seen_line, seen_values};

use crate::count::count_of;
use crate::file_name::module_name;
use crate::line::{FileSet, Generation, Line, Translation};
use crate::names::{are_distinct, are_module_names};
use crate::values::Values;
use program_words::is_module_name;
use w2c_files::is_c_file;

/// The line of values that fit one of the forms and pass its tests.
pub fn line_of_values<'a>(values: Values<'a>) -> Option<Line<'a>>
    ensures { option_map seen_line result ≡ line_of_values (seen_values values.entry) }
{
    let name = values.module_name;
    match (values.output, values.dir, values.count, values.runtime) {
        (Some(output), None, None, None) => with_output(output, name, values.files.as_slice()),
        (None, Some(dir), None, None) => with_dir(dir, name, values.files),
        (Some(output), None, Some(count), None) => {
            with_count(count, output, name, values.files.as_slice())
        }
        (None, None, None, Some(dir)) => with_runtime(dir, name, values.files.as_slice()),
        _ => None,
    }
}

fn with_output<'a>(output: &'a str, name: Option<&'a str>, files: &[&'a str]) -> Option<Line<'a>>
    ensures { option_map seen_line result ≡ with_output_of output.now (option_map (λ n. n.now) name.entry) (names_of files.now) }
{
    let (input, others) = files.split_first()?;
    let None = others.split_first() else {
        return None;
    };
    match name {
        Some(name) => translation(input, output, name.as_bytes()),
        None => translation(input, output, module_name(input.as_bytes())),
    }
}

fn translation<'a>(input: &'a str, output: &'a str, module_name: &'a [u8]) -> Option<Line<'a>>
    ensures { option_map seen_line result ≡ translation_of input.now output.now module_name.now }
{
    if are_names(output, module_name) {
        return Some(Line::Translate(Translation {
            input,
            output,
            module_name,
        }));
    }
    None
}

fn with_dir<'a>(dir: &'a str, name: Option<&'a str>, files: Vec<&'a str>) -> Option<Line<'a>>
    ensures { option_map seen_line result ≡ with_dir_of dir.now (option_map (λ n. n.now) name.entry) (names_of files.entry.items) }
{
    if let Some(_) = name {
        return None;
    }
    if is_set(files.as_slice()) {
        return Some(Line::Set(FileSet { dir, inputs: files }));
    }
    None
}

fn with_count<'a>(
    count: &str,
    output: &'a str,
    name: Option<&'a str>,
    files: &[&'a str],
) -> Option<Line<'a>>
    ensures { option_map seen_line result
        ≡ with_count_of count.now output.now (option_map (λ n. n.now) name.entry) (names_of files.now) }
{
    let None = files.split_first() else {
        return None;
    };
    let count = count_of(count)?;
    match name {
        Some(name) => generation(count, output, name.as_bytes()),
        None => generation(count, output, b"gen"),
    }
}

fn generation<'a>(count: u32, output: &'a str, module_name: &'a [u8]) -> Option<Line<'a>>
    ensures { option_map seen_line result ≡ generation_of (Some count) output.now module_name.now }
{
    if are_names(output, module_name) {
        return Some(Line::Generate(Generation {
            count,
            output,
            module_name,
        }));
    }
    None
}

fn with_runtime<'a>(dir: &'a str, name: Option<&'a str>, files: &[&'a str]) -> Option<Line<'a>>
    ensures { option_map seen_line result ≡ with_runtime_of dir.now (option_map (λ n. n.now) name.entry) (names_of files.now) }
{
    if let Some(_) = name {
        return None;
    }
    let None = files.split_first() else {
        return None;
    };
    Some(Line::Runtime(dir))
}

fn are_names(output: &str, module_name: &[u8]) -> bool
    ensures { result ≡ are_names_of output.now module_name.now }
{
    is_c_file(output.as_bytes()) && is_module_name(module_name)
}

fn is_set(files: &[&str]) -> bool
    ensures { result ≡ is_set_of (names_of files.now) }
{
    !files.is_empty() && files.len() <= 16 && are_module_names(files) && are_distinct(files)
}
