// What a command line asks for: one of three forms, and the tests of its words.
ghost use Rattle.std.specs.Prelude.{◌≡◌, IfSome, option_map};
ghost use Rattle.w2c_files.specs.Words.{names_of};
ghost use Rattle.crun_words.specs.CommandLine.{are_units as are_units_of, is_no_run as is_no_run_of, line_of_merge, line_of_run, line_of_trim, line_of_values as line_by_values, trim_of};
ghost use Rattle.crun_words.specs.Seen.{HasFewUnits, seen_line, seen_values};

use crate::numbers::number;
use crate::values::Values;
use w2c_files::is_c_file;

/// How many units one line may name.
pub(crate) const UNITS: usize = 16;

/// `--steps N --calls FILE [--state] [--record J] [--replay J] UNIT.c ..`: how many statements are run in all, the file of
/// the calls, whether the state is shown behind the run, the file that the journal of the run is written to, the file of the
/// journal that is replayed, and the files of 1 to 16 units.
#[derive(Debug, Drop)]
pub struct RunLine<'a> {
    pub steps: u64,
    pub calls: &'a str,
    pub shows_state: bool,
    pub journal: Option<&'a str>,
    pub replayed: Option<&'a str>,
    pub units: Vec<&'a str>,
}

/// `--merge OUT.c UNIT.c ..`: the file to write, and the files of the 1 to 16 units that are merged.
#[derive(Debug, Drop)]
pub struct MergeLine<'a> {
    pub output: &'a str,
    pub units: Vec<&'a str>,
}

/// `--trim OUT.c UNIT.c`: the file to write, and the file of the unit that is trimmed.
#[derive(Clone, Copy, Debug)]
pub struct TrimLine<'a> {
    pub output: &'a str,
    pub unit: &'a str,
}

/// What a command line asks for.
#[derive(Debug, Drop)]
pub enum Line<'a> {
    Run(RunLine<'a>),
    Merge(MergeLine<'a>),
    Trim(TrimLine<'a>),
}

/// The line of values that fit one of the forms and pass its tests.
pub(crate) fn line_of_values<'a>(values: Values<'a>) -> Option<Line<'a>>
    ensures line { option_map seen_line result ≡ line_by_values (seen_values values.entry) }
    ensures few { IfSome result HasFewUnits }
{
    match (values.merged, values.trimmed) {
        (None, None) => run_line(values),
        (Some(output), None) => merge_line(output, values),
        (None, Some(output)) => trim_line(output, values),
        (Some(_), Some(_)) => None,
    }
}

fn run_line<'a>(values: Values<'a>) -> Option<Line<'a>>
    ensures line { option_map seen_line result ≡ line_of_run (seen_values values.entry) }
    ensures few { IfSome result HasFewUnits }
{
    let steps = number(values.steps?.as_bytes())?;
    let calls = values.calls?;
    if !are_units(values.units.as_slice()) {
        return None;
    }
    Some(Line::Run(RunLine {
        steps,
        calls,
        shows_state: values.shows_state,
        journal: values.journal,
        replayed: values.replayed,
        units: values.units,
    }))
}

fn merge_line<'a>(output: &'a str, values: Values<'a>) -> Option<Line<'a>>
    ensures line { option_map seen_line result ≡ line_of_merge output.now (seen_values values.entry) }
    ensures few { IfSome result HasFewUnits }
{
    if !is_no_run(&values) || !is_c_file(output.as_bytes()) || !are_units(values.units.as_slice()) {
        return None;
    }
    Some(Line::Merge(MergeLine {
        output,
        units: values.units,
    }))
}

fn trim_line<'a>(output: &'a str, values: Values<'a>) -> Option<Line<'a>>
    ensures line { option_map seen_line result ≡ line_of_trim output.now (seen_values values.entry) }
    ensures few { IfSome result HasFewUnits }
{
    if !is_no_run(&values) {
        return None;
    }
    trim_of_units(output, values.units.as_slice())
}

fn trim_of_units<'a>(output: &'a str, units: &[&'a str]) -> Option<Line<'a>>
    ensures line { option_map seen_line result ≡ trim_of output.now (names_of units.now) }
    ensures few { IfSome result HasFewUnits }
{
    let (unit, others) = units.split_first()?;
    let None = others.split_first() else {
        return None;
    };
    if is_c_file(output.as_bytes()) {
        return Some(Line::Trim(TrimLine { output, unit }));
    }
    None
}

// Whether no option or flag of a run stands.
fn is_no_run(values: &Values) -> bool
    ensures { result ≡ is_no_run_of (seen_values values.now) }
{
    values.steps.is_none()
        && values.calls.is_none()
        && !values.shows_state
        && values.journal.is_none()
        && values.replayed.is_none()
}

fn are_units(units: &[&str]) -> bool
    ensures { result ≡ are_units_of (names_of units.now) }
{
    !units.is_empty() && units.len() <= UNITS
}
