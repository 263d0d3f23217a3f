// The cases of a switch (C11, 6.8.4.2).
ghost use Rattle.std.specs.Prelude.{◌≡◌, ◌&&◌, ◌<◌, map, length, slice_get, Some, IfOk};
ghost use Rattle.std.specs.List.{list_all};
ghost use Rattle.c_tree.specs.Scope.{type_of};
ghost use Rattle.c_tree.specs.Rules.{case_value, are_distinct_numbers, cases_suit, cases_are_distinct, number_suits, if_any};
ghost use Rattle.c_check.specs.Places.{stmt_place};

use crate::shapes::number_suits;
use c_scope::Scope;
use c_tree::{CType, Name, Num, Stmt};
use c_types::{is_number_type, type_of};
use std::alloc::Global;
use std::collections::BTreeSet;
use w2c_base::Memory;

fn case_value(case: &(Num, Name)) -> u64
    ensures { result ≡ case_value case.now }
{
    match case.0 {
        Num::N32(n) => n as u64,
        Num::N64(n) | Num::Plain(n) => n,
    }
}

fn value_at(cases: &[(Num, Name)], i: usize) -> u64
    requires { i < length cases.now }
    ensures { slice_get (map case_value cases.now) i ≡ Some result }
{
    case_value(&cases[i])
}

/// Whether no two cases have one number.
fn are_distinct_numbers(alloc: Global, cases: &[(Num, Name)]) -> Result<bool, Memory>
    ensures { IfOk result (λ b. b ≡ are_distinct_numbers (map case_value cases.now)) }
{
    let mut behind: BTreeSet<u64> = BTreeSet::new(alloc);
    let mut i = cases.len();
    while i > 0 {
        i -= 1;
        let number = value_at(cases, i);
        if behind.contains(&number) {
            return Ok(false);
        }
        behind.insert(number)?;
    }
    Ok(true)
}

fn each_suits(cases: &[(Num, Name)], t: CType) -> bool
    ensures { result ≡ list_all (λ x. number_suits t x.0) cases.now }
{
    for case in cases {
        if !number_suits(t, case.0) {
            return false;
        }
    }
    true
}

/// Whether the cases are numbers of the switch's type. Nothing is asked where it has none.
fn cases_suit(found: Option<CType>, cases: &[(Num, Name)]) -> bool
    ensures { result ≡ if_any found (cases_suit cases.now) }
{
    match found {
        Some(t) => is_number_type(t) && each_suits(cases, t),
        None => true,
    }
}

/// Whether the cases of a switch are distinct numbers of its type.
pub fn cases_are_distinct(alloc: Global, s: &Scope, stmt: &Stmt) -> Result<bool, Memory>
    ensures { IfOk result (λ b. b ≡ cases_are_distinct (stmt_place s.now 0 stmt.now)) }
{
    match stmt {
        Stmt::Switch(e, cases, _) => {
            let distinct = are_distinct_numbers(alloc, cases.as_slice())?;
            Ok(cases_suit(type_of(s, e), cases.as_slice()) && distinct)
        }
        _ => Ok(true),
    }
}
