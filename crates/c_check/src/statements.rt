// The rules of a statement.
ghost use Rattle.std.specs.Prelude.{◌≡◌, ◌&&◌, not, ◌-◌, ℕ, take, is_some, IfOk};
ghost use Rattle.std.specs.List.{list_all};
ghost use Rattle.w2c_base.specs.Lookup.{named};
ghost use Rattle.c_tree.specs.View.{stmt_of};
ghost use Rattle.c_tree.specs.Rules.{label_of, labels_of, labels_named, labels_are_there, cases_are_distinct, if_any};
ghost use Rattle.c_scope.specs.Tables.{Knows};
ghost use Rattle.c_scope.specs.ScopeOf.{scope_of};
ghost use Rattle.c_rules.specs.FirstRule.{stmt_breaks};
ghost use Rattle.c_check.specs.Places.{stmt_place};

use crate::cases::cases_are_distinct;
use crate::shapes::{ends_body, label_is_free, written_type_is_proper};
use c_scope::Scope;
use c_tree::{Name, Num, Stmt};
use c_types::{names_are_known, stmt_is_typed, types_agree};
use name_table::NameTable;
use std::alloc::Global;
use w2c_base::Memory;

/// Whether a name is a label of the function.
fn has_label(labels: &NameTable<()>, name: &Name) -> bool
    ensures { result ≡ is_some (named name.now labels.now) }
{
    labels.has(name.as_slice())
}

fn have_case_labels(labels: &NameTable<()>, cases: &[(Num, Name)]) -> bool
    ensures { result ≡ list_all (λ x. is_some (named x.1 labels.now)) cases.now }
{
    for case in cases {
        if !has_label(labels, &case.1) {
            return false;
        }
    }
    true
}

/// Whether each label that a statement names is there.
#[tactic(auto, using(c_tree::proofs::Tested::list_all_map, c_types::proofs::Tested::all_append, c_types::proofs::Tested::all_one))]
fn named_labels_are_there(labels: &NameTable<()>, stmt: &Stmt) -> bool
    ensures { result ≡ list_all (λ n. is_some (named n labels.now)) (labels_named (stmt_of stmt.now)) }
{
    match stmt {
        Stmt::Goto(name) => has_label(labels, name),
        Stmt::If(_, _, _, name) => has_label(labels, name),
        Stmt::Switch(_, cases, name) => {
            have_case_labels(labels, cases.as_slice()) && has_label(labels, name)
        }
        _ => true,
    }
}

/// Whether a statement is no label that stands earlier.
fn label_is_new(earlier: &NameTable<()>, stmt: &Stmt) -> bool
    ensures { result ≡ if_any (label_of (stmt_of stmt.now)) (λ n. not (is_some (named n earlier.now))) }
{
    match stmt.label() {
        Some(name) => !earlier.has(name),
        None => true,
    }
}

/// Whether the label that a statement is stands nowhere earlier, and those that it names are there.
fn labels_are_there(
    s: &Scope,
    labels: &NameTable<()>,
    earlier: &NameTable<()>,
    number: usize,
    stmt: &Stmt,
) -> bool
    requires labels { Knows labels.now (labels_of (scope_of s.now).body.stmts) }
    requires earlier { Knows earlier.now (labels_of (take (number - 1) (scope_of s.now).body.stmts)) }
    ensures { result ≡ labels_are_there (stmt_place s.now number stmt.now) }
{
    label_is_new(earlier, stmt) && named_labels_are_there(labels, stmt)
}

/// The first rule that a statement breaks.
#[tactic(auto, unfolding(c_rules::specs::FirstRule::stmt_breaks))]
pub fn stmt_rule(
    alloc: Global,
    s: &Scope,
    labels: &NameTable<()>,
    earlier: &NameTable<()>,
    number: usize,
    stmt: &Stmt,
) -> Result<Option<u32>, Memory>
    requires labels { Knows labels.now (labels_of (scope_of s.now).body.stmts) }
    requires earlier { Knows earlier.now (labels_of (take (number - 1) (scope_of s.now).body.stmts)) }
    ensures { IfOk result (λ r. r ≡ stmt_breaks (stmt_place s.now number stmt.now)) }
{
    let distinct = cases_are_distinct(alloc, s, stmt)?;
    if !label_is_free(stmt) {
        return Ok(Some(2));
    }
    if !written_type_is_proper(stmt) {
        return Ok(Some(3));
    }
    if !labels_are_there(s, labels, earlier, number, stmt) {
        return Ok(Some(7));
    }
    if !names_are_known(s, stmt) {
        return Ok(Some(8));
    }
    if !stmt_is_typed(s, stmt) {
        return Ok(Some(9));
    }
    if !types_agree(s, stmt) {
        return Ok(Some(10));
    }
    if !distinct {
        return Ok(Some(11));
    }
    if number == s.body.stmts.len() && !ends_body(stmt) {
        return Ok(Some(12));
    }
    Ok(None)
}
