// The statements behind labels.
ghost use Rattle.std.specs.Prelude.{◌≡◌, ◌≤◌, map, IfOk};
ghost use Rattle.std.specs.List.{list_any};
ghost use Rattle.c_tree.specs.View.{stmt_of};
ghost use Rattle.c_machine.specs.Names.{is_label as is_label_stmt};
ghost use Rattle.c_machine.specs.Tables.{place_ahead, LeadsBehind};

use c_tree::Stmt;
use std::alloc::Global;
use w2c_base::Memory;

/// The next statement that is no label, from each place of a body on.
#[derive(Drop)]
pub enum Ahead {
    /// No statement is a label: the one at the place is the next.
    AtPlace,
    /// The numbers of the statements by the places, counted from the end of the body.
    FromEnd(Vec<usize>),
}

impl Ahead {
    /// What stands ahead of each place of statements.
    pub fn of(alloc: Global, stmts: &[Stmt]) -> Result<Ahead, Memory>
        ensures { IfOk result (λ ahead. LeadsBehind ahead (map stmt_of stmts.now)) }
    {
        if has_label(stmts) {
            Ok(Ahead::FromEnd(from_end(alloc, stmts)?))
        } else {
            Ok(Ahead::AtPlace)
        }
    }

    /// The number of the statement ahead of a place, in a body of so many statements.
    pub fn place(&self, count: usize, at: usize) -> Option<usize>
        requires { at ≤ count }
        ensures { result ≡ place_ahead self.now count at }
    {
        match self {
            Ahead::AtPlace => Some(at),
            Ahead::FromEnd(places) => places.get(count - at).copied(),
        }
    }
}

fn has_label(stmts: &[Stmt]) -> bool
    ensures { result ≡ list_any (λ s. is_label_stmt (stmt_of s)) stmts.now }
{
    for stmt in stmts {
        if is_label(stmt) {
            return true;
        }
    }
    false
}

// From the end on, for each place the next statement that is no label.
fn from_end(alloc: Global, stmts: &[Stmt]) -> Result<Vec<usize>, Memory>
    ensures { IfOk result (λ places. LeadsBehind (Ahead.FromEnd places) (map stmt_of stmts.now)) }
{
    let mut places = Vec::with_capacity(alloc, stmts.len() + 1)?;
    let mut next = stmts.len();
    places.push(next)?;
    let mut i = stmts.len();
    while i > 0 {
        i -= 1;
        if !is_label(&stmts[i]) {
            next = i;
        }
        places.push(next)?;
    }
    Ok(places)
}

/// Whether a statement is a label.
pub fn is_label(stmt: &Stmt) -> bool
    ensures { result ≡ is_label_stmt (stmt_of stmt.now) }
{
    matches!(stmt, Stmt::Label(_))
}
