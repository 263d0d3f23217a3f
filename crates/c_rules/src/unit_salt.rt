// The key by which the names of units are hashed.
use c_tree::{Body, CType, Func, Item, Name, Num, Stmt};
use name_table::Salted;

/// The key of a unit, of all names that it declares: its items, their parameters, local variables and labels.
pub fn salt_of(items: &[Item]) -> Salted {
    let mut salt = Salted::new();
    absorb_unit(&mut salt, items);
    salt.sealed()
}

/// Takes in all names that a unit declares, for a key of several units.
pub fn absorb_unit(salt: &mut Salted, items: &[Item]) {
    for item in items {
        absorb_item(salt, item);
    }
}

fn absorb_item(salt: &mut Salted, item: &Item) {
    salt.absorb(item.name());
    if let Some(f) = item.function() {
        absorb_function(salt, f);
    }
}

fn absorb_function(salt: &mut Salted, f: &Func) {
    absorb_params(salt, f.params.as_slice());
    match &f.body {
        Some(body) => absorb_body(salt, body),
        None => {}
    }
}

fn absorb_params(salt: &mut Salted, params: &[(CType, Option<Name>)]) {
    for param in params {
        if let Some(name) = &param.1 {
            salt.absorb(name.as_slice());
        }
    }
}

fn absorb_body(salt: &mut Salted, body: &Body) {
    absorb_locals(salt, body.locals.as_slice());
    absorb_labels(salt, body.stmts.as_slice());
}

fn absorb_locals(salt: &mut Salted, locals: &[(CType, Name, Num)]) {
    for local in locals {
        salt.absorb(local.1.as_slice());
    }
}

/// Takes in the labels of statements.
pub fn absorb_labels(salt: &mut Salted, stmts: &[Stmt]) {
    for stmt in stmts {
        if let Some(name) = stmt.label() {
            salt.absorb(name);
        }
    }
}
