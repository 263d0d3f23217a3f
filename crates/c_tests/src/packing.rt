// Statements that are kept as bytes until they are asked for.
use c_tree::{Stmt, Stmts, label};
use packed_stmts::{Parts, Statements};
use std::alloc::Global;
use std::test::Fail;
use w2c_base::Memory;

// More than lie there as they are.
const MANY: usize = 1500;

fn labels(alloc: Global) -> Result<Statements, Memory> {
    let mut stmts = Statements::new(alloc);
    for number in 0..MANY {
        stmts.push(label(alloc, number)?)?;
    }
    Ok(stmts)
}

fn names(stmts: &Stmts, place: usize, name: &[u8]) -> bool {
    match stmts.as_slice().get(place) {
        Some(Stmt::Label(label)) => label.as_slice() == name,
        _ => false,
    }
}

fn are_all(stmts: &Stmts) -> bool {
    stmts.as_slice().len() == MANY
        && names(stmts, 0, b"L0")
        && names(stmts, 1024, b"L1024")
        && names(stmts, 1499, b"L1499")
}

#[test]
fn statements_come_back_in_order(rt: HostRuntime) -> Result<(), Fail> {
    let stmts = labels(rt.alloc())?;
    let count = stmts.len();
    let all = stmts.into_parts().all()?;
    let right = are_all(&all);
    drop(all);
    assert!(rt; count == MANY && right);
    Ok(())
}

// How many statements the first part has, 0 where there is none.
fn first_count(parts: &mut Parts) -> Result<usize, Memory> {
    match parts.next()? {
        Some(part) => Ok(part.len()),
        None => Ok(0),
    }
}

fn are_last(stmts: &Stmts) -> bool {
    stmts.as_slice().len() == 475 && names(stmts, 375, b"L1399") && names(stmts, 376, b"L1401")
}

#[test]
fn a_label_is_left_out(rt: HostRuntime) -> Result<(), Fail> {
    let mut stmts = labels(rt.alloc())?;
    stmts.leave_out(7);
    stmts.leave_out(1400);
    let mut parts = stmts.into_parts();
    let first = first_count(&mut parts);
    let last = parts.all()?;
    let right = are_last(&last);
    drop(last);
    assert!(rt; first == Ok(1023) && right);
    Ok(())
}
