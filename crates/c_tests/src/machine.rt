// A unit of one function, and what its tables find.
use crate::texts::read;
use c_machine::{Tables, definition};
use c_tree::Stmt;
use std::test::Fail;

const UNIT: &str = "#include \"w2c_rt.h\"
static u32 f(u32 a) {
u32 y = 0u;
L1: ;
return y;
}
";

#[test]
fn functions_have_tables(rt: HostRuntime) -> Result<(), Fail> {
    let alloc = rt.alloc();
    let unit = read(alloc, UNIT)?;
    let tables = Tables::new(alloc, &unit)?;
    let Some(function) = tables.function(&unit, 0) else {
        return Err(Fail::new("a function"));
    };
    let next = function.table.statement_from(function.stmts, 0);
    assert!(rt;
        function.table.locals.find(b"y".as_slice()) == Some(1)
            && function.table.labels.find(b"L1".as_slice()) == Some(0)
            && matches!(next, Some((1, Stmt::Null)))
            && definition(&unit, 0).is_some()
    );
    Ok(())
}
