// The order of objects.
use crun_lines::names_in_order;
use std::test::Fail;

#[test]
fn short_names_come_first(rt: HostRuntime) -> Result<(), Fail> {
    let alloc = rt.alloc();
    let names = [b"g10".as_slice(), b"g9".as_slice(), b"a9".as_slice()];
    let order = names_in_order(alloc, &names)?;
    let mut numbers = Vec::new(alloc);
    for entry in &order {
        numbers.push(entry.number)?;
    }
    assert!(rt; numbers.as_slice() == [2, 1, 0].as_slice());
    Ok(())
}
