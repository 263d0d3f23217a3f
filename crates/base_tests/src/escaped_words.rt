// Names in lines.
use crun_lines::put_name;
use std::test::Fail;
use w2c_base::Bytes;

#[test]
fn names_are_escaped(rt: HostRuntime) -> Result<(), Fail> {
    let alloc = rt.alloc();
    let mut line = Bytes::new(alloc);
    put_name(alloc, &mut line, b"a b")?;
    put_name(alloc, &mut line, b"")?;
    assert!(rt; line.as_slice() == b"aZ20bZ".as_slice());
    Ok(())
}
