// Numbers of function types.
use std::alloc::Global;
use std::test::Fail;
use w2c_base::{FuncType, Types, ValType, sig_number};

fn number_of(alloc: Global, params: &[ValType], ty: Option<ValType>) -> Result<u64, Fail> {
    let params = Types::from_vec(params.to_vec(alloc)?);
    let ty = FuncType { params, result: ty }.copy(alloc)?;
    if ty.params.len() > 60 {
        return Ok(0);
    }
    Ok(sig_number(&ty))
}

#[test]
fn signature_numbers(rt: HostRuntime) -> Result<(), Fail> {
    let alloc = rt.alloc();
    let i32s = [ValType::I32, ValType::I32];
    let numbers = [
        number_of(alloc, &[], None)?,
        number_of(alloc, &[], Some(ValType::I32))?,
        number_of(alloc, &i32s[..1], Some(ValType::I32))?,
        number_of(alloc, &[ValType::I64], None)?,
        number_of(alloc, &i32s, Some(ValType::I32))?,
    ];
    assert_eq!(rt; numbers, [3, 4, 7, 9, 13]);
    Ok(())
}
