// Numbers and texts of traps.
use std::test::Fail;
use w2c_base::TrapKind;

#[test]
fn a_kind_has_a_number_and_a_text(rt: HostRuntime) -> Result<(), Fail> {
    let kind = TrapKind::from_code(4).ok_or("no kind")?;
    assert!(rt;
        kind == TrapKind::IntOverflow
            && kind.code() == 4
            && kind.text() == "integer overflow"
            && TrapKind::from_code(12).is_none()
    );
    Ok(())
}
