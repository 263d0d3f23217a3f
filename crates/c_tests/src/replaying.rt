// A journal that is read and written.
use host_replay::{JournalFile, read_journal};
use std::alloc::Global;
use std::test::Fail;

const TICKS: &str =
    "module env\nfunction put_i32 i32 = none\nfunction put_i64 i64 = none\nfunction tick = i64\n\
host env tick = i64:1\nhost env tick = i64:2\n";

fn read(alloc: Global, text: &str) -> Result<JournalFile, Fail> {
    if text.len() > 67_108_864 {
        return Err("too long".into());
    }
    match read_journal(alloc, text.as_bytes()) {
        Ok(file) => Ok(file),
        Err(_) => Err(Fail::new("a journal")),
    }
}

#[test]
fn a_journal_is_read_and_written(rt: HostRuntime) -> Result<(), Fail> {
    let file = read(rt.alloc(), TICKS)?;
    assert!(rt; file.module_count() == 1);
    assert_eq!(rt; file.text(rt.alloc())?.as_slice(), TICKS.as_bytes());
    Ok(())
}
