// Each adapter once, and the calls that are made to fail.
use std::alloc::Global;
use std::test::Fail;
use w2c_io::{
    FileCall, Files, MemFiles, MemSink, ReadAnswer, Sink, StdFiles, StdSink, SureFiles, SureSink,
    WriteAnswer,
};

// Writes two pieces into a file and reads it again.
fn write_and_read<F: Files>(alloc: Global, files: &mut F) -> Result<bool, Fail> {
    files.begin("out.c")?;
    if files.put(b"ab").is_err() || files.put(b"cd").is_err() || files.finish().is_err() {
        return Ok(false);
    }
    let read = files.read(alloc, "out.c", 4)?;
    Ok(read.as_slice() == b"abcd".as_slice() && files.read(alloc, "out.c", 3).is_err())
}

// Whether files that never fail hold what is added and what is written.
fn sure_files_hold(alloc: Global, files: &mut SureFiles) -> Result<bool, Fail> {
    files.add("a", b"1")?;
    let are_written = write_and_read(alloc, files)?;
    Ok(are_written && files.get("a") == Some(b"1".as_slice()) && files.get("b").is_none())
}

// Whether a file that stands is written anew.
fn files_are_written_anew(alloc: Global, files: &mut MemFiles) -> Result<bool, Fail> {
    files.add("out.c", b"long before")?;
    let are_written = write_and_read(alloc, files)?;
    Ok(are_written && files.get("out.c") == Some(b"abcd".as_slice()))
}

#[test]
fn files_in_memory(rt: HostRuntime) -> Result<(), Fail> {
    let alloc = rt.alloc();
    let mut sure = SureFiles::new(alloc);
    let sure_hold = sure_files_hold(alloc, &mut sure);
    drop(sure);
    assert!(rt; sure_hold?);
    let mut files = MemFiles::new(alloc);
    let are_written = files_are_written_anew(alloc, &mut files);
    drop(files);
    assert!(rt; are_written?);
    Ok(())
}

// Whether the calls fail that are to, and no others.
fn calls_fail_as_planned(alloc: Global, files: &mut MemFiles) -> Result<bool, Fail> {
    files.add("a", b"1")?;
    files.fail(FileCall::Read, 2)?;
    files.fail(FileCall::Begin, 1)?;
    files.fail(FileCall::Put, 1)?;
    let mut right = files.read(alloc, "a", 9).is_ok();
    right &= files.read(alloc, "a", 9).err() == Some(ReadAnswer::Failed);
    right &= files.read(alloc, "b", 9).err() == Some(ReadAnswer::Absent);
    files.fail(FileCall::Read, 4)?;
    right &= files.read(alloc, "b", 9).err() == Some(ReadAnswer::Failed);
    right &= files.begin("a").is_err();
    files.begin("a")?;
    right &= files.put(b"12345").is_err();
    Ok(right && files.get("a") == Some(b"12".as_slice()))
}

#[test]
fn planned_calls_fail(rt: HostRuntime) -> Result<(), Fail> {
    let alloc = rt.alloc();
    let mut files = MemFiles::new(alloc);
    let right = calls_fail_as_planned(alloc, &mut files);
    drop(files);
    assert!(rt; right?);
    Ok(())
}

// Whether a stream holds what is put, and half of what is put as it fails.
fn half_is_put(sink: &mut MemSink) -> Result<bool, Fail> {
    sink.fail(2)?;
    sink.put(b"line")?;
    let fails = sink.put(b"more").is_err();
    Ok(fails && sink.bytes() == b"linemo".as_slice())
}

#[test]
fn sinks(rt: HostRuntime) -> Result<(), Fail> {
    let alloc = rt.alloc();
    let mut sure = SureSink::new(alloc);
    sure.put(b"line")?;
    let is_whole = sure.bytes() == b"line".as_slice();
    drop(sure);
    assert!(rt; is_whole);
    let mut sink = MemSink::new(alloc);
    let is_half = half_is_put(&mut sink);
    drop(sink);
    assert!(rt; is_half?);
    Ok(())
}

// Whether the files of the system are written and read, and what is no file is not.
fn system_files_hold(alloc: Global, files: &mut StdFiles<'_>) -> Result<bool, Fail> {
    let mut right = write_and_read(alloc, files)?;
    right &= files.read(alloc, "absent", 9).err() == Some(ReadAnswer::Failed);
    right &= files.read(alloc, ".", 9).err() == Some(ReadAnswer::Failed);
    right &= files.begin("absent/out.c") == Err(WriteAnswer::Failed);
    Ok(right)
}

#[test]
fn the_system(rt: HostRuntime) -> Result<(), Fail> {
    let alloc = rt.alloc();
    let mut files = StdFiles::new(&rt, alloc);
    let right = system_files_hold(alloc, &mut files);
    drop(files);
    assert!(rt; right?);
    StdSink::out(&rt).put(b"out\n")?;
    StdSink::err(&rt).put(b"err\n")?;
    Ok(())
}
