// Files in memory that are read in order, and one that is written: the happy path, each stop, and what stands then; and names of C files.
use std::alloc::Global;
use std::test::Fail;
use w2c_files::{Limits, ReadStop, is_c_file, read_files, write_file};
use w2c_io::{FileCall, MemFiles, WriteAnswer};

// Puts three files there.
fn add_three(files: &mut MemFiles) -> Result<(), Fail> {
    files.add("a", b"12")?;
    files.add("b", b"345")?;
    files.add("c", b"6")?;
    Ok(())
}

fn are_read_in_order(alloc: Global, files: &mut MemFiles) -> Result<bool, Fail> {
    add_three(files)?;
    let names = ["b", "a"];
    let limits = Limits { each: 3, all: 5 };
    match read_files(alloc, &names, limits, files) {
        Ok(all) => Ok(
            all.len() == 2
                && all[0].as_slice() == b"345".as_slice()
                && all[1].as_slice() == b"12".as_slice(),
        ),
        Err(_) => Ok(false),
    }
}

#[test]
fn files_are_read_in_order(rt: HostRuntime) -> Result<(), Fail> {
    let alloc = rt.alloc();
    let mut files = MemFiles::new(alloc);
    let right = are_read_in_order(alloc, &mut files);
    drop(files);
    assert!(rt; right?);
    Ok(())
}

// Where the reading of three files stops, of which one is absent.
fn stop(alloc: Global, each: usize, all: usize, files: &mut MemFiles) -> Option<ReadStop> {
    let names = ["a", "b", "d"];
    read_files(alloc, &names, Limits { each, all }, files).err()
}

fn stops_where_it_must(alloc: Global, files: &mut MemFiles) -> Result<bool, Fail> {
    add_three(files)?;
    let mut right = matches!(stop(alloc, 2, 9, files), Some(ReadStop::TooLong(1)));
    right &= matches!(stop(alloc, 3, 4, files), Some(ReadStop::Past(1, 2)));
    right &= matches!(stop(alloc, 9, 9, files), Some(ReadStop::Unread(2)));
    files.fail(FileCall::Read, 8)?;
    right &= matches!(stop(alloc, 9, 9, files), Some(ReadStop::Unread(0)));
    Ok(right)
}

#[test]
fn reading_stops(rt: HostRuntime) -> Result<(), Fail> {
    let alloc = rt.alloc();
    let mut files = MemFiles::new(alloc);
    let right = stops_where_it_must(alloc, &mut files);
    drop(files);
    assert!(rt; right?);
    Ok(())
}

fn is_written(files: &mut MemFiles) -> Result<bool, Fail> {
    add_three(files)?;
    let written = write_file("a", b"yz", files).is_ok();
    Ok(written && files.get("a") == Some(b"yz".as_slice()))
}

#[test]
fn a_file_is_written(rt: HostRuntime) -> Result<(), Fail> {
    let mut files = MemFiles::new(rt.alloc());
    let right = is_written(&mut files);
    drop(files);
    assert!(rt; right?);
    Ok(())
}

// Whether a put fails, and then a finish, and what stands behind each.
fn is_written_in_part(files: &mut MemFiles) -> Result<bool, Fail> {
    files.fail(FileCall::Put, 1)?;
    files.fail(FileCall::Finish, 2)?;
    let mut right = write_file("d", b"yz", files) == Err(WriteAnswer::Failed);
    right &= files.get("d") == Some(b"y".as_slice());
    right &= write_file("d", b"yz", files) == Err(WriteAnswer::Failed);
    Ok(right && files.get("d") == Some(b"yz".as_slice()))
}

#[test]
fn writing_stops(rt: HostRuntime) -> Result<(), Fail> {
    let mut files = MemFiles::new(rt.alloc());
    let right = is_written_in_part(&mut files);
    drop(files);
    assert!(rt; right?);
    Ok(())
}

#[test]
fn names_of_c_files(rt: HostRuntime) -> Result<(), Fail> {
    assert!(rt; is_c_file(b"a.c") && !is_c_file(b".c") && !is_c_file(b"a.h"));
    Ok(())
}
