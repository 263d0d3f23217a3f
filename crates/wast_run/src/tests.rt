// Scripts over files in memory: the status, the report and the line on the error stream. That ordinary input meets no want of
// memory is said here alone. More rows are in bench/rows.
use crate::top::wast_run_top;
use std::alloc::Global;
use std::test::Fail;
use w2c_base::Memory;
use w2c_io::{MemFiles, MemSink};

#[derive(Clone, Copy)]
struct Row {
    words: &'static str,
    status: u8,
    report: &'static str,
    said: &'static str,
}

// A sum.
const FIRST: &[u8] = b"{\"commands\":[
{\"type\": \"module\", \"name\": \"add\", \"filename\": \"add.wasm\"},
{\"type\": \"assert_return\", \"module\": \"add\", \"field\": \"add\", \"args\": [{\"type\": \"i32\", \"value\": \"4294967295\"}, {\"type\": \"i32\", \"value\": \"1\"}], \"expected\": [{\"type\": \"i32\", \"value\": \"0\"}]}
]}
";

// A trap, files that are not valid, malformed and of floating point, and a loop without an end.
const SECOND: &[u8] = b"{\"commands\":[
{\"type\": \"module\", \"name\": \"d\", \"filename\": \"d.wasm\"},
{\"type\": \"module\", \"name\": \"l\", \"filename\": \"l.wasm\"},
{\"type\": \"assert_trap\", \"module\": \"d\", \"field\": \"div\", \"args\": [{\"type\": \"i32\", \"value\": \"2147483648\"}, {\"type\": \"i32\", \"value\": \"4294967295\"}], \"text\": \"integer overflow\"},
{\"type\": \"assert_malformed\", \"filename\": \"seven.wasm\"},
{\"type\": \"assert_invalid\", \"filename\": \"i.wasm\"},
{\"type\": \"assert_invalid\", \"filename\": \"f.wasm\"},
{\"type\": \"assert_trap\", \"module\": \"l\", \"field\": \"l\", \"args\": [], \"text\": \"unreachable\"}
]}
";

// A module that joins too soon, one that it imports, it again, a call that is kept, and a look at what that left.
const THIRD: &[u8] = b"{\"commands\":[
{\"type\": \"module\", \"name\": \"b\", \"filename\": \"b.wasm\"},
{\"type\": \"module\", \"name\": \"a\", \"filename\": \"a.wasm\"},
{\"type\": \"module\", \"name\": \"b\", \"filename\": \"b.wasm\"},
{\"type\": \"call\", \"module\": \"b\", \"field\": \"again\", \"args\": []},
{\"type\": \"assert_return\", \"module\": \"a\", \"field\": \"peek\", \"args\": [], \"expected\": [{\"type\": \"i32\", \"value\": \"0\"}]}
]}
";

const FILES: [(&str, &[u8]); 12] = [
    (
        "add.wasm",
        b"\0asm\x01\0\0\0\x01\x07\x01`\x02\x7f\x7f\x01\x7f\x03\x02\x01\0\x07\x07\x01\x03add\0\0\n\t\x01\x07\0 \0 \x01j\x0b",
    ),
    (
        "d.wasm",
        b"\0asm\x01\0\0\0\x01\x07\x01`\x02\x7f\x7f\x01\x7f\x03\x03\x02\0\0\x07\r\x02\x03div\0\0\x03rem\0\x01\n\x11\x02\x07\0 \0 \x01m\x0b\x07\0 \0 \x01o\x0b",
    ),
    (
        "l.wasm",
        b"\0asm\x01\0\0\0\x01\x04\x01`\0\0\x03\x02\x01\0\x07\x05\x01\x01l\0\0\n\t\x01\x07\0\x03@\x0c\0\x0b\x0b",
    ),
    ("seven.wasm", b"\0asm\x01\0\0"),
    (
        "i.wasm",
        b"\0asm\x01\0\0\0\x01\x05\x01`\0\x01\x7f\x03\x02\x01\0\x07\x05\x01\x01f\0\0\n\x0b\x01\t\0A\x01\x04\x7fA\x05\x0b\x0b",
    ),
    ("f.wasm", b"\0asm\x01\0\0\0\x01\x05\x01`\0\x01}"),
    (
        "a.wasm",
        b"\0asm\x01\0\0\0\x01\x05\x01`\0\x01\x7f\x03\x03\x02\0\0\x05\x03\x01\0\x01\x06\x06\x01\x7f\x01A\x05\x0b\x07\x18\x04\x03mem\x02\0\x01g\x03\0\x03inc\0\0\x04peek\0\x01\n\x15\x02\x0b\0#\0A\x01j$\0#\0\x0b\x07\0A\0(\x02\0\x0b",
    ),
    (
        "b.wasm",
        b"\0asm\x01\0\0\0\x01\x05\x01`\0\x01\x7f\x02\x19\x03\x01a\x03mem\x02\0\x01\x01a\x01g\x03\x7f\x01\x01a\x03inc\0\0\x03\x02\x01\0\x07\x0f\x02\x03run\0\x01\x05again\0\0\n\x13\x01\x11\0A\0#\06\x02\0\x10\0A\0(\x02\0j\x0b",
    ),
    ("first.json", FIRST),
    ("second.json", SECOND),
    ("third.json", THIRD),
    ("bad.json", b"{\"commands\":[{\"type\":\"module\"}]}"),
];

const ROWS: [Row; 5] = [
    Row {
        words: "--steps 100000 first.json",
        status: 0,
        report: "command 1 ok\ncommand 2 ok\ntotal 2 ok 2\n",
        said: "",
    },
    Row {
        words: "--steps 1000 second.json",
        status: 1,
        report: "command 1 ok\ncommand 2 ok\ncommand 3 ok\ncommand 4 ok\ncommand 5 ok\ncommand 6 failed\ncommand 7 out of steps\ntotal 7 ok 5\n",
        said: "",
    },
    Row {
        words: "--steps 100000 third.json",
        status: 1,
        report: "command 1 unlinked\ncommand 2 ok\ncommand 3 ok\ncommand 4 ok\ncommand 5 ok\ntotal 5 ok 4\n",
        said: "",
    },
    Row {
        words: "--steps 9 bad.json",
        status: 2,
        report: "",
        said: "wast_run: command 1\n",
    },
    Row {
        words: "--steps 9 none.json",
        status: 3,
        report: "",
        said: "wast_run: none.json: read fault\n",
    },
];

fn words_of(alloc: Global, text: &str) -> Result<Vec<String>, Memory> {
    let mut words = Vec::new(alloc);
    for word in text.split_whitespace() {
        words.push(String::from_str(alloc, word)?)?;
    }
    Ok(words)
}

fn scripts(alloc: Global) -> Result<MemFiles, Memory> {
    let mut files = MemFiles::new(alloc);
    for (name, bytes) in FILES {
        files.add(name, bytes)?;
    }
    Ok(files)
}

fn comes_out(alloc: Global, row: &Row, files: &mut MemFiles) -> Result<bool, Memory> {
    let words = words_of(alloc, row.words)?;
    let mut out = MemSink::new(alloc);
    let mut err = MemSink::new(alloc);
    let status = wast_run_top(alloc, words.as_slice(), files, &mut out, &mut err);
    Ok(
        status == row.status
            && out.bytes() == row.report.as_bytes()
            && err.bytes() == row.said.as_bytes(),
    )
}

// The words of the first row that comes out otherwise.
fn first_wrong(alloc: Global) -> Result<Option<&'static str>, Memory> {
    let mut files = scripts(alloc)?;
    for row in &ROWS {
        if !comes_out(alloc, row, &mut files)? {
            return Ok(Some(row.words));
        }
    }
    Ok(None)
}

#[test]
fn reports(rt: HostRuntime) -> Result<(), Fail> {
    assert_eq!(rt; first_wrong(rt.alloc())?, None);
    Ok(())
}
