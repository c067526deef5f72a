//! Scripts with what they print, what is said on standard error, and the status.

use crate::checks::same;
use script::run::run_script;
use std::alloc::Global;
use std::io::{BufReader, ErrorKind, Read, Result as IoResult, Write};
use std::process::Abort;
use std::test::Fail;
use textline::{Printer, Stop};

/// What a run of a script gives.
#[derive(Clone, Copy)]
pub struct Outcome<'a> {
    pub output: &'a str,
    pub message: &'a str,
    pub status: u8,
}

pub fn check(
    rt: &impl Abort,
    alloc: Global,
    script: &[u8],
    expected: &Outcome<'_>,
) -> Result<(), Fail> {
    let mut out = Printer::new(alloc, Vec::new(alloc));
    let mut message = Vec::new(alloc);
    let ended = run_script(alloc, script, &mut out, &mut message);
    let output = std::str::from_utf8(out.writer.as_slice())?;
    same(rt, output, expected.output);
    same(
        rt,
        std::str::from_utf8(message.as_slice())?,
        expected.message,
    );
    same(rt, ended.status(), expected.status);
    same(rt, ended.is_said, true);
    Ok(())
}

/// Scripts of which no line is malformed.
fn check_answers(rt: &impl Abort, alloc: Global, scripts: &[(&str, &str)]) -> Result<(), Fail> {
    for (script, output) in scripts {
        let expected = Outcome {
            output,
            message: "",
            status: 0,
        };
        check(rt, alloc, script.as_bytes(), &expected)?;
    }
    Ok(())
}

/// A read, a write, and what is refused of them, each line beside its answer.
#[test]
fn reads_and_writes_are_answered(rt: HostRuntime) -> Result<(), Fail> {
    let alloc = rt.alloc();
    let ab = "ab".repeat(alloc, 256)?;
    let zeros = "00".repeat(alloc, 20)?;
    let too_long = format!(in alloc; "create\nopen 0\nwrite 0 0 {ab}\nwrite 0 1 {ab}\n")?;
    let too_dirty = format!(in alloc; "create\nopen 0\nwrite 0 0 {ab}\nwrite 0 256 ff\nsize 0\n")?;
    let gap = format!(in alloc;
        "file 0\nhandle 0\nwrote 1\nmiss 0\nfilled\nbytes {zeros}ff\nsize 21\n"
    )?;
    let scripts = [
        ("", ""),
        (
            "create\nopen 0\nread 0 0 10\nsize 0\nappend 0 aa\nsize 0\n",
            "file 0\nhandle 0\nbytes -\nsize 0\nwrote 1\nsize 1\n",
        ),
        (
            "create\nopen 0\nwrite 0 20 ff\nread 0 0 21\nfill 0 0\nread 0 0 21\nsize 0\n",
            gap.as_str(),
        ),
        (
            too_long.as_str(),
            "file 0\nhandle 0\nwrote 256\nrefused 6\n",
        ),
        (
            too_dirty.as_str(),
            "file 0\nhandle 0\nwrote 256\nrefused 10\nsize 256\n",
        ),
        (
            "create\nopen 0\nwrite 0 1099511627775 ff\nwrite 0 1099511627776 ff\nsize 0\ntags 0 68719476735\n",
            "file 0\nhandle 0\nwrote 1\nrefused 7\nsize 1099511627776\nD\n",
        ),
    ];
    check_answers(&rt, alloc, &scripts)
}

/// What a script's first lines say of the cache's sizes, and lines that say nothing.
#[test]
fn first_lines_are_answered(rt: HostRuntime) -> Result<(), Fail> {
    let scripts = [
        // Digits of either case are read, and lower case is printed.
        (
            "config 32 48 16 64\ncreate\nopen 0\nwrite 0 0 aBCd\nread 0 0 131072\nfill 0 0\nfill 0 1",
            "configured\nfile 0\nhandle 0\nwrote 2\nbytes abcd\npresent\ngone\n",
        ),
        // After a refused `config` there is a cache all the same.
        (
            "config 15 48 16 64\ncreate\ntags 0 9\ntags 1 0\n",
            "refused 1\nfile 0\nabsent\nrefused 5\n",
        ),
        // An empty line and a comment print nothing, and may come before `config`.
        (
            "\n#\nconfig 16 48 16 64\n\n# config\ncreate\nopen 0\nclose 0\nclose 0\n",
            "configured\nfile 0\nhandle 0\nclosed\nrefused 4\n",
        ),
    ];
    check_answers(&rt, rt.alloc(), &scripts)
}

/// A line that is none ends the run, and the answers before it stand.
#[test]
fn malformed_lines_end_a_script(rt: HostRuntime) -> Result<(), Fail> {
    let alloc = rt.alloc();
    let long = "x".repeat(alloc, 300_001)?;
    let lines = [
        "read 0 00 1",
        "read 0  0 1",
        "close 0 ",
        "write 0 0 abc",
        "write 0 0",
        "size 18446744073709551616",
        "size +0",
        "read 0 0 131073",
        "config 16 48 16 64",
        "create\r",
        " create",
        "Create",
        "write 0 0 0g",
        "append 0 --",
        "evict 0",
        "fail 0 5",
        "fail 0 5 both",
        "fail 0 65536 old",
        "sync 0 1",
        "fsync 0 1 2 3",
        long.as_str(),
    ];
    let expected = Outcome {
        output: "file 0\nhandle 0\n",
        message: "pcache: line 3: malformed\n",
        status: 2,
    };
    for line in &lines {
        let script = format!(in alloc; "create\nopen 0\n{line}\nsize 0\n")?;
        check(&rt, alloc, script.as_bytes(), &expected)?;
    }
    Ok(())
}

/// A line is told by its number, with the lines that say nothing.
#[test]
fn malformed_lines_are_counted(rt: HostRuntime) -> Result<(), Fail> {
    let alloc = rt.alloc();
    let alone = Outcome {
        output: "",
        message: "pcache: line 1: malformed\n",
        status: 2,
    };
    check(&rt, alloc, b"read 0 0", &alone)?;
    let counted = Outcome {
        output: "file 0\n",
        message: "pcache: line 5: malformed\n",
        status: 2,
    };
    check(&rt, alloc, b"\n# \xff\xfe\0\ncreate\n\nopen\n", &counted)
}

/// A writer that counts its bytes, and remembers how many there were at each flush.
#[derive(Drop)]
struct Flushes {
    count: usize,
    flushed: Vec<usize>,
}

impl Write for Flushes {
    fn write(&mut self, buf: &[u8]) -> IoResult<usize> {
        self.count = self.count.saturating_add(buf.len());
        Ok(buf.len())
    }

    fn flush(&mut self) -> IoResult<()> {
        self.flushed.push(self.count)?;
        Ok(())
    }
}

/// Whoever reads the answers has that of each line before the next line is asked for.
#[test]
fn answers_are_flushed_before_input_is_awaited(rt: HostRuntime) -> Result<(), Fail> {
    let alloc = rt.alloc();
    let reader = b"create\n"
        .as_slice()
        .chain(b"open 0\n".as_slice())
        .chain(b"size 0\n".as_slice());
    let flushes = Flushes {
        count: 0,
        flushed: Vec::new(alloc),
    };
    let mut out = Printer::new(alloc, flushes);
    let mut message = Vec::new(alloc);
    let ended = run_script(alloc, reader, &mut out, &mut message);
    same(&rt, ended.end, Ok(()));
    // `file 0`, `handle 0` and `size 0` are 7, 9 and 7 bytes with their ends; at the end of the script all is flushed again.
    let flushed = [0, 7, 16, 23, 23];
    same(
        &rt,
        out.writer.flushed.as_slice() == flushed.as_slice(),
        true,
    );
    Ok(())
}

/// Neither gives nor takes a byte.
#[derive(Drop)]
struct Broken;

impl Read for Broken {
    fn read(&mut self, _buf: &mut [u8]) -> IoResult<usize> {
        Err(ErrorKind::ConnectionReset.into())
    }
}

impl Write for Broken {
    fn write(&mut self, _buf: &[u8]) -> IoResult<usize> {
        Err(ErrorKind::BrokenPipe.into())
    }

    fn flush(&mut self) -> IoResult<()> {
        Ok(())
    }
}

/// Where the input or the output fails, that is said, and the status is 3.
#[test]
fn failing_streams_end_a_script(rt: HostRuntime) -> Result<(), Fail> {
    let alloc = rt.alloc();
    let mut out = Printer::new(alloc, Vec::new(alloc));
    let mut message = Vec::new(alloc);
    let reader = b"create\n".as_slice().chain(BufReader::new(alloc, Broken)?);
    let ended = run_script(alloc, reader, &mut out, &mut message);
    let output = std::str::from_utf8(out.writer.as_slice())?;
    same(&rt, output, "file 0\n");
    let said = std::str::from_utf8(message.as_slice())?;
    same(&rt, said, "pcache: input failed\n");
    same(&rt, ended.status(), 3);
    message.clear();
    let mut out = Printer::new(alloc, Broken);
    let ended = run_script(alloc, b"create\n".as_slice(), &mut out, &mut message);
    let said = std::str::from_utf8(message.as_slice())?;
    same(&rt, said, "pcache: output failed\n");
    same(&rt, ended.status(), 3);
    Ok(())
}

/// Takes as many bytes as it has room for.
#[derive(Drop)]
struct Full {
    taken: Vec<u8>,
    room: usize,
}

impl Write for Full {
    fn write(&mut self, buf: &[u8]) -> IoResult<usize> {
        let count = buf.len().min(self.room);
        self.taken.extend_from_slice(&buf[..count])?;
        self.room -= count;
        Ok(count)
    }

    fn flush(&mut self) -> IoResult<()> {
        Ok(())
    }
}

/// Where the output fails within a line, a beginning of that line stands; and where standard error takes nothing, nothing was said.
#[test]
fn a_full_output_has_a_beginning(rt: HostRuntime) {
    let alloc = rt.alloc();
    let full = Full {
        taken: Vec::new(alloc),
        room: 12,
    };
    let mut out = Printer::new(alloc, full);
    let script = b"create\nopen 0\nsize 0\n".as_slice();
    let ended = run_script(alloc, script, &mut out, &mut Broken);
    same(&rt, ended.end, Err(Stop::Output));
    same(&rt, ended.is_said, false);
    let taken = out.writer.taken.as_slice();
    same(&rt, taken == b"file 0\nhandl".as_slice(), true);
}
