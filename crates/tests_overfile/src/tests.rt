//! Runs over a file of the system.

use crate::checks::same;
use overfile::run_over;
use std::path::{Path, PathBuf};
use std::process::Abort;
use std::test::*;
use std::{env, fs, process};
use textline::Printer;

const USAGE: &str =
    "pcache: usage: pcache run | pcache storm THREADS STEPS [PATH] | pcache torture SEED ROUNDS | pcache over PATH SIZE | pcache shards SHARDS THREADS STEPS\n";

/// What a run over a file is to give.
#[derive(Clone, Copy)]
struct Row<'a> {
    words: &'a [&'a str],
    lines: &'a str,
    output: &'a str,
    message: &'a str,
    status: u8,
}

fn check_row(rt: &impl Abort, host: &HostRuntime, row: Row<'_>) -> Result<(), Fail> {
    let alloc = host.alloc();
    let mut out = Printer::new(alloc, Vec::new(alloc));
    let mut message = Vec::new(alloc);
    let lines = row.lines.as_bytes();
    let status = run_over(host, alloc, row.words, lines, &mut out, &mut message);
    same(rt, std::str::from_utf8(out.writer.as_slice())?, row.output);
    same(rt, std::str::from_utf8(message.as_slice())?, row.message);
    same(rt, status, row.status);
    Ok(())
}

/// A folder of the test's own, and a file in it with this text.
fn file_with(rt: &HostRuntime, name: &str, text: &str) -> Result<(PathBuf, PathBuf), Fail> {
    let mut folder = env::temp_dir(rt)?;
    folder.push(format!(in rt.alloc(); "overfile-{}-{name}", process::id(rt.process()))?.as_str())?;
    fs::create_dir(rt, folder.as_path())?;
    let path = folder.join(rt.alloc(), "file")?;
    fs::write(rt, path.as_path(), text)?;
    Ok((folder, path))
}

/// Whether the file begins so, and has nothing but zeros behind.
fn has(rt: &HostRuntime, path: Path, wanted: &str) -> Result<bool, Fail> {
    let bytes = fs::read(rt, path)?;
    let (front, rest) = bytes.split_at(wanted.len().min(bytes.len()));
    Ok(front == wanted.as_bytes() && rest.iter().all(|byte| *byte == 0))
}

#[test]
fn calls_change_the_file(rt: HostRuntime) -> Result<(), Fail> {
    let (folder, path) = file_with(&rt, "calls", "look here, and there")?;
    let Some(name) = path.as_path().to_str() else {
        return Ok(());
    };
    let row = Row {
        words: &[name, "9"],
        lines: "size 0\n# a comment\n\nwrite 0 5 4845\nread 0 0 100\nappend 0 21\ntruncate 0 12\nread 0 8 9\nfsync 0\npoll 0\n",
        output: "size 9\nwrote 2\nbytes 6c6f6f6b2048457265\nwrote 1\nok\nbytes 65210000\nok\nnone\n",
        message: "",
        status: 0,
    };
    check_row(&rt, &rt, row)?;
    same(&rt, has(&rt, path.as_path(), "look HEre!")?, true);
    fs::remove_dir_all(&rt, folder.as_path())?;
    Ok(())
}

// What was changed before a line that is none is synced.
#[test]
fn a_line_that_is_none_ends_it(rt: HostRuntime) -> Result<(), Fail> {
    let (folder, path) = file_with(&rt, "lines", "look here")?;
    let Some(name) = path.as_path().to_str() else {
        return Ok(());
    };
    for line in [
        "fill 0 0",
        "create",
        "do 0",
        "fail 0 5 old",
        "tags 0 0",
        "size",
        "evict",
    ] {
        let lines = format!(in rt.alloc(); "write 0 0 4c\n{line}\nsize 0\n")?;
        let row = Row {
            words: &[name, "9"],
            lines: lines.as_str(),
            output: "wrote 1\n",
            message: "pcache: line 2: malformed\n",
            status: 2,
        };
        check_row(&rt, &rt, row)?;
    }
    same(&rt, has(&rt, path.as_path(), "Look here")?, true);
    fs::remove_dir_all(&rt, folder.as_path())?;
    Ok(())
}

// Another handle, more pages than a call may touch, and a place past the largest file.
#[test]
fn calls_are_refused_by_numbers(rt: HostRuntime) -> Result<(), Fail> {
    let (folder, path) = file_with(&rt, "numbers", "look here")?;
    let Some(name) = path.as_path().to_str() else {
        return Ok(());
    };
    let row = Row {
        words: &[name, "0"],
        lines: "size 1\nread 1 0 1\nwrite 1 0 ff\nappend 1 ff\ntruncate 1 0\nfsync 1\npoll 1\nwrite 0 1099511627776 ff\nfsync 0 2 1\ntruncate 0 131072\nread 0 0 131072\ntruncate 0 0\nsize 0\n",
        output: "refused 4\nrefused 4\nrefused 4\nrefused 4\nrefused 4\nrefused 4\nrefused 4\nrefused 7\nrefused 24\nok\nrefused 6\nok\nsize 0\n",
        message: "",
        status: 0,
    };
    check_row(&rt, &rt, row)?;
    same(&rt, has(&rt, path.as_path(), "look here")?, true);
    fs::remove_dir_all(&rt, folder.as_path())?;
    Ok(())
}

fn is_refused(
    rt: &impl Abort,
    host: &HostRuntime,
    words: &[&str],
    message: &str,
    status: u8,
) -> Result<(), Fail> {
    let row = Row {
        words,
        lines: "size 0\n",
        output: "",
        message,
        status,
    };
    check_row(rt, host, row)
}

#[test]
fn what_is_no_file_is_refused(rt: HostRuntime) -> Result<(), Fail> {
    let (folder, path) = file_with(&rt, "refused", "look here")?;
    let none = folder.join(rt.alloc(), "none")?;
    let (Some(name), Some(none)) = (path.as_path().to_str(), none.as_path().to_str()) else {
        return Ok(());
    };
    let closed = "pcache: the file can't be opened for reading and writing\n";
    is_refused(&rt, &rt, &[none, "0"], closed, 3)?;
    is_refused(&rt, &rt, &["/", "0"], closed, 3)?;
    let past = "pcache: SIZE is past the end: the file has 9 bytes\n";
    is_refused(&rt, &rt, &[name, "10"], past, 2)?;
    is_refused(&rt, &rt, &[name, "18446744073709551615"], past, 2)?;
    for words in [
        [name, "x"],
        [name, "-1"],
        [name, "01"],
        [name, ""],
        ["9", name],
    ] {
        is_refused(&rt, &rt, &words, USAGE, 2)?;
    }
    is_refused(&rt, &rt, &[], USAGE, 2)?;
    is_refused(&rt, &rt, &[name], USAGE, 2)?;
    is_refused(&rt, &rt, &[name, "9", "9"], USAGE, 2)?;
    same(&rt, has(&rt, path.as_path(), "look here")?, true);
    fs::remove_dir_all(&rt, folder.as_path())?;
    Ok(())
}
