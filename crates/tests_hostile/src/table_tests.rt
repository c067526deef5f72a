//! Scripts that fill each table of a cache.

use crate::checks::{check, same};
use script::run_script;
use std::alloc::{AllocError, Global};
use std::process::Abort;
use std::test::Fail;
use textline::Printer;

/// A script, and what it is to answer.
#[derive(Drop)]
struct Rows {
    script: String,
    answers: String,
}

impl Rows {
    /// A cache with one file.
    fn new(alloc: Global) -> Result<Rows, AllocError> {
        let mut rows = Rows {
            script: String::new(alloc),
            answers: String::new(alloc),
        };
        rows.add("create", "file 0")?;
        Ok(rows)
    }

    /// A line and its answer.
    fn add(&mut self, line: &str, answer: &str) -> Result<(), AllocError> {
        self.script.push_str(line)?;
        self.script.push('\n')?;
        self.answers.push_str(answer)?;
        self.answers.push('\n')
    }

    /// A line, and its answers as often as there are numbers, each with its number.
    fn add_numbered(
        &mut self,
        alloc: Global,
        line: &str,
        word: &str,
        first: u64,
        end: u64,
    ) -> Result<(), AllocError> {
        for number in first..end {
            let answer = format!(in alloc; "{word} {number}")?;
            self.add(line, answer.as_str())?;
        }
        Ok(())
    }

    fn are_answered(&self, rt: &impl Abort, alloc: Global) {
        let mut out = Printer::new(alloc, Vec::new(alloc));
        let mut message = Vec::new(alloc);
        let ended = run_script(alloc, self.script.as_bytes(), &mut out, &mut message);
        same(rt, ended.end, Ok(()));
        check(rt, out.writer.as_slice() == self.answers.as_bytes());
        check(rt, message.is_empty());
    }
}

/// 64 requests are in flight, and one that ends makes place for another.
#[test]
fn requests_in_flight(rt: HostRuntime) -> Result<(), Fail> {
    let alloc = rt.alloc();
    let mut rows = Rows {
        script: String::new(alloc),
        answers: String::new(alloc),
    };
    rows.add("config 16 128 96 128", "configured")?;
    rows.add("create", "file 0")?;
    rows.add("open 0", "handle 0")?;
    let many = "ab".repeat(alloc, 256)?;
    for part in 0..5u64 {
        let line = format!(in alloc; "write 0 {} {many}", part * 256)?;
        rows.add(line.as_str(), "wrote 256")?;
    }
    rows.add_numbered(alloc, "flush 0", "job", 0, 64)?;
    rows.add("flush 0", "refused 11")?;
    rows.add("do 0", "done")?;
    rows.add("end 0", "written")?;
    rows.add("flush 0", "job 64")?;
    rows.are_answered(&rt, alloc);
    Ok(())
}

/// 64 syncs are in progress, and one that is given up makes place for another.
#[test]
fn syncs_in_progress(rt: HostRuntime) -> Result<(), Fail> {
    let alloc = rt.alloc();
    let mut rows = Rows::new(alloc)?;
    rows.add("open 0", "handle 0")?;
    rows.add_numbered(alloc, "sync 0", "sync", 0, 64)?;
    rows.add("sync 0", "refused 11")?;
    rows.add("drop 5", "dropped")?;
    rows.add("sync 0", "sync 5")?;
    rows.are_answered(&rt, alloc);
    Ok(())
}

#[test]
fn open_handles(rt: HostRuntime) -> Result<(), Fail> {
    let alloc = rt.alloc();
    let mut rows = Rows::new(alloc)?;
    rows.add_numbered(alloc, "open 0", "handle", 0, 1024)?;
    rows.add("open 0", "refused 3")?;
    rows.are_answered(&rt, alloc);
    Ok(())
}

#[test]
fn files(rt: HostRuntime) -> Result<(), Fail> {
    let alloc = rt.alloc();
    let mut rows = Rows::new(alloc)?;
    rows.add_numbered(alloc, "create", "file", 1, 64)?;
    rows.add("create", "refused 2")?;
    rows.are_answered(&rt, alloc);
    Ok(())
}

/// A read of the most bytes that a line may ask for.
#[test]
fn the_longest_read(rt: HostRuntime) -> Result<(), Fail> {
    let alloc = rt.alloc();
    let mut rows = Rows::new(alloc)?;
    rows.add("open 0", "handle 0")?;
    rows.add("read 0 0 131072", "bytes -")?;
    rows.are_answered(&rt, alloc);
    Ok(())
}
