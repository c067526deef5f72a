//! Lines and words by the rules of the trace language and of the script language.

use crate::checks::{check, same};
use std::alloc::Global;
use std::io::{BufRead, ErrorKind, Result as IoResult, Write};
use std::process::Abort;
use std::test::Fail;
use textline::{Fault, Fetched, Lines, Printer, Stop, Words, flush, is_blank, numbers, print_line};

fn check_line<R: BufRead>(
    rt: &impl Abort,
    alloc: Global,
    lines: &mut Lines<R>,
    fetched: Fetched,
    line: &[u8],
) {
    let mut out = Vec::new(alloc);
    same(rt, lines.fetch(4, &mut out), Ok(fetched));
    check(rt, lines.line.as_slice() == line);
}

/// A line ends in a newline, which the last may lack; empty lines count.
#[test]
fn lines_are_fetched_in_order(rt: HostRuntime) {
    let mut lines = Lines::new(rt.alloc(), b"ab\n\ncdef\ng".as_slice());
    check_line(&rt, rt.alloc(), &mut lines, Fetched::Line, b"ab");
    check_line(&rt, rt.alloc(), &mut lines, Fetched::Line, b"");
    check_line(&rt, rt.alloc(), &mut lines, Fetched::Line, b"cdef");
    check_line(&rt, rt.alloc(), &mut lines, Fetched::Line, b"g");
    check(&rt, lines.number == 4);
    check_line(&rt, rt.alloc(), &mut lines, Fetched::End, b"");
}

/// A line with a byte more than it may have is none.
#[test]
fn a_line_can_be_too_long(rt: HostRuntime) {
    let mut lines = Lines::new(rt.alloc(), b"abcde\n".as_slice());
    check_line(&rt, rt.alloc(), &mut lines, Fetched::TooLong, b"");
}

/// Whoever prints has handed on what was printed before more input is awaited.
#[test]
fn what_was_printed_is_handed_on(rt: HostRuntime) {
    let mut out = Printer::new(rt.alloc(), Vec::new(rt.alloc()));
    same(&rt, print_line(&mut out, 7u64), Ok(()));
    same(&rt, print_line(&mut out, "none"), Ok(()));
    same(&rt, flush(&mut out.writer), Ok(()));
    check(&rt, out.writer.as_slice() == b"7\nnone\n".as_slice());
}

/// Takes at most two bytes a call, and as many in all as it has room for. Every other call is interrupted.
#[derive(Drop)]
struct Narrow {
    taken: Vec<u8>,
    room: usize,
    is_calm: bool,
}

impl Write for Narrow {
    fn write(&mut self, buf: &[u8]) -> IoResult<usize> {
        self.is_calm = !self.is_calm;
        if !self.is_calm {
            return Err(ErrorKind::Interrupted.into());
        }
        let count = buf.len().min(2).min(self.room);
        self.taken.extend_from_slice(&buf[..count])?;
        self.room -= count;
        Ok(count)
    }

    fn flush(&mut self) -> IoResult<()> {
        Ok(())
    }
}

/// A line is written part by part, and a beginning of it where the output fails.
#[test]
fn a_line_is_written_in_parts(rt: HostRuntime) {
    let narrow = Narrow {
        taken: Vec::new(rt.alloc()),
        room: 8,
        is_calm: true,
    };
    let mut out = Printer::new(rt.alloc(), narrow);
    same(&rt, print_line(&mut out, "none"), Ok(()));
    same(&rt, print_line(&mut out, "written"), Err(Stop::Output));
    check(&rt, out.writer.taken.as_slice() == b"none\nwri".as_slice());
}

/// An empty line and a comment say nothing.
#[test]
fn blank_lines(rt: HostRuntime) {
    check(&rt, is_blank(b""));
    check(&rt, is_blank(b"# size 0"));
    check(&rt, !is_blank(b" #"));
}

/// A number is written as it is printed.
#[test]
fn words_are_numbers(rt: HostRuntime) -> Result<(), Fail> {
    let alloc = rt.alloc();
    let read = numbers(alloc, &mut Words::new(b"0 18446744073709551615"))?;
    check(
        &rt,
        read.is_some_and(|read| read.as_slice() == [0, u64::MAX].as_slice()),
    );
    for line in [
        b"".as_slice(),
        b"1  2",
        b"01",
        b"+1",
        b"-1",
        b"18446744073709551616",
    ] {
        check(
            &rt,
            matches!(numbers(alloc, &mut Words::new(line)), Ok(None)),
        );
    }
    Ok(())
}

/// Each word is taken once, and none is left then.
#[test]
fn words_are_taken_in_order(rt: HostRuntime) {
    let mut words = Words::new(b"write 16 aBCd -");
    check(&rt, words.word() == Some(b"write".as_slice()));
    same(&rt, words.number(), Ok(16));
    check(
        &rt,
        words
            .bytes(rt.alloc())
            .is_ok_and(|read| read.as_slice() == [0xab, 0xcd].as_slice()),
    );
    same(&rt, words.end(), Err(Fault::Malformed));
    check(
        &rt,
        words
            .bytes(rt.alloc())
            .is_ok_and(|read| read.as_slice().is_empty()),
    );
    same(&rt, words.end(), Ok(()));
    same(&rt, words.number(), Err(Fault::Malformed));
}

/// The statuses of the table, and what is said.
#[test]
fn stops_have_their_status(rt: HostRuntime) -> Result<(), Fail> {
    let alloc = rt.alloc();
    check(&rt, Stop::Malformed(3).status() == 2);
    check(&rt, Stop::Input.status() == 3);
    check(&rt, Stop::Output.status() == 3);
    check(&rt, Stop::Memory.status() == 4);
    same(
        &rt,
        Stop::of_input(&ErrorKind::OutOfMemory.into()),
        Stop::Memory,
    );
    same(
        &rt,
        Stop::of_input(&ErrorKind::BrokenPipe.into()),
        Stop::Input,
    );
    let said = format!(in alloc; "{}", Stop::Malformed(3))?;
    check(&rt, said.as_str() == "line 3: malformed");
    Ok(())
}
