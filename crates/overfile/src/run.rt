//! A run over the lines of the input.

ghost use Rattle.std.specs.Prelude.{◌≡◌, ◌≢◌, ◌≤◌};
ghost use Rattle.std.specs.Io.KnownBytes.{Keeps};
ghost use Rattle.overfile.specs.Asked.{AsksFor};
ghost use Rattle.overfile.specs.Synced.{IsSynced};

use crate::begin::desk_over;
use crate::desk::Desk;
use crate::options::Options;
use blockdev::BlockDevice;
use cachecore::Reply;
use script::run::MAX_LINE;
use script::{Command, print_polled, print_reply, say};
use std::alloc::Global;
use std::fs::{File, Files};
use std::io::{BufRead, Write};
use storm_text::say_usage;
use textline::{Fault, Fetched, Lines, Printer, Stop, flush, is_blank};

/// Serves the file that the words ask for, and gives the status. What went wrong is said on `err`.
pub fn run_over<F: Files<File = File>, R: BufRead + Drop, W: Write, E: Write>(
    files: &F,
    alloc: Global,
    words: &[&str],
    reader: R,
    out: &mut Printer<W>,
    err: &mut E,
) -> u8
    ensures asked { ((o : Options) → ¬ (AsksFor words.now o)) → (result ≡ 2) × Keeps (W.contents out.old.writer) (W.contents out.new.writer) }
    ensures known { result ≤ 4 }
{
    let Some(options) = Options::parse(words) else {
        let _ = say_usage(err);
        return 2;
    };
    match desk_over(files, alloc, options) {
        Ok(mut desk) => {
            let status = play(alloc, &mut desk, reader, out, err);
            // by a call, since the check is slow where a service goes out of scope
            drop(desk);
            status
        }
        Err(fault) => {
            let _ = writeln!(err, "pcache: {fault}");
            fault.status()
        }
    }
}

/// Makes the calls of the lines and syncs all at their end, also where they end early. Gives the status.
pub fn play<D: BlockDevice, R: BufRead + Drop, W: Write, E: Write>(
    alloc: Global,
    desk: &mut Desk<D>,
    reader: R,
    out: &mut Printer<W>,
    err: &mut E,
) -> u8
    ensures synced { result ≢ 1 → IsSynced desk.new }
    ensures known { result ≤ 4 }
{
    let end = answer_lines(alloc, desk, Lines::new(alloc, reader), out);
    let synced = desk.sync_all();
    let flushed = flush(&mut out.writer);
    if let Err(refusal) = synced {
        let _ = writeln!(err, "pcache: {refusal}");
        return 1;
    }
    match end.and(flushed) {
        Ok(()) => 0,
        Err(stop) => {
            let _ = say(err, stop);
            stop.status()
        }
    }
}

/// Answers the lines, one after the other.
fn answer_lines<D: BlockDevice, R: BufRead + Drop, W: Write>(
    alloc: Global,
    desk: &mut Desk<D>,
    mut lines: Lines<R>,
    out: &mut Printer<W>,
) -> Result<(), Stop> {
    'lines: for _ in 0..u64::MAX {
        match lines.fetch(MAX_LINE, &mut out.writer)? {
            Fetched::Line => { answer_line(alloc, desk, lines.number, lines.line.as_slice(), out)? }
            Fetched::TooLong => return Err(Stop::Malformed(lines.number)),
            Fetched::End => return Ok(()),
        }
    }
    Err(Stop::Input)
}

fn answer_line<D: BlockDevice, W: Write>(
    alloc: Global,
    desk: &mut Desk<D>,
    number: u64,
    line: &[u8],
    out: &mut Printer<W>,
) -> Result<(), Stop> {
    if is_blank(line) {
        return Ok(());
    }
    match Command::parse(alloc, line) {
        Ok(command) => obey(alloc, desk, number, &command, out),
        Err(Fault::Malformed) => Err(Stop::Malformed(number)),
        Err(Fault::Memory) => Err(Stop::Memory),
    }
}

/// Does what the line of this number asks for. A command that a service has not for an open file is none.
fn obey<D: BlockDevice, W: Write>(
    alloc: Global,
    desk: &mut Desk<D>,
    number: u64,
    command: &Command,
    out: &mut Printer<W>,
) -> Result<(), Stop> {
    match command {
        Command::Step(step) => match desk.step(alloc, step) {
            Some(reply) => print_reply(alloc, out, &reply),
            None => Err(Stop::Malformed(number)),
        },
        Command::Fsync(handle, range) => {
            let reply: Reply = desk.fsync(*handle, *range);
            print_reply(alloc, out, &reply)
        }
        Command::Poll(handle) => print_polled(out, desk.poll(*handle)),
        _ => Err(Stop::Malformed(number)),
    }
}
