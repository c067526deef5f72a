//! A run of a trace.

ghost use Rattle.std.specs.Prelude.{OnOk};
ghost use Rattle.std.specs.FinMap as map;
ghost use Rattle.std.specs.Io.KnownBytes.{Appends};
ghost use Rattle.xarray_trace.specs.Answers.{lines_text};
ghost use Rattle.xarray_trace.specs.Runs.{RunsCall, RunsLine};

use crate::answer::{print_answer, print_entry};
use crate::array_call::{ArrayCall, make};
use crate::entries::marked_entry;
use crate::id_call::give;
use crate::operation::Operation;
use crate::word_call::{Watched, watch};
use idalloc::IdAlloc;
use std::alloc::Global;
use std::io::{BufRead, Write};
use textline::{Fetched, Lines, Printer, Stop, is_blank, print_line};
use xarray::XArray;

/// What the lines of a trace work on.
#[derive(Drop)]
pub struct Session {
    pub array: XArray,
    pub ids: IdAlloc,
    pub watched: Watched,
}

/// Runs a trace and prints what each of its lines answers. Gives the status that the program ends with, and says on `err`
/// why where it is not 0.
pub fn run_trace<R: BufRead + Drop, W: Write + Drop, E: Write + Drop>(
    alloc: Global,
    reader: R,
    out: W,
    mut err: E,
) -> u8 {
    let mut out = Printer::new(alloc, out);
    let ended = run_lines(alloc, reader, &mut out);
    // The answers before a stop are printed all the same.
    let ended = if out.writer.flush().is_err() {
        Err(Stop::Output)
    } else {
        ended
    };
    match ended {
        Ok(()) => 0,
        Err(stop) => {
            let _ = writeln!(err, "xarray_trace: {stop}");
            stop.status()
        }
    }
}

fn run_lines<R: BufRead + Drop, W: Write>(
    alloc: Global,
    reader: R,
    out: &mut Printer<W>,
) -> Result<(), Stop> {
    let mut lines = Lines::new(alloc, reader);
    let mut session = Session {
        array: XArray::new(alloc),
        ids: IdAlloc::new(alloc),
        watched: Watched::new(),
    };
    'lines: for _ in 0..u64::MAX {
        match lines.fetch(usize::MAX, &mut out.writer)? {
            Fetched::Line if is_blank(lines.line.as_slice()) => {}
            Fetched::Line => run_line(alloc, &mut session, lines.line.as_slice(), out)?,
            // No memory holds such a line.
            Fetched::TooLong => return Err(Stop::Memory),
            Fetched::End => return Ok(()),
        }
    }
    Err(Stop::Input)
}

/// Runs one line that is neither empty nor a comment.
fn run_line<W: Write>(
    alloc: Global,
    session: &mut Session,
    line: &[u8],
    out: &mut Printer<W>,
) -> Result<(), Stop>
    ensures { OnOk result (RunsLine line.now session.old session.new (W.contents out.old.writer) (W.contents out.new.writer)) }
{
    match Operation::parse(alloc, line)? {
        None => print_line(out, "unknown"),
        Some(Operation::Array(call)) => run_array_call(alloc, &mut session.array, call, out),
        Some(Operation::Id(call)) => {
            let answer = give(alloc, &mut session.ids, call)?;
            print_answer(out, answer)
        }
        Some(Operation::Word(call)) => {
            let answer = watch(&mut session.watched, call);
            print_answer(out, answer)
        }
    }
}

/// Makes a call on the array and prints what it answers.
#[tactic(auto, using(crate::proofs::SumLemmas::appends_both))]
fn run_array_call<W: Write>(
    alloc: Global,
    array: &mut XArray,
    call: ArrayCall,
    out: &mut Printer<W>,
) -> Result<(), Stop>
    ensures { OnOk result (RunsCall array.old call array.new (W.contents out.old.writer) (W.contents out.new.writer)) }
{
    let answer = make(alloc, array, call)?;
    print_answer(out, answer)?;
    if call == ArrayCall::Dump {
        print_entries(array, out)?;
    }
    Ok(())
}

/// Prints each entry on a line.
#[tactic(auto, using(crate::proofs::SumLemmas::printed_none, crate::proofs::SumLemmas::printed_more, crate::proofs::SumLemmas::printed_end))]
fn print_entries<W: Write>(array: &XArray, out: &mut Printer<W>) -> Result<(), Stop>
    ensures { OnOk result (Appends (W.contents out.old.writer) (W.contents out.new.writer) (lines_text (map.entries array.now.ranges))) }
{
    // As in `count_and_hash`.
    let _nodes = array.nodes();
    for found in array.entries(0, u64::MAX) {
        print_entry(out, marked_entry(array, found))?;
    }
    Ok(())
}
