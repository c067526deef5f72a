//! A run of a script.

ghost use Rattle.std.specs.Prelude.{◌≡◌, ℕ, List, None, Some, IfSome, IsOkUnless, OnOk};
ghost use Rattle.std.specs.Io.KnownBytes.{Appends, Keeps};
ghost use Rattle.script.specs.Runs.{CommandGives, ConfigGives, Ends, FailsCall, LineGives, MakesStep, PollsHandle, Says, SyncsFile, TellsTags, default_sizes, message_of, session_of_sizes, status_of_end};
ghost use Rattle.pc_types.specs.Limits.{is_err_code};
ghost use Rattle.textline.specs.Lines.{lines_of};
ghost use Rattle.textline.specs.Prints.{Writes};
ghost use Rattle.textline.specs.Stops.{IsStatus};

use crate::answer::{print_polled, print_refusal, print_reply, print_tags};
use crate::command::Command;
use crate::session::Session;
use blockdev::FaultEffect;
use cachecore::Reply;
use pc_types::{ErrCode, FileId, Geometry, HandleId, PageIndex, Refusal, Serial};
use std::alloc::Global;
use std::io::{BufRead, Write};
use textline::{Fault, Fetched, Lines, Printer, Stop, flush, is_blank, print_line};
use world::Step;

/// The most bytes of a line, without its ending.
pub const MAX_LINE: usize = 300_000;

/// How a run of a script ended.
#[derive(Clone, Copy, PartialEq, Eq, Debug)]
pub struct Ended {
    pub end: Result<(), Stop>,
    /// Whether all that there was to say of it stands on standard error.
    pub is_said: bool,
}

impl Ended {
    /// The status that the program ends with.
    pub fn status(self) -> u8
        ensures status { result ≡ status_of_end self.end }
        ensures known { IsStatus result }
    {
        match self.end {
            Ok(()) => 0,
            Err(stop) => stop.status(),
        }
    }
}

/// Runs a script, and prints what each of its lines answers. Where it ends early, that is said on `err`.
pub fn run_script<R: BufRead + Drop, W: Write, E: Write>(
    alloc: Global,
    reader: R,
    out: &mut Printer<W>,
    err: &mut E,
) -> Ended
    ensures answers { IfSome (R.remaining reader) (λ script. Ends (lines_of script) result.end (W.contents out.old.writer) (W.contents out.new.writer)) }
    ensures said { Says result (E.contents err.old) (E.contents err.new) }
{
    let end = run_and_flush(alloc, reader, out);
    let is_said = match end {
        Ok(()) => true,
        Err(stop) => say(err, stop).is_ok(),
    };
    Ended { end, is_said }
}

/// Says why a run ended.
pub fn say<E: Write>(err: &mut E, stop: Stop) -> std::io::Result<()>
    ensures { OnOk result (Appends (E.contents err.old) (E.contents err.new) (message_of stop)) }
{
    writeln!(err, "pcache: {stop}")
}

/// Runs the lines of a script, and hands on what they printed, also where they end early.
fn run_and_flush<R: BufRead + Drop, W: Write>(
    alloc: Global,
    reader: R,
    out: &mut Printer<W>,
) -> Result<(), Stop>
    ensures { IfSome (R.remaining reader) (λ script. Ends (lines_of script) result (W.contents out.old.writer) (W.contents out.new.writer)) }
{
    let end = run_lines(alloc, reader, out);
    flush(&mut out.writer)?;
    end
}

/// Runs the lines of a script, in a session that they begin with their first command.
fn run_lines<R: BufRead + Drop, W: Write>(
    alloc: Global,
    reader: R,
    out: &mut Printer<W>,
) -> Result<(), Stop>
    ensures { IfSome (R.remaining reader) (λ script. Ends (lines_of script) result (W.contents out.old.writer) (W.contents out.new.writer)) }
{
    let mut lines = Lines::new(alloc, reader);
    let mut session = None;
    let end = answer_lines(alloc, &mut lines, &mut session, out);
    // by a call, since the check is slow where a session goes out of scope
    drop(session);
    end
}

/// Runs the lines, one after the other.
fn answer_lines<R: BufRead, W: Write>(
    alloc: Global,
    lines: &mut Lines<R>,
    session: &mut Option<Session>,
    out: &mut Printer<W>,
) -> Result<(), Stop>
    requires first_line { lines.old.number ≡ 0 }
    requires no_session { session.old ≡ None }
    ensures { IfSome (R.remaining lines.old.reader) (λ script. Ends (lines_of script) result (W.contents out.old.writer) (W.contents out.new.writer)) }
{
    'lines: for _ in 0..u64::MAX {
        match lines.fetch(MAX_LINE, &mut out.writer)? {
            Fetched::Line => run_line(alloc, session, lines.number, lines.line.as_slice(), out)?,
            Fetched::TooLong => return Err(Stop::Malformed(lines.number)),
            Fetched::End => return Ok(()),
        }
    }
    Err(Stop::Input)
}

/// Runs one line, the one of this number.
fn run_line<W: Write>(
    alloc: Global,
    session: &mut Option<Session>,
    number: u64,
    line: &[u8],
    out: &mut Printer<W>,
) -> Result<(), Stop>
    ensures { LineGives session.old number line.now result session.new (W.contents out.old.writer) (W.contents out.new.writer) }
{
    if is_blank(line) {
        return Ok(());
    }
    match Command::parse(alloc, line) {
        Ok(command) => run_command(alloc, session, number, &command, out),
        Err(Fault::Malformed) => Err(Stop::Malformed(number)),
        Err(Fault::Memory) => Err(Stop::Memory),
    }
}

/// Does what a line asks for.
fn run_command<W: Write>(
    alloc: Global,
    session: &mut Option<Session>,
    number: u64,
    command: &Command,
    out: &mut Printer<W>,
) -> Result<(), Stop>
    ensures { CommandGives session.old number command.now result session.new (W.contents out.old.writer) (W.contents out.new.writer) }
{
    match session {
        Some(session) => obey(alloc, session, number, command, out),
        None => begin(alloc, session, number, command, out),
    }
}

/// Does what a command asks for that is not the first.
fn obey<W: Write>(
    alloc: Global,
    session: &mut Session,
    number: u64,
    command: &Command,
    out: &mut Printer<W>,
) -> Result<(), Stop>
    ensures { CommandGives (Some session.old) number command.now result (Some session.new) (W.contents out.old.writer) (W.contents out.new.writer) }
{
    match command {
        Command::Config(_, _, _, _) => Err(Stop::Malformed(number)),
        Command::Step(step) => make_step(alloc, session, step, out),
        Command::Fail(serial, code, effect) => fail_call(session, *serial, *code, *effect, out),
        Command::Fsync(handle, range) => sync_file(alloc, session, *handle, *range, out),
        Command::Poll(handle) => poll_handle(session, *handle, out),
        Command::Tags(file, page) => tell_tags(session, *file, *page, out),
    }
}

/// Does what the first command asks for, in a new session.
fn begin<W: Write>(
    alloc: Global,
    session: &mut Option<Session>,
    number: u64,
    command: &Command,
    out: &mut Printer<W>,
) -> Result<(), Stop>
    ensures { CommandGives None number command.now result session.new (W.contents out.old.writer) (W.contents out.new.writer) }
{
    if let Command::Config(page, frames, dirty_limit, blocks) = command {
        let sizes = Geometry::new(*page, *frames, *dirty_limit, *blocks);
        return configure(alloc, session, sizes, out);
    }
    let mut first = Session::new(alloc, &default_geometry())?;
    let done = obey(alloc, &mut first, number, command, out);
    *session = Some(first);
    done
}

/// Begins a session of these sizes, or where they are refused of the default ones.
fn configure<W: Write>(
    alloc: Global,
    session: &mut Option<Session>,
    sizes: Result<Geometry, Refusal>,
    out: &mut Printer<W>,
) -> Result<(), Stop>
    ensures { ConfigGives sizes result session.new (W.contents out.old.writer) (W.contents out.new.writer) }
{
    match sizes {
        Ok(geometry) => {
            put_session(alloc, session, &geometry)?;
            print_line(out, "configured")
        }
        Err(refusal) => {
            put_session(alloc, session, &default_geometry())?;
            print_refusal(out, refusal)
        }
    }
}

/// Puts a new session of these sizes there.
fn put_session(
    alloc: Global,
    session: &mut Option<Session>,
    geometry: &Geometry,
) -> Result<(), Stop>
    ensures fresh { OnOk result (session.new ≡ Some (session_of_sizes geometry.now)) }
    ensures refused { IsOkUnless result Stop.Memory }
{
    let made = Session::new(alloc, geometry)?;
    drop(session.replace(made));
    Ok(())
}

/// The sizes of a script without a `config` line, or with one that is refused.
fn default_geometry() -> Geometry
    ensures { result ≡ default_sizes }
{
    Geometry::new(16, 48, 16, 64).unwrap()
}

/// Makes one step of the world, and prints its reply.
fn make_step<W: Write>(
    alloc: Global,
    session: &mut Session,
    step: &Step,
    out: &mut Printer<W>,
) -> Result<(), Stop>
    ensures { (printed : List ℕ) × MakesStep session.old step.now printed session.new × Writes result printed (W.contents out.old.writer) (W.contents out.new.writer) }
{
    let reply = session.step(step);
    match (step, &reply) {
        (Step::Call(_), Reply::Done) => print_line(out, "done"),
        _ => print_reply(alloc, out, &reply),
    }
}

/// Makes the device call of a request fail, and prints what came of it.
fn fail_call<W: Write>(
    session: &mut Session,
    serial: Serial,
    code: u16,
    effect: FaultEffect,
    out: &mut Printer<W>,
) -> Result<(), Stop>
    ensures { (printed : List ℕ) × FailsCall session.old serial.0 (is_err_code code) code effect printed session.new × Writes result printed (W.contents out.old.writer) (W.contents out.new.writer) }
{
    let failed = match ErrCode::new(code) {
        Ok(code) => session.fail(serial, code, effect),
        Err(refusal) => Err(refusal),
    };
    match failed {
        Ok(()) => print_line(out, "failed"),
        Err(refusal) => print_refusal(out, refusal),
    }
}

/// Syncs the handle's file, or a range of its pages, from the beginning to the end, and prints what comes of it.
fn sync_file<W: Write>(
    alloc: Global,
    session: &mut Session,
    handle: HandleId,
    range: Option<(PageIndex, PageIndex)>,
    out: &mut Printer<W>,
) -> Result<(), Stop>
    ensures { (printed : List ℕ) × SyncsFile session.old handle range printed session.new × Writes result printed (W.contents out.old.writer) (W.contents out.new.writer) }
{
    let reply = session.fsync(handle, range);
    print_reply(alloc, out, &reply)
}

/// Polls a handle, and prints what it is told.
fn poll_handle<W: Write>(
    session: &mut Session,
    handle: HandleId,
    out: &mut Printer<W>,
) -> Result<(), Stop>
    ensures { (printed : List ℕ) × PollsHandle session.old handle.0 printed session.new × Writes result printed (W.contents out.old.writer) (W.contents out.new.writer) }
{
    print_polled(out, session.poll(handle))
}

/// Prints what is known of a page.
fn tell_tags<W: Write>(
    session: &Session,
    file: FileId,
    page: PageIndex,
    out: &mut Printer<W>,
) -> Result<(), Stop>
    ensures { (printed : List ℕ) × TellsTags session.now file.0 page.0 printed × Writes result printed (W.contents out.old.writer) (W.contents out.new.writer) }
{
    match session.tags(file, page) {
        Ok(tags) => print_tags(out, tags)?,
        Err(refusal) => print_refusal(out, refusal)?,
    }
    Ok(())
}
