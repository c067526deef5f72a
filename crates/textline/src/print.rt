//! What is printed, line by line.

ghost use Rattle.std.specs.Prelude.{◌≡◌, ◌≤◌, IfErr, IfOk, IfSome, IsOkUnless, length};
ghost use Rattle.std.specs.Io.KnownBytes.{Keeps, WriteAppends};
ghost use Rattle.textline.specs.Prints.{IsPrintFault, Writes, ended};

use crate::stop::Stop;
use std::alloc::Global;
use std::fmt::Display;
use std::io::{ErrorKind, Write};

/// A writer that lines are printed to.
#[derive(Drop)]
pub struct Printer<W> {
    pub writer: W,
    /// The line that is printed. The next one takes its room.
    line: Vec<u8>,
}

impl<W: Write> Printer<W> {
    pub fn new(alloc: Global, writer: W) -> Printer<W>
        ensures { result.writer ≡ writer }
    {
        Printer {
            writer,
            line: Vec::new(alloc),
        }
    }
}

/// Prints one line. It is formatted as a whole before any of it is written.
pub fn print_line<W: Write, D: Display + Drop>(out: &mut Printer<W>, answer: D) -> Result<(), Stop>
    ensures fault { IfErr result IsPrintFault }
    ensures printed { IfSome (D.output answer) (λ text. Writes result (ended text) (W.contents out.old.writer) (W.contents out.new.writer)) }
{
    out.line.clear();
    if out.line.writeln(answer).is_err() {
        return Err(Stop::Memory);
    }
    write_text(&mut out.writer, out.line.as_slice())
}

/// Writes all of the bytes. `write_all` does so too, and does not tell how many it wrote where it fails.
#[tactic(auto, using(crate::proofs::PrintLemmas::part_is_whole))]
fn write_text<W: Write>(out: &mut W, text: &[u8]) -> Result<(), Stop>
    ensures fault { IsOkUnless result Stop.Output }
    ensures written { Writes result text.now (W.contents out.old) (W.contents out.new) }
{
    let mut done = 0;
    'writes: for _ in 0..u64::MAX {
        if done == text.len() {
            return Ok(());
        }
        done += write_part(out, &text[done..])?;
    }
    Err(Stop::Output)
}

/// Writes the first of the bytes, or none where the write was interrupted, and tells how many.
fn write_part<W: Write>(out: &mut W, text: &[u8]) -> Result<usize, Stop>
    ensures within { IfOk result (λ n. n ≤ length text.now) }
    ensures fault { IsOkUnless result Stop.Output }
    ensures written { WriteAppends (W.contents out.old) (W.contents out.new) result text.now }
{
    match out.write(text) {
        Ok(0) => Err(Stop::Output),
        Ok(count) => Ok(count),
        Err(error) => match error.kind() {
            ErrorKind::Interrupted => Ok(0),
            _ => Err(Stop::Output),
        },
    }
}

/// Hands on what was printed.
pub fn flush<W: Write>(out: &mut W) -> Result<(), Stop>
    ensures kept { Keeps (W.contents out.old) (W.contents out.new) }
    ensures fault { IsOkUnless result Stop.Output }
{
    out.flush().map_err(|_| Stop::Output)
}
