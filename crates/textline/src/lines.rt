//! The lines of a reader.

ghost use Rattle.std.specs.Prelude.{◌≡◌, ◌+◌, ◌<◌, ◌≤◌, ℕ, List, [], Some, None, MatchBool, IfErr, IfOk, IfSome, IsOkUnless, OnOk, true, length, position, vec_len, nat_lt, if◌then◌else◌};
ghost use Rattle.std.specs.Io.KnownBytes.{Keeps};
ghost use Rattle.textline.specs.Lines.{is_blank, is_newline, Fetches, Goes, HasBegun};
ghost use Rattle.textline.specs.Stops.{IsFault};

use crate::find::find_byte;
use crate::print::flush;
use crate::stop::Stop;
use std::alloc::Global;
use std::io::{BufRead, ErrorKind, Write};

/// What came of asking for a line.
#[derive(Clone, Copy, PartialEq, Eq, Debug)]
pub enum Fetched {
    Line,
    /// More bytes than a line may have. The rest of them is not read.
    TooLong,
    /// The input has ended.
    End,
}

/// What came of one look at the reader's buffer.
#[derive(Clone, Copy, PartialEq, Eq, Debug)]
enum Look {
    /// The line goes on.
    Part,
    Ended(Fetched),
}

/// The lines of a reader. A line ends in the byte 0a, which the last line may lack.
#[derive(Drop)]
pub struct Lines<R> {
    /// What has the lines that are not fetched yet.
    pub reader: R,
    /// The line that was fetched last, without its ending.
    pub line: Vec<u8>,
    /// The number of that line, from 1. Empty lines and comments count, too.
    pub number: u64,
    /// Whether all bytes that the reader showed were taken: its next look may wait for more.
    drained: bool,
}

impl<R: BufRead> Lines<R> {
    pub fn new(alloc: Global, reader: R) -> Lines<R>
        ensures number { result.number ≡ 0 }
        ensures reader { result.reader ≡ reader }
    {
        Lines {
            reader,
            line: Vec::new(alloc),
            number: 0,
            drained: true,
        }
    }

    /// Fetches the next line, of at most `most` bytes. Before it may wait for more input it flushes `out`, so that whoever
    /// reads the answers has those of all lines so far.
    pub fn fetch<W: Write>(&mut self, most: usize, out: &mut W) -> Result<Fetched, Stop>
        ensures fetched { IfSome (R.remaining self.old.reader) (λ bytes. IfOk result (λ fetched. Fetches most bytes fetched self.new.line.items (R.remaining self.new.reader))) }
        ensures within { OnOk result (vec_len self.new.line ≤ most) }
        ensures number { OnOk result (self.new.number ≡ self.old.number + 1) }
        ensures fault { IfErr result IsFault }
        ensures out { Keeps (W.contents out.old) (W.contents out.new) }
    {
        // Lines past the last that can be counted are input that failed.
        if self.number == u64::MAX {
            return Err(Stop::Input);
        }
        self.line.clear();
        let fetched = fetch_line(
            &mut self.reader,
            most,
            &mut self.line,
            &mut self.drained,
            out,
        )?;
        self.number += 1;
        Ok(fetched)
    }
}

/// Fetches a line into `line`, look by look.
fn fetch_line<R: BufRead, W: Write>(
    reader: &mut R,
    most: usize,
    line: &mut Vec<u8>,
    drained: &mut bool,
    out: &mut W,
) -> Result<Fetched, Stop>
    requires { line.old.items ≡ [] }
    ensures fetched { IfSome (R.remaining reader.old) (λ bytes. IfOk result (λ fetched. Fetches most bytes fetched line.new.items (R.remaining reader.new))) }
    ensures within { vec_len line.new ≤ most }
    ensures fault { IfErr result IsFault }
    ensures out { Keeps (W.contents out.old) (W.contents out.new) }
{
    'looks: for _ in 0..u64::MAX {
        flush_if(*drained, out)?;
        let (look, is_all) = take_part(reader, most, line)?;
        *drained = is_all;
        match look {
            Look::Part => {}
            Look::Ended(fetched) => return Ok(fetched),
        }
    }
    Err(Stop::Input)
}

fn flush_if<W: Write>(is_due: bool, out: &mut W) -> Result<(), Stop>
    ensures kept { Keeps (W.contents out.old) (W.contents out.new) }
    ensures fault { IsOkUnless result Stop.Output }
{
    if is_due { flush(out) } else { Ok(()) }
}

/// Moves to the line what the reader's buffer has of it, and says whether that was all that the buffer had.
fn take_part<R: BufRead>(
    reader: &mut R,
    most: usize,
    line: &mut Vec<u8>,
) -> Result<(Look, bool), Stop>
    requires { vec_len line.old ≤ most }
    ensures within { vec_len line.new ≤ most }
    ensures fault { IfErr result IsFault }
    ensures goes { (bytes : List ℕ) → HasBegun bytes line.old.items (R.remaining reader.old) → IfOk result (λ r. Goes most bytes r.0 line.new.items (R.remaining reader.new)) }
{
    let available = match reader.fill_buf() {
        Ok(available) => available,
        Err(error) => {
            return if error.kind() == ErrorKind::Interrupted {
                Ok((Look::Part, true))
            } else {
                Err(Stop::of_input(&error))
            };
        }
    };
    if available.is_empty() {
        return Ok((Look::Ended(at_end(line.len())), true));
    }
    let (len, is_ended) = len_before_newline(available);
    if len > most - line.len() {
        return Ok((Look::Ended(Fetched::TooLong), false));
    }
    line.extend_from_slice(&available[..len])?;
    let taken = len_with_newline(len, is_ended);
    let is_all = taken == available.len();
    reader.consume(taken);
    let look = if is_ended {
        Look::Ended(Fetched::Line)
    } else {
        Look::Part
    };
    Ok((look, is_all))
}

/// What comes of a line of so many bytes where the input ends: a last line that lacks its ending, or none.
fn at_end(len: usize) -> Fetched
    ensures { result ≡ (if nat_lt 0 len then Fetched.Line else Fetched.End) }
{
    if len > 0 { Fetched::Line } else { Fetched::End }
}

/// How many bytes come before the end of the line, and whether that is there.
fn len_before_newline(bytes: &[u8]) -> (usize, bool)
    ensures within { result.0 ≤ length bytes.now }
    ensures found { MatchBool result.1 ((position is_newline bytes.now ≡ Some result.0) × (result.0 < length bytes.now)) ((position is_newline bytes.now ≡ None) × (result.0 ≡ length bytes.now)) }
{
    match find_byte(bytes, b'\n') {
        Some(at) => (at, true),
        None => (bytes.len(), false),
    }
}

/// How many bytes the line has with its end, where that is there.
fn len_with_newline(len: usize, is_ended: bool) -> usize
    requires { is_ended ≡ true → len < usize.MAX }
    ensures { result ≡ (if is_ended then len + 1 else len) }
{
    if is_ended { len + 1 } else { len }
}

/// Whether the line is empty or a comment.
pub fn is_blank(line: &[u8]) -> bool
    ensures { result ≡ is_blank line.now }
{
    line.is_empty() || line[0] == b'#'
}
