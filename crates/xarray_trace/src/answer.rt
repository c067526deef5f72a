//! What an operation answers, as it is printed.

ghost use Rattle.std.specs.Prelude.{◌≡◌};
ghost use Rattle.textline.specs.Prints.{Writes, ended};
ghost use Rattle.xarray_trace.specs.Answers.{answer_text, marks_text, entry_text};

use crate::entries::Entry;
use errseq::ErrWord;
use pc_types::Refusal;
use std::fmt;
use std::fmt::Display;
use std::io::Write;
use textline::{Printer, Stop, print_line};
use xarray::Found;

#[derive(Clone, Copy, PartialEq, Eq, Debug)]
pub enum Answer {
    Ok,
    None,
    /// The value before.
    Old(u64),
    Value(u64),
    Refused(Refusal),
    Is(bool),
    Entry(Found),
    Count(u64),
    /// How many entries, and their hash.
    Hash(u64, u64),
    Entries(u64),
    Id(u64),
    /// An identifier, and whether the search for it began again.
    CyclicId(u64, bool),
    Word(ErrWord),
    Since(ErrWord),
    Code(u16),
    /// A code, and then the sample and the word after it.
    Advanced(u16, ErrWord, ErrWord),
}

impl Answer {
    ghost use Rattle.std.specs.Prelude.{◌≡◌};
    ghost use Rattle.xarray_trace.specs.Calls.{before_answer, found_answer, value_answer};

    pub fn before(value: Option<u64>) -> Answer
        ensures { result ≡ before_answer value }
    {
        match value {
            Some(value) => Answer::Old(value),
            None => Answer::None,
        }
    }

    pub fn value(value: Option<u64>) -> Answer
        ensures { result ≡ value_answer value }
    {
        match value {
            Some(value) => Answer::Value(value),
            None => Answer::None,
        }
    }

    pub fn found(found: Option<Found>) -> Answer
        ensures { result ≡ found_answer found }
    {
        match found {
            Some(found) => Answer::Entry(found),
            None => Answer::None,
        }
    }
}

/// An error word as it is printed: with 8 hexadecimal digits, as Linux's word of 32 bits, or with 16 where it is past
/// these.
#[derive(Clone, Copy)]
struct Digits(ErrWord);

impl Display for Digits {
    ghost use Rattle.std.specs.Prelude.{Some};
    ghost use Rattle.xarray_trace.specs.Answers.{word_text};

    ghost output = { λ d. Some (word_text d.0) };

    fn fmt<W: fmt::Write>(&self, f: &mut fmt::Formatter<W>) -> fmt::Result {
        let Digits(word) = self;
        if u32::try_from(word.0).is_ok() {
            write!(f, "{:08x}", word.0)
        } else {
            write!(f, "{:016x}", word.0)
        }
    }
}

/// Prints what an operation answered.
pub fn print_answer<W: Write>(out: &mut Printer<W>, answer: Answer) -> Result<(), Stop>
    ensures { Writes result (ended (answer_text answer)) (W.contents out.old.writer) (W.contents out.new.writer) }
{
    match answer {
        Answer::Ok => print_line(out, "ok"),
        Answer::None => print_line(out, "none"),
        Answer::Old(value) => print_line(out, format_args!("old {value}")),
        Answer::Value(value) => print_line(out, format_args!("value {value}")),
        Answer::Refused(refusal) => print_line(out, format_args!("refused {}", refusal.number())),
        Answer::Is(is) => print_line(out, if is { "true" } else { "false" }),
        Answer::Entry(found) => print_line(
            out,
            format_args!("entry {} {} {}", found.first, found.order, found.value),
        ),
        Answer::Count(count) => print_line(out, format_args!("count {count}")),
        Answer::Hash(count, hash) => print_line(out, format_args!("hash {count} {hash:016x}")),
        Answer::Entries(count) => print_line(out, format_args!("entries {count}")),
        Answer::Id(id) => print_line(out, format_args!("id {id}")),
        Answer::CyclicId(id, wrapped) => print_line(
            out,
            format_args!("id {id} {}", if wrapped { "wrapped" } else { "plain" }),
        ),
        Answer::Word(word) => print_line(out, format_args!("word {}", Digits(word))),
        Answer::Since(since) => print_line(out, format_args!("since {}", Digits(since))),
        Answer::Code(code) => print_line(out, format_args!("code {code}")),
        Answer::Advanced(code, since, word) => print_line(
            out,
            format_args!("code {code} since {} word {}", Digits(since), Digits(word)),
        ),
    }
}

/// Prints an entry: its first index, its order, its value and its marks.
pub fn print_entry<W: Write>(out: &mut Printer<W>, entry: Entry) -> Result<(), Stop>
    ensures { Writes result (ended (entry_text entry)) (W.contents out.old.writer) (W.contents out.new.writer) }
{
    let found = entry.found;
    print_line(
        out,
        format_args!(
            "{} {} {} {}",
            found.first,
            found.order,
            found.value,
            marks_text(entry.marks)
        ),
    )
}

/// The digits of the marks that are set.
fn marks_text(marks: u8) -> &'static str
    ensures { result.now ≡ marks_text marks }
{
    match marks {
        1 => "0",
        2 => "1",
        3 => "01",
        4 => "2",
        5 => "02",
        6 => "12",
        7 => "012",
        _ => "-",
    }
}
