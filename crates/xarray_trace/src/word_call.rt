//! The operations of a trace on its error word.

ghost use Rattle.std.specs.Prelude.{◌≡◌, ◌<◌, Some, None, if◌then◌else◌};
ghost use Rattle.pc_types.specs.Limits.{is_err_code};
ghost use Rattle.xarray_trace.specs.Operations.{cursor_of};
ghost use Rattle.xarray_trace.specs.Watches.{watched as made};
ghost use Rattle.xarray_trace.specs.declared.word_call.WordCall.TheVariants as call;

use crate::answer::Answer;
use errseq::ErrWord;
use pc_types::{ErrCode, Refusal};
use std::marker::Model;

/// How many cursors look at the word.
pub const CURSORS: usize = 8;

/// The error word, and the sample of each cursor.
#[derive(Clone, Copy)]
pub struct Watched {
    pub word: ErrWord,
    pub samples: [ErrWord; CURSORS],
}

/// The number of a cursor, below `CURSORS`.
#[derive(Clone, Copy, PartialEq, Eq, Debug)]
pub struct Cursor {
    number: usize,
}

impl Model for Cursor {
    ghost use Rattle.std.specs.Prelude.{ℕ, ◌<◌};

    ghost Value = { ℕ };

    ghost view = { λ c. c.number };

    ghost invariant = { λ c. c.number < 8 };

    ghost inverse = { λ n. record { number = n } };
}

impl Cursor {
    /// The cursor of a number, where there is one.
    pub fn new(number: u64) -> Option<Cursor>
        ensures { result ≡ cursor_of number }
    {
        if number < CURSORS as u64 {
            Some(Cursor {
                number: number as usize,
            })
        } else {
            None
        }
    }

    fn index(self) -> usize
        ensures value { result ≡ self }
        ensures within { result < CURSORS }
    {
        self.number
    }
}

#[derive(Clone, Copy, PartialEq, Eq, Debug)]
pub enum WordCall {
    New,
    Set(u64),
    Sample(Cursor),
    Check(Cursor),
    Advance(Cursor),
}

impl Watched {
    ghost use Rattle.std.specs.Prelude.{◌≡◌};
    ghost use Rattle.xarray_trace.specs.Watches.{fresh};

    /// A word on which nothing was recorded, and cursors that know of nothing.
    pub fn new() -> Watched
        ensures { result ≡ fresh }
    {
        Watched {
            word: ErrWord(0),
            samples: [ErrWord(0); CURSORS],
        }
    }
}

/// Makes a call.
pub fn watch(watched: &mut Watched, call: WordCall) -> Answer
    ensures { (result, watched.new) ≡ made watched.old call }
{
    match call {
        WordCall::New => {
            *watched = Watched::new();
            Answer::Ok
        }
        WordCall::Set(number) => set(watched, number),
        WordCall::Sample(cursor) => {
            let sample = watched.word.sample();
            watched.samples[cursor.index()] = sample;
            Answer::Since(sample)
        }
        WordCall::Check(cursor) => match watched.word.check(watched.samples[cursor.index()]) {
            Some(code) => Answer::Code(code),
            None => Answer::None,
        },
        WordCall::Advance(cursor) => advance(watched, cursor),
    }
}

fn set(watched: &mut Watched, number: u64) -> Answer
    ensures { (result, watched.new) ≡ made watched.old (call.Set number) }
{
    match code_of(number) {
        Some(code) => {
            watched.word.set(code);
            Answer::Word(watched.word)
        }
        None => Answer::Refused(Refusal::BadCode),
    }
}

/// The code of a number, where it is one.
fn code_of(number: u64) -> Option<ErrCode>
    ensures { result ≡ (if is_err_code number then Some number else None) }
{
    let number = u16::try_from(number).ok()?;
    ErrCode::new(number).ok()
}

fn advance(watched: &mut Watched, cursor: Cursor) -> Answer
    ensures { (result, watched.new) ≡ made watched.old (call.Advance cursor) }
{
    let mut since = watched.samples[cursor.index()];
    match watched.word.check_and_advance(&mut since) {
        Some(code) => {
            watched.samples[cursor.index()] = since;
            Answer::Advanced(code, since, watched.word)
        }
        None => Answer::None,
    }
}
