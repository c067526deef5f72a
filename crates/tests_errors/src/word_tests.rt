ghost use Rattle.std.specs.Prelude.{◌≡◌, Some, None};

use crate::checks::check;
use errseq::{ErrWord, answers_as_recorded};
use pc_types::{ErrCode, Refusal};
use std::test::*;

/// The code with this number, which is one.
pub fn code(number: u16) -> ErrCode {
    ErrCode::new(number).unwrap_or(ErrCode::IO)
}

#[test]
fn a_code_is_told_once(rt: HostRuntime) {
    let (five, full) = (code(5), code(28));
    let mut word = ErrWord(0);
    let mut since = word.sample();

    // The first recording leaves the counter, and a handle that opens then is told of it too.
    word.set(five);
    check(&rt, word == ErrWord(0x5) && word.sample() == ErrWord(0));

    // A look is told the code once.
    check(&rt, word.check_and_advance(&mut since) == Some(5));
    check(&rt, since == ErrWord(0x1005) && word == ErrWord(0x1005));
    check(
        &rt,
        word.check_and_advance(&mut since).is_none() && word == ErrWord(0x1005),
    );

    // A recording after a look raises the counter; one that nobody looked at doesn't.
    word.set(five);
    check(&rt, word == ErrWord(0x2005));
    word.set(full);
    check(&rt, word == ErrWord(0x201c));
    check(
        &rt,
        word.check(ErrWord(0x1005)) == Some(28) && word == ErrWord(0x201c),
    );
}

// A handle is opened, a write fails, and the handle looks twice: it is told the code, and then nothing.
fn told_once(code: ErrCode) -> (Option<u16>, Option<u16>)
    ensures { result ≡ (Some code, None) }
{
    let mut word = ErrWord(0);
    let mut since = word.sample();
    word.set(code);
    let first = word.check_and_advance(&mut since);
    (first, word.check_and_advance(&mut since))
}

#[test]
fn a_sample_that_never_stood_loses_an_error(rt: HostRuntime) {
    let (five, full) = (code(5), code(28));
    let mut word = ErrWord(0);

    // Handle A loads the word. Before it sets SEEN another code is recorded, so that its exchange fails.
    word.set(five);
    let meant = word.with_seen();
    word.set(full);

    // The first code comes again, and handle B looks at it.
    word.set(five);
    check(&rt, word.check_and_advance(&mut ErrWord(0)) == Some(5));

    // With the word that A meant to write as its sample it is told nothing of the two codes, and with 0 of the last.
    check(
        &rt,
        word.check(meant).is_none() && word.check(ErrWord(0)) == Some(5),
    );
}

#[test]
fn the_counter_wraps(rt: HostRuntime) {
    let mut word = ErrWord(0xffff_ffff_ffff_f005);
    word.set(code(5));
    check(&rt, word == ErrWord(0x5));
}

#[test]
fn a_word_of_32_bits_is_carried_over(rt: HostRuntime) -> Result<(), Fail> {
    // Where the counter of 19 bits came round, the one of 51 bits goes on.
    let mut word = ErrWord::carry(0xffff_f005)?;
    let mut since = word.sample();
    word.set(code(5));
    check(&rt, word == ErrWord(0x1_0000_0005));
    check(&rt, word.check_and_advance(&mut since) == Some(5));

    // A word without a code was never one, but for that of a file on which nothing was recorded.
    check(&rt, ErrWord::carry(0x1000).err() == Some(Refusal::BadCode));
    check(&rt, ErrWord::carry(0x2000).err() == Some(Refusal::BadCode));
    check(
        &rt,
        ErrWord::carry(0)? == ErrWord(0) && ErrWord::carry(0x1005)? == ErrWord(0x1005),
    );
    Ok(())
}

#[test]
fn each_call_by_itself(rt: HostRuntime) {
    let word = ErrWord(0x201c);
    check(&rt, !word.is_seen() && word.code() == 28);
    check(
        &rt,
        word.with_seen() == ErrWord(0x301c) && word.with_seen().is_seen(),
    );
    check(&rt, word.with_seen().sample() == ErrWord(0x301c));
    check(
        &rt,
        word.without_seen() == word && word.with_seen().without_seen() == word,
    );
    check(
        &rt,
        word.to_u64() == 0x201c && ErrWord::from_u64(0x201c) == word,
    );
    check(&rt, told_once(code(28)) == (Some(28), None));
    answers_as_recorded();
}
