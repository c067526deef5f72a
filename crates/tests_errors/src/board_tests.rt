ghost use Rattle.std.specs.Prelude.{◌≡◌, ◌<◌, length, drop, IfSome, IsSome};
ghost use Rattle.errseq.specs.Word.{IsWithinTurn};
ghost use Rattle.errseq.specs.Recorded.{raised};
ghost use Rattle.std.specs.Thread.{IsSync};

use crate::checks::{check, same};
use crate::word_tests::code;
use errboard::{Board, Pass, Receipt, Recorder};
use pc_types::{ErrCode, FileId, Refusal};
use std::process::Abort;
use std::snapshot::Snapshot;
use std::test::*;
use std::thread;
use std::thread::Threads;

// A pass of the file that is made now.
fn pass_of(rt: &impl Abort, recorder: &mut Recorder, file: u64) -> Pass
    ensures { (recorder.new.board ≡ recorder.old.board) × (result.board ≡ recorder.old.board) }
{
    recorder.pass(FileId(file)).expect(rt, "a pass")
}

fn polled(board: &Board, pass: &mut Pass) -> Option<ErrCode>
    requires { pass.old.board ≡ board.now }
    ensures { pass.new.board ≡ pass.old.board }
{
    board.poll(pass)
}

// The pass is told this code, and then nothing.
fn is_told_once(rt: &impl Abort, board: &Board, pass: &mut Pass, code: ErrCode)
    requires { pass.old.board ≡ board.now }
    ensures { pass.new.board ≡ pass.old.board }
{
    same(rt, polled(board, pass), Some(code));
    same(rt, polled(board, pass), None);
}

// Each pass that was made before a recording is told of it once, and so is one made before anybody was told.
fn tells_each(rt: &impl Abort, board: &Board, recorder: &mut Recorder, first: &mut Pass)
    requires { (recorder.old.board ≡ board.now) × (first.old.board ≡ board.now) }
    ensures { (recorder.new.board ≡ board.now) × (first.new.board ≡ board.now) }
{
    let mut second = pass_of(rt, recorder, 0);
    let mut receipt = recorder.record(FileId(0), ErrCode::IO);
    let mut third = pass_of(rt, recorder, 0);
    same(rt, learns(board, first, &mut receipt), Some(ErrCode::IO));
    same(rt, polled(board, first), None);
    is_told_once(rt, board, &mut second, ErrCode::IO);
    is_told_once(rt, board, &mut third, ErrCode::IO);
}

// One made after that isn't, and each is told of the next recording.
fn tells_the_next(rt: &impl Abort, board: &Board, recorder: &mut Recorder, first: &mut Pass)
    requires { (recorder.old.board ≡ board.now) × (first.old.board ≡ board.now) }
    ensures { (recorder.new.board ≡ board.now) × (first.new.board ≡ board.now) }
{
    let full = code(28);
    let mut fourth = pass_of(rt, recorder, 0);
    same(rt, polled(board, &mut fourth), None);
    recorder.record(FileId(0), full);
    recorder.level(&mut fourth);
    same(rt, polled(board, &mut fourth), Some(full));
    same(rt, polled(board, first), Some(full));
}

#[test]
fn each_pass_is_told_once(rt: HostRuntime) -> Result<(), Fail> {
    let (board, mut recorder) = Board::new(rt.alloc())?;
    let mut first = pass_of(&rt, &mut recorder, 0);
    same(&rt, polled(&board, &mut first), None);
    tells_each(&rt, &board, &mut recorder, &mut first);
    tells_the_next(&rt, &board, &mut recorder, &mut first);
    recorder.retire(first);
    Ok(())
}

// A handle is told of a failed write, and answers it, whatever other threads record and poll.
fn learns(board: &Board, pass: &mut Pass, receipt: &mut Receipt) -> Option<ErrCode>
    requires of_board { (pass.old.board ≡ board.now) × (receipt.old.board ≡ board.now) }
    ensures of_board { (pass.new.board ≡ pass.old.board) × (receipt.new ≡ receipt.old) }
    ensures told { receipt.old.file ≡ pass.old.file → pass.old.done < length receipt.old.recorded → IsWithinTurn (raised (drop pass.old.done pass.new.known)) → IsSome result }
{
    board.tell(pass, receipt);
    board.poll(pass)
}

// Two looks in a row: the second answers nothing unless a code was recorded between the moments of the two.
fn looks_twice(board: &Board, pass: &mut Pass) -> (Option<ErrCode>, Option<ErrCode>, Snapshot<Pass>)
    requires { pass.old.board ≡ board.now }
    ensures of_board { pass.new.board ≡ pass.old.board }
    ensures between { IfSome result.1 (λ _. length result.2.value.known < length pass.new.known) }
{
    let first = board.poll(pass);
    let between = Snapshot::of(pass);
    let second = board.poll(pass);
    (first, second, between)
}

// A pass of file 0 that is made now, by what the recorder remembers.
fn remembered(rt: &impl Abort, recorder: &mut Recorder) -> Pass
    ensures { (recorder.new.board ≡ recorder.old.board) × (result.board ≡ recorder.old.board) }
{
    recorder.pass_remembered(FileId(0)).expect(rt, "a pass")
}

// What a poll by the recorder answers.
fn recalled(recorder: &mut Recorder, pass: &mut Pass) -> Option<ErrCode>
    requires { pass.old.board ≡ recorder.old.board }
    ensures { (recorder.new.board ≡ recorder.old.board) × (pass.new.board ≡ pass.old.board) }
{
    recorder.poll(pass)
}

// Whoever comes after a recording and before the first poll is told of it, and nobody who comes after that poll. The last is such a pass.
fn remembers(rt: &impl Abort, recorder: &mut Recorder) -> Pass
    ensures { (recorder.new.board ≡ recorder.old.board) × (result.board ≡ recorder.old.board) }
{
    let mut first = remembered(rt, recorder);
    same(rt, recalled(recorder, &mut first), None);
    recorder.record(FileId(0), ErrCode::IO);
    let mut second = remembered(rt, recorder);
    let mut third = remembered(rt, recorder);
    same(rt, recalled(recorder, &mut second), Some(ErrCode::IO));
    let mut fourth = remembered(rt, recorder);
    same(rt, recalled(recorder, &mut fourth), None);
    same(rt, recalled(recorder, &mut second), None);
    same(rt, recalled(recorder, &mut first), Some(ErrCode::IO));
    same(rt, recalled(recorder, &mut third), Some(ErrCode::IO));
    fourth
}

// It does not remember a poll of the board's, which a pass of the usual kind finds in the word.
fn does_not_remember(rt: &impl Abort, board: &Board, recorder: &mut Recorder, fourth: &mut Pass)
    requires { (recorder.old.board ≡ board.now) × (fourth.old.board ≡ board.now) }
{
    recorder.record(FileId(0), ErrCode::IO);
    same(rt, polled(board, fourth), Some(ErrCode::IO));
    let mut usual = pass_of(rt, recorder, 0);
    let mut again = remembered(rt, recorder);
    same(rt, polled(board, &mut usual), None);
    same(rt, recalled(recorder, &mut again), Some(ErrCode::IO));
    let none = recorder.pass_remembered(FileId(64));
    same(rt, none.err(), Some(Refusal::NoSuchFile));
}

#[test]
fn a_recorder_that_polls_alone_remembers_it(rt: HostRuntime) -> Result<(), Fail> {
    let (board, mut recorder) = Board::new(rt.alloc())?;
    let mut fourth = remembers(&rt, &mut recorder);
    does_not_remember(&rt, &board, &mut recorder, &mut fourth);
    Ok(())
}

// A recording of one file, and its receipt, tell a pass of another nothing.
fn keeps_files_apart(rt: &impl Abort, board: &Board, recorder: &mut Recorder)
    requires { recorder.old.board ≡ board.now }
{
    let mut first = pass_of(rt, recorder, 0);
    let mut last = pass_of(rt, recorder, 63);
    let none = recorder.pass(FileId(64));
    same(rt, none.err(), Some(Refusal::NoSuchFile));
    let mut receipt = recorder.record(FileId(63), ErrCode::IO);
    board.tell(&mut first, &mut receipt);
    same(rt, polled(board, &mut first), None);
    let (code, none, _between) = looks_twice(board, &mut last);
    same(rt, (code, none), (Some(ErrCode::IO), None));
}

#[test]
fn files_are_apart(rt: HostRuntime) -> Result<(), Fail> {
    let (board, mut recorder) = Board::new(rt.alloc())?;
    keeps_files_apart(&rt, &board, &mut recorder);
    Ok(())
}

// A code that nobody was told of is told to a new pass, and one that somebody was told of is not. What is recorded from then on is told
// to each, and past the end of the old counter too.
fn carries_codes(rt: &impl Abort, board: &Board, recorder: &mut Recorder)
    requires { recorder.old.board ≡ board.now }
{
    let mut untold = pass_of(rt, recorder, 0);
    let mut told = pass_of(rt, recorder, 1);
    let mut last = pass_of(rt, recorder, 2);
    let mut none = pass_of(rt, recorder, 3);
    is_told_once(rt, board, &mut untold, ErrCode::IO);
    same(rt, polled(board, &mut told), None);
    same(rt, polled(board, &mut last), None);
    same(rt, polled(board, &mut none), None);
    for file in 0..4 {
        recorder.record(FileId(file), code(28));
    }
    same(rt, polled(board, &mut untold), Some(code(28)));
    same(rt, polled(board, &mut told), Some(code(28)));
    same(rt, polled(board, &mut last), Some(code(28)));
    same(rt, polled(board, &mut none), Some(code(28)));
}

#[test]
fn a_board_begins_with_carried_words(rt: HostRuntime) -> Result<(), Fail> {
    let mut words = [0; 64];
    words[0] = 0x5;
    words[1] = 0x1005;
    words[2] = 0xffff_f005;
    let (board, mut recorder) = Board::from_words(rt.alloc(), &words)?;
    carries_codes(&rt, &board, &mut recorder);
    Ok(())
}

#[test]
fn a_word_without_a_code_is_not_carried(rt: HostRuntime) -> Result<(), Fail> {
    let mut words = [0; 64];
    words[63] = 0x1000;
    check(
        &rt,
        Board::from_words(rt.alloc(), &words).err() == Some(Refusal::BadCode),
    );
    Ok(())
}

// How many recordings, and how many passes poll beside them.
const ROUNDS: u16 = 2_000;

#[test]
fn every_pass_learns_of_the_last_recording(rt: HostRuntime) -> Result<(), Fail> {
    let (board, mut recorder) = Board::new(rt.alloc())?;
    let first = pass_of(&rt, &mut recorder, 7);
    let second = pass_of(&rt, &mut recorder, 7);
    let (mut recorder, mut receipt, (mut first, met), (mut second, also)) = record_beside(
        &rt, &board, recorder, first, second,
    );

    // Whoever looks at the end has met the last code, or meets it now, and then nothing.
    board.tell(&mut first, &mut receipt);
    let met = polled(&board, &mut first).or(met);
    let also = polled(&board, &mut second).or(also);
    same(&rt, (met, also), (Some(code(ROUNDS)), Some(code(ROUNDS))));
    same(&rt, polled(&board, &mut first), None);
    same(&rt, polled(&board, &mut second), None);
    recorder.retire(first);
    recorder.retire(second);
    Ok(())
}

type Met = (Pass, Option<ErrCode>);

// One thread records while two poll.
fn record_beside<R: Threads + Sync>(
    rt: &R,
    board: &Board,
    recorder: Recorder,
    first: Pass,
    second: Pass,
) -> (Recorder, Receipt, Met, Met)
    requires { (recorder.board ≡ board.now) × (first.board ≡ board.now) × (second.board ≡ board.now) }
    ensures { (result.0.board ≡ board.now) × (result.1.board ≡ board.now) × (result.2.0.board ≡ board.now) × (result.3.0.board ≡ board.now) }
{
    let ((recorder, receipt), (first, second)) = thread::join(
        rt,
        move || record_all(recorder),
        move || -> (Met, Met)
            requires { IsSync R.row × (first.board ≡ board.now) × (second.board ≡ board.now) }
            ensures { (result.0.0.board ≡ board.entry.now) × (result.1.0.board ≡ board.entry.now) }
        { poll_both(rt, board, first, second) },
    );
    (recorder, receipt, first, second)
}

fn poll_both<R: Threads + Sync>(rt: &R, board: &Board, first: Pass, second: Pass) -> (Met, Met)
    requires { (first.board ≡ board.now) × (second.board ≡ board.now) }
    ensures { (result.0.0.board ≡ board.now) × (result.1.0.board ≡ board.now) }
{
    thread::join(
        rt,
        move || poll_all(board, first),
        move || poll_all(board, second),
    )
}

// Records the codes from 1 to the last one.
fn record_all(mut recorder: Recorder) -> (Recorder, Receipt)
    ensures { (result.0.board ≡ recorder.board) × (result.1.board ≡ recorder.board) }
{
    let mut last = recorder.record(FileId(7), code(1));
    for number in 2..ROUNDS + 1 {
        last = recorder.record(FileId(7), code(number));
    }
    (recorder, last)
}

// Polls as often, and gives the last code that was answered.
fn poll_all(board: &Board, mut pass: Pass) -> Met
    requires { pass.board ≡ board.now }
    ensures { result.0.board ≡ board.now }
{
    let mut met = None;
    for _round in 0..ROUNDS {
        met = polled(board, &mut pass).or(met);
    }
    (pass, met)
}
