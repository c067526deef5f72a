//! The atomic steps, at a table and a seat.

ghost use Rattle.std.specs.Prelude.{◌≡◌, ◌≢◌, ◌⊎◌, ◌-◌, ◌<◌, [], true, false, length};
ghost use mathlib.Core.List.{IsPrefix};
ghost use Rattle.errseq.specs.Recorded.{word_of};
ghost use Rattle.errseq.specs.Samples.{AreCodes, Owes, FitsFound};
ghost use Rattle.errboard.specs.declared.views.View.TheVariants.{Recorder, Sampled, Pass, Trying, Receipt};
ghost use Rattle.errboard.specs.Views.{recorded_of, start_of, informed};
ghost use Rattle.errboard.specs.Rules.{LookedFrom};
ghost use Rattle.errboard.specs.Shown.{opening_of, all_of, file_of, start_in, known_of, done_of, since_of};
ghost use Rattle.errboard.specs.Steps.{IsAt, Stays, IsMarked, IsPolled, IsRecorded, IsGiven};

use crate::views::{
    Confirms, Copies, Finds, GivesOwing, GivesPass, GivesReceipt, Learns, Looks, Marks, Place,
    Records, Rests, TakesBack, Words,
};
use errseq::ErrWord;
use pc_types::ErrCode;

// The load of a poll.
fn look(table: &Words, seat: &mut Place, file: usize, since: ErrWord) -> ErrWord
    requires at { IsAt table.now.table_id seat.old file }
    requires pass { seat.old.me ≡ (Pass file (start_in seat.old.me.0) (known_of seat.old.me.0) (done_of seat.old.me.0) since, []) }
    ensures seat { Stays seat.old seat.new }
    ensures looked { (seat.new.me.1 ≡ []) × LookedFrom seat.old.me.0 result seat.new.me.0 }
{
    ErrWord::from_u64(table.load::<Looks>(seat, file))
}

// The compare-exchange of a poll that found a word without SEEN. The result is the pass's sample then.
fn mark(table: &Words, seat: &mut Place, file: usize, found: ErrWord) -> ErrWord
    requires at { IsAt table.now.table_id seat.old file }
    requires trying { seat.old.me ≡ (Trying file (start_in seat.old.me.0) (known_of seat.old.me.0), []) }
    requires found { (found ≡ word_of (start_in seat.old.me.0) (known_of seat.old.me.0) false) × AreCodes (known_of seat.old.me.0) }
    ensures seat { Stays seat.old seat.new }
    ensures marked { IsMarked file (start_in seat.old.me.0) (known_of seat.old.me.0) found result seat.new.me }
{
    let marked = found.with_seen();
    let old = found.to_u64();
    let new = marked.to_u64();
    let other = table.compare_exchange::<Marks>(seat, file, old, new);
    sample_after(found, marked, other)
}

// The sample of a pass whose compare-exchange from `found` to `marked` found this word. Where it found a third one, a
// code was recorded since the load. The sample may not be `marked` then, as Linux has it: that word never stood, and it
// may come to stand after more recordings, which the pass would not be told of. With 0 it is told at its next poll.
fn sample_after(found: ErrWord, marked: ErrWord, other: u64) -> ErrWord
    ensures stands { (other ≡ found) ⊎ (other ≡ marked) → result ≡ marked }
    ensures changed { other ≢ found → other ≢ marked → result ≡ 0 }
{
    if other == found.to_u64() || other == marked.to_u64() {
        marked
    } else {
        ErrWord(0)
    }
}

// The compare-exchanges of a recording, at most two. The result is the word that stands then.
pub(crate) fn record_at(
    table: &Words,
    seat: &mut Place,
    file: usize,
    written: ErrWord,
    code: ErrCode,
) -> ErrWord
    requires at { IsAt table.now.table_id seat.old file }
    requires recorder { seat.old.me ≡ (Recorder (opening_of seat.old.me.0) (all_of seat.old.me.0), []) }
    requires written { written ≡ word_of (start_of (opening_of seat.old.me.0) file) (recorded_of (all_of seat.old.me.0) file) false }
    ensures seat { Stays seat.old seat.new }
    ensures recorded { IsRecorded file (opening_of seat.old.me.0) (all_of seat.old.me.0) code result seat.new.me }
{
    let mut word = written;
    word.set(code);
    let old = written.to_u64();
    let new = word.to_u64();
    let found = table.compare_exchange::<Records>(seat, file, old, new);
    if found == old {
        word
    } else {
        record_again(table, seat, file, found, code)
    }
}

// The second try: the word had got SEEN, which no poll clears, so this one succeeds.
fn record_again(table: &Words, seat: &mut Place, file: usize, found: u64, code: ErrCode) -> ErrWord
    requires at { IsAt table.now.table_id seat.old file }
    requires sampled { (seat.old.me ≡ (Sampled (opening_of seat.old.me.0) (all_of seat.old.me.0) file found, [])) × (found ≡ word_of (start_of (opening_of seat.old.me.0) file) (recorded_of (all_of seat.old.me.0) file) true) }
    ensures seat { Stays seat.old seat.new }
    ensures recorded { IsRecorded file (opening_of seat.old.me.0) (all_of seat.old.me.0) code result seat.new.me }
{
    let mut word = ErrWord::from_u64(found);
    word.set(code);
    let new = word.to_u64();
    table.compare_exchange::<Records>(seat, file, found, new);
    word
}

// A poll: the word that was loaded, and the pass's sample then.
pub(crate) fn compare(
    table: &Words,
    seat: &mut Place,
    file: usize,
    since: ErrWord,
) -> (ErrWord, ErrWord)
    requires at { IsAt table.now.table_id seat.old file }
    requires pass { seat.old.me ≡ (Pass file (start_in seat.old.me.0) (known_of seat.old.me.0) (done_of seat.old.me.0) since, []) }
    ensures seat { Stays seat.old seat.new }
    ensures polled { IsPolled file (start_in seat.old.me.0) (known_of seat.old.me.0) (done_of seat.old.me.0) since result.0 result.1 seat.new.me }
{
    let found = look(table, seat, file, since);
    if found == since {
        return (found, since);
    }
    if found.is_seen() {
        return (found, found);
    }
    let next = mark(table, seat, file, found);
    (found, next)
}

// The load and the split of a new pass: the word that was loaded, and the pass's seat.
pub(crate) fn give_pass(table: &Words, seat: &mut Place, file: usize) -> (ErrWord, Place)
    requires at { IsAt table.now.table_id seat.old file }
    requires recorder { seat.old.me ≡ (Recorder (opening_of seat.old.me.0) (all_of seat.old.me.0), []) }
    ensures seat { Stays seat.old seat.new × (seat.new.me ≡ seat.old.me) }
    ensures given { (result.1.table_id ≡ table.now.table_id) × IsGiven file (start_of (opening_of seat.old.me.0) file) (recorded_of (all_of seat.old.me.0) file) result.0 result.1.me }
{
    let found = find(table, seat, file);
    let pass = table.split_seat::<GivesPass>(seat);
    (found, pass)
}

// The load and the split of a new pass that is told of the last recording: the pass's seat. Its sample is 0.
pub(crate) fn give_owing(table: &Words, seat: &mut Place, file: usize) -> Place
    requires at { IsAt table.now.table_id seat.old file }
    requires recorder { seat.old.me ≡ (Recorder (opening_of seat.old.me.0) (all_of seat.old.me.0), []) }
    ensures seat { Stays seat.old seat.new × (seat.new.me ≡ seat.old.me) }
    ensures given { (result.table_id ≡ table.now.table_id) × (result.me ≡ (Pass file (start_of (opening_of seat.old.me.0) file) (recorded_of (all_of seat.old.me.0) file) (length (recorded_of (all_of seat.old.me.0) file) - 1) 0, [])) }
{
    find(table, seat, file);
    table.split_seat::<GivesOwing>(seat)
}

fn find(table: &Words, seat: &mut Place, file: usize) -> ErrWord
    requires at { IsAt table.now.table_id seat.old file }
    requires recorder { seat.old.me ≡ (Recorder (opening_of seat.old.me.0) (all_of seat.old.me.0), []) }
    ensures seat { Stays seat.old seat.new }
    ensures found { (seat.new.me ≡ (Sampled (opening_of seat.old.me.0) (all_of seat.old.me.0) file result, [])) × FitsFound (start_of (opening_of seat.old.me.0) file) (recorded_of (all_of seat.old.me.0) file) result result × AreCodes (recorded_of (all_of seat.old.me.0) file) }
{
    ErrWord::from_u64(table.load::<Finds>(seat, file))
}

// A pass takes in what a receipt knows.
pub(crate) fn inform(table: &Words, seat: &mut Place, from: &mut Place, file: usize)
    requires at { IsAt table.now.table_id seat.old file × (from.old.table_id ≡ table.now.table_id) }
    requires pass { seat.old.me ≡ (Pass file (start_in seat.old.me.0) (known_of seat.old.me.0) (done_of seat.old.me.0) (since_of seat.old.me.0), []) }
    requires receipt { from.old.me ≡ (Receipt (file_of from.old.me.0) (known_of from.old.me.0), []) }
    ensures seat { Stays seat.old seat.new × (seat.new.me ≡ (informed seat.old.me.0 from.old.me.0, [])) }
    ensures from { Stays from.old from.new × (from.new.me ≡ from.old.me) }
{
    let note = table.split_seat::<Copies>(from);
    table.join_seat::<Learns>(seat, note);
    table.load::<Rests>(seat, file);
}

// The recorder takes a pass back.
pub(crate) fn take_back(table: &Words, seat: &mut Place, other: Place, file: usize)
    requires at { IsAt table.now.table_id seat.old file × (other.table_id ≡ table.now.table_id) }
    requires recorder { seat.old.me ≡ (Recorder (opening_of seat.old.me.0) (all_of seat.old.me.0), []) }
    requires pass { other.me ≡ (Pass file (start_in other.me.0) (known_of other.me.0) (done_of other.me.0) (since_of other.me.0), []) }
    ensures seat { Stays seat.old seat.new × (seat.new.me ≡ seat.old.me) }
    ensures begins { IsPrefix (known_of other.me.0) (recorded_of (all_of seat.old.me.0) file) }
    ensures owes { Owes (recorded_of (all_of seat.old.me.0) file) (done_of other.me.0) (since_of other.me.0) }
{
    table.join_seat::<TakesBack>(seat, other);
    table.load::<Confirms>(seat, file);
}

// Compares what a pass knows with what was recorded, and lets it know all of that.
pub(crate) fn level(table: &Words, seat: &mut Place, pass: &mut Place, file: usize)
    requires at { IsAt table.now.table_id seat.old file × (pass.old.table_id ≡ table.now.table_id) }
    requires recorder { seat.old.me ≡ (Recorder (opening_of seat.old.me.0) (all_of seat.old.me.0), []) }
    requires pass { pass.old.me ≡ (Pass file (start_in pass.old.me.0) (known_of pass.old.me.0) (done_of pass.old.me.0) (since_of pass.old.me.0), []) }
    ensures seat { Stays seat.old seat.new × (seat.new.me ≡ seat.old.me) }
    ensures begins { IsPrefix (known_of pass.old.me.0) (recorded_of (all_of seat.old.me.0) file) }
    ensures owes { Owes (recorded_of (all_of seat.old.me.0) file) (done_of pass.old.me.0) (since_of pass.old.me.0) }
    ensures pass { Stays pass.old pass.new × (pass.new.me ≡ (Pass file (start_in pass.old.me.0) (recorded_of (all_of seat.old.me.0) file) (done_of pass.old.me.0) (since_of pass.old.me.0), [])) }
{
    let copy = table.split_seat::<Copies>(pass);
    take_back(table, seat, copy, file);
    hand_over(table, seat, pass, file);
}

// Lets a pass know all that was recorded.
fn hand_over(table: &Words, seat: &mut Place, pass: &mut Place, file: usize)
    requires at { IsAt table.now.table_id seat.old file × (pass.old.table_id ≡ table.now.table_id) }
    requires recorder { seat.old.me ≡ (Recorder (opening_of seat.old.me.0) (all_of seat.old.me.0), []) }
    requires pass { pass.old.me ≡ (Pass file (start_in pass.old.me.0) (known_of pass.old.me.0) (done_of pass.old.me.0) (since_of pass.old.me.0), []) }
    requires begins { IsPrefix (known_of pass.old.me.0) (recorded_of (all_of seat.old.me.0) file) }
    ensures seat { Stays seat.old seat.new × (seat.new.me ≡ seat.old.me) }
    ensures pass { Stays pass.old pass.new × (pass.new.me ≡ (Pass file (start_in pass.old.me.0) (recorded_of (all_of seat.old.me.0) file) (done_of pass.old.me.0) (since_of pass.old.me.0), [])) }
{
    find(table, seat, file);
    let note = table.split_seat::<GivesReceipt>(seat);
    table.join_seat::<Learns>(pass, note);
}
