//! What alone records on a board.

ghost use Rattle.std.specs.Prelude.{◌≡◌, ◌≢◌, ◌⊎◌, ◌-◌, ◌<◌, ◌≤◌, ◌==◌, ◌&&◌, ◌↔◌, ◌∷◌, [], ℕ, true, false, if◌then◌else◌, length, drop, map, slice_set, is_some, All, IfOk, IfSome, IfNone, IsOk, IsOkUnless};
ghost use mathlib.Core.List.{IsPrefix};
ghost use Rattle.errseq.specs.declared.recording.Recording.{Recording};
ghost use Rattle.errseq.specs.Word.{IsWithinTurn, MayBeCarried, sample_of};
ghost use Rattle.errseq.specs.Recorded.{last_code, raised, word_of};
ghost use Rattle.errseq.specs.Samples.{StandsFor, Owes, done_at};
ghost use Rattle.errboard.specs.Views.{files, recorded_of, start_of, opening_log, opening_view};
ghost use Rattle.errboard.specs.Shown.{is_told, words_after};
ghost use Rattle.errboard.specs.Steps.{with_recording};

use crate::board::Board;
use crate::steps::{give_owing, give_pass, level, record_at, take_back};
use crate::tokens::{Pass, Receipt};
use crate::views::{FILES, GivesReceipt, Place};
use errseq::ErrWord;
use pc_types::limits::MAX_FILES;
use pc_types::{ErrCode, FileId, Refusal};
use std::marker::Model;

/// What alone records on a board. It is kept under one lock, and remembers each word as it last wrote it, so that a
/// recording needs two tries at most: pollers change nothing of a word but its SEEN. That it remembers too where a poll
/// of its own set it. So where nobody polls but by the recorder, it knows of each file whether somebody was told.
#[derive(Drop)]
pub struct Recorder {
    board: Board,
    seat: Place,
    written: [ErrWord; FILES],
}

impl Model for Recorder {
    ghost use Rattle.std.specs.Prelude.{◌≡◌, [], length};
    ghost use Rattle.errboard.specs.declared.views.View.TheVariants.{Recorder};
    ghost use Rattle.errboard.specs.Views.{files};
    ghost use Rattle.errboard.specs.Shown.{RecorderSeen, opening_of, all_of, Remembers};

    ghost Value = { RecorderSeen };

    ghost view = { λ r. record { board = r.seat.table_id; opening = opening_of r.seat.me.0; all = all_of r.seat.me.0; words = r.written } };

    ghost invariant = { λ r. (r.board ≡ r.seat.table_id) × (r.seat.table_id.words ≡ files) × (r.seat.me ≡ (Recorder (opening_of r.seat.me.0) (all_of r.seat.me.0), [])) × (length (all_of r.seat.me.0) ≡ files) × Remembers (opening_of r.seat.me.0) r.written (all_of r.seat.me.0) };
}

impl Recorder {
    // The recorder of a board over these words.
    pub(crate) fn of(board: Board, seat: Place, opening: &[u64; FILES]) -> Recorder
        requires carried { All MayBeCarried opening.now }
        requires table { (board ≡ seat.table_id) × (seat.table_id.words ≡ files) }
        requires seat { seat.me ≡ (opening_view opening.now, []) }
        ensures board { result.board ≡ seat.table_id }
        ensures opening { result.opening ≡ opening.now }
        ensures recorded { result.all ≡ map opening_log opening.now }
        ensures words { result.words ≡ opening.now }
    {
        Recorder {
            board,
            seat,
            written: words_of(opening),
        }
    }

    /// A pass that knows all that was recorded of the file. The last recording is not done where nobody polled it.
    pub fn pass(&mut self, file: FileId) -> Result<Pass, Refusal>
        ensures same { self.new ≡ self.old }
        ensures made { IsOk result ↔ (file.0 < files) }
        ensures refused { IsOkUnless result Refusal.NoSuchFile }
        ensures pass { IfOk result (λ p. (p.board ≡ self.old.board) × (p.file ≡ file.0) × (p.start ≡ start_of self.old.opening file.0) × (p.known ≡ recorded_of self.old.all file.0)) }
        ensures sampled { IfOk result (λ p. (loaded : ℕ) × StandsFor p.start loaded p.known × (p.since ≡ sample_of loaded) × (p.done ≡ done_at p.known loaded)) }
    {
        if file.0 >= MAX_FILES {
            return Err(Refusal::NoSuchFile);
        }
        let file = file.0 as usize;
        let Recorder { board, seat, .. } = self;
        let (found, place) = give_pass(board.table(), seat, file);
        Ok(Pass {
            file,
            since: found.sample(),
            seat: place,
        })
    }

    /// A pass that knows all that was recorded of the file. The last recording is done exactly where the recorder
    /// remembers that somebody was told of it (decision 146).
    pub fn pass_remembered(&mut self, file: FileId) -> Result<Pass, Refusal>
        ensures same { self.new ≡ self.old }
        ensures made { IsOk result ↔ (file.0 < files) }
        ensures refused { IsOkUnless result Refusal.NoSuchFile }
        ensures pass { IfOk result (λ p. (p.board ≡ self.old.board) × (p.file ≡ file.0) × (p.start ≡ start_of self.old.opening file.0) × (p.known ≡ recorded_of self.old.all file.0)) }
        ensures done { IfOk result (λ p. p.done ≡ (if is_told self.old file.0 then length p.known else length p.known - 1)) }
    {
        if file.0 >= MAX_FILES {
            return Err(Refusal::NoSuchFile);
        }
        let at = file.0 as usize;
        if self.written[at].is_seen() {
            let mut pass = self.pass(file)?;
            self.poll(&mut pass);
            return Ok(pass);
        }
        let Recorder { board, seat, .. } = self;
        Ok(Pass {
            file: at,
            since: ErrWord(0),
            seat: give_owing(board.table(), seat, at),
        })
    }

    /// Polls a pass. Nothing is recorded meanwhile, so it knows all then; and where it answers a code, the recorder
    /// remembers that somebody was told.
    pub fn poll(&mut self, pass: &mut Pass) -> Option<ErrCode>
        requires of_board { pass.old.board ≡ self.old.board }
        ensures same { self.new ≡ record self.old { words = words_after self.old.words pass.old.file result } }
        ensures told { (f : ℕ) → is_told self.new f ≡ (if f == pass.old.file && is_some result then true else is_told self.old f) }
        ensures pass { (pass.new.board ≡ pass.old.board) × (pass.new.file ≡ pass.old.file) × (pass.new.start ≡ pass.old.start) }
        ensures known { pass.new.known ≡ recorded_of self.old.all pass.old.file }
        ensures done { pass.new.done ≡ length (recorded_of self.old.all pass.old.file) }
        ensures code { IfSome result (λ c. (pass.old.done < length (recorded_of self.old.all pass.old.file)) × (c ≡ last_code (recorded_of self.old.all pass.old.file))) }
        ensures none { IfNone result (IsWithinTurn (raised (drop pass.old.done (recorded_of self.old.all pass.old.file))) → length (recorded_of self.old.all pass.old.file) ≤ pass.old.done) }
    {
        self.level(pass);
        let code = self.board.poll(pass);
        self.level(pass);
        if code.is_some() {
            self.written[pass.file] = self.written[pass.file].with_seen();
        }
        code
    }

    /// Records a code. It takes no memory.
    pub fn record(&mut self, file: FileId, code: ErrCode) -> Receipt
        requires { file.0 < files }
        ensures board { (self.new.board ≡ self.old.board) × (self.new.opening ≡ self.old.opening) }
        ensures recorded { (x : Recording) × (x.code ≡ code) × (x.raises ≡ true → 0 < length (recorded_of self.old.all file.0)) × (self.new.all ≡ with_recording self.old.all file.0 x) }

        // The word is that of all recordings without SEEN, and the other words stay as they were remembered.
        ensures unseen { self.new.words ≡ slice_set self.old.words file.0 (word_of (start_of self.old.opening file.0) (recorded_of self.new.all file.0) false) }
        ensures untold { (f : ℕ) → is_told self.new f ≡ (if f == file.0 then false else is_told self.old f) }
        ensures receipt { (result.board ≡ self.old.board) × (result.file ≡ file.0) × (result.recorded ≡ recorded_of self.new.all file.0) }
    {
        let file = file.0 as usize;
        let Recorder {
            board,
            seat,
            written,
        } = self;
        let table = board.table();
        let unseen = written[file].without_seen();
        written[file] = record_at(table, seat, file, unseen, code);
        let seat = table.split_seat::<GivesReceipt>(seat);
        Receipt { file, seat }
    }

    /// Lets a pass know all that was recorded of its file. It polls nothing: what is done and the sample stay.
    pub fn level(&mut self, pass: &mut Pass)
        requires { pass.old.board ≡ self.old.board }
        ensures same { self.new ≡ self.old }
        ensures pass { (pass.new.board ≡ pass.old.board) × (pass.new.file ≡ pass.old.file) × (pass.new.start ≡ pass.old.start) × (pass.new.done ≡ pass.old.done) × (pass.new.since ≡ pass.old.since) }
        ensures known { pass.new.known ≡ recorded_of self.old.all pass.old.file }
        ensures begins { IsPrefix pass.old.known (recorded_of self.old.all pass.old.file) }

        // Where its sample is 0 and anything was recorded, there is a recording that it is not told of yet.
        ensures owes { Owes (recorded_of self.old.all pass.old.file) pass.old.done pass.old.since }
    {
        let Recorder { board, seat, .. } = self;
        let Pass {
            file,
            seat: other,
            ..
        } = pass;
        level(board.table(), seat, other, *file);
    }

    /// Takes a pass back. What it knew begins what was recorded.
    pub fn retire(&mut self, pass: Pass)
        requires { pass.board ≡ self.old.board }
        ensures same { self.new ≡ self.old }
        ensures begins { IsPrefix pass.known (recorded_of self.old.all pass.file) }
        ensures owes { Owes (recorded_of self.old.all pass.file) pass.done pass.since }
    {
        let Recorder { board, seat, .. } = self;
        let Pass {
            file,
            seat: other,
            ..
        } = pass;
        take_back(board.table(), seat, other, file);
    }
}

fn words_of(opening: &[u64; FILES]) -> [ErrWord; FILES]
    ensures { result ≡ opening.now }
{
    let mut words = [ErrWord(0); FILES];
    for (file, bits) in opening.iter().enumerate() {
        words[file] = ErrWord::from_u64(*bits);
    }
    words
}
