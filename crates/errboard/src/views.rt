//! What each seat of a board's table knows, and what each of its atomic steps tells.
//!
//! A board has five kinds of atomic step. By a pass's seat: a load that is compared (`Looks`), and the setting of SEEN
//! (`Marks`). By the recorder's: the first and the second try of a recording (`Records`). By either: a load that decides
//! nothing (`Finds`, `Confirms`, `Rests`, and that of each split and join). No other step changes a word.

use atomic_table::{Join, Play, Seat, Shared, Split, TableRule};
use errseq::Recording;
use std::collections::LinkedList;

/// How many files a board has: `MAX_FILES` as the length of an array.
pub(crate) const FILES: usize = 64;

/// What a seat knows. No value of it is made.
pub enum View {
    /// It knows nothing: its view was handed on.
    Spent,
    /// The recorder's: the words that the board began with, and all recordings, by file.
    Recorder(LinkedList<u64>, LinkedList<LinkedList<Recording>>),
    /// The recorder's, with a file and its word as it was found or written.
    Sampled(LinkedList<u64>, LinkedList<LinkedList<Recording>>, u64, u64),
    /// The recorder's, with a pass to be compared: its file, what it knows, how much of that is done, and its sample.
    Compares(
        LinkedList<u64>,
        LinkedList<LinkedList<Recording>>,
        u64,
        LinkedList<Recording>,
        u64,
        u64,
    ),
    /// A pass: its file, where the file's counter began, the known recordings, how many are done, and its sample.
    Pass(u64, u64, LinkedList<Recording>, u64, u64),
    /// A pass that found a word without SEEN, when these were the recordings.
    Trying(u64, u64, LinkedList<Recording>),
    /// A receipt: its file, and the recordings up to its own.
    Receipt(u64, LinkedList<Recording>),
}

/// The rule of a board. Its key is the words that the board began with.
pub struct Told;

impl TableRule<u8, View, [u64; FILES]> for Told {
    ghost use Rattle.errboard.specs.Rules.{IsKept};
    ghost use Rattle.errboard.specs.Views.{opening_view};

    ghost holds = { IsKept };

    ghost first = { opening_view };
}

/// The recorder finds a file's word.
pub struct Finds;

impl Play<u8, View> for Finds {
    ghost use Rattle.errboard.specs.Rules.{Found};

    ghost then = { Found };
}

/// The recorder tries to record.
pub struct Records;

impl Play<u8, View> for Records {
    ghost use Rattle.errboard.specs.Rules.{Recorded};

    ghost then = { Recorded };
}

/// A pass loads its word.
pub struct Looks;

impl Play<u8, View> for Looks {
    ghost use Rattle.errboard.specs.Rules.{Looked};

    ghost then = { Looked };
}

/// A pass tries to set SEEN.
pub struct Marks;

impl Play<u8, View> for Marks {
    ghost use Rattle.errboard.specs.Rules.{Marked};

    ghost then = { Marked };
}

/// A load that tells nothing.
pub struct Rests;

impl Play<u8, View> for Rests {
    ghost use Rattle.errboard.specs.Rules.{Rested};

    ghost then = { Rested };
}

/// The recorder is told what a pass knew.
pub struct Confirms;

impl Play<u8, View> for Confirms {
    ghost use Rattle.errboard.specs.Rules.{Confirmed};

    ghost then = { Confirmed };
}

/// The recorder gives a new pass of its file.
pub struct GivesPass;

impl Split<View> for GivesPass {
    ghost use Rattle.errboard.specs.Views.{recorder_left, pass_right};

    ghost left = { recorder_left };

    ghost right = { pass_right };
}

/// The recorder gives a new pass of its file that is told of the last recording.
pub struct GivesOwing;

impl Split<View> for GivesOwing {
    ghost use Rattle.errboard.specs.Views.{recorder_left, owing_right};

    ghost left = { recorder_left };

    ghost right = { owing_right };
}

/// The recorder gives a receipt for what its file has recorded.
pub struct GivesReceipt;

impl Split<View> for GivesReceipt {
    ghost use Rattle.errboard.specs.Views.{recorder_left, receipt_right};

    ghost left = { recorder_left };

    ghost right = { receipt_right };
}

/// A copy of a receipt or a pass, to be handed on.
pub struct Copies;

impl Split<View> for Copies {
    ghost left = { λ v. v };

    ghost right = { λ v. v };
}

/// A pass takes in what a receipt knows.
pub struct Learns;

impl Join<View> for Learns {
    ghost use Rattle.errboard.specs.Views.{informed};
    ghost use Rattle.errboard.specs.declared.views.View.TheVariants.{Spent};

    ghost both = { informed };

    ghost spent = { Spent };
}

/// The recorder takes a pass.
pub struct TakesBack;

impl Join<View> for TakesBack {
    ghost use Rattle.errboard.specs.Views.{with_pass};
    ghost use Rattle.errboard.specs.declared.views.View.TheVariants.{Spent};

    ghost both = { with_pass };

    ghost spent = { Spent };
}

/// The words as threads share them.
pub type Words = Shared<u8, View, [u64; FILES], Told>;

/// A seat of a board's table.
pub type Place = Seat<u8, View>;
