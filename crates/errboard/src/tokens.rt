//! The pass of a handle, and the receipt of a recording.

use crate::views::Place;
use errseq::ErrWord;
use std::marker::Model;

/// What a handle has of a board: its file and its sample, and by its seat what it knows of the file's recordings.
#[derive(Drop)]
pub struct Pass {
    pub(crate) file: usize,
    pub(crate) since: ErrWord,
    pub(crate) seat: Place,
}

impl Model for Pass {
    ghost use Rattle.std.specs.Prelude.{◌≡◌, ◌<◌, []};
    ghost use Rattle.errboard.specs.declared.views.View.TheVariants.{Pass};
    ghost use Rattle.errboard.specs.Views.{files};
    ghost use Rattle.errboard.specs.Shown.{PassSeen, start_in, known_of, done_of};

    ghost Value = { PassSeen };

    ghost view = { λ p. record { board = p.seat.table_id; file = p.file; start = start_in p.seat.me.0; known = known_of p.seat.me.0; done = done_of p.seat.me.0; since = p.since } };

    ghost invariant = { λ p. (p.file < files) × (p.seat.me ≡ (Pass p.file (start_in p.seat.me.0) (known_of p.seat.me.0) (done_of p.seat.me.0) p.since, [])) };
}

/// That a code was recorded. Whoever ended the failed write hands it on, and each handle that is told of it learns of
/// the failure at its next poll.
#[derive(Drop)]
pub struct Receipt {
    pub(crate) file: usize,
    pub(crate) seat: Place,
}

impl Model for Receipt {
    ghost use Rattle.std.specs.Prelude.{◌≡◌, []};
    ghost use Rattle.errboard.specs.declared.views.View.TheVariants.{Receipt};
    ghost use Rattle.errboard.specs.Shown.{ReceiptSeen, known_of};

    ghost Value = { ReceiptSeen };

    ghost view = { λ r. record { board = r.seat.table_id; file = r.file; recorded = known_of r.seat.me.0 } };

    ghost invariant = { λ r. r.seat.me ≡ (Receipt r.file (known_of r.seat.me.0), []) };
}
