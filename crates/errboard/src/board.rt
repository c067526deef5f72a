//! The board, as any thread shares it.

ghost use Rattle.std.specs.Prelude.{◌≡◌, ◌≢◌, ◌⊎◌, ◌<◌, ◌≤◌, ◌∷◌, ◌↔◌, [], ℕ, true, length, drop, map, replicate, All, IfOk, IfErr, IsOk, IsOkUnless, IfSome, IfNone, IsSome};
ghost use mathlib.Core.List.{IsPrefix};
ghost use Rattle.errseq.specs.Word.{IsCode, IsWithinTurn, MayBeCarried, checked, code_of};
ghost use Rattle.errseq.specs.Recorded.{raised, last_code, word_of};
ghost use Rattle.errseq.specs.Samples.{StandsFor};
ghost use Rattle.errboard.specs.Views.{files, opening_log, opening_view, told_of};

use crate::recorder::Recorder;
use crate::steps::{compare, inform};
use crate::tokens::{Pass, Receipt};
use crate::views::{FILES, Place, Told, View, Words};
use atomic_table::Table;
use errseq::ErrWord;
use pc_types::{ErrCode, Refusal};
use std::alloc::{AllocError, Global};
use std::marker::Model;
use std::sync::Arc;

/// The table of a board. A board and its recorder share it.
pub(crate) type Owned = Table<u8, View, [u64; FILES], Told, Global>;

/// One error word a file. Contracts see which board it is.
#[derive(Drop)]
pub struct Board {
    words: Arc<Owned, Global>,
}

impl Model for Board {
    ghost use Rattle.std.specs.Prelude.{◌≡◌};
    ghost use Rattle.std.specs.Arc.{arc_value};
    ghost use Rattle.atomic_table.specs.Seated.{TableId, table_id_coded};
    ghost use Rattle.errboard.specs.Views.{files};

    ghost Value = { TableId };

    ghost coded = { table_id_coded };

    ghost view = { λ b. (arc_value b.words).shared.table_id };

    ghost invariant = { λ b. (arc_value b.words).shared.table_id.words ≡ files };
}

impl Board {
    /// A board on which nothing was recorded, and its one recorder.
    pub fn new(alloc: Global) -> Result<(Board, Recorder), Refusal>
        ensures board { IfOk result (λ r. r.1.board ≡ r.0) }
        ensures opening { IfOk result (λ r. r.1.opening ≡ replicate files 0) }
        ensures nothing { IfOk result (λ r. r.1.all ≡ replicate files []) }
        ensures words { IfOk result (λ r. r.1.words ≡ replicate files 0) }
        ensures refused { IsOkUnless result Refusal.Memory }
    {
        Board::over(alloc, &no_words())
    }

    /// A board over words of 32 bits, one a file, and its one recorder. What each says stands as recorded: its code, of
    /// which a new handle is told where nobody was.
    pub fn from_words(alloc: Global, words: &[u32; FILES]) -> Result<(Board, Recorder), Refusal>
        ensures board { IfOk result (λ r. r.1.board ≡ r.0) }
        ensures opening { IfOk result (λ r. r.1.opening ≡ words.now) }
        ensures recorded { IfOk result (λ r. r.1.all ≡ map opening_log words.now) }
        ensures words { IfOk result (λ r. r.1.words ≡ words.now) }

        // It is refused where a word can't be carried over, and else only where memory was.
        ensures code { (All MayBeCarried words.now → ⊥) → result ≡ Err Refusal.BadCode }
        ensures refused { All MayBeCarried words.now → IsOkUnless result Refusal.Memory }
    {
        Board::over(alloc, &carried(words)?)
    }

    // A board over the words of a table.
    fn over(alloc: Global, opening: &[u64; FILES]) -> Result<(Board, Recorder), Refusal>
        requires { All MayBeCarried opening.now }
        ensures board { IfOk result (λ r. r.1.board ≡ r.0) }
        ensures opening { IfOk result (λ r. r.1.opening ≡ opening.now) }
        ensures recorded { IfOk result (λ r. r.1.all ≡ map opening_log opening.now) }
        ensures words { IfOk result (λ r. r.1.words ≡ opening.now) }
        ensures refused { IsOkUnless result Refusal.Memory }
    {
        let (table, seat) = opened(alloc, opening)?;
        let Ok(words) = Arc::new(alloc, table) else {
            return Err(Refusal::Memory);
        };
        let board = Board {
            words: Arc::try_clone(&words)?,
        };
        Ok((Board { words }, Recorder::of(board, seat, opening)))
    }

    pub(crate) fn table(&self) -> &Words
        ensures { result.now.table_id ≡ self.now }
    {
        &self.words.shared
    }

    /// The last code recorded, where there is one past what the pass was told; the pass is told of all then.
    ///
    /// It takes effect where SEEN is set or found, and else at its load.
    pub fn poll(&self, pass: &mut Pass) -> Option<ErrCode>
        requires of_board { pass.old.board ≡ self.now }
        ensures same { (pass.new.board ≡ pass.old.board) × (pass.new.file ≡ pass.old.file) × (pass.new.start ≡ pass.old.start) }

        // What is known never shrinks. It is what was recorded as the poll took effect, and all of it is done.
        ensures grows { IsPrefix pass.old.known pass.new.known }
        ensures done { pass.new.done ≡ length pass.new.known }

        // It answers nothing exactly where the word that it loaded, which stands for that, is the sample.
        ensures compared { (loaded : ℕ) × StandsFor pass.new.start loaded pass.new.known × (result ≡ checked loaded pass.old.since) }

        // A code comes only of a recording past those done. Under the premise on the counter it always comes then, and so where the pass knew of one.
        ensures code { IfSome result (λ c. (pass.old.done < length pass.new.known) × (c ≡ last_code pass.new.known)) }
        ensures none { IfNone result (IsWithinTurn (raised (drop pass.old.done pass.new.known)) → length pass.new.known ≤ pass.old.done) }
        ensures owed { IsWithinTurn (raised (drop pass.old.done pass.new.known)) → pass.old.done < length pass.old.known → IsSome result }

        // The sample stays where nothing is answered. Else it is the word with SEEN, which stands then; or 0, where a code was recorded since the load.
        ensures kept { IfNone result (pass.new.since ≡ pass.old.since) }
        ensures seen { IfSome result (λ _. (pass.new.since ≡ word_of pass.new.start pass.new.known true) ⊎ (pass.new.since ≡ 0)) }
    {
        let Pass { file, since, seat } = pass;
        let (found, next) = compare(&self.words.shared, seat, *file, *since);
        let code = answer(found, *since);
        *since = next;
        code
    }

    /// Tells a pass of a recording, without its code: the next poll loads the word and answers it. A receipt of another
    /// file tells nothing.
    pub fn tell(&self, pass: &mut Pass, receipt: &mut Receipt)
        requires of_board { (pass.old.board ≡ self.now) × (receipt.old.board ≡ self.now) }
        ensures receipt { receipt.new ≡ receipt.old }
        ensures same { (pass.new.board ≡ pass.old.board) × (pass.new.file ≡ pass.old.file) × (pass.new.start ≡ pass.old.start) × (pass.new.done ≡ pass.old.done) × (pass.new.since ≡ pass.old.since) }
        ensures known { pass.new.known ≡ told_of pass.old.file pass.old.known receipt.old.file receipt.old.recorded }
        ensures grows { IsPrefix pass.old.known pass.new.known }
        ensures told { receipt.old.file ≡ pass.old.file → length receipt.old.recorded ≤ length pass.new.known }
    {
        let Pass { file, seat, .. } = pass;
        let Receipt { seat: from, .. } = receipt;
        inform(&self.words.shared, seat, from, *file);
    }
}

// What a poll answers that loaded this word. Where that is not the sample, it has a code.
fn answer(found: ErrWord, since: ErrWord) -> Option<ErrCode>
    requires { found ≢ since → IsCode (code_of found) }
    ensures { result ≡ checked found since }
{
    let code = found.check(since)?;
    ErrCode::new(code).ok()
}

fn no_words() -> [u64; FILES]
    ensures { result ≡ replicate files 0 }
{
    [0; FILES]
}

fn carried(words: &[u32; FILES]) -> Result<[u64; FILES], Refusal>
    ensures same { IfOk result (λ c. c ≡ words.now) }
    ensures carried { IsOk result ↔ All MayBeCarried words.now }
    ensures refused { IsOkUnless result Refusal.BadCode }
{
    let mut carried = no_words();
    for (file, old) in words.iter().enumerate() {
        carried[file] = ErrWord::carry(*old)?.to_u64();
    }
    Ok(carried)
}

// The table of a board over these words, and the recorder's seat.
fn opened(alloc: Global, opening: &[u64; FILES]) -> Result<(Owned, Place), AllocError>
    requires { All MayBeCarried opening.now }
    ensures { IfOk result (λ r. (r.0.shared.table_id.words ≡ files) × (r.1.table_id ≡ r.0.shared.table_id) × (r.1.me ≡ (opening_view opening.now, []))) }
{
    Table::<u8, View, [u64; FILES], Told, Global>::of_words(alloc, opening, opening)
}
