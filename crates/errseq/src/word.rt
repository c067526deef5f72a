//! The word and its calls. The width of the counter stands here and in `specs/Word.antt`, and nowhere else.

ghost use Rattle.std.specs.Prelude.{◌≡◌, ◌≢◌, ◌+◌, ◌*◌, ◌%◌, ◌↔◌, if◌then◌else◌, IfOk, IsOk, IsOkUnless};
ghost use Rattle.errseq.specs.Word.{IsCode, MayBeCarried, checked, code_of, counter_of, is_seen, sample_of, turns, with_seen, without_seen, word_set};

use pc_types::{ErrCode, Refusal};
use std::marker::Model;

/// Bit 12: some handle was told of the last recording.
const SEEN: u64 = 1 << 12;

/// Bits 0 to 11: the code of the last recording, 0 before the first.
const CODE: u64 = SEEN - 1;

/// Bits 13 to 63: the counter. Adding to its lowest bit wraps it after 2^51 - 1, since nothing stands above it.
const STEP: u64 = 1 << 13;

/// The error word of a file. It begins as 0. A handle keeps a word too: its sample, which a look compares with.
#[derive(Clone, Copy, PartialEq, Eq, Debug)]
pub struct ErrWord(pub u64);

impl Model for ErrWord {
    ghost use Rattle.std.specs.Prelude.{ℕ};

    ghost Value = { ℕ };

    ghost view = { λ w. w.0 };

    ghost inverse = { λ n. record { 0 = n } };
}

impl ErrWord {
    /// Carries a word of 32 bits over: the same code, flag and counter, of which it has 19 bits. A sample is carried
    /// alike, so that a look answers of the two what it would have answered.
    pub fn carry(old: u32) -> Result<ErrWord, Refusal>
        ensures same { IfOk result (λ w. w ≡ old) }
        ensures carried { IsOk result ↔ MayBeCarried old }
        ensures refused { IsOkUnless result Refusal.BadCode }
    {
        let word = ErrWord(u64::from(old));
        if old != 0 && word.code() == 0 {
            return Err(Refusal::BadCode);
        }
        Ok(word)
    }

    /// Whether some handle was told of the last recording.
    pub fn is_seen(self) -> bool
        ensures { result ≡ is_seen self }
    {
        self.0 & SEEN != 0
    }

    /// The last code, or 0 where there was none.
    pub fn code(self) -> u16
        ensures { result ≡ code_of self }
    {
        (self.0 & CODE) as u16
    }

    /// Records a code. The counter rises only where SEEN was set: where nobody was told of the last recording, no sample
    /// holds its word, and the two need no counts of their own. That the code is one is said of its type.
    pub fn set(&mut self, code: ErrCode)
        ensures word { self.new ≡ word_set self.old code }
        ensures code { IsCode code }
    {
        self.0 = self.next_counter() | u64::from(code.code());
    }

    // The counter's bits after a recording.
    fn next_counter(self) -> u64
        ensures { result ≡ (if is_seen self then (counter_of self + 1) % turns else counter_of self) * 8192 }
    {
        let counter = self.0 & !(STEP - 1);
        if self.is_seen() {
            counter.wrapping_add(STEP)
        } else {
            counter
        }
    }

    /// What a new handle compares with: 0 where nobody was told of the last recording, so that the handle is.
    pub fn sample(self) -> ErrWord
        ensures { result ≡ sample_of self }
    {
        if self.is_seen() { self } else { ErrWord(0) }
    }

    /// The word with SEEN.
    pub fn with_seen(self) -> ErrWord
        ensures { result ≡ with_seen self }
    {
        ErrWord(self.0 | SEEN)
    }

    /// The word without SEEN.
    pub fn without_seen(self) -> ErrWord
        ensures { result ≡ without_seen self }
    {
        if self.is_seen() {
            ErrWord(self.0 - SEEN)
        } else {
            self
        }
    }

    /// The last code, where the word is not the sample. Nothing is changed, so the next look is told again.
    pub fn check(self, since: ErrWord) -> Option<u16>
        ensures { result ≡ checked self since }
    {
        if self == since {
            None
        } else {
            Some(self.code())
        }
    }

    /// Looks: the last code, where the word is not the sample. Then the word is seen, and the sample is the word.
    pub fn check_and_advance(&mut self, since: &mut ErrWord) -> Option<u16>
        ensures code { result ≡ checked self.old since.old }
        ensures same { self.old ≡ since.old → (self.new ≡ self.old) × (since.new ≡ since.old) }
        ensures advanced { self.old ≢ since.old → (self.new ≡ with_seen self.old) × (since.new ≡ self.new) }
    {
        let code = self.check(*since);
        if code.is_some() {
            *self = self.with_seen();
            *since = *self;
        }
        code
    }

    /// The word as one of an atomic table.
    pub fn to_u64(self) -> u64
        ensures { result ≡ self }
    {
        self.0
    }

    /// The word of an atomic table as an error word.
    pub fn from_u64(bits: u64) -> ErrWord
        ensures { result ≡ bits }
    {
        ErrWord(bits)
    }
}
