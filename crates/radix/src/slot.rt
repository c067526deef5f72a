//! What a slot has, in one 64-bit word. Nothing outside this file knows how.
ghost use Rattle.std.specs.Prelude.{◌≡◌, ◌≢◌, ℕ, ◌<◌, ◌^◌, MatchBool};
ghost use Rattle.radix.specs.Words.{FitsWord, FitsLink};

use std::marker::Model;

/// What a slot of a node has.
#[derive(Clone, Copy)]
pub enum Slot {
    Empty,
    Leaf(u64),
    Child(usize),
    Sibling(u64),
}

/// A slot in one word, so that a node of 64 slots is 512 bytes of them: an odd word is a leaf's value, as Linux's value
/// entries are; of the even ones 0 is an empty slot, 2 modulo 4 a child's key, and the rest the offset of a first slot.
#[derive(Clone, Copy)]
pub struct Word {
    word: u64,
}

impl Model for Word {
    ghost use Rattle.radix.specs.declared.slot.Slot.{Slot};

    ghost Value = { Slot };

    ghost use Rattle.radix.specs.Words.{slot_of_word, word_of_slot};

    ghost view = { λ w. slot_of_word w.word };

    ghost inverse = { λ x. record { word = word_of_slot x } };

    ghost use Rattle.radix.specs.WordLaw.{word_again};

    ghost inverse_ok = { λ a h i. record { word = word_again a.word i } };
}

impl Word {
    ghost use Rattle.radix.specs.Tree.{IsLeafSlot};

    #[inline]
    pub fn slot(self) -> Slot
        ensures { result ≡ self }
    {
        let word = self.word;
        if word % 2 == 1 {
            Slot::Leaf(word / 2)
        } else if word % 4 == 2 {
            Slot::Child((word / 4) as usize)
        } else if word == 0 {
            Slot::Empty
        } else {
            Slot::Sibling(word / 4 - 1)
        }
    }

    #[inline]
    pub fn empty() -> Word
        ensures { result ≡ Slot.Empty }
    {
        Word { word: 0 }
    }

    #[inline]
    pub fn leaf(value: u64) -> Word
        requires { value < 2 ^ 63 }
        ensures { result ≡ Slot.Leaf value }
    {
        Word {
            word: value * 2 + 1,
        }
    }

    #[inline]
    pub fn child(key: usize) -> Word
        requires { key < 2 ^ 62 }
        ensures { result ≡ Slot.Child key }
    {
        Word {
            word: key as u64 * 4 + 2,
        }
    }

    #[inline]
    pub fn sibling(offset: u64) -> Word
        requires { offset < 64 }
        ensures { result ≡ Slot.Sibling offset }
    {
        Word {
            word: offset * 4 + 4,
        }
    }

    /// The value of a leaf.
    #[inline]
    pub fn value(self) -> u64
        requires { IsLeafSlot self }
        ensures { self ≡ Slot.Leaf result }
    {
        self.word / 2
    }

    /// Whether this is a further slot of the entry that begins at an offset. It is one comparison, so that no jump goes by
    /// what another entry's slot has.
    #[inline]
    pub fn is_sibling_of(self, offset: u64) -> bool
        requires { offset < 64 }
        ensures { MatchBool result (self ≡ Slot.Sibling offset) (self ≢ Slot.Sibling offset) }
    {
        self.word == offset * 4 + 4
    }

    #[inline]
    pub fn of(slot: Slot) -> Word
        requires { FitsWord slot }
        ensures { result ≡ slot }
    {
        match slot {
            Slot::Empty => Word::empty(),
            Slot::Leaf(value) => Word::leaf(value),
            Slot::Child(key) => Word::child(key),
            Slot::Sibling(offset) => Word::sibling(offset),
        }
    }
}

/// The key of the node above, or none at the head, in one word: an `Option<usize>` would be two.
#[derive(Clone, Copy)]
pub struct Link {
    word: u64,
}

impl Model for Link {
    ghost use Rattle.std.specs.Prelude.{Option, ℕ};

    ghost Value = { Option ℕ };

    ghost use Rattle.radix.specs.Words.{link_of_word, word_of_link};

    ghost view = { λ l. link_of_word l.word };

    ghost inverse = { λ x. record { word = word_of_link x } };

    ghost use Rattle.radix.specs.WordLaw.{link_again};

    ghost inverse_ok = { λ a h i. record { word = link_again a.word i } };
}

impl Link {
    #[inline]
    pub fn key(self) -> Option<usize>
        ensures { result ≡ self }
    {
        if self.word == 0 {
            None
        } else {
            Some((self.word - 1) as usize)
        }
    }

    #[inline]
    pub fn of(key: Option<usize>) -> Link
        requires { FitsLink key }
        ensures { result ≡ key }
    {
        match key {
            Some(key) => Link {
                word: key as u64 + 1,
            },
            None => Link { word: 0 },
        }
    }
}
