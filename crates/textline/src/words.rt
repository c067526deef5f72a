//! The words of a line, and what each stands for.

ghost use Rattle.std.specs.Prelude.{◌≡◌, ◌∷◌, [], ℕ, List, IfOk, IfSome, IfNone, None, MatchOption, IsOk, IsOkUnless, OnErr, ◌↔◌};
ghost use Rattle.std.specs.Str.{IsUtf8};
ghost use Rattle.std.specs.Str.Parse.{digits_value, without_leading_plus};
ghost use Rattle.textline.specs.Words.{words_of, AreNumbers, First, IsNumber, bytes_of, has_sign_or_leading_zero, IsParse};

use crate::find::split_at_byte;
use hex::FromHexError;
use pc_types::Bytes;
use std::alloc::{AllocError, Global};
use std::marker::Model;

/// Why a word or a line was not taken.
#[derive(Clone, Copy, PartialEq, Eq, Debug)]
pub enum Fault {
    Malformed,
    Memory,
}

/// The number that a word is: decimal digits with no leading zero, below 2^64.
pub fn number(word: &[u8]) -> Option<u64>
    ensures value { IfSome result (IsNumber word.now) }
    ensures none { IfNone result ((n : ℕ) → ¬ (IsNumber word.now n)) }
{
    if has_sign_or_leading_zero(word) {
        return None;
    }
    parsed(word)
}

/// Whether the word begins with a plus, or with a zero before another byte. A parse takes both.
fn has_sign_or_leading_zero(word: &[u8]) -> bool
    ensures { result ≡ has_sign_or_leading_zero word.now }
{
    match word.first() {
        Some(b'+') => true,
        Some(b'0') => word.len() > 1,
        _ => false,
    }
}

fn parsed(word: &[u8]) -> Option<u64>
    ensures some { IfSome result (λ n. IsParse word.now × (n ≡ digits_value 10 (without_leading_plus word.now))) }
    ensures none { IfNone result (IsUtf8 word.now → ¬ (IsParse word.now)) }
{
    std::str::from_utf8(word).ok()?.parse().ok()
}

/// The bytes that a word is: two hexadecimal digits of either case for each byte, or `-` for none.
pub fn bytes(alloc: Global, word: &[u8]) -> Result<Bytes, Fault>
    ensures value { IfOk result (λ b. bytes_of word.now ≡ Some b) }
    ensures malformed { result ≡ Err Fault.Malformed → bytes_of word.now ≡ None }
{
    if word == b"-".as_slice() {
        return Ok(Bytes::from_vec(Vec::new(alloc)));
    }
    if word.is_empty() {
        return Err(Fault::Malformed);
    }
    match hex::decode(alloc, word) {
        Ok(bytes) => Ok(Bytes::from_vec(bytes)),
        Err(FromHexError::OutOfMemory) => Err(Fault::Memory),
        Err(_) => Err(Fault::Malformed),
    }
}

/// The words of a line that are not taken yet. Two spaces in a row have an empty word between them.
#[derive(Drop)]
pub struct Words<'a> {
    rest: Option<&'a [u8]>,
}

impl<'a> Model for Words<'a> {
    ghost use Rattle.std.specs.Prelude.{List, ℕ};
    ghost use Rattle.textline.specs.Words.{words_left};

    ghost Value = { List (List ℕ) };

    ghost view = { λ w. words_left w.rest };
}

impl<'a> Words<'a> {
    pub fn new(line: &'a [u8]) -> Words<'a>
        ensures { result ≡ words_of line.now }
    {
        Words { rest: Some(line) }
    }

    /// The next word, where there is one.
    pub fn word(&mut self) -> Option<&'a [u8]>
        ensures { MatchOption result (self.old ≡ []) (λ word. self.old ≡ word.now ∷ self.new) }
    {
        let rest = self.rest?;
        match split_at_byte(rest, b' ') {
            Some((word, rest)) => {
                self.rest = Some(rest);
                Some(word)
            }
            None => {
                self.rest = None;
                Some(rest)
            }
        }
    }

    /// The next word's number.
    pub fn number(&mut self) -> Result<u64, Fault>
        ensures ok { IfOk result (λ n. First (λ word. IsNumber word n) self.old self.new) }
        ensures none { OnErr result ((n : ℕ) (rest : List (List ℕ)) → ¬ (First (λ word. IsNumber word n) self.old rest)) }
        ensures malformed { IsOkUnless result Fault.Malformed }
    {
        let word = self.word().ok_or(Fault::Malformed)?;
        number(word).ok_or(Fault::Malformed)
    }

    /// The next word's bytes.
    pub fn bytes(&mut self, alloc: Global) -> Result<Bytes, Fault>
        ensures ok { IfOk result (λ b. First (λ word. bytes_of word ≡ Some b) self.old self.new) }
        ensures malformed { result ≡ Err Fault.Malformed → (b : List ℕ) (rest : List (List ℕ)) → ¬ (First (λ word. bytes_of word ≡ Some b) self.old rest) }
    {
        let word = self.word().ok_or(Fault::Malformed)?;
        bytes(alloc, word)
    }

    /// Whether every word was taken.
    pub fn end(&self) -> Result<(), Fault>
        ensures ended { IsOk result ↔ (self.now ≡ []) }
        ensures malformed { IsOkUnless result Fault.Malformed }
    {
        match self.rest {
            None => Ok(()),
            Some(_) => Err(Fault::Malformed),
        }
    }
}

/// The numbers that the words are, where each of them is one.
pub fn numbers(alloc: Global, words: &mut Words<'_>) -> Result<Option<Vec<u64>>, AllocError>
    ensures { IfOk result (λ r. MatchOption r ((numbers : List ℕ) → ¬ (AreNumbers words.old numbers)) (λ numbers. AreNumbers words.old numbers.items)) }
{
    let mut numbers = Vec::new(alloc);
    while let Some(word) = words.word() {
        let Some(number) = number(word) else {
            return Ok(None);
        };
        numbers.push(number)?;
    }
    Ok(Some(numbers))
}
