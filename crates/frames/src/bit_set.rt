//! A set of numbers, and the least of them in three steps.
//!
//! One bit a number, one bit for each word of these that is not 0, and one for each word of those: 64 times 64 times 64
//! numbers at most.

ghost use Rattle.std.specs.Prelude.{◌≡◌, ◌≢◌, ◌<◌, ◌≤◌, true, false, not, length, replicate, slice_set, MatchOption, IfOk, IsOkUnless};
ghost use Rattle.frames.specs.Sets.{IsLeast, members, is_in};

use crate::bits::{has_bit, lowest_bit, put_bit};
use pc_types::Refusal;
use std::alloc::Global;
use std::marker::Model;

/// A set of numbers below a count, which knows its size and its least member.
#[derive(Drop)]
pub(crate) struct BitSet {
    count: usize,
    size: usize,
    top: u64,
    mid: Vec<u64>,
    low: Vec<u64>,
}

impl Model for BitSet {
    ghost use Rattle.std.specs.Prelude.{List, Bool};
    ghost use Rattle.frames.specs.Sets.{IsLeveled, flags};

    ghost Value = { List Bool };

    ghost view = { λ s. flags s.count s.low.items };

    ghost invariant = { λ s. IsLeveled s.count s.low.items s.mid.items s.top s.size };
}

impl BitSet {
    /// The set without members.
    pub(crate) fn none(alloc: Global, count: usize) -> Result<BitSet, Refusal>
        requires { count ≤ 262144 }
        ensures none { IfOk result (λ s. s ≡ replicate count false) }
        ensures refused { IsOkUnless result Refusal.Memory }
    {
        let words = count.div_ceil(64);
        let mid = vec![in alloc; 0; words.div_ceil(64)]?;
        let low = vec![in alloc; 0; words]?;
        Ok(BitSet {
            count,
            size: 0,
            top: 0,
            mid,
            low,
        })
    }

    /// The set of all numbers.
    pub(crate) fn all(alloc: Global, count: usize) -> Result<BitSet, Refusal>
        requires { count ≤ 262144 }
        ensures all { IfOk result (λ s. s ≡ replicate count true) }
        ensures refused { IsOkUnless result Refusal.Memory }
    {
        let mut set = BitSet::none(alloc, count)?;
        for number in 0..count {
            set.put(number, true);
        }
        Ok(set)
    }

    /// How many members it has.
    pub(crate) fn len(&self) -> usize
        ensures { result ≡ members self.now }
    {
        self.size
    }

    /// The least member.
    #[inline]
    pub(crate) fn lowest(&self) -> Option<usize>
        ensures { MatchOption result (members self.now ≡ 0) (IsLeast self.now) }
    {
        if self.top == 0 {
            return None;
        }
        let word = lowest_bit(self.top);
        let word = word * 64 + lowest_bit(self.mid[word]);
        Some(word * 64 + lowest_bit(self.low[word]))
    }

    /// Whether the number is a member.
    #[inline]
    pub(crate) fn has(&self, number: usize) -> bool
        requires { number < length self.now }
        ensures { result ≡ is_in self.now number }
    {
        has_bit(self.low[number / 64], number % 64)
    }

    /// Makes the number a member, or not.
    #[inline]
    pub(crate) fn set(&mut self, number: usize, present: bool)
        requires { number < length self.old }
        ensures { self.new ≡ slice_set self.old number present }
    {
        if self.has(number) != present {
            self.put(number, present);
        }
    }

    /// Takes the number out, and answers whether it was a member.
    #[inline]
    pub(crate) fn take(&mut self, number: usize) -> bool
        requires { number < length self.old }
        ensures was { result ≡ is_in self.old number }
        ensures out { self.new ≡ slice_set self.old number false }
    {
        let was = self.has(number);
        if was {
            self.put(number, false);
        }
        was
    }

    /// Where the one number is a member, the other is in its place. That was none, or is the same one.
    #[inline]
    pub(crate) fn rename(&mut self, from: usize, to: usize)
        requires from { from < length self.old }
        requires to { to < length self.old }
        requires other { to ≢ from → is_in self.old to ≡ false }
        ensures { self.new ≡ slice_set (slice_set self.old from false) to (is_in self.old from) }
    {
        if self.has(from) {
            self.put(from, false);
            self.put(to, true);
        }
    }

    /// Makes the number a member, or not. It was the other.
    pub(crate) fn put(&mut self, number: usize, present: bool)
        requires within { number < length self.old }
        requires other { is_in self.old number ≡ not present }
        ensures { self.new ≡ slice_set self.old number present }
    {
        let word = number / 64;
        let any = put_bit(&mut self.low[word], number % 64, present);
        let any = put_bit(&mut self.mid[word / 64], word % 64, any);
        put_bit(&mut self.top, word / 64, any);
        if present {
            self.size += 1;
        } else {
            self.size -= 1;
        }
    }
}
