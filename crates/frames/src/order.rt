//! The order in which frames came to the heads of their lists, and the oldest frame that waits in each.
//!
//! A frame that comes to the head of a list gets the next turn of one growing sequence, so the turns of a list fall from its head
//! to its tail. Each list has a set of turns, those of its frames that wait: that of the oldest one is the least. A search along the
//! list would pass over every frame that does not wait, and after each write-back again over all that are dirty.
//!
//! There are four times as many turns as frames. Where none is left, the frames get the first turns, in their order. That is a pass
//! over all turns, after three times as many comings as there are frames (decision 166).

ghost use Rattle.std.specs.Prelude.{◌≡◌, ℕ, ◌*◌, ◌<◌, ◌≤◌, false, length, slice_index, slice_set, MatchOption, IfOk, IsOkUnless};
ghost use Rattle.frames.specs.Order.{turn_of, ComesLast, IsFirst, IsIdle, KeepsOrder, NoneWaits};
ghost use Rattle.frames.specs.Sets.{is_in};

use crate::bit_set::BitSet;
use pc_types::Refusal;
use std::alloc::Global;
use std::marker::Model;

/// The turn of each frame, and which frames wait in the active list and in the inactive one.
#[derive(Drop)]
pub(crate) struct Order {
    turns: Vec<u32>,
    /// The frame of each turn. Of a turn that no frame has it is some frame's number, which means nothing.
    frames: Vec<u32>,
    /// Neither this turn nor a later one is given.
    next: u32,
    active: BitSet,
    inactive: BitSet,
}

impl Model for Order {
    ghost use Rattle.frames.specs.Order.{Turns, by_frame, IsNumbered};

    ghost Value = { Turns };

    ghost view = { λ o. record { turns = o.turns.items; active = by_frame o.active o.turns.items; inactive = by_frame o.inactive o.turns.items } };

    ghost invariant = { λ o. IsNumbered o.turns.items o.frames.items o.next o.active o.inactive };
}

impl Order {
    /// Each frame has the turn of its own number, and none waits.
    pub(crate) fn new(alloc: Global, count: usize) -> Result<Order, Refusal>
        requires { count ≤ 65536 }
        ensures new { IfOk result (IsIdle count) }
        ensures refused { IsOkUnless result Refusal.Memory }
    {
        let mut turns = vec![in alloc; 0_u32; count]?;
        let mut frames = vec![in alloc; 0_u32; count * 4]?;
        let active = BitSet::none(alloc, count * 4)?;
        let inactive = BitSet::none(alloc, count * 4)?;
        number(&mut turns, count);
        number(&mut frames, count);
        Ok(Order {
            turns,
            frames,
            // not later, so that the first pass too is paid for by the frames that came
            next: count as u32,
            active,
            inactive,
        })
    }

    /// The active frame that waits longest.
    #[inline]
    pub(crate) fn oldest_active(&self) -> Option<u32>
        ensures { MatchOption result (NoneWaits self.now.active) (IsFirst self.now.turns self.now.active) }
    {
        match self.active.lowest() {
            Some(turn) => Some(self.frames[turn]),
            None => None,
        }
    }

    /// The inactive frame that waits longest.
    #[inline]
    pub(crate) fn oldest_inactive(&self) -> Option<u32>
        ensures { MatchOption result (NoneWaits self.now.inactive) (IsFirst self.now.turns self.now.inactive) }
    {
        match self.inactive.lowest() {
            Some(turn) => Some(self.frames[turn]),
            None => None,
        }
    }

    /// The frame waits in the active list, or no more.
    #[inline]
    pub(crate) fn mark_active(&mut self, frame: u32, waits: bool)
        requires { frame < length self.old.turns }
        ensures { self.new ≡ record self.old { active = slice_set self.old.active frame waits } }
    {
        let turn = self.turns[frame as usize];
        self.active.set(turn as usize, waits);
    }

    /// The frame waits in the inactive list, or no more.
    #[inline]
    pub(crate) fn mark_inactive(&mut self, frame: u32, waits: bool)
        requires { frame < length self.old.turns }
        ensures { self.new ≡ record self.old { inactive = slice_set self.old.inactive frame waits } }
    {
        let turn = self.turns[frame as usize];
        self.inactive.set(turn as usize, waits);
    }

    /// The frame waits in the active list no more. Answers whether it did.
    #[inline]
    pub(crate) fn leave_active(&mut self, frame: u32) -> bool
        requires { frame < length self.old.turns }
        ensures waited { result ≡ is_in self.old.active frame }
        ensures left { self.new ≡ record self.old { active = slice_set self.old.active frame false } }
    {
        let turn = self.turns[frame as usize];
        self.active.take(turn as usize)
    }

    /// The frame waits in the inactive list no more. Answers whether it did.
    #[inline]
    pub(crate) fn leave_inactive(&mut self, frame: u32) -> bool
        requires { frame < length self.old.turns }
        ensures waited { result ≡ is_in self.old.inactive frame }
        ensures left { self.new ≡ record self.old { inactive = slice_set self.old.inactive frame false } }
    {
        let turn = self.turns[frame as usize];
        self.inactive.take(turn as usize)
    }

    /// The frame waits in neither list.
    #[inline]
    pub(crate) fn clear(&mut self, frame: u32)
        requires { frame < length self.old.turns }
        ensures { self.new ≡ record self.old { active = slice_set self.old.active frame false; inactive = slice_set self.old.inactive frame false } }
    {
        self.mark_active(frame, false);
        self.mark_inactive(frame, false);
    }

    /// Gives a frame that does not wait the turn after all others.
    #[inline]
    pub(crate) fn append(&mut self, frame: u32)
        requires within { frame < length self.old.turns }
        requires active { is_in self.old.active frame ≡ false }
        requires inactive { is_in self.old.inactive frame ≡ false }
        ensures last { ComesLast self.old.turns frame self.new.turns }
        ensures active { self.new.active ≡ self.old.active }
        ensures inactive { self.new.inactive ≡ self.old.inactive }
    {
        let turn = self.free_turn();
        self.turns[frame as usize] = turn;
        self.frames[turn as usize] = frame;
        self.next = turn + 1;
    }

    /// A turn after those of all frames.
    #[inline]
    fn free_turn(&mut self) -> u32
        requires { 0 < length self.old.turns }
        ensures within { result < length self.old.turns * 4 }
        ensures later { (f : ℕ) → f < length self.old.turns → turn_of self.new.turns f < result }
        ensures order { KeepsOrder self.old.turns self.new.turns }
        ensures active { self.new.active ≡ self.old.active }
        ensures inactive { self.new.inactive ≡ self.old.inactive }
    {
        if (self.next as usize) < self.frames.len() {
            self.next
        } else {
            self.renumber()
        }
    }

    /// Gives the frames the first turns, in their order, and answers the turn after these. A frame's new turn is no later than its
    /// old one, and no other frame stands between: so each step keeps the order, and no memory is needed.
    #[cold]
    #[inline(never)]
    fn renumber(&mut self) -> u32
        ensures within { result ≤ length self.old.turns }
        ensures later { (f : ℕ) → f < length self.old.turns → turn_of self.new.turns f < result }
        ensures order { KeepsOrder self.old.turns self.new.turns }
        ensures active { self.new.active ≡ self.old.active }
        ensures inactive { self.new.inactive ≡ self.old.inactive }
    {
        let mut given = 0;
        for turn in 0..self.next {
            let frame = self.frames[turn as usize];
            if self.turns[frame as usize] == turn {
                self.advance(frame, given);
                given += 1;
            }
        }
        self.next = given;
        given
    }

    /// Moves a frame to an earlier turn that no other frame has. Who waits stays.
    fn advance(&mut self, frame: u32, turn: u32)
        requires frame { frame < length self.old.turns }
        requires earlier { turn ≤ turn_of self.old.turns frame }
        requires free { (f : ℕ) → f < length self.old.turns → turn_of self.old.turns f ≡ turn → f ≡ frame }
        ensures { self.new ≡ record self.old { turns = slice_set self.old.turns frame turn } }
    {
        let old = self.turns[frame as usize];
        self.active.rename(old as usize, turn as usize);
        self.inactive.rename(old as usize, turn as usize);
        self.turns[frame as usize] = turn;
        self.frames[turn as usize] = frame;
    }
}

/// Writes its own number to each of the first places.
fn number(numbers: &mut [u32], count: usize)
    requires within { count ≤ length numbers.old }
    requires few { count ≤ 65536 }
    ensures numbers { (k : ℕ) → k < count → slice_index numbers.new k ≡ k }
    ensures others { (k : ℕ) → count ≤ k → slice_index numbers.new k ≡ slice_index numbers.old k }
{
    for place in 0..count {
        numbers[place] = place as u32;
    }
}
