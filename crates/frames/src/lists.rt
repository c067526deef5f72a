//! The two page lists, as rings of links by index.
//!
//! Each list has a head of its own, past the last frame, so that no step asks whether a list is empty.

ghost use Rattle.std.specs.Prelude.{◌≡◌, ℕ, ◌-◌, ◌<◌, ◌≤◌, ◌||◌, [], ◌∷◌, true, false, length, reverse, take, slice_index, option_map, IfOk, IsOkUnless};
ghost use Rattle.frames.specs.Lists.{has, without, IsFirstPassing};

use crate::link::{Link, Place};
use crate::ring::{find_back, insert_after, unlink};
use pc_types::{FrameId, Refusal};
use std::alloc::Global;
use std::marker::Model;

/// An active and an inactive list of frames below a count.
#[derive(Drop)]
pub(crate) struct PageLists {
    /// One a frame, then the head of the active list, then that of the inactive one.
    links: Vec<Link>,
    places: Vec<Place>,
    active_len: usize,
    inactive_len: usize,
}

impl Model for PageLists {
    ghost use Rattle.std.specs.Prelude.{◌+◌, length};
    ghost use Rattle.frames.specs.Lists.{Lists};
    ghost use Rattle.frames.specs.Rings.{IsListed, walk, next_of};

    ghost Value = { Lists };

    ghost view = { λ l. record { count = length l.places.items; active = walk l.links.items l.active_len (next_of l.links.items (length l.places.items)); inactive = walk l.links.items l.inactive_len (next_of l.links.items (length l.places.items + 1)) } };

    ghost invariant = { λ l. IsListed l.links.items l.places.items l.active_len l.inactive_len (walk l.links.items l.active_len (next_of l.links.items (length l.places.items))) (walk l.links.items l.inactive_len (next_of l.links.items (length l.places.items + 1))) };
}

impl PageLists {
    /// Two empty lists.
    pub(crate) fn empty(alloc: Global, count: usize) -> Result<PageLists, Refusal>
        requires { count ≤ 65536 }
        ensures empty { IfOk result (λ l. l ≡ record { count = count; active = []; inactive = [] }) }
        ensures refused { IsOkUnless result Refusal.Memory }
    {
        let active = count as u32;
        let inactive = active + 1;
        let mut links = vec![in alloc; Link { prev: 0, next: 0 }; count + 2]?;
        let places = vec![in alloc; Place::Free; count]?;
        links[count] = Link {
            prev: active,
            next: active,
        };
        links[count + 1] = Link {
            prev: inactive,
            next: inactive,
        };
        Ok(PageLists {
            links,
            places,
            active_len: 0,
            inactive_len: 0,
        })
    }

    /// How many frames are active.
    pub(crate) fn active_len(&self) -> usize
        ensures { result ≡ length self.now.active }
    {
        self.active_len
    }

    /// How many frames are inactive.
    pub(crate) fn inactive_len(&self) -> usize
        ensures { result ≡ length self.now.inactive }
    {
        self.inactive_len
    }

    /// Whether the frame is active.
    pub(crate) fn is_active(&self, frame: u32) -> bool
        requires { frame < self.now.count }
        ensures { result ≡ has frame self.now.active }
    {
        self.places[frame as usize] == Place::Active
    }

    /// The last active frame.
    pub(crate) fn last_active(&self) -> u32
        requires { 0 < length self.now.active }
        ensures last { result ≡ slice_index self.now.active (length self.now.active - 1) }
        ensures front { without result self.now.active ≡ take (length self.now.active - 1) self.now.active }
        ensures alone { has result self.now.inactive ≡ false }
        ensures within { result < self.now.count }
    {
        self.links[self.places.len()].prev
    }

    /// Puts a frame at the head of the active list.
    pub(crate) fn push_active(&mut self, frame: u32)
        requires within { frame < self.old.count }
        requires not_active { has frame self.old.active ≡ false }
        requires not_inactive { has frame self.old.inactive ≡ false }
        ensures { self.new ≡ record self.old { active = frame ∷ self.old.active } }
    {
        let head = self.places.len() as u32;
        insert_after(&mut self.links, head, frame);
        self.places[frame as usize] = Place::Active;
        self.active_len += 1;
    }

    /// Puts a frame at the head of the inactive list.
    pub(crate) fn push_inactive(&mut self, frame: u32)
        requires within { frame < self.old.count }
        requires not_active { has frame self.old.active ≡ false }
        requires not_inactive { has frame self.old.inactive ≡ false }
        ensures { self.new ≡ record self.old { inactive = frame ∷ self.old.inactive } }
    {
        let head = self.places.len() as u32 + 1;
        insert_after(&mut self.links, head, frame);
        self.places[frame as usize] = Place::Inactive;
        self.inactive_len += 1;
    }

    /// Takes a frame out of its list.
    pub(crate) fn remove(&mut self, frame: u32)
        requires within { frame < self.old.count }
        requires listed { (has frame self.old.active || has frame self.old.inactive) ≡ true }
        ensures { self.new ≡ record self.old { active = without frame self.old.active; inactive = without frame self.old.inactive } }
    {
        if self.is_active(frame) {
            self.remove_active(frame);
        } else {
            self.remove_inactive(frame);
        }
    }

    /// Takes a frame out of the active list.
    pub(crate) fn remove_active(&mut self, frame: u32)
        requires { has frame self.old.active ≡ true }
        ensures lists { self.new ≡ record self.old { active = without frame self.old.active } }
        ensures alone { has frame self.old.inactive ≡ false }
    {
        unlink(&mut self.links, frame);
        self.places[frame as usize] = Place::Free;
        self.active_len -= 1;
    }

    /// Takes a frame out of the inactive list.
    pub(crate) fn remove_inactive(&mut self, frame: u32)
        requires { has frame self.old.inactive ≡ true }
        ensures lists { self.new ≡ record self.old { inactive = without frame self.old.inactive } }
        ensures alone { has frame self.old.active ≡ false }
    {
        unlink(&mut self.links, frame);
        self.places[frame as usize] = Place::Free;
        self.inactive_len -= 1;
    }

    /// The first active frame that passes the test, from the tail to the head.
    pub(crate) fn find_active<F: Fn(FrameId) -> bool>(&self, test: &F) -> Option<FrameId>
        requires { (f : ℕ) → has f self.now.active ≡ true → F.pre test.now (record { 0 = f }) }
        ensures { IsFirstPassing (λ f answer. F.post test.now (record { 0 = f }) answer) (reverse self.now.active) (option_map (λ frame. frame.0) result) }
    {
        find_back(&self.links, self.places.len() as u32, self.active_len, test)
    }

    /// The first inactive frame that passes the test, from the tail to the head.
    pub(crate) fn find_inactive<F: Fn(FrameId) -> bool>(&self, test: &F) -> Option<FrameId>
        requires { (f : ℕ) → has f self.now.inactive ≡ true → F.pre test.now (record { 0 = f }) }
        ensures { IsFirstPassing (λ f answer. F.post test.now (record { 0 = f }) answer) (reverse self.now.inactive) (option_map (λ frame. frame.0) result) }
    {
        find_back(
            &self.links,
            self.places.len() as u32 + 1,
            self.inactive_len,
            test,
        )
    }
}
