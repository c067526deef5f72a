//! The table of frames.

ghost use Rattle.std.specs.Prelude.{◌≡◌, ℕ, ◌+◌, ◌<◌, ◌≤◌, ◌∷◌, true, false, not, find, length, reverse, slice_set, option_map, All, IfOk, OnErr, IsOkUnless};
ghost use Rattle.frames.specs.Table.{new_table, IsSound, IsLowestFree, is_taken, is_aside, owner_of, free_frames, taken, given, with_bytes, accessed, aged, kept, scan_order, set_aside, put_back};
ghost use Rattle.frames.specs.Lists.{IsFirstPassing, has, without};
ghost use Rattle.frames.specs.Rows.{row_at, laid};

use crate::bit_set::BitSet;
use crate::lists::PageLists;
use crate::order::Order;
use crate::rows::Rows;
use pc_types::{FileId, FrameId, Geometry, PageIndex, Refusal};
use std::alloc::Global;
use std::marker::Model;

/// The bytes of cached pages, and the two lists by which the first to go is found.
///
/// All memory is taken when it is made, in fourteen pieces; the bytes of all frames are one of them.
#[derive(Drop)]
pub struct Frames {
    lists: PageLists,
    free: BitSet,
    referenced: Vec<bool>,
    // which frames the search for the oldest one passes over, so that they do not wait in `order`
    aside: Vec<bool>,
    order: Order,
    owners: Vec<Option<(FileId, PageIndex)>>,
    bytes: Rows,
}

impl Model for Frames {
    ghost use Rattle.frames.specs.Table.{Table};
    ghost use Rattle.frames.specs.Tied.{IsTied};
    ghost use Rattle.frames.specs.Order.{IsInOrder};

    ghost Value = { Table };

    ghost view = { λ t. record { size = t.bytes.size; active = t.lists.active; inactive = t.lists.inactive; referenced = t.referenced.items; aside = t.aside.items; owners = t.owners.items; bytes = t.bytes.rows } };

    ghost invariant = { λ t. IsTied t.lists t.free t.referenced.items t.owners.items t.bytes × IsInOrder t.lists t.aside.items t.order };
}

impl Frames {
    ghost use Rattle.std.specs.Borrow.{sem};
    ghost use Rattle.frames.specs.TableLent.{LendsFrame};

    /// Frames for this geometry, all free.
    pub fn new(alloc: Global, geometry: &Geometry) -> Result<Frames, Refusal>
        ensures new { IfOk result (λ t. t ≡ new_table geometry.now.page geometry.now.frames) }
        ensures refused { IsOkUnless result Refusal.Memory }
    {
        let count = geometry.frames() as usize;
        let lists = PageLists::empty(alloc, count)?;
        let free = BitSet::all(alloc, count)?;
        let referenced = vec![in alloc; false; count]?;
        let aside = vec![in alloc; false; count]?;
        let order = Order::new(alloc, count)?;
        let owners = vec![in alloc; None; count]?;
        let bytes = Rows::zeros(alloc, geometry.page() as usize, count)?;
        Ok(Frames {
            lists,
            free,
            referenced,
            aside,
            order,
            owners,
            bytes,
        })
    }

    /// How many frames are free.
    pub fn free_count(&self) -> u64
        ensures { result ≡ free_frames self.now }
    {
        self.free.len() as u64
    }

    /// Takes the lowest free frame for a page: at the inactive head, unreferenced, with the bytes that it had (decision 75).
    pub fn take(&mut self, file: FileId, page: PageIndex) -> Result<FrameId, Refusal>
        ensures lowest { IfOk result (λ frame. IsLowestFree self.old frame.0) }
        ensures taken { IfOk result (λ frame. self.new ≡ taken self.old frame.0 (file, page)) }
        ensures none { OnErr result (free_frames self.old ≡ 0) }
        ensures unchanged { OnErr result (self.new ≡ self.old) }
        ensures refused { IsOkUnless result Refusal.NoFrame }
    {
        let Some(frame) = self.free.lowest() else {
            return Err(Refusal::NoFrame);
        };
        self.free.put(frame, false);
        self.lists.push_inactive(frame as u32);
        self.order.append(frame as u32);
        self.order.mark_inactive(frame as u32, true);
        self.referenced[frame] = false;
        self.aside[frame] = false;
        self.owners[frame] = Some((file, page));
        Ok(FrameId(frame as u32))
    }

    /// Gives a frame back.
    pub fn give(&mut self, frame: FrameId)
        requires { is_taken self.old frame.0 ≡ true }
        ensures { self.new ≡ given self.old frame.0 }
    {
        self.lists.remove(frame.0);
        self.order.clear(frame.0);
        self.free.put(frame.0 as usize, true);
        self.referenced[frame.0 as usize] = false;
        self.owners[frame.0 as usize] = None;
    }

    /// The file and the page that a frame was taken for, or nothing where it is free or there is no such frame.
    pub fn owner(&self, frame: FrameId) -> Option<(FileId, PageIndex)>
        ensures { result ≡ owner_of self.now frame.0 }
    {
        if (frame.0 as usize) < self.owners.len() {
            self.owners[frame.0 as usize]
        } else {
            None
        }
    }

    /// The bytes of a frame.
    pub fn bytes(&self, frame: FrameId) -> &[u8]
        requires { is_taken self.now frame.0 ≡ true }
        ensures bytes { result.now ≡ row_at self.now.bytes frame.0 }
        ensures size { length result.now ≡ self.now.size }
    {
        self.bytes.get(frame.0)
    }

    /// The bytes of a frame, to be changed. A slice keeps its length, so it is this frame's bytes that change and no
    /// others: `with_row-whole` of `proofs/RowLemmas.antt` says so.
    pub fn bytes_mut(&mut self, frame: FrameId) -> &mut [u8]
        requires { is_taken self.old frame.0 ≡ true }
        ensures* writes_back { sem 𝓛 (LendsFrame self.entry frame.0 result) }
        ensures bytes { result.now ≡ row_at self.old.bytes frame.0 }
        ensures size { length result.now ≡ self.old.size }
        ensures sized { All (λ bytes. length bytes ≡ self.old.size) self.old.bytes }
        ensures within { frame.0 < length self.old.bytes }
    {
        self.bytes.get_mut(frame.0)
    }

    /// Writes each byte of a frame: these from `at` on, and zeros around them.
    pub fn lay(&mut self, frame: FrameId, at: usize, bytes: &[u8])
        requires taken { is_taken self.old frame.0 ≡ true }
        requires inside { at + length bytes.now ≤ self.old.size }
        ensures { self.new ≡ with_bytes self.old frame.0 (laid self.old.size at bytes.now) }
    {
        self.bytes.lay(frame.0, at, bytes);
    }

    /// Notes that a frame's page was read or written, as mark_page_accessed of Linux does:
    ///
    /// - inactive, unreferenced -> inactive, referenced
    /// - inactive, referenced -> active, unreferenced
    /// - active, unreferenced -> active, referenced
    #[inline(always)]
    pub fn accessed(&mut self, frame: FrameId)
        requires { is_taken self.old frame.0 ≡ true }
        ensures { self.new ≡ accessed self.old frame.0 }
    {
        if self.referenced[frame.0 as usize] && !self.lists.is_active(frame.0) {
            self.promote(frame.0);
        } else {
            self.referenced[frame.0 as usize] = true;
        }
    }

    /// Moves an inactive frame to the active head. It stands apart so that `accessed`, of which most calls set a flag, is small enough to
    /// stand in its callers.
    #[inline(never)]
    fn promote(&mut self, frame: u32)
        requires { has frame self.old.inactive ≡ true }
        ensures { self.new ≡ record self.old { active = frame ∷ self.old.active; inactive = without frame self.old.inactive; referenced = slice_set self.old.referenced frame false } }
    {
        self.lists.remove_inactive(frame);
        self.lists.push_active(frame);
        let waits = self.order.leave_inactive(frame);
        self.order.append(frame);
        self.order.mark_active(frame, waits);
        self.referenced[frame as usize] = false;
    }

    /// Moves frames from the active tail to the inactive head while the active list is longer, and answers how many.
    pub fn age(&mut self) -> u64
        ensures moved { result + kept self.old ≡ length self.old.active }
        ensures aged { self.new ≡ aged self.old }
        ensures sound { IsSound self.new }
    {
        let mut moved = 0;
        while self.lists.inactive_len() < self.lists.active_len() {
            let frame = self.lists.last_active();
            self.lists.remove_active(frame);
            self.lists.push_inactive(frame);
            let waits = self.order.leave_active(frame);
            self.order.append(frame);
            self.order.mark_inactive(frame, waits);
            self.referenced[frame as usize] = false;
            moved += 1;
        }
        moved
    }

    /// The first frame that is not set aside, from the inactive tail to its head, then from the active tail to its head. It reads a
    /// few words, and passes over no frame.
    pub fn oldest(&mut self) -> Option<FrameId>
        ensures oldest { option_map (λ frame. frame.0) result ≡ find (λ f. not (is_aside self.old f)) (scan_order self.old) }
        ensures same { self.new ≡ self.old }
    {
        match self.order.oldest_inactive() {
            Some(frame) => Some(FrameId(frame)),
            None => self.oldest_active(),
        }
    }

    fn oldest_active(&self) -> Option<FrameId>
        ensures { option_map (λ frame. frame.0) result ≡ find (λ f. not (is_aside self.now f)) (reverse self.now.active) }
    {
        match self.order.oldest_active() {
            Some(frame) => Some(FrameId(frame)),
            None => None,
        }
    }

    /// The search for the oldest frame passes over this one from now on.
    pub fn set_aside(&mut self, frame: FrameId)
        requires { is_taken self.old frame.0 ≡ true }
        ensures { self.new ≡ set_aside self.old frame.0 }
    {
        self.aside[frame.0 as usize] = true;
        self.order.clear(frame.0);
    }

    /// The search for the oldest frame passes over this one no more.
    pub fn put_back(&mut self, frame: FrameId)
        requires { is_taken self.old frame.0 ≡ true }
        ensures { self.new ≡ put_back self.old frame.0 }
    {
        if !self.aside[frame.0 as usize] {
            return;
        }
        self.aside[frame.0 as usize] = false;
        if self.lists.is_active(frame.0) {
            self.order.mark_active(frame.0, true);
        } else {
            self.order.mark_inactive(frame.0, true);
        }
    }

    /// The first frame that passes the test, from the inactive tail to its head, then from the active tail to its head.
    pub fn scan<F: Fn(FrameId) -> bool>(&self, test: F) -> Option<FrameId>
        requires { (f : ℕ) → is_taken self.now f ≡ true → F.pre test (record { 0 = f }) }
        ensures { IsFirstPassing (λ f answer. F.post test (record { 0 = f }) answer) (scan_order self.now) (option_map (λ frame. frame.0) result) }
    {
        let found = self.lists.find_inactive(&test);
        if found.is_some() {
            found
        } else {
            self.lists.find_active(&test)
        }
    }
}
