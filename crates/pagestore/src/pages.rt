//! The pages of all files: each in a frame of its own, by its file's mapping.

ghost use Rattle.std.specs.Prelude.{◌≡◌, ℕ, ◌+◌, ◌-◌, ◌<◌, ◌≤◌, ◌^◌, ◌++◌, IfNone, IfOk, IfSome, OnOk, OnErr, if◌then◌else◌, length, true, false, not, is_some, option_map, find, count_by, nat_lt, slice_index_or, slice_set, slice_range, take, drop, sum_by, [], ◌∷◌, IsOkUnless, Some, None, cond, ◌||◌};
ghost use Rattle.std.specs.List.{range_with_len};
ghost use Rattle.std.specs.FinMap as map;
ghost use Rattle.std.specs.FinSet as set;
ghost use Rattle.frames.specs.Rows.{row_at};
ghost use Rattle.frames.specs.Table as table;
ghost use Rattle.frames.specs.Table.{is_taken};
ghost use Rattle.mapping.specs.declared.mapping.TheConstants.{MAX_PAGES};
ghost use Rattle.pc_types.specs.TagBits.{tag_set};
ghost use Rattle.machine.specs.State.{no_file, dirty_in, tags_of};
ghost use Rattle.pagestore.specs.Store.{the_page, blank, stored_at, stored_page, is_awaited, with_pages, with_lists};
ghost use Rattle.pagestore.specs.Ranges.{dirtied, with_part};
ghost use Rattle.pagestore.specs.Reads.{TellsWaits, stop_of};
ghost use Rattle.machine.specs.PageLists.{no_lists, is_listed, entered, left, accessed};

use crate::counts::{count_over, has_more};
use crate::guesses::Guesses;
use crate::kept::{KeptFile, is_uptodate};
use frames::Frames;
use pc_types::limits::MAX_FRAMES;
use pc_types::{FileId, FrameId, Geometry, PageIndex, Refusal, Tag, Tags};
use std::alloc::{AllocError, Global};
use std::marker::Model;

/// The pages of all files.
#[derive(Drop)]
pub struct Pages {
    pub(crate) frames: Frames,
    // whether each frame has its page's bytes (PG_uptodate). A page whose frame does not have them is filling
    pub(crate) uptodate: Vec<bool>,
    pub(crate) files: Vec<KeptFile>,
    // how many pages of all files are DIRTY
    pub(crate) dirty: u64,
    // of the pages that were read
    pub(crate) guesses: Guesses,
}

/// How a read of pages ends.
#[derive(Clone, Copy)]
pub enum Reading {
    /// The bytes were read.
    Done,
    /// This page is the first that is not cached, and it is filling.
    Filling(u64),
    /// This page is the first that is not cached, and it is not filling either.
    Absent(u64),
}

impl Model for Pages {
    ghost use Rattle.pagestore.specs.Store.{Store, store_code, store_of, IsStore};

    ghost Value = { Store };

    ghost coded = { store_code };

    ghost view = { λ a. store_of a.frames a.uptodate.items a.files.items };

    ghost invariant = { λ a. IsStore a.frames a.uptodate.items a.files.items a.dirty };
}

impl Pages {
    /// No files, with room for so many, and all frames free.
    pub fn new(alloc: Global, geometry: &Geometry, files: usize) -> Result<Pages, Refusal>
        ensures empty { IfOk result (λ s. s ≡ record { page = geometry.now.page; files = []; filling = set.empty; free = geometry.now.frames; lists = no_lists }) }
        ensures refused { IsOkUnless result Refusal.Memory }
        ensures few { geometry.now.frames ≤ MAX_FRAMES }
    {
        prove!(geometry.frames() <= MAX_FRAMES);
        Ok(Pages {
            frames: Frames::new(alloc, geometry)?,
            uptodate: vec![in alloc; false; geometry.frames() as usize]?,
            files: Vec::with_capacity(alloc, files)?,
            dirty: 0,
            guesses: Guesses::new(alloc, geometry.frames())?,
        })
    }

    /// A new file, without bytes.
    pub fn add_file(&mut self, alloc: Global) -> Result<(), AllocError>
        ensures ok { OnOk result (self.new ≡ record self.old { files = self.old.files ++ no_file ∷ [] }) }
        ensures err { OnErr result (self.new ≡ self.old) }
    {
        match self.files.push(KeptFile::new(alloc)) {
            Ok(()) => Ok(()),
            Err(_) => Err(AllocError),
        }
    }

    pub fn file_count(&self) -> u64
        ensures { result ≡ length self.now.files }
    {
        self.files.len() as u64
    }

    pub fn free_frames(&self) -> u64
        ensures { result ≡ self.now.free }
    {
        self.frames.free_count()
    }

    /// How many pages of all files are DIRTY.
    pub fn dirty_total(&self) -> u64
        ensures { result ≡ sum_by dirty_in self.now.files }
    {
        self.dirty
    }

    pub fn size(&self, file: u64) -> u64
        requires { file < length self.now.files }
        ensures { result ≡ (stored_at self.now file).size }
    {
        self.files[file as usize].mapping.size()
    }

    pub fn set_size(&mut self, file: u64, size: u64)
        requires { file < length self.old.files }
        ensures { self.new ≡ record self.old { files = slice_set self.old.files file (record (stored_at self.old file) { size = size }) } }
    {
        self.files[file as usize].mapping.set_size(size);
    }

    /// The tags of a page that is cached.
    pub fn tags(&self, file: u64, page: u64) -> Option<Tags>
        requires { file < length self.now.files }
        ensures { option_map tag_set result ≡ option_map (λ p. p.tags) (stored_page self.now file page) }
    {
        let mapped = self.files[file as usize].mapping.page(PageIndex(page))?;
        if !is_uptodate(&self.uptodate, mapped.frame) {
            return None;
        }
        Some(mapped.tags)
    }

    pub fn is_cached(&self, file: u64, page: u64) -> bool
        requires { file < length self.now.files }
        ensures { result ≡ is_some (stored_page self.now file page) }
    {
        self.files[file as usize].is_cached(&self.uptodate, page)
    }

    /// Whether the page is filling.
    pub(crate) fn is_awaited(&self, file: u64, page: u64) -> bool
        requires { file < length self.now.files }
        ensures { result ≡ is_awaited self.now file page }
    {
        self.files[file as usize].is_awaited(&self.uptodate, page)
    }

    /// The first page from `first` up to `end` that is not cached.
    pub fn first_absent(&self, file: u64, first: u64, end: u64) -> Option<u64>
        requires here { file < length self.now.files }
        requires order { first ≤ end }
        requires bound { end ≤ 2 ^ 63 }
        ensures { result ≡ find (λ p. not (is_some (stored_page self.now file p))) (range_with_len first (end - first)) }
    {
        (first..end).find(|page| !self.is_cached(file, *page))
    }

    /// Whether fewer frames are free than pages from `first` up to `end` are not cached, by the flags of these pages.
    pub fn lacks_frames(&self, first: u64, end: u64, cached: &[bool]) -> bool
        requires order { first ≤ end }
        requires long { end - first ≤ length cached.now }
        ensures { result ≡ nat_lt self.now.free (count_by (λ p. not (slice_index_or cached.now (p - first) false)) (range_with_len first (end - first))) }
    {
        has_more(first, end, self.free_frames(), |page| {
            !cached[(page - first) as usize]
        })
    }

    /// How many frames fewer are free than pages from `first` up to `end` are not cached. It looks up no more pages than tell.
    pub fn frames_short(&self, file: u64, first: u64, end: u64) -> u64
        requires here { file < length self.now.files }
        requires order { first ≤ end }
        ensures { result ≡ count_by (λ p. not (is_some (stored_page self.now file p))) (range_with_len first (end - first)) - self.now.free }
    {
        count_over(first, end, self.free_frames(), |page| {
            !self.is_cached(file, page)
        })
    }

    /// Whether more than `room` pages from `first` up to `end` are not DIRTY. It looks up no more pages than tell.
    pub fn has_more_clean(&self, file: u64, first: u64, end: u64, room: u64) -> bool
        requires here { file < length self.now.files }
        requires order { first ≤ end }
        ensures { result ≡ nat_lt room (count_by (λ p. not ((tags_of (stored_page self.now file p)).dirty)) (range_with_len first (end - first))) }
    {
        self.files[file as usize].has_more_clean(first, end, room)
    }

    /// Makes an absent page from zeros.
    pub fn make(&mut self, file: u64, page: u64) -> Result<(), AllocError>
        requires here { file < length self.old.files }
        requires below { page < MAX_PAGES }
        requires absent { stored_page self.old file page ≡ None }
        requires idle { is_awaited self.old file page ≡ false }
        requires room { 0 < self.old.free }
        ensures ok { OnOk result (self.new ≡ with_lists (with_pages self.old file (map.insert (stored_at self.old file).pages page (blank self.old.page)) (self.old.free - 1)) (entered file page self.old.lists)) }
        ensures err { OnErr result (self.new ≡ self.old) }
        ensures unlisted { is_listed file page self.old.lists ≡ false }
    {
        self.start_fill(file, page)?;
        self.finish(file, page, 0, &[]);
        Ok(())
    }

    /// Makes an absent page of these bytes from `at` on, with zeros around them, and tags it DIRTY.
    pub(crate) fn make_with(
        &mut self,
        file: u64,
        page: u64,
        at: usize,
        bytes: &[u8],
    ) -> Result<(), AllocError>
        requires here { file < length self.old.files }
        requires below { page < MAX_PAGES }
        requires absent { stored_page self.old file page ≡ None }
        requires idle { is_awaited self.old file page ≡ false }
        requires room { 0 < self.old.free }
        requires inside { at + length bytes.now ≤ self.old.page }
        ensures ok { OnOk result (self.new ≡ with_lists (with_pages self.old file (map.insert (stored_at self.old file).pages page (with_part (blank self.old.page) at bytes.now)) (self.old.free - 1)) (entered file page self.old.lists)) }
        ensures err { OnErr result (self.new ≡ self.old) }
        ensures unlisted { is_listed file page self.old.lists ≡ false }
    {
        self.start_fill(file, page)?;
        self.finish(file, page, at, bytes);
        self.tag_dirty(file, page);
        Ok(())
    }

    /// Tags a cached page DIRTY.
    fn tag_dirty(&mut self, file: u64, page: u64)
        requires here { file < length self.old.files }
        requires cached { is_some (stored_page self.old file page) ≡ true }
        ensures { self.new ≡ with_pages self.old file (map.insert (stored_at self.old file).pages page (dirtied (the_page (stored_at self.old file).pages page))) self.old.free }
    {
        let mapping = &mut self.files[file as usize].mapping;
        let Some(mapped) = mapping.tag_page(PageIndex(page), Tag::Dirty) else {
            unreachable!()
        };
        self.dirty += u64::from(!mapped.tags.has(Tag::Dirty));
    }

    /// Takes the entry of a page that is cached or filling away, and frees its frame.
    pub fn leave(&mut self, file: u64, page: u64)
        requires here { file < length self.old.files }
        requires there { (is_some (stored_page self.old file page) || is_awaited self.old file page) ≡ true }
        ensures page { is_some (stored_page self.old file page) ≡ true → self.new ≡ with_lists (with_pages self.old file (map.remove (stored_at self.old file).pages page) (self.old.free + 1)) (left file page self.old.lists) }
        ensures fill { is_awaited self.old file page ≡ true → self.new ≡ record self.old { filling = set.remove self.old.filling (file, page); free = self.old.free + 1; lists = left file page self.old.lists } }
    {
        let _ = self.leave_if_there(file, page);
    }

    /// The same where the page may be absent. Answers whether it was there; where it was not, nothing is done.
    pub(crate) fn leave_if_there(&mut self, file: u64, page: u64) -> bool
        requires { file < length self.old.files }
        ensures there { result ≡ (is_some (stored_page self.old file page) || is_awaited self.old file page) }
        ensures page { is_some (stored_page self.old file page) ≡ true → self.new ≡ with_lists (with_pages self.old file (map.remove (stored_at self.old file).pages page) (self.old.free + 1)) (left file page self.old.lists) }
        ensures fill { is_awaited self.old file page ≡ true → self.new ≡ record self.old { filling = set.remove self.old.filling (file, page); free = self.old.free + 1; lists = left file page self.old.lists } }
        ensures same { result ≡ false → self.new ≡ self.old }
    {
        let mapping = &mut self.files[file as usize].mapping;
        let Some(mapped) = mapping.take_page(PageIndex(page)) else {
            return false;
        };
        self.dirty -= u64::from(mapped.tags.has(Tag::Dirty));
        self.frames.give(mapped.frame);
        true
    }

    /// Puts bytes into a cached page from `at` on, and tags it DIRTY.
    pub fn put(&mut self, file: u64, page: u64, at: usize, bytes: &[u8])
        requires here { file < length self.old.files }
        requires cached { is_some (stored_page self.old file page) ≡ true }
        requires room { at + length bytes.now ≤ self.old.page }
        ensures { self.new ≡ with_pages self.old file (map.insert (stored_at self.old file).pages page (with_part (the_page (stored_at self.old file).pages page) at bytes.now)) self.old.free }
    {
        let mapping = &mut self.files[file as usize].mapping;
        let Some(mapped) = mapping.tag_page(PageIndex(page), Tag::Dirty) else {
            unreachable!()
        };
        self.dirty += u64::from(!mapped.tags.has(Tag::Dirty));
        self.frames.bytes_mut(mapped.frame)[at..at + bytes.len()].copy_from_slice(bytes);
    }

    /// Puts bytes into a page from `at` on where it is DIRTY already, and notes that it was written: one look-up. Answers whether
    /// the page is DIRTY; where it is not, nothing is done.
    pub fn put_again(&mut self, file: u64, page: u64, at: usize, bytes: &[u8]) -> bool
        requires here { file < length self.old.files }
        requires room { at + length bytes.now ≤ self.old.page }
        ensures dirty { result ≡ (tags_of (stored_page self.old file page)).dirty }
        ensures done { result ≡ true → self.new ≡ with_lists (with_pages self.old file (map.insert (stored_at self.old file).pages page (with_part (the_page (stored_at self.old file).pages page) at bytes.now)) self.old.free) (accessed file page self.old.lists) }
        ensures same { result ≡ false → self.new ≡ self.old }
    {
        let mapping = &self.files[file as usize].mapping;
        let Some(frame) = mapping.tagged_frame(PageIndex(page), Tag::Dirty) else {
            return false;
        };
        self.frames.bytes_mut(frame)[at..at + bytes.len()].copy_from_slice(bytes);
        self.frames.accessed(frame);
        true
    }

    /// Copies bytes of a page from `at` on into `out`, and notes that the page was read: one look-up. Where the page is not cached,
    /// nothing is done.
    pub fn read_within(&mut self, file: u64, page: u64, at: usize, out: &mut [u8]) -> Reading
        requires here { file < length self.old.files }
        requires there { at + length out.old ≤ self.old.page }
        ensures stop { stop_of result ≡ (if not (is_some (stored_page self.old file page)) then Some page else None) }
        ensures awaited { TellsWaits result (is_awaited self.old file) }
        ensures read { IfNone (stop_of result) (out.new ≡ slice_range (the_page (stored_at self.old file).pages page).bytes at (at + length out.old)) }
        ensures moved { IfNone (stop_of result) (self.new ≡ with_lists self.old (accessed file page self.old.lists)) }
        ensures kept { IfSome (stop_of result) (λ _. out.new ≡ out.old) }
        ensures same { IfSome (stop_of result) (λ _. self.new ≡ self.old) }
    {
        let Some(frame) = self.guesses.frame(&self.frames, file, page) else {
            return self.read_walked(file, page, at, out);
        };
        if read_frame(&mut self.frames, &self.uptodate, frame, at, out) {
            return Reading::Done;
        }
        Reading::Filling(page)
    }

    /// The same by a walk, which makes the next guess right.
    #[inline(never)]
    fn read_walked(&mut self, file: u64, page: u64, at: usize, out: &mut [u8]) -> Reading
        requires here { file < length self.old.files }
        requires there { at + length out.old ≤ self.old.page }
        ensures stop { stop_of result ≡ (if not (is_some (stored_page self.old file page)) then Some page else None) }
        ensures awaited { TellsWaits result (is_awaited self.old file) }
        ensures read { IfNone (stop_of result) (out.new ≡ slice_range (the_page (stored_at self.old file).pages page).bytes at (at + length out.old)) }
        ensures moved { IfNone (stop_of result) (self.new ≡ with_lists self.old (accessed file page self.old.lists)) }
        ensures kept { IfSome (stop_of result) (λ _. out.new ≡ out.old) }
        ensures same { IfSome (stop_of result) (λ _. self.new ≡ self.old) }
    {
        let Some(frame) = self.files[file as usize].mapping.frame(PageIndex(page)) else {
            return Reading::Absent(page);
        };
        self.guesses.note(file, page, frame);
        if read_frame(&mut self.frames, &self.uptodate, frame, at, out) {
            return Reading::Done;
        }
        Reading::Filling(page)
    }

    /// Copies a part of a cached page's bytes to a part of `out`, and notes that the page was read.
    pub fn read_part(
        &mut self,
        file: u64,
        page: u64,
        at: usize,
        out: &mut [u8],
        from: usize,
        to: usize,
    )
        requires here { file < length self.old.files }
        requires cached { is_some (stored_page self.old file page) ≡ true }
        requires order { from ≤ to }
        requires inside { to ≤ length out.old }
        requires there { at + (to - from) ≤ self.old.page }
        ensures after { out.new ≡ take from out.old ++ slice_range (the_page (stored_at self.old file).pages page).bytes at (at + (to - from)) ++ drop to out.old }
        ensures len { length out.new ≡ length out.old }
        ensures moved { self.new ≡ with_lists self.old (accessed file page self.old.lists) }
    {
        let Some(frame) = self.files[file as usize].mapping.frame(PageIndex(page)) else {
            unreachable!()
        };
        let bytes = self.frames.bytes(frame);
        out[from..to].copy_from_slice(&bytes[at..at + (to - from)]);
        self.frames.accessed(frame);
    }

    /// Notes that a page was written. Only the order of eviction changes, and not even that where the page is neither cached
    /// nor filling, since it is in no list then.
    pub fn access(&mut self, file: u64, page: u64)
        requires { file < length self.old.files }
        ensures { self.new ≡ with_lists self.old (accessed file page self.old.lists) }
    {
        if let Some(frame) = self.files[file as usize].mapping.frame(PageIndex(page)) {
            self.frames.accessed(frame);
        }
    }
}

/// Copies bytes of a frame from `at` on into `out`, and notes that its page was read. Answers whether the frame has its page's bytes;
/// where it does not, nothing is done.
#[inline(always)]
fn read_frame(
    frames: &mut Frames,
    uptodate: &[bool],
    frame: FrameId,
    at: usize,
    out: &mut [u8],
) -> bool
    requires taken { is_taken frames.old frame.0 ≡ true }
    requires flagged { frame.0 < length uptodate.now }
    requires there { at + length out.old ≤ frames.old.size }
    ensures flag { result ≡ slice_index_or uptodate.now frame.0 false }
    ensures read { result ≡ true → out.new ≡ slice_range (row_at frames.old.bytes frame.0) at (at + length out.old) }
    ensures moved { result ≡ true → frames.new ≡ table.accessed frames.old frame.0 }
    ensures kept { result ≡ false → out.new ≡ out.old }
    ensures same { result ≡ false → frames.new ≡ frames.old }
{
    if !uptodate[frame.0 as usize] {
        return false;
    }
    let bytes = frames.bytes(frame);
    out.copy_from_slice(&bytes[at..at + out.len()]);
    frames.accessed(frame);
    true
}
