//! Ranges of pages: written and read, one page after the other.

ghost use Rattle.std.specs.Prelude.{◌≡◌, ◌+◌, ◌-◌, ◌/◌, ◌<◌, ◌≤◌, IfNone, IfSome, OnOk, OnErr, length, find, not, is_some, count_by};
ghost use Rattle.std.specs.List.{range_with_len};
ghost use Rattle.mapping.specs.declared.mapping.TheConstants.{MAX_PAGES};
ghost use Rattle.pagestore.specs.Ranges.{AreCached, AreFlags, AreRead, AreSized, AreWritten, HasAbsent};
ghost use Rattle.machine.specs.PageLists.{each_accessed, flagged};
ghost use Rattle.machine.specs.State.{touched};
ghost use Rattle.pagestore.specs.Reads.{TellsWaits, stop_of};
ghost use Rattle.pagestore.specs.Store.{is_awaited, stored_at, stored_page, with_lists, NoneAwaited};

use crate::pages::{Pages, Reading};
use crate::span::Span;
use pc_types::limits::{MAX_FILE_SIZE, MAX_PAGE_SIZE, MAX_TOUCHED};
use std::alloc::AllocError;

impl Pages {
    /// Writes the bytes into the span's pages from `page` on, and makes those that are absent, by the flags of these pages. Where
    /// memory is refused, the pages made so far are taken away again, the last one first. It calls itself once a page: at most 16
    /// times in a call of the cache (no clause says so). Decision 67.
    pub fn write(
        &mut self,
        span: Span,
        bytes: &[u8],
        cached: &[bool],
        page: u64,
    ) -> Result<(), AllocError>
        requires here { span.file < length self.old.files }
        requires size { span.page_size ≡ self.old.page }
        requires positive { 0 < span.page_size }
        requires small { span.page_size ≤ MAX_PAGE_SIZE }
        requires some { 0 < length bytes.now }
        requires bound { span.offset + length bytes.now ≤ MAX_FILE_SIZE }
        requires from { span.offset / span.page_size ≤ page }
        requires order { page ≤ span.end }
        requires to { span.end ≤ (span.offset + length bytes.now - 1) / span.page_size + 1 }
        requires below { span.end ≤ MAX_PAGES }
        requires sized { AreSized span.page_size (stored_at self.old span.file).pages }
        requires idle { NoneAwaited span.file page span.end self.old }
        requires flags { AreFlags cached.now self.old.files span.file page span.end }
        requires room { count_by (λ p. not (is_some (stored_page self.old span.file p))) (range_with_len page (span.end - page)) ≤ self.old.free }
        ensures written { OnOk result (AreWritten span.page_size span.file span.offset bytes.now page span.end self.old self.new) }
        ensures err { OnErr result (self.new ≡ self.old) }
        ensures absent { OnErr result (HasAbsent span.file page span.end self.old) }
    {
        if page == span.end {
            return Ok(());
        }
        let (at, part) = span.part(bytes, page);
        if cached[0] {
            self.write(span, bytes, &cached[1..], page + 1)?;
            self.put(span.file, page, at, part);
            return Ok(());
        }
        self.make_with(span.file, page, at, part)?;
        let rest = self.write(span, bytes, &cached[1..], page + 1);
        if rest.is_err() {
            self.leave(span.file, page);
        }
        rest
    }

    /// Copies the bytes from `offset` on out of their pages, and notes that each was read. Where not all of them are cached it
    /// answers the first that is not, and does nothing else.
    pub fn read(&mut self, file: u64, page_size: u64, offset: u64, out: &mut [u8]) -> Reading
        requires here { file < length self.old.files }
        requires page { page_size ≡ self.old.page }
        requires positive { 0 < page_size }
        requires small { page_size ≤ MAX_PAGE_SIZE }
        requires some { 0 < length out.old }
        requires bound { offset + length out.old ≤ MAX_FILE_SIZE }
        requires sized { AreSized page_size (stored_at self.old file).pages }
        ensures stop { stop_of result ≡ find (λ p. not (is_some (stored_page self.old file p))) (range_with_len (offset / page_size) ((offset + length out.old - 1) / page_size + 1 - offset / page_size)) }
        ensures awaited { TellsWaits result (is_awaited self.old file) }
        ensures kept { IfSome (stop_of result) (λ _. out.new ≡ out.old) }
        ensures same { IfSome (stop_of result) (λ _. self.new ≡ self.old) }
        ensures read { IfNone (stop_of result) (AreRead page_size offset (stored_at self.old file).pages (length out.new) out.new) }
        ensures moved { IfNone (stop_of result) (self.new ≡ with_lists self.old (each_accessed file (touched page_size offset (length out.old)) self.old.lists)) }
    {
        let first = offset / page_size;
        let at = offset % page_size;
        if at + out.len() as u64 <= page_size {
            // bytes of one page
            return self.read_within(file, first, at as usize, out);
        }
        self.read_several(file, page_size, offset, out)
    }

    /// The same of any number of pages, by two look-ups a page.
    #[inline(never)]
    fn read_several(&mut self, file: u64, page_size: u64, offset: u64, out: &mut [u8]) -> Reading
        requires here { file < length self.old.files }
        requires page { page_size ≡ self.old.page }
        requires positive { 0 < page_size }
        requires small { page_size ≤ MAX_PAGE_SIZE }
        requires some { 0 < length out.old }
        requires bound { offset + length out.old ≤ MAX_FILE_SIZE }
        requires sized { AreSized page_size (stored_at self.old file).pages }
        ensures stop { stop_of result ≡ find (λ p. not (is_some (stored_page self.old file p))) (range_with_len (offset / page_size) ((offset + length out.old - 1) / page_size + 1 - offset / page_size)) }
        ensures awaited { TellsWaits result (is_awaited self.old file) }
        ensures kept { IfSome (stop_of result) (λ _. out.new ≡ out.old) }
        ensures same { IfSome (stop_of result) (λ _. self.new ≡ self.old) }
        ensures read { IfNone (stop_of result) (AreRead page_size offset (stored_at self.old file).pages (length out.new) out.new) }
        ensures moved { IfNone (stop_of result) (self.new ≡ with_lists self.old (each_accessed file (touched page_size offset (length out.old)) self.old.lists)) }
    {
        let first = offset / page_size;
        let end = (offset + out.len() as u64 - 1) / page_size + 1;
        if let Some(page) = self.first_absent(file, first, end) {
            if self.is_awaited(file, page) {
                return Reading::Filling(page);
            }
            return Reading::Absent(page);
        }
        self.read_each(file, page_size, offset, out);
        Reading::Done
    }

    /// Copies the bytes from `offset` on out of pages that are cached, and notes that each was read.
    fn read_each(&mut self, file: u64, page_size: u64, offset: u64, out: &mut [u8])
        requires here { file < length self.old.files }
        requires page { page_size ≡ self.old.page }
        requires positive { 0 < page_size }
        requires small { page_size ≤ MAX_PAGE_SIZE }
        requires some { 0 < length out.old }
        requires bound { offset + length out.old ≤ MAX_FILE_SIZE }
        requires cached { AreCached (offset / page_size) ((offset + length out.old - 1) / page_size + 1) (stored_at self.old file).pages }
        requires sized { AreSized page_size (stored_at self.old file).pages }
        ensures read { AreRead page_size offset (stored_at self.old file).pages (length out.new) out.new }
        ensures moved { self.new ≡ with_lists self.old (each_accessed file (touched page_size offset (length out.old)) self.old.lists) }
    {
        let first = offset / page_size;
        let last = (offset + out.len() as u64 - 1) / page_size;
        for p in first..last + 1 {
            let start = p * page_size;
            let at = offset.saturating_sub(start) as usize;
            let from = start.saturating_sub(offset) as usize;
            let to = out.len().min((start + page_size - offset) as usize);
            self.read_part(file, p, at, out, from, to);
        }
    }

    /// Which pages from `first` up to `end` are cached.
    pub fn which_cached(&self, file: u64, first: u64, end: u64) -> [bool; MAX_TOUCHED as usize]
        requires here { file < length self.now.files }
        requires few { end - first ≤ MAX_TOUCHED }
        ensures { AreFlags result self.now.files file first end }
    {
        let mut cached = [false; MAX_TOUCHED as usize];
        for page in first..end {
            cached[(page - first) as usize] = self.is_cached(file, page);
        }
        cached
    }

    /// Notes that those of the pages from `first` on that were cached were written.
    pub fn access_cached(&mut self, file: u64, first: u64, cached: &[bool])
        requires here { file < length self.old.files }
        requires below { first ≤ MAX_PAGES }
        ensures { self.new ≡ with_lists self.old (each_accessed file (flagged first cached.now) self.old.lists) }
    {
        for at in 0..cached.len() {
            if cached[at] {
                self.access(file, first + at as u64);
            }
        }
    }
}
