//! Which room a call wants, what is in flight, and which file has a page to write. Asking is no event.

ghost use Rattle.std.specs.Prelude.{◌≡◌, ◌+◌, ◌-◌, ◌/◌, ◌<◌, ◌≤◌, IfNone, IfSome, length, true, false};
ghost use Rattle.pc_types.specs.declared.limits.TheConstants.{MAX_FILE_SIZE, MAX_IN_FLIGHT, MAX_SYNCS, MAX_TOUCHED};
ghost use Rattle.machine.specs.State.{free_frames, handle_file};
ghost use Rattle.cachecore.specs.Wants.{IsFirstToWrite, NothingToWrite, demanded, holds_cut, in_flight, is_busy, may_touch, wants};

use crate::answers::{Demand, InFlight, Want};
use crate::cache::{CacheCore, is_too_long};
use pc_types::FileId;
use pc_types::limits::MAX_FILE_SIZE;

/// The pages of a file from `first` up to `end`.
struct Touched {
    file: u64,
    first: u64,
    end: u64,
}

impl CacheCore {
    /// Which room a call wants for these bytes: frames for the pages that are absent, or, if it makes its pages dirty, fewer dirty ones.
    /// `None` where no call may touch them. It looks each page up twice at most.
    pub fn wants(&self, demand: Demand) -> Option<Want>
        ensures { result ≡ wants self.now.state demand }
    {
        let Touched { file, first, end } = self.touched(demand)?;
        let short = self.pages.frames_short(file, first, end);
        if short > 0 {
            return Some(Want::Frames(short));
        }
        if demand.dirties && self.is_over_limit(file, first, end) {
            return Some(Want::Clean);
        }
        None
    }

    /// How many frames are free.
    pub fn free_frames(&self) -> u64
        ensures { result ≡ free_frames self.now.state }
    {
        self.pages.free_frames()
    }

    /// What is in flight.
    pub fn in_flight(&self) -> InFlight
        ensures value { result ≡ in_flight self.now.state }
        ensures few { (result.flushes ≤ MAX_IN_FLIGHT) × (result.syncs ≤ MAX_SYNCS) }
    {
        InFlight {
            fills: self.requests.fills(),
            flushes: self.requests.flushes(),
            syncs: self.syncs.len(),
        }
    }

    /// Whether a request is in flight. Only then does waiting for the end of one serve.
    pub fn is_busy(&self) -> bool
        ensures { result ≡ is_busy self.now.state }
    {
        self.requests.len() > 0
    }

    /// Whether a request in flight is dropped. Its block is free when it ends.
    pub fn holds_cut(&self) -> bool
        ensures { result ≡ holds_cut self.now.state }
    {
        self.requests.has_dropped()
    }

    /// The first file that has a page to write: one that is dirty and has no write in flight.
    pub fn first_to_write(&self) -> Option<FileId>
        ensures some { IfSome result (λ f. IsFirstToWrite self.now.state f.0) }
        ensures none { IfNone result (NothingToWrite self.now.state) }
    {
        'files: for file in 0..self.pages.file_count() {
            if self.pages.flush_pick(file).is_some() {
                return Some(FileId(file));
            }
        }
        None
    }

    /// The pages that the bytes of a demand touch, where a call may touch them.
    fn touched(&self, demand: Demand) -> Option<Touched>
        ensures none { IfNone result (may_touch self.now.state demand.handle.0 demand.offset (demanded self.now.state demand) ≡ false) }
        ensures some { IfSome result (λ _. may_touch self.now.state demand.handle.0 demand.offset (demanded self.now.state demand) ≡ true) }
        ensures file { IfSome result (λ t. (t.file ≡ handle_file self.now.state demand.handle.0) × (t.file < length self.now.state.files)) }
        ensures first { IfSome result (λ t. t.first ≡ demand.offset / self.now.state.sizes.page) }
        ensures end { IfSome result (λ t. t.end ≡ (demand.offset + demanded self.now.state demand - 1) / self.now.state.sizes.page + 1) }
        ensures few { IfSome result (λ t. (t.first ≤ t.end) × (t.end - t.first ≤ MAX_TOUCHED)) }
        ensures bound { IfSome result (λ t. t.end ≤ MAX_FILE_SIZE) }
    {
        let file = self.handles.file(demand.handle.0)?;
        let offset = demand.offset;
        let count = self.demanded(file, demand);
        let page_size = self.geometry.page();
        if count == 0
            || offset.saturating_add(count) > MAX_FILE_SIZE
            || is_too_long(page_size, offset, count)
        {
            return None;
        }
        let first = offset / page_size;
        let end = (offset + count - 1) / page_size + 1;
        Some(Touched { file, first, end })
    }

    /// How many bytes a demand is for, in its handle's file.
    fn demanded(&self, file: u64, demand: Demand) -> u64
        requires here { file < length self.now.state.files }
        requires file { file ≡ handle_file self.now.state demand.handle.0 }
        ensures { result ≡ demanded self.now.state demand }
    {
        if demand.dirties {
            return demand.count;
        }
        let left = self.pages.size(file).saturating_sub(demand.offset);
        demand.count.min(left)
    }
}
