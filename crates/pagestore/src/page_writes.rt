//! Pages that are written back, and what is known of a file's failed writes.

ghost use Rattle.std.specs.Prelude.{IfSome, ◌≡◌, ◌+◌, ◌<◌, ◌^◌, length, slice_set};
ghost use Rattle.mapping.specs.declared.mapping.TheConstants.{MAX_PAGES};
ghost use Rattle.writeback.specs.Picks.{StartsBelow};
ghost use Rattle.writeback.specs.Slots.{sync_of};
ghost use Rattle.pagestore.specs.Store.{stored_at, with_pages};
ghost use Rattle.machine.specs.State.{Sync};
ghost use Rattle.machine.specs.Changes.{flush_pick, to_write};
ghost use Rattle.maps.specs.Maps.{each_value};
ghost use Rattle.pagestore.specs.Syncing.{FailedSince, IsCoded, SyncSays, failed_of};

use crate::pages::Pages;
use pc_types::{ErrCode, FileId, PageIndex};
use writeback::{Progress, Requests, SyncStep};

impl Pages {
    /// The lowest page of the file that is DIRTY and has no write in flight.
    pub fn flush_pick(&self, file: u64) -> Option<u64>
        requires { file < length self.now.files }
        ensures pick { result ≡ flush_pick (stored_at self.now file) }
        ensures numbered { IfSome result (λ p. p < MAX_PAGES) }
    {
        let found = writeback::flush_pick(&self.files[file as usize].mapping)?;
        Some(found.page.0)
    }

    /// Each DIRTY page of the file from `first` to `last` becomes TOWRITE as well, as a sync of this range wants it.
    pub fn sync_begin(&mut self, file: u64, first: PageIndex, last: PageIndex)
        requires { file < length self.old.files }
        ensures { (y : Sync) → y.first ≡ first.0 → y.last ≡ last.0 → self.new ≡ with_pages self.old file (each_value (to_write y) (stored_at self.old file).pages) self.old.free }
    {
        writeback::sync_begin(&mut self.files[file as usize].mapping, first, last);
    }

    /// What a sync of the file does next.
    pub fn sync_step(&self, file: u64, requests: &Requests, progress: &Progress) -> SyncStep
        requires { file < length self.now.files }
        ensures step { SyncSays file (stored_at self.now file) requests.now (sync_of progress.now) result }
        ensures numbered { StartsBelow MAX_PAGES result }
    {
        let mapping = &self.files[file as usize].mapping;
        writeback::sync_step(mapping, requests, FileId(file), progress)
    }

    /// How many writes of the file failed.
    pub fn failures(&self, file: u64) -> u64
        requires { file < length self.now.files }
        ensures { result ≡ (stored_at self.now file).failures }
    {
        self.files[file as usize].failures
    }

    /// The code of the last failed write, where the file has other failures than these.
    pub fn failure_since(&self, file: u64, failures: u64) -> Option<ErrCode>
        requires here { file < length self.now.files }
        requires coded { IsCoded (failed_of self.now.files file) failures }
        ensures { FailedSince (failed_of self.now.files file) failures result }
    {
        let kept = &self.files[file as usize];
        if kept.failures == failures {
            return None;
        }
        match ErrCode::new(kept.last_code as u16) {
            Ok(code) => Some(code),
            Err(_) => unreachable!(),
        }
    }

    /// A write of the file failed with this code.
    pub fn note_failure(&mut self, file: u64, code: u64)
        requires here { file < length self.old.files }
        requires few { (stored_at self.old file).failures + 1 < 2 ^ 64 }
        ensures { self.new ≡ record self.old { files = slice_set self.old.files file (record (stored_at self.old file) { failures = (stored_at self.old file).failures + 1; last_code = code }) } }
    {
        let kept = &mut self.files[file as usize];
        kept.failures += 1;
        kept.last_code = code;
    }
}
