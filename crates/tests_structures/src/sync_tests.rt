//! Picks, and whole syncs on a mapping: what is written and what is waited for, step by step.

ghost use Rattle.std.specs.Prelude.{◌<◌};

use crate::checks::{check, same};
use crate::request_tests::begin;
use mapping::{FoundPage, Mapping};
use pc_types::limits::LAST_PAGE;
use pc_types::{FileId, FrameId, HandleId, Kind, PageIndex, Serial, SyncId, Tag, Tags};
use std::alloc::Global;
use std::process::Abort;
use writeback::{
    Requests, SyncStep, Syncs, begin_write, end_write, flush_pick, sync_begin, sync_pick, sync_step,
};

const FILE: FileId = FileId(0);

fn found(page: u64) -> FoundPage
    requires { page < 4 }
{
    FoundPage {
        page: PageIndex(page),
        frame: FrameId(page as u32 + 10),
    }
}

/// Sync 0 has nothing to start, and awaits the write of this page, of those below the bound.
fn awaits(page: u64, bound: u64) -> SyncStep {
    SyncStep::Await(PageIndex(page), Serial(bound))
}

/// The pages of a file, its requests and its syncs.
#[derive(Drop)]
struct Desk {
    pages: Mapping,
    requests: Requests,
    syncs: Syncs,
}

impl Desk {
    /// Four pages without tags, each in the frame 10 past its number.
    fn new(rt: &impl Abort, alloc: Global) -> Desk {
        let mut pages = Mapping::new(alloc);
        for k in 0..4u32 {
            let inserted = pages.insert_page(PageIndex(k as u64), FrameId(k + 10));
            same(rt, inserted, Ok(()));
        }
        Desk {
            pages,
            requests: Requests::new(),
            syncs: Syncs::new(),
        }
    }

    fn set_tags(&mut self, rt: &impl Abort, page: u64, tags: Tags) {
        same(rt, self.pages.set_tags(PageIndex(page), tags), Ok(()));
    }

    fn dirty(&mut self, rt: &impl Abort, page: u64) {
        same(rt, self.pages.tag(PageIndex(page), Tag::Dirty), Ok(()));
    }

    fn has_tags(&self, rt: &impl Abort, page: u64, dirty: bool, writeback: bool, towrite: bool) {
        let page = PageIndex(page);
        same(rt, self.pages.has_tag(page, Tag::Dirty), dirty);
        same(rt, self.pages.has_tag(page, Tag::Writeback), writeback);
        same(rt, self.pages.has_tag(page, Tag::Towrite), towrite);
    }

    /// Begins the write of a page, by a request with this serial.
    fn start(&mut self, rt: &impl Abort, page: u64, serial: u64) {
        begin_write(&mut self.pages, PageIndex(page));
        let begun = begin(rt, &mut self.requests, Kind::Flush, 0, page);
        same(rt, begun, Serial(serial));
    }

    /// The write with this serial ends well.
    fn end(&mut self, rt: &impl Abort, serial: u64, page: u64) {
        check(rt, self.requests.end(Serial(serial)).is_some());
        end_write(&mut self.pages, PageIndex(page), false);
    }

    /// Begins sync 0, of the pages from `first` to `last`.
    fn sync(&mut self, rt: &impl Abort, first: u64, last: u64) {
        let (first, last) = (PageIndex(first), PageIndex(last));
        let begun = self.syncs.begin(HandleId(0), first, last, 0);
        same(rt, begun, Ok(SyncId(0)));
        sync_begin(&mut self.pages, first, last);
    }

    /// The page that sync 0 has left to start.
    fn picked(&self) -> Option<FoundPage> {
        let progress = self.syncs.get(SyncId(0))?;
        sync_pick(&self.pages, &progress)
    }

    fn step(&self) -> Option<SyncStep> {
        let progress = self.syncs.get(SyncId(0))?;
        Some(sync_step(&self.pages, &self.requests, FILE, &progress))
    }

    /// What sync 0 does next.
    fn goes_on(&self, rt: &impl Abort, want: SyncStep) {
        same(rt, self.step(), Some(want));
    }

    /// Sync 0 starts the write of this page next.
    fn starts(&mut self, rt: &impl Abort, page: u64, serial: u64)
        requires { page < 4 }
    {
        self.goes_on(rt, SyncStep::Start(found(page)));
        self.start(rt, page, serial);
        self.syncs.started(SyncId(0), PageIndex(page));
    }
}

fn picks_in_order(rt: &impl Abort, desk: &mut Desk) {
    same(rt, flush_pick(&desk.pages), Some(found(2)));
    begin_write(&mut desk.pages, PageIndex(2));
    desk.has_tags(rt, 2, false, true, false);
    same(rt, flush_pick(&desk.pages), Some(found(3)));
    begin_write(&mut desk.pages, PageIndex(3));
    same(rt, flush_pick(&desk.pages), None);
}

#[test]
fn a_flush_takes_the_lowest_idle_dirty_page(rt: HostRuntime) {
    let mut desk = Desk::new(&rt, rt.alloc());
    same(&rt, flush_pick(&desk.pages), None);

    // Page 0 is DIRTY and its write is in flight, page 1 is clean.
    let dirty = Tags::none().with(Tag::Dirty);
    desk.set_tags(&rt, 0, dirty.with(Tag::Writeback));
    desk.set_tags(&rt, 2, dirty);
    desk.set_tags(&rt, 3, dirty);
    picks_in_order(&rt, &mut desk);

    // A write that ends well keeps a DIRTY that was set meanwhile, and one that fails sets it.
    end_write(&mut desk.pages, PageIndex(0), false);
    desk.has_tags(&rt, 0, true, false, false);
    end_write(&mut desk.pages, PageIndex(2), false);
    desk.has_tags(&rt, 2, false, false, false);
    end_write(&mut desk.pages, PageIndex(3), true);
    desk.has_tags(&rt, 3, true, false, false);
    same(&rt, flush_pick(&desk.pages), Some(found(0)));
}

#[test]
fn a_sync_writes_what_was_dirty_as_it_began(rt: HostRuntime) {
    let mut desk = Desk::new(&rt, rt.alloc());
    desk.dirty(&rt, 0);
    desk.dirty(&rt, 2);
    desk.sync(&rt, 0, LAST_PAGE);
    desk.has_tags(&rt, 0, true, false, true);
    desk.has_tags(&rt, 1, false, false, false);

    // Page 1 is made DIRTY after the sync began.
    desk.dirty(&rt, 1);
    desk.starts(&rt, 0, 0);
    same(&rt, desk.picked(), Some(found(2)));
    desk.starts(&rt, 2, 1);

    // Nothing is left to start: it awaits both writes, the oldest first.
    desk.goes_on(&rt, awaits(0, 2));
    desk.syncs.set_bound(SyncId(0), Serial(2));
    desk.start(&rt, 1, 2);
    desk.end(&rt, 0, 0);
    desk.goes_on(&rt, awaits(2, 2));
    desk.end(&rt, 1, 2);

    // The write of page 1 began later, and is none of its own.
    desk.goes_on(&rt, SyncStep::Over);
    desk.has_tags(&rt, 1, false, true, false);
}

#[test]
fn a_sync_waits_for_an_old_write_and_writes_anew(rt: HostRuntime) {
    let mut desk = Desk::new(&rt, rt.alloc());
    desk.dirty(&rt, 0);
    desk.start(&rt, 0, 0);
    desk.dirty(&rt, 0);
    desk.sync(&rt, 0, LAST_PAGE);
    desk.has_tags(&rt, 0, true, true, true);
    desk.goes_on(&rt, SyncStep::Held(PageIndex(0)));
    desk.end(&rt, 0, 0);
    desk.has_tags(&rt, 0, true, false, true);
    desk.starts(&rt, 0, 1);
    desk.has_tags(&rt, 0, false, true, false);
    desk.goes_on(&rt, awaits(0, 2));
    desk.end(&rt, 1, 0);
    desk.goes_on(&rt, SyncStep::Over);
}

#[test]
fn a_sync_awaits_what_others_started(rt: HostRuntime) {
    let mut desk = Desk::new(&rt, rt.alloc());
    desk.dirty(&rt, 0);
    desk.sync(&rt, 0, LAST_PAGE);
    desk.start(&rt, 0, 0);
    desk.goes_on(&rt, awaits(0, 1));
    desk.end(&rt, 0, 0);
    desk.goes_on(&rt, SyncStep::Over);
}

#[test]
fn a_sync_of_a_range_leaves_other_pages(rt: HostRuntime) {
    let mut desk = Desk::new(&rt, rt.alloc());
    for page in 0..4u64 {
        desk.dirty(&rt, page);
    }
    desk.sync(&rt, 1, 2);
    desk.has_tags(&rt, 0, true, false, false);
    desk.has_tags(&rt, 1, true, false, true);
    desk.has_tags(&rt, 3, true, false, false);

    // Page 0 is written by another, and the sync starts the pages of its range.
    desk.start(&rt, 0, 0);
    desk.starts(&rt, 1, 1);
    desk.starts(&rt, 2, 2);

    // It awaits these alone.
    desk.goes_on(&rt, awaits(1, 3));
    desk.end(&rt, 1, 1);
    desk.end(&rt, 2, 2);
    desk.goes_on(&rt, SyncStep::Over);
}
