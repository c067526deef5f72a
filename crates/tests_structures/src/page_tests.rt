//! One page through all its tags, and searches over pages far apart. Expected values are counted by hand.

ghost use Rattle.std.specs.Prelude.{◌<◌};

use crate::checks::{check, same};
use mapping::{FoundPage, MAX_PAGES, MappedPage, Mapping, Totals};
use pc_types::{FrameId, PageIndex, Refusal, Tag, Tags};
use std::alloc::Global;
use std::process::Abort;
use std::test::Fail;

fn assert_totals(rt: &impl Abort, mapping: &Mapping, dirty: u64, writeback: u64, towrite: u64) {
    let totals = Totals {
        dirty,
        writeback,
        towrite,
    };
    same(rt, mapping.totals(), totals);
}

/// Sets a tag of page 3, and counts the tags.
fn counts_set(
    rt: &impl Abort,
    mapping: &mut Mapping,
    tag: Tag,
    dirty: u64,
    writeback: u64,
    towrite: u64,
) {
    same(rt, mapping.tag(PageIndex(3), tag), Ok(()));
    assert_totals(rt, mapping, dirty, writeback, towrite);
}

/// A tag counts once, however often it is set, and is taken off once.
#[test]
fn a_tag_counts_once(rt: HostRuntime) {
    let page = PageIndex(3);
    let mut mapping = Mapping::new(rt.alloc());
    same(&rt, mapping.page(page), None);
    same(&rt, mapping.insert_page(page, FrameId(9)), Ok(()));
    let again = mapping.insert_page(page, FrameId(8));
    same(&rt, again, Err(Refusal::Busy));
    same(&rt, mapping.page_count(), 1);
    assert_totals(&rt, &mapping, 0, 0, 0);
    counts_set(&rt, &mut mapping, Tag::Dirty, 1, 0, 0);
    counts_set(&rt, &mut mapping, Tag::Dirty, 1, 0, 0);
    counts_set(&rt, &mut mapping, Tag::Writeback, 1, 1, 0);
    counts_set(&rt, &mut mapping, Tag::Towrite, 1, 1, 1);
    mapping.untag(page, Tag::Writeback);
    assert_totals(&rt, &mapping, 1, 0, 1);
    mapping.untag(page, Tag::Writeback);
    assert_totals(&rt, &mapping, 1, 0, 1);
    check(&rt, mapping.has_tag(page, Tag::Towrite));
    check(&rt, !mapping.has_tag(page, Tag::Writeback));
}

/// A page's frame is found with and without its tags, and the page goes with them.
#[test]
fn a_page_goes_with_its_tags(rt: HostRuntime) -> Result<(), Fail> {
    let page = PageIndex(3);
    let mut mapping = Mapping::new(rt.alloc());
    same(&rt, mapping.size(), 0);
    mapping.set_size(100);
    same(&rt, mapping.insert_page(page, FrameId(9)), Ok(()));
    same(&rt, mapping.tag(page, Tag::Dirty), Ok(()));
    same(&rt, mapping.tag(page, Tag::Towrite), Ok(()));
    let dirty = MappedPage {
        frame: FrameId(9),
        tags: Tags::none().with(Tag::Dirty).with(Tag::Towrite),
    };
    same(&rt, mapping.page(page), Some(dirty));
    same(&rt, mapping.frame(page), Some(FrameId(9)));
    same(&rt, mapping.frame(PageIndex(4)), None);
    same(
        &rt,
        mapping.tagged_frame(page, Tag::Towrite),
        Some(FrameId(9)),
    );
    same(&rt, mapping.tagged_frame(page, Tag::Writeback), None);
    same(&rt, mapping.tagged_frame(PageIndex(4), Tag::Dirty), None);
    // a write of the page begins: one call clears DIRTY and TOWRITE and sets WRITEBACK
    same(
        &rt,
        mapping.set_tags(page, Tags::none().with(Tag::Writeback)),
        Ok(()),
    );
    assert_totals(&rt, &mapping, 0, 1, 0);
    same(&rt, mapping.remove_page(page), Some(FrameId(9)));
    assert_totals(&rt, &mapping, 0, 0, 0);
    same(&rt, mapping.page_count(), 0);
    same(&rt, mapping.size(), 100);
    Ok(())
}

/// A page is cached, written to, and started: one call clears DIRTY and TOWRITE and sets WRITEBACK.
fn start(alloc: Global) -> Result<Mapping, Refusal> {
    let mut pages = Mapping::new(alloc);
    pages.insert_page(PageIndex(3), FrameId(7))?;
    pages.tag(PageIndex(3), Tag::Dirty)?;
    pages.set_tags(PageIndex(3), Tags::none().with(Tag::Writeback))?;
    Ok(pages)
}

#[test]
fn a_page_is_started(rt: HostRuntime) -> Result<(), Fail> {
    let pages = start(rt.alloc())?;
    assert_totals(&rt, &pages, 0, 1, 0);
    Ok(())
}

#[test]
fn no_page_no_tag(rt: HostRuntime) -> Result<(), Fail> {
    let mut mapping = Mapping::new(rt.alloc());
    same(&rt, mapping.insert_page(PageIndex(0), FrameId(0)), Ok(()));
    let absent = PageIndex(1);
    same(&rt, mapping.tag(absent, Tag::Dirty), Err(Refusal::NoEntry));
    same(
        &rt,
        mapping.set_tags(absent, Tags::none()),
        Err(Refusal::NoEntry),
    );
    mapping.untag(absent, Tag::Dirty);
    check(&rt, !mapping.has_tag(absent, Tag::Dirty));
    same(&rt, mapping.remove_page(absent), None);
    same(&rt, mapping.page_count(), 1);
    assert_totals(&rt, &mapping, 0, 0, 0);
    Ok(())
}

/// Page numbers at the edges of the nodes, the first and the last of a file among them.
const PAGES: [u64; 7] = [0, 1, 63, 64, 4_095, 4_096, MAX_PAGES - 1];

/// The page at a place of `PAGES`.
fn page_at(rt: &impl Abort, at: usize) -> u64
    ensures { result < MAX_PAGES }
{
    assert!(rt; at < 7);
    let page = PAGES[at];
    assert!(rt; page < MAX_PAGES);
    page
}

/// Stops the test unless the page at this place of `PAGES` was found, or none where the place is past them.
fn assert_found(rt: &impl Abort, found: Option<FoundPage>, at: usize) {
    if at < 7 {
        let page = FoundPage {
            page: PageIndex(page_at(rt, at)),
            frame: FrameId(at as u32),
        };
        same(rt, found, Some(page));
    } else {
        same(rt, found, None);
    }
}

fn inserts_far_pages(rt: &impl Abort, mapping: &mut Mapping) {
    for at in 0..7usize {
        let page = PageIndex(page_at(rt, at));
        same(rt, mapping.insert_page(page, FrameId(at as u32)), Ok(()));
    }
    same(rt, mapping.page_count(), 7);
}

fn finds_far_pages(rt: &impl Abort, mapping: &Mapping) {
    for at in 0..7usize {
        let page = page_at(rt, at);
        assert_found(rt, mapping.find_page(PageIndex(page)), at);
        assert_found(rt, mapping.find_page(PageIndex(page + 1)), at + 1);
    }
}

fn removes_far_pages(rt: &impl Abort, mapping: &mut Mapping) {
    for at in 0..7usize {
        let removed = mapping.remove_page(PageIndex(page_at(rt, at)));
        same(rt, removed, Some(FrameId(at as u32)));
    }
    same(rt, mapping.page_count(), 0);
}

/// A search finds the page at its start, or the next one, until the pages are removed.
#[test]
fn pages_are_found(rt: HostRuntime) {
    let mut mapping = Mapping::new(rt.alloc());
    assert_found(&rt, mapping.find_page(PageIndex(0)), 7);
    inserts_far_pages(&rt, &mut mapping);
    finds_far_pages(&rt, &mapping);
    removes_far_pages(&rt, &mut mapping);
}

/// 0, 63, 4,095 and the last page are DIRTY, 63 is TOWRITE too.
fn tags_far_pages(rt: &impl Abort, mapping: &mut Mapping) {
    inserts_far_pages(rt, mapping);
    for at in [0usize, 2, 4, 6] {
        let page = PageIndex(page_at(rt, at));
        same(rt, mapping.tag(page, Tag::Dirty), Ok(()));
    }
    same(rt, mapping.tag(PageIndex(63), Tag::Towrite), Ok(()));
    assert_totals(rt, mapping, 4, 0, 1);
}

/// A search for a tag passes over the pages without it, and goes no further than its end.
#[test]
fn tagged_pages_are_found(rt: HostRuntime) {
    let mut mapping = Mapping::new(rt.alloc());
    tags_far_pages(&rt, &mut mapping);
    let rows = [
        (0, u64::MAX, Tag::Dirty, 0usize),
        (1, u64::MAX, Tag::Dirty, 2),
        (63, 63, Tag::Dirty, 2),
        (64, 4_094, Tag::Dirty, 7),
        (4_096, u64::MAX, Tag::Dirty, 6),
        (2, 1, Tag::Dirty, 7),
        (0, u64::MAX, Tag::Writeback, 7),
    ];
    for (from, to, tag, at) in rows {
        let found = mapping.find_tagged(PageIndex(from), PageIndex(to), tag);
        assert_found(&rt, found, at);
    }
}

/// Retags the pages from `from` to `to`, as many as this.
fn retags(
    rt: &impl Abort,
    mapping: &mut Mapping,
    from: u64,
    to: u64,
    tag: Tag,
    other: Tag,
    want: u64,
) {
    let count = mapping.retag(PageIndex(from), PageIndex(to), tag, other);
    same(rt, count, want);
}

/// 63 and 4,095 are DIRTY from 1 to 4,096; only 4,095 is new as TOWRITE.
#[test]
fn tagged_pages_are_retagged(rt: HostRuntime) {
    let (dirty, writeback, towrite) = (Tag::Dirty, Tag::Writeback, Tag::Towrite);
    let mut mapping = Mapping::new(rt.alloc());
    tags_far_pages(&rt, &mut mapping);
    retags(&rt, &mut mapping, 1, 4_096, dirty, towrite, 2);
    assert_totals(&rt, &mapping, 4, 0, 2);
    check(&rt, mapping.has_tag(PageIndex(4_095), towrite));
    check(&rt, !mapping.has_tag(PageIndex(0), towrite));
    retags(&rt, &mut mapping, 0, u64::MAX, dirty, towrite, 4);
    assert_totals(&rt, &mapping, 4, 0, 4);
    retags(&rt, &mut mapping, 2, 1, dirty, writeback, 0);
    retags(&rt, &mut mapping, 0, u64::MAX, writeback, dirty, 0);
    assert_totals(&rt, &mapping, 4, 0, 4);
    removes_far_pages(&rt, &mut mapping);
    assert_totals(&rt, &mapping, 0, 0, 0);
}
