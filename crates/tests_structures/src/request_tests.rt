//! Full tables, ends in any order, and each call once.

ghost use Rattle.std.specs.Prelude.{◌≡◌, ◌<◌, ◌-◌, ◌^◌, false};
ghost use Rattle.writeback.specs.Flights.{is_full};

use crate::checks::{check, same};
use pc_types::limits::LAST_PAGE;
use pc_types::{BlockNo, FileId, HandleId, Kind, PageIndex, Refusal, Serial, SyncId};
use std::process::Abort;
use writeback::{Progress, Request, Requests, Syncs};

/// Stops the test where no request may begin.
fn expect_room(rt: &impl Abort, requests: &Requests)
    ensures { is_full requests.now ≡ false }
{
    assert!(rt; !requests.is_full());
}

pub fn begin(rt: &impl Abort, requests: &mut Requests, kind: Kind, file: u64, page: u64) -> Serial {
    expect_room(rt, requests);
    requests.begin(kind, FileId(file), PageIndex(page), BlockNo(7))
}

/// A sync of the pages from `first` to `last`, as it begins on handle 2.
fn progress(first: u64, last: u64) -> Progress {
    Progress {
        handle: HandleId(2),
        first: PageIndex(first),
        last: PageIndex(last),
        started: None,
        failures: 9,
        bound: None,
    }
}

/// Begins a sync of all pages.
fn begin_sync(syncs: &mut Syncs, handle: u64, failures: u64) -> Result<SyncId, Refusal> {
    syncs.begin(
        HandleId(handle),
        PageIndex(0),
        PageIndex(LAST_PAGE),
        failures,
    )
}

fn request(kind: Kind, file: u64, page: u64, dropped: bool) -> Request {
    Request {
        kind,
        file: FileId(file),
        page: PageIndex(page),
        block: BlockNo(7),
        dropped,
    }
}

// A caller, as README.md has it: begins a flush where one may begin.
fn flush(requests: &mut Requests, file: FileId, page: PageIndex, block: BlockNo) -> Option<Serial> {
    if requests.is_full() {
        return None;
    }
    Some(requests.begin(Kind::Flush, file, page, block))
}

#[test]
fn serials_count_from_0(rt: HostRuntime) {
    let mut requests = Requests::new();
    same(&rt, requests.next_serial(), Serial(0));
    same(&rt, requests.len(), 0);
    same(&rt, begin(&rt, &mut requests, Kind::Fill, 0, 3), Serial(0));
    same(&rt, begin(&rt, &mut requests, Kind::Flush, 1, 4), Serial(1));
    same(&rt, requests.len(), 2);
    same(
        &rt,
        requests.get(Serial(0)),
        Some(request(Kind::Fill, 0, 3, false)),
    );
    same(
        &rt,
        requests.get(Serial(1)),
        Some(request(Kind::Flush, 1, 4, false)),
    );
    same(&rt, requests.get(Serial(2)), None);
    check(&rt, requests.is_filling(FileId(0), PageIndex(3)));
    check(&rt, !requests.is_filling(FileId(1), PageIndex(4)));
    check(&rt, !requests.is_filling(FileId(0), PageIndex(4)));

    // An end takes the request out once, and its serial is not given again.
    same(
        &rt,
        requests.end(Serial(0)),
        Some(request(Kind::Fill, 0, 3, false)),
    );
    same(&rt, requests.end(Serial(0)), None);
    same(&rt, requests.get(Serial(0)), None);
    same(&rt, requests.len(), 1);
    same(&rt, begin(&rt, &mut requests, Kind::Fill, 0, 3), Serial(2));
}

/// A sync of these pages awaits this flush of the file first, of those below the bound.
fn awaits(
    rt: &impl Abort,
    requests: &Requests,
    file: u64,
    pages: &Progress,
    bound: u64,
    want: Option<(Serial, PageIndex)>,
) {
    let first = requests.first_awaited(FileId(file), pages, Serial(bound));
    same(rt, first, want);
}

/// Begins as many flushes as may be in flight, of the first pages of file 0.
fn begins_all(rt: &impl Abort, requests: &mut Requests) {
    for page in 0..64u64 {
        let serial = begin(rt, requests, Kind::Flush, 0, page);
        same(rt, serial, Serial(page));
    }
    check(rt, requests.is_full());
}

/// One of them ends.
fn ends(rt: &impl Abort, requests: &mut Requests, page: u64) {
    let ended = requests.end(Serial(page));
    same(rt, ended, Some(request(Kind::Flush, 0, page, false)));
}

fn ends_odd_pages(rt: &impl Abort, requests: &mut Requests) {
    for k in 0..32u64 {
        ends(rt, requests, 2 * k + 1);
    }
    check(rt, !requests.is_full());
}

/// From the last on, so that the first is awaited to the end.
fn ends_even_pages(rt: &impl Abort, requests: &mut Requests) {
    let all = progress(0, LAST_PAGE);
    for k in 0..32u64 {
        awaits(rt, requests, 0, &all, 64, Some((Serial(0), PageIndex(0))));
        ends(rt, requests, 62 - 2 * k);
    }
    same(rt, requests.len(), 0);
}

#[test]
fn a_full_table_ends_in_any_order(rt: HostRuntime) {
    let mut requests = Requests::new();
    begins_all(&rt, &mut requests);
    let refused = flush(&mut requests, FileId(0), PageIndex(64), BlockNo(7));
    same(&rt, refused, None);
    same(&rt, requests.len(), 64);
    ends_odd_pages(&rt, &mut requests);
    ends_even_pages(&rt, &mut requests);
    let begun = flush(&mut requests, FileId(0), PageIndex(64), BlockNo(7));
    same(&rt, begun, Some(Serial(64)));
}

#[test]
fn a_cut_drops_requests_and_keeps_them(rt: HostRuntime) {
    let mut requests = Requests::new();
    begin(&rt, &mut requests, Kind::Flush, 0, 1);
    begin(&rt, &mut requests, Kind::Flush, 0, 2);
    begin(&rt, &mut requests, Kind::Fill, 0, 3);
    begin(&rt, &mut requests, Kind::Flush, 1, 2);

    // Page 1 of file 0 and all pages of file 1 stay.
    requests.drop_from(FileId(0), PageIndex(2));
    check(&rt, !requests.is_filling(FileId(0), PageIndex(3)));
    same(&rt, requests.len(), 4);
    same(
        &rt,
        requests.get(Serial(0)),
        Some(request(Kind::Flush, 0, 1, false)),
    );
    same(
        &rt,
        requests.get(Serial(1)),
        Some(request(Kind::Flush, 0, 2, true)),
    );
    same(
        &rt,
        requests.get(Serial(2)),
        Some(request(Kind::Fill, 0, 3, true)),
    );
    same(
        &rt,
        requests.get(Serial(3)),
        Some(request(Kind::Flush, 1, 2, false)),
    );
    same(
        &rt,
        requests.end(Serial(1)),
        Some(request(Kind::Flush, 0, 2, true)),
    );
}

#[test]
fn the_oldest_flush_is_awaited_first(rt: HostRuntime) {
    let mut requests = Requests::new();
    begin(&rt, &mut requests, Kind::Fill, 0, 5);
    begin(&rt, &mut requests, Kind::Flush, 1, 6);
    begin(&rt, &mut requests, Kind::Flush, 0, 9);
    begin(&rt, &mut requests, Kind::Flush, 0, 8);

    // Fills and other files do not count, nor do requests at or past the bound.
    let all = progress(0, LAST_PAGE);
    let of_9 = Some((Serial(2), PageIndex(9)));
    let of_8 = Some((Serial(3), PageIndex(8)));
    awaits(&rt, &requests, 0, &all, 4, of_9);
    awaits(&rt, &requests, 0, &all, 2, None);
    awaits(&rt, &requests, 2, &all, 4, None);

    // Nor do pages past the range, or before it.
    awaits(&rt, &requests, 0, &progress(7, 8), 4, of_8);
    awaits(&rt, &requests, 0, &progress(0, 7), 4, None);
    awaits(&rt, &requests, 0, &progress(10, 11), 4, None);

    // A dropped flush does not count.
    requests.drop_from(FileId(0), PageIndex(9));
    awaits(&rt, &requests, 0, &all, 4, of_8);
}

#[test]
fn syncs_take_the_lowest_number(rt: HostRuntime) {
    let mut syncs = Syncs::new();
    for k in 0..64u64 {
        same(&rt, begin_sync(&mut syncs, k + 100, k), Ok(SyncId(k)));
    }
    same(
        &rt,
        begin_sync(&mut syncs, 1, 0),
        Err(Refusal::TooManyInFlight),
    );
    check(&rt, syncs.uses_handle(HandleId(163)));
    check(&rt, !syncs.uses_handle(HandleId(1)));
    same(&rt, syncs.get(SyncId(64)), None);

    check(&rt, syncs.remove(SyncId(5)).is_some());
    check(&rt, syncs.remove(SyncId(5)).is_none());
    check(&rt, !syncs.uses_handle(HandleId(105)));
    check(&rt, syncs.remove(SyncId(3)).is_some());
    same(&rt, begin_sync(&mut syncs, 1, 0), Ok(SyncId(3)));
    same(&rt, begin_sync(&mut syncs, 1, 0), Ok(SyncId(5)));
}

#[test]
fn a_sync_notes_what_it_started(rt: HostRuntime) {
    let mut syncs = Syncs::new();
    same(
        &rt,
        syncs.begin(HandleId(2), PageIndex(3), PageIndex(6), 9),
        Ok(SyncId(0)),
    );
    let mut expected = progress(3, 6);
    same(&rt, expected.cursor(), PageIndex(3));
    check(&rt, expected.has_page(PageIndex(6)));
    check(&rt, !expected.has_page(PageIndex(7)));
    same(&rt, syncs.get(SyncId(0)), Some(expected));
    syncs.started(SyncId(0), PageIndex(4));
    expected.started = Some(PageIndex(4));
    same(&rt, expected.cursor(), PageIndex(5));
    same(&rt, syncs.get(SyncId(0)), Some(expected));
    syncs.set_bound(SyncId(0), Serial(11));
    expected.bound = Some(Serial(11));
    same(&rt, syncs.get(SyncId(0)), Some(expected));

    // Where there is no such sync nothing is done.
    syncs.started(SyncId(70), PageIndex(4));
    syncs.set_bound(SyncId(1), Serial(11));
    same(&rt, syncs.get(SyncId(0)), Some(expected));
    same(&rt, syncs.remove(SyncId(0)), Some(expected));
}
