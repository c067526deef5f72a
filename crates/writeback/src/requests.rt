//! The requests in flight.

ghost use Rattle.std.specs.Prelude.{◌≡◌, ℕ, ◌+◌, ◌≤◌, ◌==◌, None, IfNone, IfSome, ◌&&◌, false, map as map_list, count_by, find, position, option_map, nat_lt, if◌then◌else◌};
ghost use Rattle.std.specs.FinMap as map;
ghost use Rattle.std.specs.List.{list_any};
ghost use Rattle.machine.specs.Changes.{cut_request};
ghost use Rattle.pc_types.specs.Kinds.{is_fill, is_flush};
ghost use Rattle.maps.specs.Maps.{each_value};
ghost use Rattle.machine.specs.State.{awaits, fills};
ghost use Rattle.writeback.specs.Flights.{begun, ended, first_awaited, is_full, of_call};
ghost use Rattle.writeback.specs.Requests.{cut_entry, entry_of, request_of};
ghost use Rattle.writeback.specs.Slots.{sync_of};
ghost use Rattle.writeback.specs.declared.requests.Entry.{Entry};

use crate::syncs::Progress;
use arrayvec::ArrayVec;
use pc_types::limits::{MAX_IN_FLIGHT, SERIAL_END};
use pc_types::{BlockNo, FileId, Kind, PageIndex, Serial};
use std::marker::Model;

const PLACES: usize = MAX_IN_FLIGHT as usize;

/// A request in flight.
#[derive(Clone, Copy, PartialEq, Eq, Debug)]
pub struct Request {
    pub kind: Kind,
    pub file: FileId,
    pub page: PageIndex,
    /// The device may write it until the request ends, so it stays held until then.
    pub block: BlockNo,
    /// The page was cut off, and the request changes no page any more.
    pub dropped: bool,
}

impl Request {
    ghost use Rattle.std.specs.Prelude.{◌&&◌, ◌==◌, not};
    ghost use Rattle.pc_types.specs.Kinds.{is_flush, same_kind};
    ghost use Rattle.machine.specs.State.{fills};
    ghost use Rattle.writeback.specs.Requests.{request_of};

    fn fills(&self, file: FileId, page: PageIndex) -> bool
        ensures { result ≡ fills file.0 page.0 (request_of self.now) }
    {
        self.kind == Kind::Fill && !self.dropped && (self.file == file && self.page == page)
    }

    fn is_flush_of(&self, file: FileId) -> bool
        ensures { result ≡ (is_flush self.now.kind && not self.now.dropped && self.now.file.0 == file.0) }
    {
        self.kind == Kind::Flush && !self.dropped && self.file == file
    }

    /// Whether it is of this kind, and its device call of this block.
    fn is_call(&self, kind: Kind, block: BlockNo) -> bool
        ensures { result ≡ (same_kind kind self.now.kind && block.0 == self.now.block.0) }
    {
        kind == self.kind && block == self.block
    }
}

/// A request with its serial.
#[derive(Clone, Copy, PartialEq, Eq, Debug)]
struct Entry {
    serial: Serial,
    request: Request,
}

impl Entry {
    ghost use Rattle.machine.specs.State.{awaits};
    ghost use Rattle.writeback.specs.Requests.{cut_entry, entry_of};
    ghost use Rattle.writeback.specs.Slots.{sync_of};

    /// Whether a sync of `file` with this bound awaits it.
    fn is_awaited(&self, file: FileId, progress: &Progress, bound: Serial) -> bool
        ensures { result ≡ awaits file.0 (sync_of progress.now) bound.0 (entry_of self.now) }
    {
        self.request.is_flush_of(file)
            && progress.has_page(self.request.page)
            && self.serial < bound
    }

    /// The entry after the pages of `file` from `page` on are cut off.
    fn cut(self, file: FileId, page: PageIndex) -> Entry
        ensures { result ≡ cut_entry file.0 page.0 self }
    {
        if self.request.file != file || self.request.page < page {
            return self;
        }
        let request = Request {
            dropped: true,
            ..self.request
        };
        Entry { request, ..self }
    }
}

// What stands in the unused places of the table.
impl Default for Entry {
    fn default() -> Entry {
        Entry {
            serial: Serial(0),
            request: Request {
                kind: Kind::Fill,
                file: FileId(0),
                page: PageIndex(0),
                block: BlockNo(0),
                dropped: true,
            },
        }
    }
}

/// The requests in flight by their serials, and the next serial.
#[derive(Drop)]
pub struct Requests {
    next: u64,
    // how many of those in flight are fills
    fills: u64,
    // in rising order of serial
    in_flight: ArrayVec<Entry, PLACES>,
}

impl Model for Requests {
    ghost use Rattle.std.specs.Prelude.{◌≡◌, count_by, map as map_list};
    ghost use Rattle.std.specs.FinMap as map;
    ghost use Rattle.pc_types.specs.Kinds.{is_fill};
    ghost use Rattle.writeback.specs.Flights.{Flights, flights_code};
    ghost use Rattle.writeback.specs.Requests.{entry_of};
    ghost use Rattle.writeback.specs.Rising.{IsRising};

    ghost Value = { Flights };

    ghost coded = { flights_code };

    ghost view = { λ a. record { next = a.next; requests = map.from_entries (map_list entry_of a.in_flight.items) } };

    ghost invariant = { λ a. IsRising 0 (map_list entry_of a.in_flight.items) a.next × (a.fills ≡ count_by (λ e. is_fill e.request.kind) a.in_flight.items) };
}

impl Requests {
    /// No request has begun.
    pub fn new() -> Requests
        ensures { result ≡ record { next = 0; requests = map.empty } }
    {
        Requests {
            next: 0,
            fills: 0,
            in_flight: ArrayVec::new(),
        }
    }

    /// The serial of the request that begins next.
    pub fn next_serial(&self) -> Serial
        ensures value { result.0 ≡ self.now.next }
        ensures above { (t : ℕ) → self.now.next ≤ t → map.get self.now.requests t ≡ None }
    {
        Serial(self.next)
    }

    /// How many requests are in flight.
    pub fn len(&self) -> u64
        ensures value { result ≡ map.len self.now.requests }
        ensures few { result ≤ MAX_IN_FLIGHT }
    {
        self.in_flight.len() as u64
    }

    /// How many of them are fills.
    pub fn fills(&self) -> u64
        ensures { result ≡ count_by (λ x. is_fill x.kind) (map.values self.now.requests) }
    {
        self.fills
    }

    /// How many of them are flushes.
    pub fn flushes(&self) -> u64
        ensures value { result ≡ count_by (λ x. is_flush x.kind) (map.values self.now.requests) }
        ensures few { result ≤ MAX_IN_FLIGHT }
    {
        self.len() - self.fills
    }

    /// Whether no request may begin.
    pub fn is_full(&self) -> bool
        ensures { result ≡ is_full self.now }
    {
        MAX_IN_FLIGHT <= self.len() || SERIAL_END <= self.next
    }

    /// The request with this serial, where it is in flight.
    pub fn get(&self, serial: Serial) -> Option<Request>
        ensures { option_map request_of result ≡ map.get self.now.requests serial.0 }
    {
        request_in(&self.in_flight, serial)
    }

    /// Whether a fill of the page is in flight and not dropped.
    pub fn is_filling(&self, file: FileId, page: PageIndex) -> bool
        ensures { result ≡ list_any (fills file.0 page.0) (map.values self.now.requests) }
    {
        fills_in(&self.in_flight, file, page)
    }

    /// Whether one in flight is dropped. It holds its block until it ends.
    pub fn has_dropped(&self) -> bool
        ensures { result ≡ list_any (λ x. x.dropped) (map.values self.now.requests) }
    {
        dropped_in(&self.in_flight)
    }

    /// Begins a request, which takes the next serial.
    pub fn begin(&mut self, kind: Kind, file: FileId, page: PageIndex, block: BlockNo) -> Serial
        requires { is_full self.old ≡ false }
        ensures serial { result.0 ≡ self.old.next }
        ensures begun { self.new ≡ begun self.old (record { kind = kind; file = file.0; page = page.0; block = block.0; dropped = false }) }
    {
        let serial = self.next_serial();
        let request = Request {
            kind,
            file,
            page,
            block,
            dropped: false,
        };
        self.in_flight.push(Entry { serial, request });
        self.fills += fills_of(kind);
        self.next += 1;
        serial
    }

    /// Takes the serial of a request that begins and ends in one.
    pub fn pass(&mut self)
        requires { is_full self.old ≡ false }
        ensures { self.new ≡ record self.old { next = self.old.next + 1 } }
    {
        self.next += 1;
    }

    /// Ends the request with this serial, where it is in flight: also one that is dropped.
    pub fn end(&mut self, serial: Serial) -> Option<Request>
        ensures request { option_map request_of result ≡ map.get self.old.requests serial.0 }
        ensures ended { self.new ≡ ended self.old serial.0 }
    {
        let at = position_of(&self.in_flight, serial)?;
        let entry = self.in_flight.remove(at);
        self.fills -= fills_of(entry.request.kind);
        Some(entry.request)
    }

    /// Ends the request with this serial where it is of this kind and of this block: also one that is dropped. Else nothing changes.
    pub fn end_of(&mut self, serial: Serial, kind: Kind, block: BlockNo) -> Option<Request>
        ensures request { option_map request_of result ≡ of_call kind block.0 (map.get self.old.requests serial.0) }
        ensures ended { IfSome result (λ _. self.new ≡ ended self.old serial.0) }
        ensures same { IfNone result (self.new ≡ self.old) }
    {
        let at = position_of(&self.in_flight, serial)?;
        let request = self.in_flight[at].request;
        if !request.is_call(kind, block) {
            return None;
        }
        let _ = self.in_flight.remove(at);
        self.fills -= fills_of(request.kind);
        Some(request)
    }

    /// Drops the requests of the pages of `file` from `page` on. They stay in flight, and keep their blocks.
    pub fn drop_from(&mut self, file: FileId, page: PageIndex)
        ensures { self.new ≡ record self.old { requests = each_value (λ _. cut_request file.0 page.0) self.old.requests } }
    {
        drop_in(self.in_flight.as_mut_slice(), file, page);
    }

    /// The oldest request that a sync of `file` with this bound awaits, with its page.
    pub fn first_awaited(
        &self,
        file: FileId,
        progress: &Progress,
        bound: Serial,
    ) -> Option<(Serial, PageIndex)>
        ensures { option_map {U = ℕ × ℕ} (λ e. (e.0.0, e.1.0)) result ≡ option_map {U = ℕ × ℕ} (λ e. (e.0, e.1.page)) (first_awaited file.0 (sync_of progress.now) bound.0 self.now.requests) }
    {
        let entry = awaited_in(&self.in_flight, file, progress, bound)?;
        Some((entry.serial, entry.request.page))
    }
}

/// How many fills one request of this kind is.
fn fills_of(kind: Kind) -> u64
    ensures { result ≡ (if is_fill kind then 1 else 0) }
{
    match kind {
        Kind::Fill => 1,
        Kind::Flush => 0,
    }
}

fn position_of(in_flight: &[Entry], serial: Serial) -> Option<usize>
    ensures { result ≡ position (λ (e : Entry). e.serial.0 == serial.0) in_flight.now }
{
    in_flight.iter().position(|entry| entry.serial == serial)
}

fn request_in(in_flight: &[Entry], serial: Serial) -> Option<Request>
    ensures { result ≡ option_map (λ (e : Entry). e.request) (find (λ (e : Entry). e.serial.0 == serial.0) in_flight.now) }
{
    let entry = in_flight.iter().find(|entry| entry.serial == serial)?;
    Some(entry.request)
}

fn fills_in(in_flight: &[Entry], file: FileId, page: PageIndex) -> bool
    ensures { result ≡ list_any (λ (e : Entry). fills file.0 page.0 (request_of e.request)) in_flight.now }
{
    in_flight
        .iter()
        .any(|entry| entry.request.fills(file, page))
}

fn dropped_in(in_flight: &[Entry]) -> bool
    ensures { result ≡ list_any (λ (e : Entry). (request_of e.request).dropped) in_flight.now }
{
    in_flight.iter().any(|entry| entry.request.dropped)
}

fn awaited_in(
    in_flight: &[Entry],
    file: FileId,
    progress: &Progress,
    bound: Serial,
) -> Option<Entry>
    ensures { result ≡ find (λ (e : Entry). awaits file.0 (sync_of progress.now) bound.0 (entry_of e)) in_flight.now }
{
    for entry in in_flight {
        if entry.is_awaited(file, progress, bound) {
            return Some(*entry);
        }
    }
    None
}

fn drop_in(in_flight: &mut [Entry], file: FileId, page: PageIndex)
    ensures { in_flight.new ≡ map_list (cut_entry file.0 page.0) in_flight.old }
{
    for entry in in_flight.iter_mut() {
        *entry = entry.cut(file, page);
    }
}
