//! The rows of the trail: an append beside the plain copy of its bytes, and the check of a full trail.

ghost use Rattle.std.specs.Prelude.{◌<◌};

use machine::{Event, Reply};
use pc_types::{Bytes, FileId, HandleId, Refusal};
use std::alloc::Global;
use trail::{Entry, FullTrail, Reserve, Trail, replay_plain};

/// How many entries a full trail has.
pub const ENTRIES: u64 = 65_536;

/// Bytes of a read or a write.
pub const SMALL: u64 = 64;

/// What each byte is.
const FILL: u8 = 7;

/// Bytes of a page. Nothing is reserved here, so it is of no matter.
const PAGE: u64 = 4_096;

const HANDLE: HandleId = HandleId(0);

/// A trail, and plain bytes with room for as many as it has.
#[derive(Drop)]
pub struct Recorded {
    trail: FullTrail,
    plain: Vec<u8>,
}

impl Recorded {
    pub fn new(alloc: Global) -> Result<Recorded, Refusal> {
        let trail = FullTrail::new(alloc, ENTRIES, SMALL * ENTRIES)?;
        match Vec::with_capacity(alloc, (SMALL * ENTRIES) as usize) {
            Ok(plain) => Ok(Recorded { trail, plain }),
            Err(_) => Err(Refusal::Memory),
        }
    }
}

#[derive(Clone, Copy, PartialEq, Eq, Debug)]
pub enum TrailRow {
    AppendRead,
    Copy,
    Replay,
}

impl TrailRow {
    pub const ALL: [TrailRow; 3] = [TrailRow::AppendRead, TrailRow::Copy, TrailRow::Replay];

    pub fn label(self) -> &'static str {
        match self {
            TrailRow::AppendRead => "append of a read of 64 bytes to a full trail",
            TrailRow::Copy => "copy of 64 bytes to the end of plain bytes",
            TrailRow::Replay => "replay_plain of 65,536 entries, per entry",
        }
    }

    /// By how many a time is divided.
    pub fn count(self) -> u64
        ensures { 0 < result }
    {
        match self {
            TrailRow::AppendRead | TrailRow::Copy | TrailRow::Replay => ENTRIES,
        }
    }

    /// Makes the trail what the row starts from.
    pub fn prepare(self, alloc: Global, recorded: &mut Recorded) {
        recorded.trail.begin(1);
        recorded.plain.clear();
        if self == TrailRow::Replay {
            record_files(alloc, &mut recorded.trail);
        }
    }

    /// Runs what is timed, and gives the sum of its answers.
    pub fn run(self, alloc: Global, recorded: &mut Recorded) -> Result<u64, Refusal> {
        let bytes = [FILL; SMALL as usize];
        match self {
            TrailRow::AppendRead => {
                append_each(alloc, &mut recorded.trail, &bytes);
                Ok(recorded.trail.len())
            }
            TrailRow::Copy => {
                copy_each(&mut recorded.plain, &bytes);
                Ok(recorded.plain.len() as u64)
            }
            TrailRow::Replay => Ok(u64::from(replay_plain(alloc, &recorded.trail)?.is_some())),
        }
    }
}

/// Adds an entry, where there is room for it, as a lock's holder does.
#[inline(always)]
fn add(trail: &mut FullTrail, event: Event, reply: Reply, bytes: &[u8]) {
    let nothing = Reserve {
        fills: 0,
        others: 0,
    };
    if trail.has_room(PAGE, &nothing, 1, bytes.len() as u64) {
        let entry = Entry {
            seat: 0,
            event,
            reply,
        };
        trail.append(entry, bytes);
    }
}

fn none(alloc: Global) -> Bytes {
    Bytes::from_vec(Vec::new(alloc))
}

#[inline(never)]
fn append_each(alloc: Global, trail: &mut FullTrail, bytes: &[u8]) {
    for index in 0..ENTRIES {
        let read = Event::Read(HANDLE, index * SMALL, SMALL);
        add(trail, read, Reply::Bytes(none(alloc)), bytes);
    }
}

#[inline(never)]
fn copy_each(plain: &mut Vec<u8>, bytes: &[u8]) {
    for _ in 0..ENTRIES {
        if plain.extend_from_slice(bytes).is_err() {
            return;
        }
    }
}

/// A file that is made, written from its start to its end, and read so.
fn record_files(alloc: Global, trail: &mut FullTrail) {
    let bytes = [FILL; SMALL as usize];
    add(trail, Event::Create, Reply::File(FileId(0)), &[]);
    add(trail, Event::Open(FileId(0)), Reply::Handle(HANDLE), &[]);
    let half = (ENTRIES - 2) / 2;
    for index in 0..half {
        let write = Event::Write(HANDLE, index * SMALL, none(alloc));
        add(
            trail,
            write,
            Reply::Wrote(SMALL, index * SMALL + SMALL),
            &bytes,
        );
    }
    for index in 0..half {
        let read = Event::Read(HANDLE, index * SMALL, SMALL);
        add(trail, read, Reply::Bytes(none(alloc)), &bytes);
    }
}
