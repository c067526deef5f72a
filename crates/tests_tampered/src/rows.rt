//! A history as rows that can be changed.

use machine::{Event, Reply};
use pc_types::{Bytes, FileId, HandleId, PageIndex, Refusal};
use std::alloc::{AllocError, Global};
use trail::{Entry, FullTrail, Reserve, Trail};

/// No end is owed.
const NOTHING: Reserve = Reserve {
    fills: 0,
    others: 0,
};

/// What a row is of: a call on files that succeeded, with its numbers, or an entry that a replay passes over.
#[derive(Clone, Copy)]
pub enum What {
    Create(u64),
    /// A file and a handle.
    Open(u64, u64),
    Close(u64),
    Size(u64, u64),
    /// A handle, an offset and how many bytes at most.
    Read(u64, u64, u64),
    /// A handle, an offset, how many bytes and the offset after them.
    Write(u64, u64, u64, u64),
    /// A handle, how many bytes and the offset after them.
    Append(u64, u64, u64),
    Truncate(u64, u64),
    /// A read of a handle that missed a page.
    Missed(u64, u64),
    Aged(u64),
}

/// An entry, and where its bytes stand.
#[derive(Clone, Copy)]
pub struct Row {
    pub what: What,
    pub start: usize,
    pub len: usize,
}

/// The rows of a history, with their bytes.
#[derive(Drop)]
pub struct Rows {
    pub rows: Vec<Row>,
    pub bytes: Vec<u8>,
}

impl Rows {
    pub fn new(alloc: Global) -> Rows {
        Rows {
            rows: Vec::new(alloc),
            bytes: Vec::new(alloc),
        }
    }

    /// Those of a trail.
    pub fn of(alloc: Global, trail: &FullTrail) -> Result<Rows, AllocError> {
        let mut rows = Rows::new(alloc);
        for place in 0..trail.len() {
            if let Some((entry, bytes)) = trail.entry(place) {
                rows.push(what_of(&entry.event, &entry.reply), bytes)?;
            }
        }
        Ok(rows)
    }

    fn push(&mut self, what: What, bytes: &[u8]) -> Result<(), AllocError> {
        let row = Row {
            what,
            start: self.bytes.len(),
            len: bytes.len(),
        };
        self.bytes.extend_from_slice(bytes)?;
        match self.rows.push(row) {
            Ok(()) => Ok(()),
            Err(_) => Err(AllocError),
        }
    }

    /// Makes these rows copies of others.
    pub fn copy(&mut self, other: &Rows) -> Result<(), AllocError> {
        self.rows.clear();
        self.bytes.clear();
        self.rows.extend_from_slice(&other.rows)?;
        self.bytes.extend_from_slice(&other.bytes)
    }

    /// The bytes of a row.
    pub fn bytes_of(&self, row: &Row) -> &[u8] {
        let start = row.start.min(self.bytes.len());
        let end = row.start.saturating_add(row.len).min(self.bytes.len());
        if start <= end {
            &self.bytes[start..end]
        } else {
            &[]
        }
    }

    /// Writes them into a trail.
    pub fn enter(&self, alloc: Global, trail: &mut FullTrail) {
        trail.begin(1);
        for row in self.rows.iter() {
            let bytes = self.bytes_of(row);
            let entry = entry_of(alloc, row.what);
            if trail.has_room(16, &NOTHING, 1, bytes.len() as u64) {
                trail.append(entry, bytes);
            }
        }
    }
}

fn what_of(event: &Event, reply: &Reply) -> What {
    match (event, reply) {
        (Event::Create, Reply::File(file)) => What::Create(file.0),
        (Event::Open(file), Reply::Handle(handle)) => What::Open(file.0, handle.0),
        (Event::Close(handle), Reply::Closed) => What::Close(handle.0),
        (Event::Size(handle), Reply::Size(size)) => What::Size(handle.0, *size),
        (Event::Read(handle, offset, count), Reply::Bytes(_)) => {
            What::Read(handle.0, *offset, *count)
        }
        (Event::Read(handle, offset, _), _) => What::Missed(handle.0, *offset),
        (Event::Write(handle, offset, _), Reply::Wrote(count, end)) => {
            What::Write(handle.0, *offset, *count, *end)
        }
        (Event::Append(handle, _), Reply::Wrote(count, end)) => {
            What::Append(handle.0, *count, *end)
        }
        (Event::Truncate(handle, size), Reply::Done) => What::Truncate(handle.0, *size),
        _ => What::Aged(0),
    }
}

fn entry_of(alloc: Global, what: What) -> Entry {
    let none = Bytes::from_vec(Vec::new(alloc));
    let (event, reply) = match what {
        What::Create(file) => (Event::Create, Reply::File(FileId(file))),
        What::Open(file, handle) => (Event::Open(FileId(file)), Reply::Handle(HandleId(handle))),
        What::Close(handle) => (Event::Close(HandleId(handle)), Reply::Closed),
        What::Size(handle, size) => (Event::Size(HandleId(handle)), Reply::Size(size)),
        What::Read(handle, offset, count) => (
            Event::Read(HandleId(handle), offset, count),
            Reply::Bytes(none),
        ),
        What::Write(handle, offset, count, end) => (
            Event::Write(HandleId(handle), offset, none),
            Reply::Wrote(count, end),
        ),
        What::Append(handle, count, end) => (
            Event::Append(HandleId(handle), none),
            Reply::Wrote(count, end),
        ),
        What::Truncate(handle, size) => (Event::Truncate(HandleId(handle), size), Reply::Done),
        What::Missed(handle, offset) => (
            Event::Read(HandleId(handle), offset, 1),
            Reply::Miss(PageIndex(0)),
        ),
        What::Aged(count) => (Event::Age, Reply::Aged(count)),
    };
    Entry {
        seat: 0,
        event,
        reply,
    }
}

/// A trail with room for these rows and one more.
pub fn trail_for(alloc: Global, rows: &Rows) -> Result<FullTrail, Refusal> {
    let events = (rows.rows.len() as u64).saturating_add(1);
    let bytes = (rows.bytes.len() as u64).saturating_mul(2);
    FullTrail::new(alloc, events, bytes)
}
