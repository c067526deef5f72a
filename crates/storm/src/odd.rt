//! What is said of an entry that is not as plain files answer.

use crate::plain::PlainFiles;
use machine::{Event, Reply};
use std::alloc::Global;
use std::fmt::Display;
use std::io::Write;
use std::{fmt, io};
use storm_text::Fault;
use trail::{FullTrail, first_odd};

/// A history, and the place of its first entry whose answer is not that of plain files.
#[derive(Drop)]
pub struct Odd {
    pub trail: FullTrail,
    pub place: u64,
}

impl Odd {
    /// The first entry of the history that is not plain files', if there is one.
    pub fn first_in(alloc: Global, trail: FullTrail) -> Result<Option<Odd>, Fault> {
        match first_odd(alloc, &trail) {
            Ok(odd) => Ok(odd.map(|place| Odd { trail, place })),
            Err(_) => Err(Fault::Memory),
        }
    }

    /// Says which entry is odd: its place, who made it, what was asked, what was answered, and what plain files answer, where there is
    /// memory for these.
    pub fn say<E: Write>(&self, alloc: Global, err: &mut E) -> io::Result<()> {
        write!(err, "pcache: ")?;
        self.say_entry(alloc, err)
    }

    /// Says which entry of the history of this shard is odd.
    pub fn say_of<E: Write>(&self, alloc: Global, shard: usize, err: &mut E) -> io::Result<()> {
        write!(err, "pcache: shard {shard}: ")?;
        self.say_entry(alloc, err)
    }

    fn say_entry<E: Write>(&self, alloc: Global, err: &mut E) -> io::Result<()> {
        let Some((entry, bytes)) = self.trail.entry(self.place) else {
            return writeln!(err, "no entry {}", self.place);
        };
        write!(err, "entry {}, by seat {}: ", self.place, entry.seat)?;
        write!(err, "{} answered ", Asked(&entry.event, bytes))?;
        write!(err, "{}", Answered(&entry.reply, bytes))?;
        let plain = match PlainFiles::before(alloc, &self.trail, self.place) {
            Ok(files) => files.answer(&entry.event, bytes),
            Err(error) => Err(error),
        };
        match plain {
            Ok(Reply::Bytes(bytes)) => {
                writeln!(err, "; plain files answer bytes {}", Hex(bytes.as_slice()))
            }
            Ok(reply) => writeln!(err, "; plain files answer {}", Answered(&reply, &[])),
            Err(_) => writeln!(err, "; plain files answer otherwise"),
        }
    }
}

/// An event with the bytes of its entry, in the words of scripts.
#[derive(Clone, Copy)]
struct Asked<'a>(&'a Event, &'a [u8]);

impl<'a> Display for Asked<'a> {
    fn fmt<W: fmt::Write>(&self, f: &mut fmt::Formatter<W>) -> fmt::Result {
        match self.0 {
            Event::Create => f.write_str("create"),
            Event::Open(file) => write!(f, "open {}", file.0),
            Event::Close(handle) => write!(f, "close {}", handle.0),
            Event::Size(handle) => write!(f, "size {}", handle.0),
            Event::Read(handle, offset, count) => {
                write!(f, "read {} {offset} {count}", handle.0)
            }
            Event::Write(handle, offset, _) => {
                write!(f, "write {} {offset} {}", handle.0, Hex(self.1))
            }
            Event::Append(handle, _) => write!(f, "append {} {}", handle.0, Hex(self.1)),
            Event::Truncate(handle, size) => write!(f, "truncate {} {size}", handle.0),
            other => write!(f, "{other:?}"),
        }
    }
}

/// A reply with the bytes of its entry, in the words of scripts.
#[derive(Clone, Copy)]
struct Answered<'a>(&'a Reply, &'a [u8]);

impl<'a> Display for Answered<'a> {
    fn fmt<W: fmt::Write>(&self, f: &mut fmt::Formatter<W>) -> fmt::Result {
        match self.0 {
            Reply::File(file) => write!(f, "file {}", file.0),
            Reply::Handle(handle) => write!(f, "handle {}", handle.0),
            Reply::Closed => f.write_str("closed"),
            Reply::Size(size) => write!(f, "size {size}"),
            Reply::Bytes(_) => write!(f, "bytes {}", Hex(self.1)),
            Reply::Wrote(count, end) => write!(f, "wrote {count} up to {end}"),
            Reply::Done => f.write_str("ok"),
            Reply::Refused(refusal) => write!(f, "refused {}", refusal.number()),
            other => write!(f, "{other:?}"),
        }
    }
}

/// Bytes by two digits each, or `-` where there are none.
#[derive(Clone, Copy)]
struct Hex<'a>(&'a [u8]);

impl<'a> Display for Hex<'a> {
    fn fmt<W: fmt::Write>(&self, f: &mut fmt::Formatter<W>) -> fmt::Result {
        if self.0.is_empty() {
            return f.write_str("-");
        }
        for byte in self.0 {
            write!(f, "{byte:02x}")?;
        }
        Ok(())
    }
}
