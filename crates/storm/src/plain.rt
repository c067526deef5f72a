//! Plain files, to say what a history was to answer.

use machine::{Event, Reply};
use pc_types::{Bytes, FileId, HandleId, Refusal};
use std::alloc::{AllocError, Global};
use trail::FullTrail;

/// A handle and the place of its file.
#[derive(Clone, Copy)]
struct Opened {
    handle: HandleId,
    place: usize,
}

/// What files contain, and the open handles.
#[derive(Drop)]
pub struct PlainFiles {
    alloc: Global,
    files: Vec<Vec<u8>>,
    opened: Vec<Opened>,
}

impl PlainFiles {
    /// The files after the entries of the history before this place, if each of these answers as plain files do.
    pub fn before(alloc: Global, trail: &FullTrail, place: u64) -> Result<PlainFiles, AllocError> {
        let mut plain = PlainFiles {
            alloc,
            files: Vec::new(alloc),
            opened: Vec::new(alloc),
        };
        for earlier in 0..place {
            if let Some((entry, bytes)) = trail.entry(earlier) {
                plain.enter(&entry.event, &entry.reply, bytes)?;
            }
        }
        Ok(plain)
    }

    /// Makes the event, which was answered so.
    fn enter(&mut self, event: &Event, reply: &Reply, bytes: &[u8]) -> Result<(), AllocError> {
        match (event, reply) {
            (Event::Create, Reply::File(_)) => self.files.push(Vec::new(self.alloc))?,
            (Event::Open(file), Reply::Handle(handle)) => self.opened.push(Opened {
                handle: *handle,
                place: file.0 as usize,
            })?,
            (Event::Close(handle), Reply::Closed) => {
                let handle = *handle;
                self.opened.retain(|opened| opened.handle != handle);
            }
            (Event::Write(handle, _, _) | Event::Append(handle, _), Reply::Wrote(_, end)) => {
                if let Some(file) = self.file_mut(*handle) {
                    write_to(file, *end as usize, bytes)?;
                }
            }
            (Event::Truncate(handle, size), Reply::Done) => {
                if let Some(file) = self.file_mut(*handle) {
                    file.resize(*size as usize, 0)?;
                }
            }
            _ => {}
        }
        Ok(())
    }

    /// What plain files answer to an event that has these bytes.
    pub fn answer(&self, event: &Event, bytes: &[u8]) -> Result<Reply, AllocError> {
        let handle = match event {
            Event::Create => return Ok(Reply::File(FileId(self.files.len() as u64))),
            Event::Open(file) if file.0 < self.files.len() as u64 => {
                return Ok(Reply::Handle(self.lowest_free()));
            }
            Event::Open(_) => return Ok(Reply::Refused(Refusal::NoSuchFile)),
            Event::Close(handle)
            | Event::Size(handle)
            | Event::Read(handle, _, _)
            | Event::Write(handle, _, _)
            | Event::Append(handle, _)
            | Event::Truncate(handle, _) => *handle,
            _ => return Ok(Reply::Nothing),
        };
        let Some(file) = self.file(handle) else {
            return Ok(Reply::Refused(Refusal::BadHandle));
        };
        let len = file.len() as u64;
        let count = bytes.len() as u64;
        Ok(match event {
            Event::Close(_) => Reply::Closed,
            Event::Size(_) => Reply::Size(len),
            Event::Read(_, offset, most) => Reply::Bytes(self.read(file, *offset, *most)?),
            Event::Write(_, offset, _) => Reply::Wrote(count, offset.saturating_add(count)),
            Event::Append(_, _) => Reply::Wrote(count, len.saturating_add(count)),
            _ => Reply::Done,
        })
    }

    /// At most so many bytes of the file from the offset on.
    fn read(&self, file: &[u8], offset: u64, most: u64) -> Result<Bytes, AllocError> {
        let start = file.len().min(offset as usize);
        let end = file.len().min(start.saturating_add(most as usize));
        let mut bytes = Vec::new(self.alloc);
        bytes.extend_from_slice(&file[start..end])?;
        Ok(Bytes::from_vec(bytes))
    }

    fn file(&self, handle: HandleId) -> Option<&[u8]> {
        let opened = self.opened.iter().find(|opened| opened.handle == handle)?;
        Some(self.files.get(opened.place)?.as_slice())
    }

    fn file_mut(&mut self, handle: HandleId) -> Option<&mut Vec<u8>> {
        let opened = self.opened.iter().find(|opened| opened.handle == handle)?;
        self.files.get_mut(opened.place)
    }

    fn lowest_free(&self) -> HandleId {
        for number in 0..self.opened.len() as u64 {
            if !self.opened.iter().any(|opened| opened.handle.0 == number) {
                return HandleId(number);
            }
        }
        HandleId(self.opened.len() as u64)
    }
}

/// Writes the bytes so that they end there. The file grows where it is shorter.
fn write_to(file: &mut Vec<u8>, end: usize, bytes: &[u8]) -> Result<(), AllocError> {
    if file.len() < end {
        file.resize(end, 0)?;
    }
    if let Some(start) = end.checked_sub(bytes.len()) {
        file[start..end].copy_from_slice(bytes);
    }
    Ok(())
}
