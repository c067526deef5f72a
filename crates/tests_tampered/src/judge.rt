//! Whether rows are a history of plain files, by bytes in vectors.

use crate::rows::{Row, Rows, What};
use std::alloc::{AllocError, Global};

/// The bytes of files, and the file that each handle is of, if it is open.
#[derive(Drop)]
struct Files {
    files: Vec<Vec<u8>>,
    handles: Vec<Option<usize>>,
}

/// Whether each row is as plain files answer.
pub fn is_plain(alloc: Global, rows: &Rows) -> Result<bool, AllocError> {
    let mut files = Files {
        files: Vec::new(alloc),
        handles: Vec::new(alloc),
    };
    for row in rows.rows.iter() {
        if !files.enter(alloc, row, rows.bytes_of(row))? {
            return Ok(false);
        }
    }
    Ok(true)
}

impl Files {
    /// Makes the call of the row, and says whether the row has its answer.
    fn enter(&mut self, alloc: Global, row: &Row, bytes: &[u8]) -> Result<bool, AllocError> {
        let len = bytes.len() as u64;
        match row.what {
            What::Create(file) => self.create(alloc, file),
            What::Open(file, handle) => self.open(file, handle),
            What::Close(handle) => Ok(self.close(handle)),
            What::Size(handle, size) => {
                Ok(
                    self.file(handle)
                        .is_some_and(|file| file.len() as u64 == size),
                )
            }
            What::Read(handle, offset, count) => Ok(self.reads(handle, offset, count, bytes)),
            What::Write(handle, offset, count, end) => {
                if count != len || end != offset.saturating_add(len) {
                    return Ok(false);
                }
                self.write(handle, offset, bytes)
            }
            What::Append(handle, count, end) => {
                let size = self.file(handle).map_or(0, |file| file.len() as u64);
                if count != len || end != size.saturating_add(len) {
                    return Ok(false);
                }
                self.write(handle, size, bytes)
            }
            What::Truncate(handle, size) => self.truncate(handle, size),
            What::Missed(_, _) | What::Aged(_) => Ok(true),
        }
    }

    fn place(&self, handle: u64) -> Option<usize> {
        *self.handles.get(handle as usize)?
    }

    fn file(&self, handle: u64) -> Option<&[u8]> {
        Some(self.files.get(self.place(handle)?)?.as_slice())
    }

    fn create(&mut self, alloc: Global, file: u64) -> Result<bool, AllocError> {
        let is_next = file == self.files.len() as u64;
        match self.files.push(Vec::new(alloc)) {
            Ok(()) => Ok(is_next),
            Err(_) => Err(AllocError),
        }
    }

    /// A handle gets the lowest free number.
    fn open(&mut self, file: u64, handle: u64) -> Result<bool, AllocError> {
        let lowest = self
            .handles
            .iter()
            .position(|place| place.is_none())
            .unwrap_or(self.handles.len());
        if file >= self.files.len() as u64 || handle != lowest as u64 {
            return Ok(false);
        }
        match self.handles.get_mut(lowest) {
            Some(place) => *place = Some(file as usize),
            None => self.handles.push(Some(file as usize))?,
        }
        Ok(true)
    }

    fn close(&mut self, handle: u64) -> bool {
        match self.handles.get_mut(handle as usize) {
            Some(place) => place.take().is_some(),
            None => false,
        }
    }

    fn reads(&self, handle: u64, offset: u64, count: u64, bytes: &[u8]) -> bool {
        let Some(file) = self.file(handle) else {
            return false;
        };
        let start = (offset as usize).min(file.len());
        let count = (count as usize).min(file.len() - start);
        &file[start..start + count] == bytes
    }

    fn write(&mut self, handle: u64, offset: u64, bytes: &[u8]) -> Result<bool, AllocError> {
        let Some(place) = self.place(handle) else {
            return Ok(false);
        };
        let Some(file) = self.files.get_mut(place) else {
            return Ok(false);
        };
        let start = offset as usize;
        let end = start.saturating_add(bytes.len());
        if !bytes.is_empty() && file.len() < end {
            file.resize(end, 0)?;
        }
        if end <= file.len() && start <= end {
            let part = &mut file[start..end];
            if part.len() == bytes.len() {
                part.copy_from_slice(bytes);
            }
        }
        Ok(true)
    }

    fn truncate(&mut self, handle: u64, size: u64) -> Result<bool, AllocError> {
        let Some(place) = self.place(handle) else {
            return Ok(false);
        };
        match self.files.get_mut(place) {
            Some(file) => {
                file.resize(size as usize, 0)?;
                Ok(true)
            }
            None => Ok(false),
        }
    }
}
