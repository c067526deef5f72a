//! The check of a history against plain files.

ghost use Rattle.std.specs.Prelude.{◌↔◌, [], map, true, is_some, IfNone, IfOk, IfSome, OnOk, IsTrue, IsOkUnless, Some, None, length, ◌+◌, ◌≡◌};
ghost use Rattle.machine.specs.declared.event.Event.TheVariants as event;
ghost use Rattle.runs.specs.Plain.{plain_after};
ghost use Rattle.trail.specs.Entries.{event_with, reply_with};
ghost use Rattle.trail.specs.Replay.{plain_of, Agrees, IsFirstOdd, IsFirstOddFrom, Replays, ReplaysFrom, Answered, files_of};

use crate::full::FullTrail;
use crate::plain::PlainFiles;
use machine::{Event, Reply};
use pc_types::{FileId, HandleId, Refusal};
use std::alloc::Global;

/// A history whose answers are those of plain files. Only `replay_plain` makes one.
#[derive(Clone, Copy, PartialEq, Eq, Debug)]
pub struct Checked(());

/// Replays a history on plain files. It answers `Some` exactly if every successful create, open, close, size, read,
/// write, append and truncate answers as plain files do, with its number, count, end and bytes. It is refused by
/// `Memory` alone.
#[tactic(auto, using(crate::proofs::ReplayLaws::no_odd))]
pub fn replay_plain(alloc: Global, trail: &FullTrail) -> Result<Option<Checked>, Refusal>
    ensures checked { IfOk result (λ o. IsTrue (is_some o) ↔ Replays trail.now.entries) }
    ensures refused { IsOkUnless result Refusal.Memory }
{
    let odd = first_odd(alloc, trail)?;
    Ok(checked_unless(odd))
}

/// The same of the history of a cache that began with these files on its device: file k has the bytes of vector k then.
#[tactic(auto, using(crate::proofs::ReplayLaws::no_odd))]
pub fn replay_plain_over(
    alloc: Global,
    files: &[Vec<u8>],
    trail: &FullTrail,
) -> Result<Option<Checked>, Refusal>
    ensures checked { IfOk result (λ o. IsTrue (is_some o) ↔ ReplaysFrom (files_of (map (λ v. v.items) files.now)) trail.now.entries) }
    ensures refused { IsOkUnless result Refusal.Memory }
{
    let odd = first_odd_over(alloc, files, trail)?;
    Ok(checked_unless(odd))
}

fn checked_unless(odd: Option<u64>) -> Option<Checked>
    ensures { IsTrue (is_some result) ↔ (odd ≡ None) }
{
    match odd {
        None => Some(Checked(())),
        Some(_) => None,
    }
}

/// The place of the first entry, counted from 0, whose answer is not that of plain files; `None` if each entry's is. It
/// is refused by `Memory` alone.
pub fn first_odd(alloc: Global, trail: &FullTrail) -> Result<Option<u64>, Refusal>
    ensures odd { IfOk result (λ o. IfSome o (IsFirstOdd trail.now.entries)) }
    ensures none { IfOk result (λ o. IfNone o (Replays trail.now.entries)) }
    ensures refused { IsOkUnless result Refusal.Memory }
{
    odd_from(alloc, PlainFiles::new(alloc), trail)
}

/// The same of the history of a cache that began with these files on its device.
pub fn first_odd_over(
    alloc: Global,
    files: &[Vec<u8>],
    trail: &FullTrail,
) -> Result<Option<u64>, Refusal>
    ensures odd { IfOk result (λ o. IfSome o (IsFirstOddFrom (files_of (map (λ v. v.items) files.now)) trail.now.entries)) }
    ensures none { IfOk result (λ o. IfNone o (ReplaysFrom (files_of (map (λ v. v.items) files.now)) trail.now.entries)) }
    ensures refused { IsOkUnless result Refusal.Memory }
{
    odd_from(alloc, PlainFiles::over(alloc, files)?, trail)
}

fn odd_from(alloc: Global, mut plain: PlainFiles, trail: &FullTrail) -> Result<Option<u64>, Refusal>
    ensures odd { IfOk result (λ o. IfSome o (IsFirstOddFrom (plain_of plain) trail.now.entries)) }
    ensures none { IfOk result (λ o. IfNone o (ReplaysFrom (plain_of plain) trail.now.entries)) }
    ensures refused { IsOkUnless result Refusal.Memory }
{
    let mut place = 0;
    while place < trail.lines() {
        let (event, reply, bytes) = trail.line(place);
        if !plain.replay(alloc, event, reply, bytes)? {
            return Ok(Some(place as u64));
        }
        place += 1;
    }
    Ok(None)
}

impl PlainFiles {
    // Whether an entry agrees. Where it does, the files are then those after it.
    fn replay(
        &mut self,
        alloc: Global,
        event: &Event,
        reply: &Reply,
        bytes: &[u8],
    ) -> Result<bool, Refusal>
        ensures answered { IfOk result (λ b. Answered (plain_of self.old) (event_with event.now bytes.now) (reply_with reply.now bytes.now) b (plain_of self.new)) }
        ensures refused { IsOkUnless result Refusal.Memory }
    {
        match event {
            Event::Create => self.replay_create(alloc, reply),
            Event::Open(file) => self.replay_open(*file, reply),
            Event::Close(handle) => Ok(self.replay_close(*handle, reply)),
            Event::Size(handle) => Ok(self.replay_size(*handle, reply)),
            Event::Read(handle, offset, count) => {
                Ok(self.replay_read(*handle, *offset, *count, reply, bytes))
            }
            Event::Write(handle, offset, _) => {
                self.replay_write(alloc, *handle, *offset, reply, bytes)
            }
            Event::Append(handle, _) => self.replay_append(alloc, *handle, reply, bytes),
            Event::Truncate(handle, size) => Ok(self.replay_truncate(*handle, *size, reply)),
            _ => Ok(true),
        }
    }

    fn replay_create(&mut self, alloc: Global, reply: &Reply) -> Result<bool, Refusal>
        ensures answered { IfOk result (λ b. Answered (plain_of self.old) event.Create reply.now b (plain_of self.new)) }
        ensures refused { IsOkUnless result Refusal.Memory }
    {
        match reply {
            Reply::File(file) => {
                if file.0 != self.files.len() as u64 {
                    return Ok(false);
                }
                self.create(alloc)?;
                Ok(true)
            }
            _ => Ok(true),
        }
    }

    fn replay_open(&mut self, file: FileId, reply: &Reply) -> Result<bool, Refusal>
        ensures answered { IfOk result (λ b. Answered (plain_of self.old) (event.Open file) reply.now b (plain_of self.new)) }
        ensures refused { IsOkUnless result Refusal.Memory }
    {
        match reply {
            Reply::Handle(handle) => {
                if file.0 >= self.files.len() as u64 || !self.handles.is_lowest_free(handle.0) {
                    return Ok(false);
                }
                self.handles.open(handle.0, file.0)?;
                Ok(true)
            }
            _ => Ok(true),
        }
    }

    fn replay_close(&mut self, handle: HandleId, reply: &Reply) -> bool
        ensures answered { Answered (plain_of self.old) (event.Close handle) reply.now result (plain_of self.new) }
    {
        match reply {
            Reply::Closed => {
                if self.handles.file(handle.0).is_none() {
                    return false;
                }
                self.handles.close(handle.0);
                true
            }
            _ => true,
        }
    }

    fn replay_size(&mut self, handle: HandleId, reply: &Reply) -> bool
        ensures answered { Answered (plain_of self.old) (event.Size handle) reply.now result (plain_of self.new) }
    {
        match reply {
            Reply::Size(size) => match self.handles.file(handle.0) {
                Some(file) => *size == self.size(file),
                None => false,
            },
            _ => true,
        }
    }

    fn replay_read(
        &mut self,
        handle: HandleId,
        offset: u64,
        count: u64,
        reply: &Reply,
        bytes: &[u8],
    ) -> bool
        ensures answered { Answered (plain_of self.old) (event.Read handle offset count) (reply_with reply.now bytes.now) result (plain_of self.new) }
    {
        match reply {
            Reply::Bytes(_) => match self.handles.file(handle.0) {
                Some(file) => self.reads(file, offset, count, bytes),
                None => false,
            },
            _ => true,
        }
    }

    fn replay_write(
        &mut self,
        alloc: Global,
        handle: HandleId,
        offset: u64,
        reply: &Reply,
        bytes: &[u8],
    ) -> Result<bool, Refusal>
        ensures answered { IfOk result (λ b. Answered (plain_of self.old) (event.Write handle offset bytes.now) reply.now b (plain_of self.new)) }
        ensures refused { IsOkUnless result Refusal.Memory }
    {
        match reply {
            Reply::Wrote(count, end) => {
                let Some(file) = self.handles.file(handle.0) else {
                    return Ok(false);
                };
                if !ends_at(*count, *end, offset, bytes) {
                    return Ok(false);
                }
                self.write(alloc, file, offset, bytes)?;
                Ok(true)
            }
            _ => Ok(true),
        }
    }

    fn replay_append(
        &mut self,
        alloc: Global,
        handle: HandleId,
        reply: &Reply,
        bytes: &[u8],
    ) -> Result<bool, Refusal>
        ensures answered { IfOk result (λ b. Answered (plain_of self.old) (event.Append handle bytes.now) reply.now b (plain_of self.new)) }
        ensures refused { IsOkUnless result Refusal.Memory }
    {
        match reply {
            Reply::Wrote(count, end) => {
                let Some(file) = self.handles.file(handle.0) else {
                    return Ok(false);
                };
                let size = self.size(file);
                if !ends_at(*count, *end, size, bytes) {
                    return Ok(false);
                }
                self.write(alloc, file, size, bytes)?;
                Ok(true)
            }
            _ => Ok(true),
        }
    }

    fn replay_truncate(&mut self, handle: HandleId, size: u64, reply: &Reply) -> bool
        ensures answered { Answered (plain_of self.old) (event.Truncate handle size) reply.now result (plain_of self.new) }
    {
        match reply {
            Reply::Done => {
                let Some(file) = self.handles.file(handle.0) else {
                    return false;
                };
                self.cut(file, size);
                true
            }
            _ => true,
        }
    }
}

// Whether a write of these bytes at the offset has this count and end.
fn ends_at(count: u64, end: u64, offset: u64, bytes: &[u8]) -> bool
    ensures { IsTrue result ↔ ((count ≡ length bytes.now) × (end ≡ offset + length bytes.now)) }
{
    count == bytes.len() as u64 && offset.checked_add(count) == Some(end)
}
