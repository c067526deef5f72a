//! Writes and truncations.

ghost use Rattle.std.specs.Prelude.{◌≡◌, ◌≢◌, ◌+◌, ◌<◌, ◌≤◌, None, true, length, IfErr, IfOk, IfSome, Err};
ghost use Rattle.pc_types.specs.declared.limits.TheConstants.{MAX_FILE_SIZE};
ghost use Rattle.pc_types.specs.declared.refusal.Refusal.TheVariants.{BadHandle};
ghost use Rattle.machine.specs.declared.event.Event.TheVariants as event;
ghost use Rattle.cachecore.specs.Replies.{wrote};
ghost use Rattle.machine.specs.State.{file_at, handle_file};
ghost use Rattle.world.specs.declared.step.Step.TheVariants as step;
ghost use Rattle.filesvc.specs.Made.{IsMadeOf, write_step};
ghost use Rattle.filesvc.specs.Attempts.{Attempt, Follows, WroteAll, append_reply, truncate_over, write_over};
ghost use Rattle.filesvc.specs.Rooms.{Stops, need};
ghost use Rattle.filesvc.specs.Service.{CameFrom, FilesAfter, IsRefusal, IsSettledAtOnce, IsUntried, IsSoonOver, Keeps, LengthsAfter, Names, count_of, cursor_after, truncate_reply, wants, write_event, write_reply, wrote_reply};

use crate::handle::Handle;
use crate::solo::{MAX_ATTEMPTS, Solo};
use blockdev::BlockDevice;
use cachecore::{Demand, TruncateAnswer, WriteAnswer};
use pc_types::{HandleId, Refusal};

/// How a write ended: how many bytes were written, and the offset after them.
#[derive(Clone, Copy)]
pub(crate) struct Wrote {
    pub(crate) count: u64,
    pub(crate) end: u64,
}

impl<D: BlockDevice> Solo<D> {
    /// Writes the bytes into the file from `offset` on, also by an appending handle, and answers how many: all of them. A gap
    /// before them reads as zeros. A write touches 16 pages at most.
    pub fn pwrite(&mut self, handle: &Handle, offset: u64, bytes: &[u8]) -> Result<u64, Refusal>
        requires came { CameFrom self.old handle.now }
        ensures foreign { handle.now.cache ≢ self.old.world.core.name → (result ≡ Err BadHandle) × IsUntried self.old self.new }
        ensures keeps { Keeps self.old self.new }
        ensures count { IfOk result (λ n. n ≡ length bytes.now) }
        ensures within { offset ≤ MAX_FILE_SIZE → offset + count_of result ≤ MAX_FILE_SIZE }
        ensures files { FilesAfter self.old (event.Write (record { 0 = handle.now.number }) offset bytes.now) (write_reply result (offset + length bytes.now)) self.new }
        ensures lengths { LengthsAfter self.old (event.Write (record { 0 = handle.now.number }) offset bytes.now) (write_reply result (offset + length bytes.now)) self.new }
        ensures first { IsSettledAtOnce self.old handle.now (event.Write (record { 0 = handle.now.number }) offset bytes.now) (write_reply result (offset + length bytes.now)) self.new }
        ensures refused { Names self.old handle.now → IfErr result (λ r. IsRefusal self.old (event.Write (record { 0 = handle.now.number }) offset bytes.now) r self.new) }
        ensures attempts { IsSoonOver self.old (event.Write (record { 0 = handle.now.number }) offset bytes.now) self.new }
        ensures made { Names self.old handle.now → IsMadeOf (step.Write (record { 0 = handle.now.number }) offset bytes.now) self.old (write_reply result (offset + length bytes.now)) self.new }
    {
        self.attempts = 0;
        if handle.cache != self.name {
            return Err(Refusal::BadHandle);
        }
        'attempts: while self.attempts < MAX_ATTEMPTS {
            if let Some(wrote) = self.try_write(handle.number, offset, bytes)? {
                return Ok(wrote.count);
            }
        }
        Err(Refusal::Turns)
    }

    /// Writes at the cursor, and moves it by the count; or with an appending handle at the end of the file, where the cursor is put
    /// then.
    pub fn write(&mut self, handle: &mut Handle, bytes: &[u8]) -> Result<u64, Refusal>
        requires came { CameFrom self.old handle.old }
        ensures foreign { handle.old.cache ≢ self.old.world.core.name → (result ≡ Err BadHandle) × IsUntried self.old self.new }
        ensures keeps { Keeps self.old self.new }
        ensures count { IfOk result (λ n. n ≡ length bytes.now) }
        ensures files { FilesAfter self.old (write_event handle.old bytes.now) (wrote_reply self.old handle.old result) self.new }
        ensures lengths { LengthsAfter self.old (write_event handle.old bytes.now) (wrote_reply self.old handle.old result) self.new }
        ensures cursor { handle.new ≡ record handle.old { cursor = cursor_after self.old handle.old result } }
        ensures first { IsSettledAtOnce self.old handle.old (write_event handle.old bytes.now) (wrote_reply self.old handle.old result) self.new }
        ensures refused { Names self.old handle.old → IfErr result (λ r. IsRefusal self.old (write_event handle.old bytes.now) r self.new) }
        ensures attempts { IsSoonOver self.old (write_event handle.old bytes.now) self.new }
        ensures made { Names self.old handle.old → IsMadeOf (write_step handle.old bytes.now) self.old (wrote_reply self.old handle.old result) self.new }
    {
        if !handle.append {
            let count = self.pwrite(handle, handle.cursor, bytes)?;
            handle.cursor += count;
            return Ok(count);
        }
        let wrote = self.append(handle, bytes)?;
        handle.cursor = wrote.end;
        Ok(wrote.count)
    }

    /// Writes the bytes at the end of the file.
    fn append(&mut self, handle: &Handle, bytes: &[u8]) -> Result<Wrote, Refusal>
        requires came { CameFrom self.old handle.now }
        ensures foreign { handle.now.cache ≢ self.old.world.core.name → (result ≡ Err BadHandle) × IsUntried self.old self.new }
        ensures keeps { Keeps self.old self.new }
        ensures wrote { IfOk result (WroteAll (file_at self.old.world.core handle.now.file).size bytes.now) }
        ensures within { IfOk result (λ w. w.end ≤ MAX_FILE_SIZE) }
        ensures files { FilesAfter self.old (event.Append (record { 0 = handle.now.number }) bytes.now) (append_reply result) self.new }
        ensures lengths { LengthsAfter self.old (event.Append (record { 0 = handle.now.number }) bytes.now) (append_reply result) self.new }
        ensures first { IsSettledAtOnce self.old handle.now (event.Append (record { 0 = handle.now.number }) bytes.now) (append_reply result) self.new }
        ensures refused { Names self.old handle.now → IfErr result (λ r. IsRefusal self.old (event.Append (record { 0 = handle.now.number }) bytes.now) r self.new) }
        ensures attempts { IsSoonOver self.old (event.Append (record { 0 = handle.now.number }) bytes.now) self.new }
        ensures made { Names self.old handle.now → IsMadeOf (step.Append (record { 0 = handle.now.number }) bytes.now) self.old (append_reply result) self.new }
    {
        self.attempts = 0;
        if handle.cache != self.name {
            return Err(Refusal::BadHandle);
        }
        'attempts: while self.attempts < MAX_ATTEMPTS {
            if let Some(wrote) = self.try_append(handle.number, bytes)? {
                return Ok(wrote);
            }
        }
        Err(Refusal::Turns)
    }

    /// One attempt to write. Where a page is missing it is filled, or room is made, and nothing is answered.
    fn try_write(
        &mut self,
        handle: HandleId,
        offset: u64,
        bytes: &[u8],
    ) -> Result<Option<Wrote>, Refusal>
        requires { self.old.attempts < 256 }
        ensures attempt { Attempt self.old (event.Write handle offset bytes.now) (write_over result) self.new }
        ensures wrote { IfOk result (λ o. IfSome o (WroteAll offset bytes.now)) }
    {
        self.attempts += 1;
        let answer = self.world.write(handle, offset, bytes);
        self.after_write(handle, offset, bytes.len() as u64, answer)
    }

    /// One attempt to append, as `try_write` is one to write.
    fn try_append(&mut self, handle: HandleId, bytes: &[u8]) -> Result<Option<Wrote>, Refusal>
        requires { self.old.attempts < 256 }
        ensures attempt { Attempt self.old (event.Append handle bytes.now) (write_over result) self.new }
        ensures wrote { IfOk result (λ o. IfSome o (WroteAll (file_at self.old.world.core (handle_file self.old.world.core handle.0)).size bytes.now)) }
    {
        self.attempts += 1;
        let answer = self.world.append(handle, bytes);
        if let Ok(WriteAnswer::Wrote { count, end }) = answer {
            return Ok(Some(Wrote { count, end }));
        }
        // nothing was appended, so the file still ends where the bytes were to begin
        let offset = self.world.size(handle).unwrap_or(0);
        self.after_write(handle, offset, bytes.len() as u64, answer)
    }

    /// What an attempt to write comes to after its answer: how the write ended, or nothing where it is to be made again.
    fn after_write(
        &mut self,
        handle: HandleId,
        offset: u64,
        count: u64,
        answer: Result<WriteAnswer, Refusal>,
    ) -> Result<Option<Wrote>, Refusal>
        requires { Stops self.old handle.0 offset count (wrote answer) }
        ensures follows { Follows self.old handle (wrote answer) (wants true self.new.world.core handle.0 offset count) (write_over result) self.new }
        ensures gains { write_over result ≡ None → need true self.new.world.core handle.0 offset count < need true self.old.world.core handle.0 offset count }
    {
        let demand = Demand {
            handle,
            offset,
            count,
            dirties: true,
        };
        match answer {
            Ok(WriteAnswer::Wrote { count, end }) => return Ok(Some(Wrote { count, end })),
            Ok(WriteAnswer::Miss(page)) | Ok(WriteAnswer::Wait(page)) => self.fill(demand, page)?,
            Err(Refusal::NoFrame) => self.make_way(demand)?,
            Err(Refusal::DirtyLimit) => self.make_way(demand)?,
            Err(refusal) => return Err(refusal),
        }
        Ok(None)
    }

    /// Makes the file as long as this. A longer one gains zeros. The cursor stays.
    pub fn truncate(&mut self, handle: &Handle, size: u64) -> Result<(), Refusal>
        requires came { CameFrom self.old handle.now }
        ensures foreign { handle.now.cache ≢ self.old.world.core.name → (result ≡ Err BadHandle) × IsUntried self.old self.new }
        ensures keeps { Keeps self.old self.new }
        ensures files { FilesAfter self.old (event.Truncate (record { 0 = handle.now.number }) size) (truncate_reply result) self.new }
        ensures lengths { LengthsAfter self.old (event.Truncate (record { 0 = handle.now.number }) size) (truncate_reply result) self.new }
        ensures first { IsSettledAtOnce self.old handle.now (event.Truncate (record { 0 = handle.now.number }) size) (truncate_reply result) self.new }
        ensures refused { Names self.old handle.now → IfErr result (λ r. IsRefusal self.old (event.Truncate (record { 0 = handle.now.number }) size) r self.new) }
        ensures attempts { IsSoonOver self.old (event.Truncate (record { 0 = handle.now.number }) size) self.new }
        ensures made { Names self.old handle.now → IsMadeOf (step.Truncate (record { 0 = handle.now.number }) size) self.old (truncate_reply result) self.new }
    {
        self.attempts = 0;
        if handle.cache != self.name {
            return Err(Refusal::BadHandle);
        }
        'attempts: while self.attempts < MAX_ATTEMPTS {
            if self.try_truncate(handle.number, size)? {
                return Ok(());
            }
        }
        Err(Refusal::Turns)
    }

    /// One attempt to truncate. Answers whether that is done; where a page is missing it is filled.
    fn try_truncate(&mut self, handle: HandleId, size: u64) -> Result<bool, Refusal>
        requires { self.old.attempts < 256 }
        ensures attempt { Attempt self.old (event.Truncate handle size) (truncate_over result) self.new }
    {
        self.attempts += 1;
        match self.world.truncate(handle, size)? {
            TruncateAnswer::Done => return Ok(true),
            TruncateAnswer::Miss(page) | TruncateAnswer::Wait(page) => {
                // the byte behind the new end is of the page that is cut into
                let demand = Demand {
                    handle,
                    offset: size,
                    count: 1,
                    dirties: false,
                };
                self.fill(demand, page)?
            }
        }
        Ok(false)
    }
}
