//! Reads.

ghost use Rattle.std.specs.Prelude.{◌≡◌, ◌≢◌, ◌+◌, ◌-◌, ◌<◌, ◌≤◌, true, length, min, take, drop, IfErr, IfOk, IfSome, Err};
ghost use Rattle.pc_types.specs.Files as plain;
ghost use Rattle.pc_types.specs.declared.limits.TheConstants.{MAX_FILE_SIZE};
ghost use Rattle.pc_types.specs.declared.refusal.Refusal.TheVariants.{BadHandle};
ghost use Rattle.machine.specs.declared.event.Event.TheVariants as event;
ghost use Rattle.machine.specs.State.{file_at, handle_file};
ghost use Rattle.machine.specs.Tests.{read_count};
ghost use Rattle.runs.specs.Plain.{named, plain_file};
ghost use Rattle.world.specs.declared.step.Step.TheVariants as step;
ghost use Rattle.filesvc.specs.Attempts.{Attempt, read_over, read_so_far};
ghost use Rattle.filesvc.specs.Made.{IsMadeOf};
ghost use Rattle.filesvc.specs.Service.{CameFrom, IsRefusal, IsSettledAtOnce, IsSoonOver, IsUntried, Names, Serves, Tells, count_of, files, read_reply};

use crate::handle::Handle;
use crate::solo::{MAX_ATTEMPTS, Solo};
use blockdev::BlockDevice;
use cachecore::{Demand, ReadAnswer};
use pc_types::{HandleId, Refusal};

impl<D: BlockDevice> Solo<D> {
    /// Reads the bytes from `offset` on into the front of `out`, and answers how many: as many as it takes, and none past the
    /// end of the file. A read touches 16 pages at most.
    // A caller that has it inlined reads a cached page by half the instructions (decision 222).
    #[inline(always)]
    pub fn pread(&mut self, handle: &Handle, offset: u64, out: &mut [u8]) -> Result<u64, Refusal>
        requires came { CameFrom self.old handle.now }
        ensures foreign { handle.now.cache ≢ self.old.world.core.name → (result ≡ Err BadHandle) × IsUntried self.old self.new }
        ensures serves { Serves self.old self.new }
        ensures bytes { Tells self.old → IfOk result (λ n. take n out.new ≡ plain.pread (plain_file (files self.old) handle.now.file) offset (length out.old)) }
        ensures count { count_of result ≤ length out.old }
        ensures all { IfOk result (λ n. n ≡ min (length out.old) ((file_at self.old.world.core handle.now.file).size - offset)) }
        ensures rest { drop (count_of result) out.new ≡ drop (count_of result) out.old }
        ensures within { offset ≤ MAX_FILE_SIZE → offset + count_of result ≤ MAX_FILE_SIZE }
        ensures first { IsSettledAtOnce self.old handle.now (event.Read (record { 0 = handle.now.number }) offset (length out.old)) (read_reply result out.new) self.new }
        ensures refused { Names self.old handle.now → IfErr result (λ r. IsRefusal self.old (event.Read (record { 0 = handle.now.number }) offset (length out.old)) r self.new) }
        ensures attempts { IsSoonOver self.old (event.Read (record { 0 = handle.now.number }) offset (length out.old)) self.new }
        ensures made { Names self.old handle.now → IsMadeOf (step.Read (record { 0 = handle.now.number }) offset (length out.old)) self.old (read_reply result out.new) self.new }
    {
        self.attempts = 0;
        if handle.cache != self.name {
            return Err(Refusal::BadHandle);
        }
        'attempts: while self.attempts < MAX_ATTEMPTS {
            if let Some(count) = self.try_read(handle.number, offset, out)? {
                return Ok(count);
            }
        }
        Err(Refusal::Turns)
    }

    /// One attempt to read. Where a page is missing it is filled, and nothing is answered.
    fn try_read(
        &mut self,
        handle: HandleId,
        offset: u64,
        out: &mut [u8],
    ) -> Result<Option<u64>, Refusal>
        requires { self.old.attempts < 256 }
        ensures serves { Serves self.old self.new }
        ensures attempt { Attempt self.old (event.Read handle offset (length out.old)) (read_over result out.new) self.new }
        ensures bytes { Tells self.old → IfOk result (λ n. IfSome n (λ k. take k out.new ≡ plain.pread (plain_file (files self.old) (named (files self.old) handle.0)) offset (length out.old))) }
        ensures count { read_so_far result ≤ length out.old }
        ensures all { IfOk result (λ n. IfSome n (λ k. k ≡ read_count self.old.world.core (handle_file self.old.world.core handle.0) offset (length out.old))) }
        ensures rest { drop (read_so_far result) out.new ≡ drop (read_so_far result) out.old }
        ensures within { offset ≤ MAX_FILE_SIZE → offset + read_so_far result ≤ MAX_FILE_SIZE }
    {
        self.attempts += 1;
        let most = out.len() as u64;
        match self.world.read(handle, offset, out)? {
            ReadAnswer::Bytes(count) => return Ok(Some(count)),
            ReadAnswer::Miss(page) | ReadAnswer::Wait(page) => {
                let demand = Demand {
                    handle,
                    offset,
                    count: most,
                    dirties: false,
                };
                self.fill(demand, page)?
            }
        }
        Ok(None)
    }

    /// Reads at the cursor, as `pread` does there, and moves the cursor by the count.
    pub fn read(&mut self, handle: &mut Handle, out: &mut [u8]) -> Result<u64, Refusal>
        requires came { CameFrom self.old handle.old }
        ensures foreign { handle.old.cache ≢ self.old.world.core.name → (result ≡ Err BadHandle) × IsUntried self.old self.new }
        ensures serves { Serves self.old self.new }
        ensures bytes { Tells self.old → IfOk result (λ n. take n out.new ≡ plain.pread (plain_file (files self.old) handle.old.file) handle.old.cursor (length out.old)) }
        ensures count { count_of result ≤ length out.old }
        ensures all { IfOk result (λ n. n ≡ min (length out.old) ((file_at self.old.world.core handle.old.file).size - handle.old.cursor)) }
        ensures rest { drop (count_of result) out.new ≡ drop (count_of result) out.old }
        ensures cursor { handle.new ≡ record handle.old { cursor = handle.old.cursor + count_of result } }
        ensures first { IsSettledAtOnce self.old handle.old (event.Read (record { 0 = handle.old.number }) handle.old.cursor (length out.old)) (read_reply result out.new) self.new }
        ensures refused { Names self.old handle.old → IfErr result (λ r. IsRefusal self.old (event.Read (record { 0 = handle.old.number }) handle.old.cursor (length out.old)) r self.new) }
        ensures attempts { IsSoonOver self.old (event.Read (record { 0 = handle.old.number }) handle.old.cursor (length out.old)) self.new }
        ensures made { Names self.old handle.old → IsMadeOf (step.Read (record { 0 = handle.old.number }) handle.old.cursor (length out.old)) self.old (read_reply result out.new) self.new }
    {
        let count = self.pread(handle, handle.cursor, out)?;
        handle.cursor += count;
        Ok(count)
    }
}
