//! Files and handles: what comes and goes, where a cursor is put, and what a handle is told.

ghost use Rattle.std.specs.Prelude.{◌≡◌, ◌≢◌, ◌+ℤ◌, pos, ℕ, ◌<◌, ◌≤◌, ◌==◌, ◌&&◌, false, if◌then◌else◌, is_some, IfErr, IfOk, IfSome, IfNone, IsErr, IsOk, OnErr, Err};
ghost use Rattle.pc_types.specs.declared.refusal.Refusal.TheVariants.{BadHandle, NoSuchFile};
ghost use Rattle.pc_types.specs.declared.limits.TheConstants.{MAX_FILES};
ghost use Rattle.machine.specs.declared.event.Event.TheVariants as event;
ghost use Rattle.cachecore.specs.Replies.{created};
ghost use Rattle.machine.specs.State.{file_at};
ghost use Rattle.machine.specs.Step.{Step};
ghost use Rattle.world.specs.Stepping.{Steps};
ghost use Rattle.world.specs.declared.step.Step.TheVariants as step;
ghost use Rattle.errseq.specs.Recorded.{last_code};
ghost use Rattle.filesvc.specs.Service.{CameFrom, FilesAfter, IsAsBefore, close_reply, IsCounted, IsTold, IsUntried, Names, Opened, Owes, errors_of, is_untold, looks_of, open_reply};
ghost use Rattle.cursor.specs.Places.{placed, target};

use crate::handle::Handle;
use crate::solo::Solo;
use blockdev::BlockDevice;
use cursor::Seek;
use pc_types::{ErrCode, FileId, Refusal};

impl<D: BlockDevice> Solo<D> {
    /// A new file, without bytes. It stays as long as the service.
    pub fn create(&mut self) -> Result<FileId, Refusal>
        ensures step { Step self.old.world.core event.Create (created result) self.new.world.core }
        ensures made { Steps self.old.world step.Create (created result) self.new.world }
        ensures files { FilesAfter self.old event.Create (created result) self.new }
        ensures device { self.new.world.device ≡ self.old.world.device }
        ensures errors { self.new.errors ≡ self.old.errors }
        ensures attempts { self.new.attempts ≡ 1 }
    {
        self.attempts = 1;
        self.world.create()
    }

    /// Opens a file. The handle's cursor is at the beginning; with `append` its writes go to the end of the file. A number that no
    /// file can have is refused by `NoSuchFile`.
    pub fn open(&mut self, file: FileId, append: bool) -> Result<Handle, Refusal>
        ensures none { MAX_FILES ≤ file.0 → (result ≡ Err NoSuchFile) × IsAsBefore self.old self.new }
        ensures opened { file.0 < MAX_FILES → Opened self.old file.0 append result self.new }
        ensures made { file.0 < MAX_FILES → Steps self.old.world (step.Open file) (open_reply result) self.new.world }
        ensures files { FilesAfter self.old (event.Open file) (open_reply result) self.new }
        ensures device { self.new.world.device ≡ self.old.world.device }
        ensures errors { self.new.errors ≡ self.old.errors }
        ensures attempts { self.new.attempts ≡ 1 }
    {
        self.attempts = 1;
        let pass = self.recorder.pass_remembered(file)?;
        match self.world.open(file) {
            Ok(number) => Ok(Handle {
                cache: self.name,
                file,
                number,
                cursor: 0,
                append,
                pass,
            }),
            Err(refusal) => {
                self.recorder.retire(pass);
                Err(refusal)
            }
        }
    }

    /// Closes a handle. One of another service is refused, and comes back.
    pub fn close(&mut self, handle: Handle) -> Result<(), (Refusal, Handle)>
        requires came { CameFrom self.old handle }
        ensures foreign { handle.cache ≢ self.old.world.core.name → IfErr result (λ e. e.0 ≡ BadHandle) × IsErr result × IsUntried self.old self.new }
        ensures closed { Names self.old handle → Step self.old.world.core (event.Close (record { 0 = handle.number })) (close_reply result) self.new.world.core }
        ensures made { Names self.old handle → Steps self.old.world (step.Close (record { 0 = handle.number })) (close_reply result) self.new.world }
        ensures files { Names self.old handle → FilesAfter self.old (event.Close (record { 0 = handle.number })) (close_reply result) self.new }
        ensures answers { Names self.old handle → IfErr result (λ _. ⊥) }
        ensures attempts { Names self.old handle → self.new.attempts ≡ 1 }
        ensures back { IfErr result (λ e. e.1 ≡ handle) }
        ensures device { self.new.world.device ≡ self.old.world.device }
        ensures errors { self.new.errors ≡ self.old.errors }
    {
        self.attempts = 0;
        if handle.cache != self.name {
            return Err((Refusal::BadHandle, handle));
        }
        self.attempts = 1;
        match self.world.close(handle.number) {
            Ok(()) => {
                self.recorder.retire(handle.pass);
                Ok(())
            }
            Err(refusal) => Err((refusal, handle)),
        }
    }

    /// Puts the cursor, and answers where it is now. Refused by `TooLarge` below 0 and past the greatest size of a file.
    pub fn seek(&mut self, handle: &mut Handle, place: Seek) -> Result<u64, Refusal>
        requires came { CameFrom self.old handle.old }
        ensures foreign { handle.old.cache ≢ self.old.world.core.name → (result ≡ Err BadHandle) × IsUntried self.old self.new }
        ensures placed { Names self.old handle.old → result ≡ placed (target place handle.old.cursor (file_at self.old.world.core handle.old.file).size) }
        ensures cursor { IfOk result (λ at. handle.new ≡ record handle.old { cursor = at }) }
        ensures kept { OnErr result (handle.new ≡ handle.old) }
        ensures attempts { Names self.old handle.old → self.new.attempts ≡ looks_of place }
        ensures same { IsAsBefore self.old self.new }
    {
        self.attempts = 0;
        if handle.cache != self.name {
            return Err(Refusal::BadHandle);
        }
        let size = match place {
            Seek::End(_) => {
                self.attempts = 1;
                self.world.size(handle.number)?
            }
            _ => 0,
        };
        let at = place.offset(handle.cursor, size)?;
        handle.cursor = at;
        Ok(at)
    }

    /// The code of the last failed write of the file that the handle was not told of, where there is one. It is told of all then.
    pub fn poll_error(&mut self, handle: &mut Handle) -> Result<Option<ErrCode>, Refusal>
        requires came { CameFrom self.old handle.old }
        ensures foreign { handle.old.cache ≢ self.old.world.core.name → (result ≡ Err BadHandle) × IsUntried self.old self.new × (handle.new ≡ handle.old) }
        ensures answers { Names self.old handle.old → IsOk result }
        ensures code { IfOk result (λ code. IfSome code (λ c. Owes self.old handle.old × (c ≡ last_code (errors_of self.old handle.old.file)))) }
        ensures none { IfOk result (λ code. IfNone code (IsCounted self.old handle.old → Owes self.old handle.old → ⊥)) }
        ensures told { IfOk result (λ _. IsTold self.new handle.old handle.new) }

        // A code, and nothing else, takes the error from those that nobody was told of.
        ensures untold { IfOk result (λ code. (f : ℕ) → is_untold self.new f ≡ (if f == handle.old.file && is_some code then false else is_untold self.old f)) }
        ensures same { self.new ≡ record self.old { errors = record self.old.errors { words = self.new.errors.words }; attempts = 0 } }
    {
        self.attempts = 0;
        if handle.cache != self.name {
            return Err(Refusal::BadHandle);
        }
        Ok(self.recorder.poll(&mut handle.pass))
    }
}
