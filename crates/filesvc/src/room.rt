//! What a call does on the way: it fills pages that it missed, and makes room.

ghost use Rattle.std.specs.Prelude.{◌≡◌, ℕ, ◌⊎◌, ◌+◌, ◌<◌, ◌≤◌, Option, Some, None, IfErr, IfOk, IfSome, IsOkUnless, OnOk};
ghost use Rattle.pc_types.specs.declared.ids.PageIndex.{PageIndex};
ghost use Rattle.pc_types.specs.declared.refusal.Refusal.TheVariants.{DirtyLimit, NoFrame};
ghost use Rattle.machine.specs.State.{free_frames};
ghost use Rattle.cachecore.specs.declared.answers.Want.TheVariants.{Frames};
ghost use Rattle.filesvc.specs.Attempts.{Helps};
ghost use Rattle.filesvc.specs.Rooms.{FailsFlush, FlushesOne, IsClean, IsFillRefusal, IsFlush, IsShort, IsWayRefusal, MakesRoom, MakesRooms, Misses, StaysAbsent, Suffices, load, needed, refusal_of, wanted};

use crate::requests::{fill_page, flush_page};
use crate::solo::Solo;
use blockdev::BlockDevice;
use cachecore::{Demand, Reply, Want};
use pc_types::{FileId, HandleId, PageIndex, Refusal};

impl<D: BlockDevice> Solo<D> {
    /// Fills a page that a call on these bytes lacks. First room is made for all pages that it lacks: made for this one alone
    /// it could cost the call another of its pages (decision 111).
    pub(crate) fn fill(&mut self, demand: Demand, page: PageIndex) -> Result<(), Refusal>
        requires missed { Misses self.old demand page }
        ensures helps { Helps demand.handle.0 (Some page) self.old self.new }
        ensures attempts { self.new.attempts ≡ self.old.attempts }
        ensures refused { IfErr result (λ r. IsFillRefusal self.old demand.handle page (wanted self.new.world.core demand) r self.new) }
        ensures gains { OnOk result (needed self.new.world.core demand < needed self.old.world.core demand) }
    {
        self.make_way(demand)?;
        self.fill_once(demand, page)
    }

    /// Fills a page. A frame is free for it.
    fn fill_once(&mut self, demand: Demand, page: PageIndex) -> Result<(), Refusal>
        requires missed { Misses self.old demand page }
        requires room { wanted self.old.world.core demand ≡ None }
        ensures helps { Helps demand.handle.0 (Some page) self.old self.new }
        ensures attempts { self.new.attempts ≡ self.old.attempts }
        ensures refused { IfErr result (λ r. IsFillRefusal self.old demand.handle page (wanted self.new.world.core demand) r self.new) }
        ensures gains { OnOk result (needed self.new.world.core demand < needed self.old.world.core demand) }
    {
        let why = match fill_page(&mut self.world, demand.handle, page) {
            Reply::Failed(code) => Refusal::Io(code),
            Reply::Refused(refusal) => refusal,
            _ => return Ok(()),
        };
        Err(why)
    }

    /// Makes room for a call: until as many frames are free as it lacks pages, and no more pages would be dirty than may be.
    pub(crate) fn make_way(&mut self, demand: Demand) -> Result<(), Refusal>
        ensures helps { (page : Option PageIndex) → Helps demand.handle.0 page self.old self.new }
        ensures attempts { self.new.attempts ≡ self.old.attempts }
        ensures made { OnOk result (wanted self.new.world.core demand ≡ None) }
        ensures kept { wanted self.old.world.core demand ≡ None → OnOk result (self.new ≡ self.old) }
        ensures absent { OnOk result (StaysAbsent self.old.world.core self.new.world.core) }
        ensures refused { IfErr result (λ r. IsWayRefusal self.old (wanted self.new.world.core demand) r self.new) }
    {
        'turns: while let Some(want) = self.wants(demand) {
            match want {
                Want::Frames(short) => self.make_rooms(demand, short)?,
                Want::Clean => self.make_room(Refusal::DirtyLimit)?,
            }
        }
        Ok(())
    }

    /// Which room a call wants: frames, or fewer dirty pages.
    fn wants(&self, demand: Demand) -> Option<Want>
        ensures wanted { refusal_of result ≡ wanted self.now.world.core demand }
        ensures short { IfSome result (IsShort self.now.world.core demand) }
    {
        self.world.wants(demand)
    }

    /// Makes room for as many frames as a call is short of.
    ///
    /// Each time one frame at most becomes free, and no page becomes cached. So the call is short of frames till the last time, and its
    /// pages are not looked up between (decision 169).
    fn make_rooms(&mut self, demand: Demand, short: u64) -> Result<(), Refusal>
        requires { IsShort self.old.world.core demand (Frames short) }
        ensures helps { (page : Option PageIndex) → Helps demand.handle.0 page self.old self.new }
        ensures attempts { self.new.attempts ≡ self.old.attempts }
        ensures rooms { OnOk result (MakesRooms demand short self.old self.new) }
        ensures less { OnOk result (load self.new.world.core + short ≤ load self.old.world.core) }
        ensures absent { OnOk result (StaysAbsent self.old.world.core self.new.world.core) }
        ensures refused { IfErr result (λ r. IsWayRefusal self.old (wanted self.new.world.core demand) r self.new) }
    {
        'frames: for _ in 0..short {
            self.make_room(Refusal::NoFrame)?;
        }
        Ok(())
    }

    /// Makes room where a page was refused a frame or would be one dirty page too many. Where that can't be done, and for any
    /// other refusal, that is the answer.
    pub(crate) fn make_room(&mut self, refusal: Refusal) -> Result<(), Refusal>
        ensures helps { (k : ℕ) (page : Option PageIndex) → Helps k page self.old self.new }
        ensures attempts { self.new.attempts ≡ self.old.attempts }
        ensures made { OnOk result (MakesRoom self.old refusal self.new) }
        ensures few { OnOk result (free_frames self.new.world.core ≤ free_frames self.old.world.core + 1) }
        ensures refused { IsOkUnless result refusal }
        ensures frames { refusal ≡ NoFrame → IfErr result (λ r. r ≡ NoFrame → FailsFlush self.old self.new ⊎ Suffices self.old) }
        ensures clean { refusal ≡ DirtyLimit → IfErr result (λ r. r ≡ DirtyLimit → FailsFlush self.old self.new ⊎ IsClean self.old) }
    {
        match refusal {
            Refusal::NoFrame => {
                self.world.age();
                if self.world.evict().is_some() {
                    return Ok(());
                }
            }
            Refusal::DirtyLimit => {}
            other => return Err(other),
        }
        if self.flush_one() {
            Ok(())
        } else {
            Err(refusal)
        }
    }

    /// Writes a dirty page back, of the first file that has one. Answers whether that was done.
    fn flush_one(&mut self) -> bool
        ensures helps { (k : ℕ) (page : Option PageIndex) → Helps k page self.old self.new }
        ensures attempts { self.new.attempts ≡ self.old.attempts }
        ensures flushes { FlushesOne self.old result self.new }
    {
        let Some(file) = self.world.first_to_write() else {
            return false;
        };
        matches!(self.flush_file(file), Reply::Written)
    }

    /// Writes the file's lowest dirty page back.
    pub(crate) fn flush_file(&mut self, file: FileId) -> Reply
        ensures helps { (k : ℕ) (page : Option PageIndex) → Helps k page self.old self.new }
        ensures attempts { self.new.attempts ≡ self.old.attempts }
        ensures flush { IsFlush self.old file result self.new }
    {
        flush_page(&mut self.world, &mut self.recorder, file)
    }
}
