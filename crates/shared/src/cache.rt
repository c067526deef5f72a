//! A cache that threads share.

ghost use Rattle.std.specs.FinMap as map;
ghost use Rattle.std.specs.Prelude.{◌≡◌, [], IfOk, IsOkUnless};
ghost use Rattle.pc_types.specs.declared.refusal.Refusal.TheVariants.{Memory};
ghost use Rattle.held.specs.Keeps.{IsLocked};
ghost use Rattle.machine.specs.Catalogs.{IsCatalog, adopted};
ghost use Rattle.shared.specs.Keeps.{AreBlocksOf, IsDisk};
ghost use Rattle.shared.specs.Workers.{IsWorkerOf};

use crate::brief::BriefLock;
use crate::disk::Disk;
use crate::signal::Signal;
use crate::worker::Worker;
use blockdev::BlockDevice;
use deeds::sides;
use errboard::Board;
use held::log::Seat;
use held::naming::Naming;
use held::state::{Held, Opened};
use pc_types::{Geometry, Refusal};
use ring::Ring;
use std::alloc::Global;
use std::sync::atomic::AtomicU64;
use std::sync::{Condvar, Mutex, Wait};
use trail::Trail;

/// What a cache is made of: its state and its board, its own seat at the state, the ring of jobs with the seat's pass of it, the
/// device, and the deeds of its blocks.
#[derive(Drop)]
pub struct Parts<D: BlockDevice, T: Trail> {
    pub name: u64,
    pub geometry: Geometry,
    pub held: Opened<T>,
    pub board: Board,
    pub ring: Ring,
    pub own: Worker,
    pub device: D,
    pub deeds: sides::Opened,
}

/// A cache that threads share.
#[derive(Drop)]
pub struct SharedCache<B: Naming, D: BlockDevice, T: Trail> {
    pub(crate) name: u64,
    pub(crate) geometry: Geometry,
    pub(crate) board: Board,
    pub(crate) state: BriefLock<Held<B, T>>,
    // a request has ended
    pub(crate) changed: Condvar,
    pub(crate) disk: Mutex<Disk<B, D>>,
    pub(crate) alloc: Global,
    // jobs that a worker is to carry out
    pub(crate) ring: Ring,
    // there may be work for a flusher or an evictor
    pub(crate) work: Signal,
    // the ring may have a job, or the last flusher have left
    pub(crate) jobs: Signal,
    // who may still put a job into the ring: the loops of flushers that have not ended
    pub(crate) flushers: AtomicU64,
    ghost named: { name ≡ B.name },
    ghost sized: { geometry ≡ B.sizes },
    ghost boarded: { board ≡ B.board },
}

impl<B: Naming, D: BlockDevice, T: Trail> SharedCache<B, D, T> {
    /// The cache of these parts, and its own worker, which makes the others and closes the cache. Threads share the cache, and one
    /// keeps the worker. The cache's state was made before, so that a caller could pick B.
    pub fn of(alloc: Global, parts: Parts<D, T>) -> (SharedCache<B, D, T>, Worker)
        requires named { parts.name ≡ B.name }
        requires sized { parts.geometry ≡ B.sizes }
        requires board { parts.board ≡ B.board }
        requires state { IsLocked B.name B.table B.board B.sizes B.seats B.whole parts.held }
        requires idle { map.len parts.held.core.state.requests ≡ 0 }
        requires fresh { (parts.held.log.history ≡ []) × (parts.held.core.state ≡ adopted B.sizes B.name B.files) }
        requires files { IsCatalog B.sizes B.files }
        requires own { IsWorkerOf parts.ring B.name B.table B.deeds B.sizes parts.own }
        requires device { IsDisk B.sizes (D.told parts.device) }
        requires deeds { (parts.deeds.table ≡ B.deeds) × (parts.deeds.told ≡ B.told) × (parts.deeds.blocks ≡ B.blocks) }
        requires blocks { AreBlocksOf B.told B.blocks (D.told parts.device) }
        requires calls { (D.told parts.device).calls ≡ B.calls }
        ensures named { result.0.name ≡ parts.name }
        ensures ring { result.0.ring ≡ parts.ring }
        ensures own { IsWorkerOf result.0.ring B.name B.table B.deeds B.sizes result.1 }
        ensures untouched { result.1 ≡ parts.own }
    {
        let Parts {
            name,
            geometry,
            held,
            board,
            ring,
            own,
            device,
            deeds,
        } = parts;
        // Lend that a page has bytes, that the blocks that are told are of the device's size, and that its calls are counted.
        let _ = (geometry.page(), device.blocks(), device.calls());
        let (desk, side) = deeds.named();
        let state = Held::of(held, desk);
        let disk = Disk::of(device, side);
        let cache = SharedCache {
            name,
            geometry,
            board,
            state: BriefLock::new(state),
            changed: Condvar::new(),
            disk: Mutex::new(disk),
            alloc,
            ring,
            work: Signal::new(),
            jobs: Signal::new(),
            flushers: AtomicU64::new(0),
        };
        (cache, own)
    }

    /// A page may have become dirty, or a frame have been taken: flushers and evictors who sleep look again.
    pub(crate) fn made_work<R: Wait>(&self, rt: &R) {
        self.work.give(rt);
    }

    /// A request has ended: those who wait for that go on, and flushers and evictors who sleep look again.
    pub(crate) fn has_ended<R: Wait>(&self, rt: &R) {
        self.changed.notify_all();
        self.work.give(rt);
    }
}
