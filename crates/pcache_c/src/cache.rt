//! Files with their cache, and what C has to do for it.

ghost use Rattle.std.specs.Prelude.{◌≡◌, ◌⊎◌, ℕ, pos, None, Ok, Err, IfErr, IfOk, [], false};
ghost use Rattle.pc_types.specs.declared.refusal.Refusal.TheVariants.{BadConfig, BadHandle, Memory};
ghost use Rattle.world.specs.Stepping.{adopted_world};
ghost use Rattle.relay.specs.Device.{told_relay};
ghost use Rattle.desk.specs.Seen.{DeskSeen, handle_at};
ghost use Rattle.pcache_c.specs.Answers.{bad_handle};
ghost use Rattle.pcache_c.specs.Stores.{told_of};

use crate::answers::{WAITS, answer, io_code};
use crate::store::Store;
use blockdev::MemDevice;
use catalog::Catalog;
use desk::{Desk, HandleNo};
use filesvc::Solo;
use pc_types::{ErrCode, Geometry, Refusal};
use relay::{AGAIN, Queue, RelayDevice, Task};
use std::alloc::Global;
use std::cell::RefCell;
use std::marker::Model;
use std::rc::Rc;

/// The files of a device, and the queue at the device's other end where C makes its calls.
#[derive(Drop)]
pub struct Cache {
    pub(crate) desk: Desk<Store>,
    queue: Option<Rc<RefCell<Queue>>>,
    is_by_jobs: bool,
    /// How many writes may wait before a call waits for them.
    most: u64,
    /// The code of the last call that answered `Io`.
    code: u16,
}

impl Model for Cache {
    ghost use Rattle.std.specs.Coded.{codes, coded_ℕ};
    ghost use Rattle.std.specs.FinMap as map;
    ghost use Rattle.std.specs.Ordering.{nat_cmp};
    ghost use Rattle.std.specs.Prelude.{ℕ, List};
    ghost use Rattle.atomic_table.specs.Seated.{table_id_coded};
    ghost use Rattle.machine.specs.inside.Codes.{state_code};
    ghost use Rattle.machine.specs.declared.event.Outcome.{Outcome};
    ghost use Rattle.desk.specs.Seen.{DeskSeen};

    ghost Value = { DeskSeen };

    ghost coded = { Prim.hlevel (codes, state_code, table_id_coded, map.code {X = Outcome} {R = nat_cmp} coded_ℕ (Prim.hlevel codes), map.code {X = List ℕ} {R = nat_cmp} coded_ℕ (Prim.hlevel codes)) };

    ghost view = { λ c. c.desk };
}

impl Cache {
    /// No files, over blocks in memory.
    pub fn in_memory(alloc: Global, geometry: &Geometry) -> Result<Cache, Refusal>
        ensures { IfOk result (λ c. c.handles ≡ []) }
    {
        let device = MemDevice::new(alloc, geometry.page(), geometry.blocks())?;
        let catalog = Catalog::new(alloc, geometry);
        Cache::over(alloc, geometry, catalog, Store::Memory(device), None)
    }

    /// The catalog's files, over a device whose calls C makes.
    pub fn by_jobs(alloc: Global, geometry: &Geometry, catalog: Catalog) -> Result<Cache, Refusal>
        ensures world { IfOk result (λ c. c.service.world ≡ adopted_world geometry.now 1 catalog.files (told_relay geometry.now.page geometry.now.blocks)) }
        ensures handles { IfOk result (λ c. c.handles ≡ []) }
        ensures refused { IfErr result (λ r. (r ≡ BadConfig) ⊎ (r ≡ Memory)) }
    {
        let queue = Rc::new(alloc, RefCell::new(Queue::new(alloc)))?;
        let device = RelayDevice::new(queue.clone()?, geometry.page(), geometry.blocks());
        Cache::over(alloc, geometry, catalog, Store::Relay(device), Some(queue))
    }

    fn over(
        alloc: Global,
        geometry: &Geometry,
        catalog: Catalog,
        device: Store,
        queue: Option<Rc<RefCell<Queue>>>,
    ) -> Result<Cache, Refusal>
        ensures world { IfOk result (λ c. c.service.world ≡ adopted_world geometry.now 1 catalog.files (told_of device)) }
        ensures handles { IfOk result (λ c. c.handles ≡ []) }
        ensures refused { IfErr result (λ r. (r ≡ BadConfig) ⊎ (r ≡ Memory)) }
    {
        let solo = match Solo::over(alloc, geometry, 1, catalog, device) {
            Ok(solo) => solo,
            Err((refusal, catalog, device)) => {
                // each by a call, since the check is slow where they go out of scope
                drop(catalog);
                drop(device);
                return Err(refusal);
            }
        };
        Ok(Cache {
            desk: Desk::new(alloc, solo, geometry.page()),
            is_by_jobs: queue.is_some(),
            queue,
            most: geometry.dirty_limit(),
            code: 0,
        })
    }

    /// Whether a call by this handle waits, since so many writes wait for C.
    pub fn must_wait(&self, handle: HandleNo) -> bool
        ensures { handle_at self.now handle.0 ≡ None → result ≡ false }
    {
        self.is_full() && self.desk.is_open(handle)
    }

    /// Whether so many writes wait that a call waits for C to make some.
    fn is_full(&self) -> bool {
        let Some(queue) = &self.queue else {
            return false;
        };
        match queue.try_borrow() {
            Ok(queue) => queue.waiting() >= self.most,
            Err(_) => false,
        }
    }

    /// What a call answers that ended so. The code of a failed device call is noted, and a call that the device could not answer yet waits.
    #[inline(always)]
    pub fn answer(&mut self, done: Result<u64, Refusal>) -> i64
        ensures counted { (n : ℕ) → result ≡ pos n → done ≡ Ok n }
        ensures unknown { done ≡ Err BadHandle → result ≡ bad_handle }
        ensures same { self.new ≡ self.old }
    {
        let code = io_code(&done);
        if code != 0 {
            self.code = code;
        }
        if self.is_by_jobs && code == AGAIN {
            return WAITS;
        }
        answer(done)
    }

    /// The code of the last call that answered `Io`, or 0.
    pub fn code(&self) -> u16 {
        self.code
    }

    /// C's next job. A write's bytes are put into `bytes`.
    pub fn next(&self, bytes: &mut [u8]) -> Result<Option<Task>, Refusal> {
        let Some(queue) = &self.queue else {
            return Ok(None);
        };
        let Ok(queue) = queue.try_borrow() else {
            return Err(Refusal::Busy);
        };
        let task = queue.next();
        if let Some(Task::Write(_)) = task {
            queue.copy_next(bytes)?;
        }
        Ok(task)
    }

    /// Takes in how C's job ended.
    pub fn end(
        &mut self,
        task: Task,
        bytes: &[u8],
        outcome: Result<(), ErrCode>,
    ) -> Result<(), Refusal>
        ensures { self.new ≡ self.old }
    {
        let Some(queue) = &self.queue else {
            return Err(Refusal::Stranger);
        };
        let Ok(mut queue) = queue.try_borrow_mut() else {
            return Err(Refusal::Busy);
        };
        queue.end(task, bytes, outcome)
    }
}
