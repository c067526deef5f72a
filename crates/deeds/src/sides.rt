//! The state's side and the device's side, for the two locks, and what goes between them.

ghost use Rattle.std.specs.Prelude.{◌≡◌, ◌<◌, ℕ, ◌+◌, Bool, List, map, length, slice_get, slice_set, is_some, IfOk, Some};
ghost use Rattle.std.specs.Arc.{arc_value};
ghost use Rattle.blockdev.specs.Watching.{Makes};
ghost use Rattle.deeds.specs.Comes.{Comes};
ghost use Rattle.deeds.specs.Rules.{Knows, NoneOut};
ghost use Rattle.deeds.specs.Shown.{AreTold, Settles, bytes_of, calls_of, uncalled};
ghost use Rattle.deeds.specs.Steps.{IsAt, Stays, IsDevice, IsUndone, IsCarried};
ghost use Rattle.deeds.specs.Views.{device_in, given_in, home_in};
ghost use Rattle.deeds.specs.declared.views.Block.{Block};
ghost use Rattle.deeds.specs.declared.views.Place.TheVariants.{Home, Out};

use crate::naming::NamesDeeds;
use crate::steps::{Owned, carry, close, give, open, take_back, take_undone};
use crate::views::{Deeds, Pass};
use blockdev::{BlockDevice, Finished, Job, Watched};
use std::alloc::{AllocError, Global};
use std::marker::{Model, PhantomData};
use std::sync::Arc;

/// Both sides, before a type names them. All deeds are at home.
#[derive(Drop)]
pub struct Opened {
    table: Arc<Owned, Global>,
    again: Arc<Owned, Global>,
    device: Pass,
    desk: Pass,
}

impl Model for Opened {
    ghost use Rattle.std.specs.Prelude.{◌≡◌, map};
    ghost use Rattle.std.specs.Arc.{arc_value};
    ghost use Rattle.deeds.specs.Shown.{OpenedSeen, bytes_of, uncalled};
    ghost use Rattle.deeds.specs.Steps.{IsAt, IsDevice, IsDesk};
    ghost use Rattle.deeds.specs.Views.{device_in};
    ghost use Rattle.deeds.specs.declared.views.Place.TheVariants.{Home};
    ghost use Rattle.std.specs.Coded.{codes};
    ghost use Rattle.atomic_table.specs.Seated.{table_id_coded};

    ghost Value = { OpenedSeen };

    ghost coded = { Prim.hlevel (codes, table_id_coded) };

    ghost view = { λ o. record { table = o.device.table_id; told = (device_in o.device.me.0).0; blocks = bytes_of (device_in o.device.me.0).1 } };

    ghost invariant = { λ o.
        ((arc_value o.table).shared.table_id ≡ o.device.table_id) × ((arc_value o.again).shared.table_id ≡ o.device.table_id)
        × IsAt o.device.table_id o.desk
        × IsDevice o.device.me (device_in o.device.me.0).0 (map uncalled (bytes_of (device_in o.device.me.0).1))
        × IsDesk o.desk.me (device_in o.device.me.0).0 (map Home (map uncalled (bytes_of (device_in o.device.me.0).1))) };
}

/// Both sides while the deed of one block is lent. Contracts see what they see before and after.
#[derive(Drop)]
pub struct Lent {
    table: Arc<Owned, Global>,
    again: Arc<Owned, Global>,
    device: Pass,
    desk: Pass,
}

impl Model for Lent {
    ghost use Rattle.std.specs.Prelude.{◌≡◌, map};
    ghost use Rattle.std.specs.Arc.{arc_value};
    ghost use Rattle.deeds.specs.Shown.{OpenedSeen, OneOut, bytes_of, uncalled};
    ghost use Rattle.deeds.specs.Steps.{IsAt, IsDevice, IsDesk};
    ghost use Rattle.deeds.specs.Views.{device_in, desk_in};
    ghost use Rattle.std.specs.Coded.{codes};
    ghost use Rattle.atomic_table.specs.Seated.{table_id_coded};

    ghost Value = { OpenedSeen };

    ghost coded = { Prim.hlevel (codes, table_id_coded) };

    ghost view = { λ o. record { table = o.device.table_id; told = (device_in o.device.me.0).0; blocks = bytes_of (device_in o.device.me.0).1 } };

    ghost invariant = { λ o.
        ((arc_value o.table).shared.table_id ≡ o.device.table_id) × ((arc_value o.again).shared.table_id ≡ o.device.table_id)
        × IsAt o.device.table_id o.desk
        × IsDevice o.device.me (device_in o.device.me.0).0 (map uncalled (bytes_of (device_in o.device.me.0).1))
        × IsDesk o.desk.me (device_in o.device.me.0).0 (desk_in o.desk.me.0).1
        × OneOut (map uncalled (bytes_of (device_in o.device.me.0).1)) (desk_in o.desk.me.0).1 };
}

/// The state's side: where the deed of each block is. It knows what the device has of each block whose deed is at home.
#[derive(Drop)]
pub struct Desk<B: NamesDeeds> {
    table: Arc<Owned, Global>,
    pass: Pass,
    of: PhantomData<B>,
}

impl<B: NamesDeeds> Model for Desk<B> {
    ghost use Rattle.std.specs.Prelude.{◌≡◌, List};
    ghost use Rattle.std.specs.Arc.{arc_value};
    ghost use Rattle.deeds.specs.Steps.{IsAt, IsDesk};
    ghost use Rattle.deeds.specs.Views.{desk_in};
    ghost use Rattle.deeds.specs.declared.views.Place.{Place};

    ghost Value = { List Place };

    ghost view = { λ d. (desk_in d.pass.me.0).1 };

    ghost invariant = { λ d. ((arc_value d.table).shared.table_id ≡ B.deeds) × IsAt B.deeds d.pass × IsDesk d.pass.me B.told (desk_in d.pass.me.0).1 };
}

/// The device's side: what it has of each block.
#[derive(Drop)]
pub struct DeviceSide<B: NamesDeeds> {
    table: Arc<Owned, Global>,
    pass: Pass,
    of: PhantomData<B>,
}

impl<B: NamesDeeds> Model for DeviceSide<B> {
    ghost use Rattle.std.specs.Prelude.{◌≡◌, List};
    ghost use Rattle.std.specs.Arc.{arc_value};
    ghost use Rattle.deeds.specs.Steps.{IsAt, IsDevice};
    ghost use Rattle.deeds.specs.Views.{device_in};
    ghost use Rattle.deeds.specs.declared.views.Block.{Block};

    ghost Value = { List Block };

    ghost view = { λ d. (device_in d.pass.me.0).1 };

    ghost invariant = { λ d. ((arc_value d.table).shared.table_id ≡ B.deeds) × IsAt B.deeds d.pass × IsDevice d.pass.me B.told (device_in d.pass.me.0).1 };
}

/// A job with the deed of its block. Contracts see the job.
///
/// One that is dropped leaves its block's deed out for good.
#[derive(Drop)]
pub struct Errand<B: NamesDeeds> {
    job: Job,
    deed: Pass,
    of: PhantomData<B>,
}

impl<B: NamesDeeds> Model for Errand<B> {
    ghost use Rattle.std.specs.Prelude.{◌≡◌};
    ghost use Rattle.blockdev.specs.Jobs.{Task};
    ghost use Rattle.deeds.specs.Steps.{IsAt, IsUndone};
    ghost use Rattle.deeds.specs.Views.{given_in};

    ghost Value = { Task };

    ghost view = { λ e. e.job };

    ghost invariant = { λ e. IsAt B.deeds e.deed × IsUndone e.deed.me (given_in e.deed.me.0) × ((given_in e.deed.me.0).task ≡ e.job) };
}

/// A job with the deed of its block, before a type names the deeds. Contracts see the job, and the table behind the deed.
#[derive(Drop)]
pub struct Parcel {
    job: Job,
    deed: Pass,
}

impl Model for Parcel {
    ghost use Rattle.std.specs.Prelude.{◌≡◌};
    ghost use Rattle.deeds.specs.Shown.{ParcelSeen};
    ghost use Rattle.deeds.specs.Steps.{IsAt, IsUndone};
    ghost use Rattle.deeds.specs.Views.{given_in};
    ghost use Rattle.std.specs.Coded.{codes};
    ghost use Rattle.atomic_table.specs.Seated.{table_id_coded};

    ghost Value = { ParcelSeen };

    ghost coded = { Prim.hlevel (codes, table_id_coded) };

    ghost view = { λ p. record { task = p.job; table = p.deed.table_id } };

    ghost invariant = { λ p. IsAt p.deed.table_id p.deed × IsUndone p.deed.me (given_in p.deed.me.0) × ((given_in p.deed.me.0).task ≡ p.job) };
}

/// An errand whose device call was made, with the deed of its block. Contracts see the finished job.
#[derive(Drop)]
pub struct Report<B: NamesDeeds> {
    finished: Finished,
    deed: Pass,
    of: PhantomData<B>,
}

impl<B: NamesDeeds> Model for Report<B> {
    ghost use Rattle.std.specs.Prelude.{◌≡◌};
    ghost use Rattle.blockdev.specs.Jobs.{FinishedTask};
    ghost use Rattle.deeds.specs.Steps.{IsAt, IsCarried};
    ghost use Rattle.deeds.specs.Views.{given_in, done_in};

    ghost Value = { FinishedTask };

    ghost view = { λ r. r.finished };

    ghost invariant = { λ r. IsAt B.deeds r.deed × IsCarried r.deed.me (given_in r.deed.me.0) (done_in r.deed.me.0) × ((done_in r.deed.me.0).finished ≡ r.finished) };
}

/// The deed of a report without its finished job, for those who take these apart. Contracts see the finished job still.
#[derive(Drop)]
pub struct Stub<B: NamesDeeds> {
    deed: Pass,
    of: PhantomData<B>,
}

impl<B: NamesDeeds> Model for Stub<B> {
    ghost use Rattle.std.specs.Prelude.{◌≡◌};
    ghost use Rattle.blockdev.specs.Jobs.{FinishedTask};
    ghost use Rattle.deeds.specs.Steps.{IsAt, IsCarried};
    ghost use Rattle.deeds.specs.Views.{given_in, done_in};

    ghost Value = { FinishedTask };

    ghost view = { λ s. (done_in s.deed.me.0).finished };

    ghost invariant = { λ s. IsAt B.deeds s.deed × IsCarried s.deed.me (given_in s.deed.me.0) (done_in s.deed.me.0) };
}

impl Opened {
    /// `found` is whether the device tells its contents, and the bytes of its blocks.
    pub fn new(alloc: Global) -> Result<Opened, AllocError>
        ghost found: { Bool × List (List ℕ) }
        ensures { IfOk result (λ o. (o.told ≡ found.0) × (o.blocks ≡ found.1)) }
    {
        let (owned, device, desk) = open(alloc)?;
        let Ok(table) = Arc::new(alloc, owned) else {
            return Err(AllocError);
        };
        let again = Arc::try_clone(&table)?;
        Ok(Opened {
            table,
            again,
            device,
            desk,
        })
    }

    /// Over a device as it is. Where it does not tell its contents, no bytes are known, and the deeds only say in whose hand each block is.
    pub fn over<D: BlockDevice>(alloc: Global, device: &D) -> Result<Opened, AllocError>
        ensures told { IfOk result (λ o. o.told ≡ is_some (D.told device.now).contents) }
        ensures contents { IfOk result (λ o. AreTold o.told (D.told device.now) o.blocks) }
        ensures count { IfOk result (λ o. length o.blocks ≡ (D.told device.now).count) }
    {
        // `blocks` says that the contents that are told are as many blocks.
        let count = device.blocks();
        Opened::found(alloc, device, count)
    }

    // The device and the count are there for the proof to name what was found.
    fn found<D: BlockDevice>(alloc: Global, device: &D, count: u64) -> Result<Opened, AllocError>
        ghost found: { Bool × List (List ℕ) }
        ensures { IfOk result (λ o. (o.told ≡ found.0) × (o.blocks ≡ found.1)) }
    {
        Opened::new(alloc)
    }

    /// Lends the deed of a block, for what wants a parcel before there is a name.
    pub fn lend(self, job: Job) -> (Lent, Parcel)
        requires { job.block < length self.blocks }
        ensures sides { result.0 ≡ self }
        ensures parcel { result.1 ≡ record { task = job; table = self.table } }
    {
        let Opened {
            table,
            again,
            device,
            mut desk,
        } = self;
        let deed = give(&table.shared, &mut desk, &job);
        let lent = Lent {
            table,
            again,
            device,
            desk,
        };
        (lent, Parcel { job, deed })
    }

    /// Both sides under their name.
    pub fn named<B: NamesDeeds>(self) -> (Desk<B>, DeviceSide<B>)
        requires { (self.table ≡ B.deeds) × (self.told ≡ B.told) }
        ensures desk { result.0 ≡ map Home (map uncalled self.blocks) }
        ensures device { result.1 ≡ map uncalled self.blocks }
    {
        let Opened {
            table,
            again,
            device,
            desk,
        } = self;
        let desk = Desk {
            table,
            pass: desk,
            of: PhantomData,
        };
        let device = DeviceSide {
            table: again,
            pass: device,
            of: PhantomData,
        };
        (desk, device)
    }
}

impl Lent {
    /// Takes the lent deed back. No call was made, so all is as it was.
    pub fn restore(self, parcel: Parcel) -> Opened
        requires { parcel.table ≡ self.table }
        ensures { result ≡ self }
    {
        let Lent {
            table,
            again,
            device,
            mut desk,
        } = self;
        take_undone(&table.shared, &mut desk, parcel.deed);
        Opened {
            table,
            again,
            device,
            desk,
        }
    }
}

impl Parcel {
    pub fn job(&self) -> &Job
        ensures { result.now ≡ self.now.task }
    {
        &self.job
    }

    /// The errand, under the name of its deeds.
    pub fn named<B: NamesDeeds>(self) -> Errand<B>
        requires { self.table ≡ B.deeds }
        ensures { result ≡ self.task }
    {
        let Parcel { job, deed } = self;
        Errand {
            job,
            deed,
            of: PhantomData,
        }
    }
}

impl<B: NamesDeeds> Desk<B> {
    /// Gives the deed of the job's block, which is at home.
    pub fn give(&mut self, job: Job) -> Errand<B>
        requires home { slice_get self.old job.block ≡ Some (Home (home_in self.old job.block)) }
        ensures errand { result ≡ job }
        ensures desk { self.new ≡ slice_set self.old job.block (Out record { task = job; before = home_in self.old job.block }) }
    {
        let Desk { table, pass, .. } = self;
        let deed = give(&table.shared, pass, &job);
        Errand {
            job,
            deed,
            of: PhantomData,
        }
    }

    /// Takes the deed back. The desk has what it was given for, and what came of its call may come of that.
    pub fn take_back(&mut self, stub: Stub<B>)
        ensures settled { Settles B.told self.old stub self.new }
    {
        let Desk { table, pass, .. } = self;
        take_back(&table.shared, pass, stub.deed);
    }

    /// Compares the sides: of each block whose deed is at home the device has what the desk knows, and of each whose deed is out what it had
    /// when that was given, or what the deed's call may have left.
    pub fn close(self, device: DeviceSide<B>)
        ensures knows { Knows B.told device self }
        ensures whole { NoneOut self → self ≡ map Home device }
    {
        let Desk { table, pass, .. } = self;
        close(&table.shared, pass, device.pass);
    }
}

impl<B: NamesDeeds> Errand<B> {
    pub fn job(&self) -> &Job
        ensures { result.now ≡ self.now }
    {
        &self.job
    }

    /// The parcel, for where no type names the deeds.
    pub fn unnamed(self) -> Parcel
        ensures { result ≡ record { task = self; table = B.deeds } }
    {
        let Errand { job, deed, .. } = self;
        Parcel { job, deed }
    }
}

impl<B: NamesDeeds> Report<B> {
    pub fn finished(&self) -> &Finished
        ensures { result.now ≡ self.now }
    {
        &self.finished
    }

    /// The finished job, and apart from it the deed that the desk takes back.
    pub fn parts(self) -> (Finished, Stub<B>)
        ensures finished { result.0 ≡ self }
        ensures stub { result.1 ≡ self }
    {
        let Report { finished, deed, of } = self;
        (finished, Stub { deed, of })
    }
}

impl<B: NamesDeeds> DeviceSide<B> {
    /// Makes the device call of the errand.
    pub fn carry_out<D: BlockDevice>(
        &mut self,
        device: &mut Watched<D>,
        errand: Errand<B>,
    ) -> Report<B>
        requires exists { errand.block < device.old.device.count }
        requires size { length errand.bytes ≡ device.old.device.size }
        requires contents { AreTold B.told device.old.device (bytes_of self.old) }
        ensures made { Makes device.old errand result device.new }
        ensures contents { AreTold B.told device.new.device (bytes_of self.new) }
        ensures calls { calls_of self.new ≡ calls_of self.old + 1 }
    {
        let Errand { job, deed, .. } = errand;
        let finished = device.perform(job);
        let DeviceSide { table, pass, .. } = self;
        let deed = note(&table.shared, pass, deed, &finished, device);
        Report {
            finished,
            deed,
            of: PhantomData,
        }
    }
}

// As `carry`. The device is there for the proof to name what the call left of the block.
fn note<D: BlockDevice>(
    table: &Deeds,
    side: &mut Pass,
    deed: Pass,
    finished: &Finished,
    device: &Watched<D>,
) -> Pass
    ghost left: { Block }
    requires at { IsAt table.now.table_id side.old × IsAt table.now.table_id deed }
    requires side { IsDevice side.old.me (device_in side.old.me.0).0 (device_in side.old.me.0).1 }
    requires deed { IsUndone deed.me (given_in deed.me.0) }
    requires comes { slice_get (device_in side.old.me.0).1 (given_in deed.me.0).task.block ≡ Some (given_in deed.me.0).before → Comes (device_in side.old.me.0).0 (given_in deed.me.0).task (given_in deed.me.0).before finished.now left }
    ensures at { Stays side.old side.new × IsAt table.now.table_id result }
    ensures agreed { slice_get (device_in side.old.me.0).1 (given_in deed.me.0).task.block ≡ Some (given_in deed.me.0).before }
    ensures side { IsDevice side.new.me (device_in side.old.me.0).0 (slice_set (device_in side.old.me.0).1 (given_in deed.me.0).task.block left) }
    ensures deed { IsCarried result.me (given_in deed.me.0) record { finished = finished.now; left = left } }
{
    carry(table, side, deed, finished)
}
