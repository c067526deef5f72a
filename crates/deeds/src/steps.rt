//! The steps, at a table and its passes. Each is one to three loads of a word that never changes.
ghost use Rattle.std.specs.Prelude.{◌≡◌, Bool, false, List, [], map, slice_get, slice_set, IfOk, Some};
ghost use Rattle.deeds.specs.Comes.{Comes};
ghost use Rattle.deeds.specs.Rules.{Knows, NoneOut};
ghost use Rattle.deeds.specs.Steps.{IsAt, Stays, IsDevice, IsDesk, IsUndone, IsCarried, IsBoth, IsDeviceWith, IsDeskWith};
ghost use Rattle.deeds.specs.Views.{device_in, desk_in, given_in, done_in, home_in, undone, carried};
ghost use Rattle.deeds.specs.declared.views.Block.{Block};
ghost use Rattle.deeds.specs.declared.views.Place.TheVariants.{Home, Out};

use crate::views::{
    Carries, Compares, Deeds, Gives, InOneHand, NamesDevice, NamesDone, NamesGiven, Opens,
    PartsDeed, PartsDevice, Pass, TakesBack, TakesIn, View,
};
use atomic_table::Table;
use blockdev::{Finished, Job};
use std::alloc::{AllocError, Global};
use std::marker::Brand;

pub(crate) type Owned = Table<u8, View, (), InOneHand, Global>;

/// The table, the device's side, and the desk, where all deeds are at home. `found` is whether the device tells its contents, and its
/// blocks.
pub(crate) fn open(alloc: Global) -> Result<(Owned, Pass, Pass), AllocError>
    ghost found: { Bool × List Block }
    ensures at { IfOk result (λ r. IsAt r.0.shared.table_id r.1 × IsAt r.0.shared.table_id r.2) }
    ensures device { IfOk result (λ r. IsDevice r.1.me found.0 found.1) }
    ensures desk { IfOk result (λ r. IsDesk r.2.me found.0 (map Home found.1)) }
{
    let (table, mut desk) = Table::<u8, View, (), InOneHand, Global>::of_words(alloc, &[0], &())?;
    let device = learn::<Brand>(&table.shared, &mut desk);
    Ok((table, device, desk))
}

// The first pass learns the device, and hands out the device's side.
fn learn<N: NamesDevice>(table: &Deeds, desk: &mut Pass) -> Pass
    requires at { IsAt table.now.table_id desk.old }
    requires desk { IsBoth desk.old.me (false, []) (false, []) }
    ensures at { Stays desk.old desk.new × IsAt table.now.table_id result }
    ensures device { IsDevice result.me N.told N.blocks }
    ensures desk { IsDesk desk.new.me N.told (map Home N.blocks) }
{
    table.load::<Opens<N>>(desk, 0);
    table.split_seat::<PartsDevice>(desk)
}

/// Gives the deed of a block that is at home, for a job of that block.
pub(crate) fn give(table: &Deeds, desk: &mut Pass, job: &Job) -> Pass
    requires at { IsAt table.now.table_id desk.old }
    requires desk { IsDesk desk.old.me (desk_in desk.old.me.0).0 (desk_in desk.old.me.0).1 }
    requires home { slice_get (desk_in desk.old.me.0).1 job.now.block ≡ Some (Home (home_in (desk_in desk.old.me.0).1 job.now.block)) }
    ensures at { Stays desk.old desk.new × IsAt table.now.table_id result }
    ensures desk { IsDesk desk.new.me (desk_in desk.old.me.0).0 (slice_set (desk_in desk.old.me.0).1 job.now.block (Out record { task = job.now; before = home_in (desk_in desk.old.me.0).1 job.now.block })) }
    ensures deed { IsUndone result.me record { task = job.now; before = home_in (desk_in desk.old.me.0).1 job.now.block } }
{
    mark_out::<Brand>(table, desk, job);
    table.split_seat::<PartsDeed>(desk)
}

// The desk has the deed in the same pass still.
fn mark_out<N: NamesGiven>(table: &Deeds, desk: &mut Pass, job: &Job)
    requires at { IsAt table.now.table_id desk.old }
    requires desk { IsDesk desk.old.me (desk_in desk.old.me.0).0 (desk_in desk.old.me.0).1 }
    requires task { N.given.task ≡ job.now }
    requires home { slice_get (desk_in desk.old.me.0).1 N.given.task.block ≡ Some (Home N.given.before) }
    ensures at { Stays desk.old desk.new }
    ensures desk { IsDeskWith desk.new.me (desk_in desk.old.me.0).0 (slice_set (desk_in desk.old.me.0).1 N.given.task.block (Out N.given)) (undone N.given) }
{
    table.load::<Gives<N>>(desk, 0);
}

/// Carries the deed out: its device call was made, and `left` is what it left of the block. The device had of the block what it had when
/// the deed was given; who shows what may come of the call may count on that.
pub(crate) fn carry(table: &Deeds, device: &mut Pass, deed: Pass, finished: &Finished) -> Pass
    ghost left: { Block }
    requires at { IsAt table.now.table_id device.old × IsAt table.now.table_id deed }
    requires device { IsDevice device.old.me (device_in device.old.me.0).0 (device_in device.old.me.0).1 }
    requires deed { IsUndone deed.me (given_in deed.me.0) }
    requires comes { slice_get (device_in device.old.me.0).1 (given_in deed.me.0).task.block ≡ Some (given_in deed.me.0).before → Comes (device_in device.old.me.0).0 (given_in deed.me.0).task (given_in deed.me.0).before finished.now left }
    ensures at { Stays device.old device.new × IsAt table.now.table_id result }
    ensures agreed { slice_get (device_in device.old.me.0).1 (given_in deed.me.0).task.block ≡ Some (given_in deed.me.0).before }
    ensures device { IsDevice device.new.me (device_in device.old.me.0).0 (slice_set (device_in device.old.me.0).1 (given_in deed.me.0).task.block left) }
    ensures deed { IsCarried result.me (given_in deed.me.0) record { finished = finished.now; left = left } }
{
    table.join_seat::<TakesIn>(device, deed);
    mark_done::<Brand>(table, device, finished);
    table.split_seat::<PartsDeed>(device)
}

// The device's side has the deed in the same pass.
fn mark_done<N: NamesDone>(table: &Deeds, device: &mut Pass, finished: &Finished)
    requires at { IsAt table.now.table_id device.old }
    requires device { IsDeviceWith device.old.me (device_in device.old.me.0).0 (device_in device.old.me.0).1 (undone (given_in device.old.me.0)) }
    requires finished { N.done.finished ≡ finished.now }
    requires comes { slice_get (device_in device.old.me.0).1 (given_in device.old.me.0).task.block ≡ Some (given_in device.old.me.0).before → Comes (device_in device.old.me.0).0 (given_in device.old.me.0).task (given_in device.old.me.0).before N.done.finished N.done.left }
    ensures at { Stays device.old device.new }
    ensures agreed { slice_get (device_in device.old.me.0).1 (given_in device.old.me.0).task.block ≡ Some (given_in device.old.me.0).before }
    ensures device { IsDeviceWith device.new.me (device_in device.old.me.0).0 (slice_set (device_in device.old.me.0).1 (given_in device.old.me.0).task.block N.done.left) (carried (given_in device.old.me.0) N.done) }
{
    table.load::<Carries<N>>(device, 0);
}

/// Takes back a deed that was carried out. It was out for just what it says, and what came of its call may come of it.
pub(crate) fn take_back(table: &Deeds, desk: &mut Pass, deed: Pass)
    requires at { IsAt table.now.table_id desk.old × IsAt table.now.table_id deed }
    requires desk { IsDesk desk.old.me (desk_in desk.old.me.0).0 (desk_in desk.old.me.0).1 }
    requires deed { IsCarried deed.me (given_in deed.me.0) (done_in deed.me.0) }
    ensures at { Stays desk.old desk.new }
    ensures out { slice_get (desk_in desk.old.me.0).1 (given_in deed.me.0).task.block ≡ Some (Out (given_in deed.me.0)) }
    ensures comes { Comes (desk_in desk.old.me.0).0 (given_in deed.me.0).task (given_in deed.me.0).before (done_in deed.me.0).finished (done_in deed.me.0).left }
    ensures desk { IsDesk desk.new.me (desk_in desk.old.me.0).0 (slice_set (desk_in desk.old.me.0).1 (given_in deed.me.0).task.block (Home (done_in deed.me.0).left)) }
{
    table.join_seat::<TakesIn>(desk, deed);
    table.load::<TakesBack>(desk, 0);
}

/// Takes back a deed whose call was not made. It was out for just what it says, and the device has of its block what it had.
pub(crate) fn take_undone(table: &Deeds, desk: &mut Pass, deed: Pass)
    requires at { IsAt table.now.table_id desk.old × IsAt table.now.table_id deed }
    requires desk { IsDesk desk.old.me (desk_in desk.old.me.0).0 (desk_in desk.old.me.0).1 }
    requires deed { IsUndone deed.me (given_in deed.me.0) }
    ensures at { Stays desk.old desk.new }
    ensures out { slice_get (desk_in desk.old.me.0).1 (given_in deed.me.0).task.block ≡ Some (Out (given_in deed.me.0)) }
    ensures desk { IsDesk desk.new.me (desk_in desk.old.me.0).0 (slice_set (desk_in desk.old.me.0).1 (given_in deed.me.0).task.block (Home (given_in deed.me.0).before)) }
{
    table.join_seat::<TakesIn>(desk, deed);
    table.load::<TakesBack>(desk, 0);
}

/// Compares the desk with the device's side: of each block whose deed is at home the device has what the desk knows, and of each whose deed
/// is out what it had when that was given, or what the deed's call may have left.
pub(crate) fn close(table: &Deeds, mut desk: Pass, device: Pass)
    requires at { IsAt table.now.table_id desk × IsAt table.now.table_id device }
    requires desk { IsDesk desk.me (desk_in desk.me.0).0 (desk_in desk.me.0).1 }
    requires device { IsDevice device.me (device_in device.me.0).0 (device_in device.me.0).1 }
    ensures knows { Knows (device_in device.me.0).0 (device_in device.me.0).1 (desk_in desk.me.0).1 }
    ensures whole { NoneOut (desk_in desk.me.0).1 → (desk_in desk.me.0).1 ≡ map Home (device_in device.me.0).1 }
{
    table.join_seat::<TakesIn>(&mut desk, device);
    table.load::<Compares>(&mut desk, 0);
}
