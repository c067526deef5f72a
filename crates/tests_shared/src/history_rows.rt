//! Rows whose history is looked at once the cache is closed.

ghost use Rattle.std.specs.Prelude.{◌≡◌, All, IfSome};
ghost use Rattle.shared.specs.Workers.{IsWorkerOf};

use crate::rows::{Tested, opens, two_of, with_two};
use blockdev::BlockDevice;
use cursor::Seek;
use held::denied::Denied;
use held::log::{Seat, Slip, confirm};
use held::naming::Naming;
use pc_types::Refusal;
use shared::worker::Worker;
use std::alloc::Global;
use std::mem::drop;
use std::sync::Wait;
use trail::{FullTrail, replay_plain};

/// What is played before the close.
#[derive(Clone, Copy)]
pub(crate) enum Story {
    /// A trail with room for two entries, which are made.
    OfTwo,
    /// One with room for four entries and one byte.
    OfFour,
    /// One seat writes, and another sees that and reads.
    OfTwoSeats,
}

impl Story {
    pub(crate) fn trail(self, alloc: Global) -> Result<FullTrail, Refusal> {
        match self {
            Story::OfTwo => FullTrail::new(alloc, 2, 0),
            Story::OfFour => FullTrail::new(alloc, 4, 1),
            Story::OfTwoSeats => FullTrail::new(alloc, 8, 8),
        }
    }

    /// How many entries the trail has, and the places of the two slips.
    fn ending(self) -> (u64, u64, u64) {
        match self {
            Story::OfTwo => (2, 0, 1),
            Story::OfFour => (4, 0, 3),
            Story::OfTwoSeats => (5, 3, 4),
        }
    }
}

/// Plays the story by two seats, closes the cache, and looks at its history. Each part is dropped by a call, since the check is slow
/// where a cache goes out of scope.
pub(crate) fn leaves_a_history<B: Naming, D: BlockDevice, R: Wait>(
    rt: &R,
    alloc: Global,
    cache: Tested<B, D>,
    own: Worker,
    seats: Vec<Seat>,
    story: Story,
) -> bool
    requires own { IsWorkerOf cache.ring B.name B.table B.deeds B.sizes own }
    requires seats { All (λ s. s.table ≡ B.table) seats.items }
{
    let Some((seats, slips)) = by_two(rt, &cache, seats, story) else {
        drop(cache);
        drop(own);
        return false;
    };
    match cache.close(rt, own, seats) {
        Ok((trail, core, device)) => {
            drop(core);
            drop(device);
            let is_so = is_in(alloc, &trail, slips, story);
            drop(trail);
            is_so
        }
        Err((_, cache, own, seats)) => {
            drop(cache);
            drop(own);
            drop(seats);
            false
        }
    }
}

/// Plays the story by two of the seats. Gives all seats back, and two slips of the story.
fn by_two<B: Naming, D: BlockDevice, R: Wait>(
    rt: &R,
    cache: &Tested<B, D>,
    mut seats: Vec<Seat>,
    story: Story,
) -> Option<(Vec<Seat>, (Slip, Slip))>
    requires { All (λ s. s.table ≡ B.table) seats.items }
    ensures { IfSome result (λ r. All (λ s. s.table ≡ B.table) r.0.items) }
{
    let (mut first, mut second) = two_of::<B>(&mut seats)?;
    let slips = plays(rt, cache, &mut first, &mut second, story)?;
    let seats = with_two::<B>(seats, first, second)?;
    Some((seats, slips))
}

/// Whether the slips stand in the trail as the story says, and it replays.
fn is_in(alloc: Global, trail: &FullTrail, slips: (Slip, Slip), story: Story) -> bool {
    let (Ok(first), Ok(second)) = (confirm(trail, slips.0), confirm(trail, slips.1)) else {
        return false;
    };
    let replays = matches!(replay_plain(alloc, trail), Ok(Some(_)));
    replays && (trail.len(), first, second) == story.ending()
}

/// Plays the story. Answers two of its slips, if all went as it says.
fn plays<B: Naming, D: BlockDevice, R: Wait>(
    rt: &R,
    cache: &Tested<B, D>,
    first: &mut Seat,
    second: &mut Seat,
    story: Story,
) -> Option<(Slip, Slip)>
    requires first { first.old.table ≡ B.table }
    requires second { second.old.table ≡ B.table }
    ensures first { first.new.table ≡ first.old.table }
    ensures second { second.new.table ≡ second.old.table }
{
    match story {
        Story::OfTwo => of_two(rt, cache, first),
        Story::OfFour => of_four(rt, cache, first),
        Story::OfTwoSeats => of_two_seats(rt, cache, first, second),
    }
}

/// A file is made and opened, and a read finds the trail full.
fn of_two<B: Naming, D: BlockDevice, R: Wait>(
    rt: &R,
    cache: &Tested<B, D>,
    seat: &mut Seat,
) -> Option<(Slip, Slip)>
    requires { seat.old.table ≡ B.table }
    ensures { seat.new.table ≡ seat.old.table }
{
    let (file, created) = cache.create(rt, seat).ok()?;
    let (handle, opened) = cache.open(rt, seat, file, false).ok()?;
    let mut out = [9];
    let read = cache.pread(rt, seat, &handle, 0, &mut out);
    let is_refused = matches!(
        read,
        Err(Denied {
            refusal: Refusal::TrailFull,
            slip: None
        })
    );
    (is_refused && out == [9]).then_some((created, opened))
}

/// A byte is written, and no byte read: the trail is full then.
fn of_four<B: Naming, D: BlockDevice, R: Wait>(
    rt: &R,
    cache: &Tested<B, D>,
    seat: &mut Seat,
) -> Option<(Slip, Slip)>
    requires { seat.old.table ≡ B.table }
    ensures { seat.new.table ≡ seat.old.table }
{
    let (file, created) = cache.create(rt, seat).ok()?;
    let (mut handle, _) = cache.open(rt, seat, file, false).ok()?;
    cache.pwrite(rt, seat, &handle, 0, b"\xaa").ok()?;
    let one = cache.pread(rt, seat, &handle, 0, &mut [0; 1]);
    let (count, last) = cache.pread(rt, seat, &handle, 0, &mut []).ok()?;
    let end = cache.seek(rt, seat, &mut handle, Seek::End(0));
    let are_refused = matches!(one, Err(refused) if is_by_a_full_trail(&refused))
        && matches!(end, Err(refused) if is_by_a_full_trail(&refused));
    (are_refused && count == 0).then_some((created, last))
}

fn is_by_a_full_trail(denied: &Denied) -> bool {
    denied.refusal == Refusal::TrailFull && denied.slip.is_none()
}

/// A seat writes a byte, and the other, which sees the slip of that, reads it by a handle of its own.
fn of_two_seats<B: Naming, D: BlockDevice, R: Wait>(
    rt: &R,
    cache: &Tested<B, D>,
    first: &mut Seat,
    second: &mut Seat,
) -> Option<(Slip, Slip)>
    requires first { first.old.table ≡ B.table }
    requires second { second.old.table ≡ B.table }
    ensures first { first.new.table ≡ first.old.table }
    ensures second { second.new.table ≡ second.old.table }
{
    let mine = opens(rt, cache, first)?;
    let (other, _) = cache.open(rt, second, mine.file(), false).ok()?;
    let (_, wrote) = cache.pwrite(rt, first, &mine, 0, b"\xaa").ok()?;
    second.see(&wrote).ok()?;
    let mut out = [9];
    let (_, read) = cache.pread(rt, second, &other, 0, &mut out).ok()?;
    (out == [0xaa]).then_some((wrote, read))
}
