//! Worked calls over a trail that keeps every entry, to the close of the cache. Two seats take part: the cache's own, and seat 0.

ghost use Rattle.std.specs.Prelude.{◌≡◌, [], All, length, true};
ghost use Rattle.held.specs.Keeps.{IsLocked};
ghost use Rattle.machine.specs.Catalogs.{IsCatalog, adopted};
ghost use Rattle.trail.specs.Honest.{MayBegin};

use crate::checks::check;
use crate::tests::{FILE, HANDLE, opened_deeds, opens, reads, writes};
use cachecore::ReadAnswer;
use deeds::sides::Opened as Deeds;
use held::denied::Denied;
use held::log::{Seat, Slip, confirm};
use held::naming::Naming;
use held::state::{Held, Opened};
use pc_types::{Geometry, Refusal};
use std::alloc::Global;
use std::marker::Brand;
use std::mem::drop;
use std::process::Abort;
use trail::{FullTrail, replay_plain};

/// Closes the cache.
fn closes<B: Naming>(
    rt: &impl Abort,
    held: Held<B, FullTrail>,
    seats: Vec<Seat>,
    own: Seat,
) -> FullTrail
    requires seats { All (λ s. s.table ≡ B.table) seats.items }
    requires own { own.table ≡ B.table }
{
    let closed = held.close(seats, own);
    let Ok((trail, core, desk)) = closed else {
        panic!(rt; "all seats came back");
    };
    drop(core);
    drop(desk);
    trail
}

/// Closes the cache, first without seat 0, then with it.
fn closes_again<B: Naming>(
    rt: &impl Abort,
    held: Held<B, FullTrail>,
    none: Vec<Seat>,
    seat: Seat,
    own: Seat,
) -> FullTrail
    requires none { All (λ s. s.table ≡ B.table) none.items }
    requires seats { (seat.table ≡ B.table) × (own.table ≡ B.table) }
{
    let refused = held.close(none, own);
    let Err((refusal, held, mut seats, own)) = refused else {
        panic!(rt; "a seat is missing");
    };
    check(rt, refusal == Refusal::Stranger);
    match seats.push(seat) {
        Ok(()) => closes(rt, held, seats, own),
        Err(_) => closes(rt, held, seats, own),
    }
}

// A trail of four entries and a byte. A read of no bytes needs no room for any, and the size of a file needs an entry.
fn meets_a_full_trail<B: Naming>(
    rt: &impl Abort,
    held: &mut Held<B, FullTrail>,
    seat: &mut Seat,
) -> (Slip, Slip)
    requires { seat.old.table ≡ B.table }
    ensures { seat.new.table ≡ seat.old.table }
{
    let first = opens(rt, held, seat);
    writes(rt, held, seat);
    check(rt, is_full(&reads(rt, held, seat, HANDLE)));
    let read = held.read(seat, HANDLE, 0, &mut []);
    let (answer, last) = read.expect(rt, "room for no bytes");
    check(rt, answer == ReadAnswer::Bytes(0));
    check(rt, is_full(&held.size(seat, HANDLE)));
    (first, last)
}

/// Whether a call was refused since the trail is full, without an entry.
fn is_full<A>(answer: &Result<A, Denied>) -> bool {
    matches!(
        answer,
        Err(Denied {
            refusal: Refusal::TrailFull,
            slip: None
        })
    )
}

// A slip of another cache, or past the history, is refused.
fn refuses_strangers(rt: &impl Abort, seat: &mut Seat)
    ensures { seat.new.table ≡ seat.old.table }
{
    let foreign = Slip { name: 8, place: 0 };
    check(rt, seat.see(&foreign) == Err(Refusal::Stranger));
    let later = Slip { name: 7, place: 99 };
    check(rt, seat.see(&later) == Err(Refusal::Stranger));
}

// Each seat sees what the other did: the second reads what the first wrote, and the first closes what the second read by.
fn see_each_other<B: Naming>(
    rt: &impl Abort,
    held: &mut Held<B, FullTrail>,
    first: &mut Seat,
    second: &mut Seat,
) -> (Slip, Slip)
    requires { (first.old.table ≡ B.table) × (second.old.table ≡ B.table) }
    ensures { (first.new.table ≡ first.old.table) × (second.new.table ≡ second.old.table) }
{
    opens(rt, held, first);
    refuses_strangers(rt, second);
    let wrote = writes(rt, held, first);
    check(rt, second.see(&wrote).is_ok());
    let read = reads(rt, held, second, HANDLE).expect(rt, "room in the trail");
    check(rt, first.see(&read).is_ok());
    check(rt, held.close_handle(first, HANDLE).is_ok());
    let (handle, pass, _) = held.open(second, FILE).expect(rt, "a handle");
    check(rt, handle == HANDLE);
    held.retire(pass);
    (wrote, read)
}

#[derive(Clone, Copy)]
enum Row {
    Full,
    TwoSeats,
}

fn run<B: Naming>(
    rt: &impl Abort,
    held: &mut Held<B, FullTrail>,
    own: &mut Seat,
    seat: &mut Seat,
    row: Row,
) -> (Slip, Slip)
    requires { (own.old.table ≡ B.table) × (seat.old.table ≡ B.table) }
    ensures { (own.new.table ≡ own.old.table) × (seat.new.table ≡ seat.old.table) }
{
    match row {
        Row::Full => meets_a_full_trail(rt, held, own),
        Row::TwoSeats => see_each_other(rt, held, own, seat),
    }
}

fn by_two_seats<B: Naming>(
    rt: &impl Abort,
    opened: Opened<FullTrail>,
    deeds: Deeds,
    mut seats: Vec<Seat>,
    mut own: Seat,
    row: Row,
) -> (FullTrail, (Slip, Slip))
    requires state { IsLocked B.name B.table B.board B.sizes B.seats B.whole opened }
    requires fresh { (opened.log.history ≡ []) × (opened.core.state ≡ adopted B.sizes B.name B.files) }
    requires files { IsCatalog B.sizes B.files }
    requires named { (deeds.table ≡ B.deeds) × (deeds.told ≡ B.told) × (deeds.blocks ≡ B.blocks) }
    requires count { length B.blocks ≡ B.sizes.blocks }
    requires first { B.told ≡ true → MayBegin B.files B.sizes B.name B.blocks }
    requires seats { All (λ s. s.table ≡ B.table) seats.items }
    requires own { own.table ≡ B.table }
{
    let (desk, side) = deeds.named::<B>();
    drop(side);
    let mut held = Held::<B, FullTrail>::of(opened, desk);
    let Some(mut seat) = seats.pop() else {
        panic!(rt; "seat 0");
    };
    let slips = run(rt, &mut held, &mut own, &mut seat, row);
    (closes_again(rt, held, seats, seat, own), slips)
}

/// Runs a row over a new cache, whose trail has room for so many entries and bytes, and closes it.
fn over_full_trail(
    rt: &impl Abort,
    alloc: Global,
    entries: u64,
    bytes: u64,
    row: Row,
) -> (FullTrail, (Slip, Slip)) {
    let geometry = Geometry::new(16, 48, 16, 64).expect(rt, "sizes");
    let trail = FullTrail::new(alloc, entries, bytes).expect(rt, "a trail");
    let new = Opened::new(alloc, &geometry, 7, trail, 1);
    let Ok((opened, board, seats, own)) = new else {
        panic!(rt; "a cache");
    };
    drop(board);
    let (deeds, device) = opened_deeds(rt, alloc);
    drop(device);
    by_two_seats::<Brand>(rt, opened, deeds, seats, own, row)
}

#[test]
fn a_full_trail_refuses(rt: HostRuntime) {
    let (trail, (first, last)) = over_full_trail(&rt, rt.alloc(), 4, 1, Row::Full);
    check(&rt, trail.len() == 4 && trail.cache() == Some(7));
    check(&rt, confirm(&trail, first) == Ok(0));
    check(&rt, confirm(&trail, last) == Ok(3));
}

#[test]
fn two_seats_see_each_other(rt: HostRuntime) {
    let (trail, (wrote, read)) = over_full_trail(&rt, rt.alloc(), 8, 8, Row::TwoSeats);
    check(&rt, trail.len() == 6);
    check(&rt, confirm(&trail, wrote) == Ok(2));
    check(&rt, confirm(&trail, read) == Ok(3));
    check(&rt, matches!(replay_plain(rt.alloc(), &trail), Ok(Some(_))));
}
