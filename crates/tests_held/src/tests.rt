//! Worked calls on the locked state of a cache of name 7, with 16-byte pages, 48 frames, a dirty limit of 16 and 64 blocks. The rows
//! with a device run over a trail that keeps nothing, by `over_no_trail`, since the check is slow where a cache is dropped.

ghost use Rattle.std.specs.Prelude.{◌≡◌, [], length, true};
ghost use Rattle.blockdev.specs.Blocks.{zero_blocks};
ghost use Rattle.deeds.specs.Shown.{AreTold};
ghost use Rattle.held.specs.Keeps.{IsLocked};
ghost use Rattle.machine.specs.Catalogs.{IsCatalog, adopted};
ghost use Rattle.trail.specs.Honest.{MayBegin};

use crate::checks::check;
use blockdev::{Buffer, FaultEffect, ScriptDevice, Watched};
use cachecore::{CacheCore, Ended, ReadAnswer, TruncateAnswer, WriteAnswer};
use deeds::sides::{DeviceSide, Errand, Opened as Deeds, Report};
use errboard::{Board, Receipt};
use held::denied::Denied;
use held::log::{Seat, Slip};
use held::naming::Naming;
use held::started::{FillStarted, FlushStarted, SyncMoved};
use held::state::{Held, Opened};
use pc_types::limits::LAST_PAGE;
use pc_types::{ErrCode, FileId, Geometry, HandleId, PageIndex, Refusal, SyncId};
use std::alloc::Global;
use std::marker::{Brand, Model};
use std::mem::drop;
use std::process::Abort;
use trail::{NoTrail, Trail};

pub(crate) const FILE: FileId = FileId(0);

pub(crate) const HANDLE: HandleId = HandleId(0);

/// Makes the first file, and opens it.
pub(crate) fn opens<B: Naming, T: Trail>(
    rt: &impl Abort,
    held: &mut Held<B, T>,
    seat: &mut Seat,
) -> Slip
    requires { seat.old.table ≡ B.table }
    ensures { seat.new.table ≡ seat.old.table }
{
    let (file, slip) = held.create(seat).expect(rt, "a file");
    check(rt, file == FILE);
    let (handle, pass, _) = held.open(seat, FILE).expect(rt, "a handle");
    check(rt, handle == HANDLE);
    held.retire(pass);
    slip
}

/// Writes aa at 0.
pub(crate) fn writes<B: Naming, T: Trail>(
    rt: &impl Abort,
    held: &mut Held<B, T>,
    seat: &mut Seat,
) -> Slip
    requires { seat.old.table ≡ B.table }
    ensures { seat.new.table ≡ seat.old.table }
{
    let written = held.write(seat, HANDLE, 0, b"\xaa");
    let (answer, slip) = written.expect(rt, "a write");
    check(rt, answer == WriteAnswer::Wrote { count: 1, end: 1 });
    slip
}

/// Reads aa at 0, by this handle.
pub(crate) fn reads<B: Naming, T: Trail>(
    rt: &impl Abort,
    held: &mut Held<B, T>,
    seat: &mut Seat,
    handle: HandleId,
) -> Result<Slip, Denied>
    requires { seat.old.table ≡ B.table }
    ensures { seat.new.table ≡ seat.old.table }
{
    let mut out = [9];
    let (answer, slip) = held.read(seat, handle, 0, &mut out)?;
    check(rt, answer == ReadAnswer::Bytes(1));
    check(rt, out == [0xaa]);
    Ok(slip)
}

/// A buffer for a page of the cache.
fn buffer<B: Naming, T: Trail>(rt: &impl Abort, alloc: Global, held: &Held<B, T>) -> Buffer
    ensures { length result ≡ B.sizes.page }
{
    zeros(rt, alloc, held.core())
}

fn zeros(rt: &impl Abort, alloc: Global, core: &CacheCore) -> Buffer
    ensures { length result ≡ core.now.state.sizes.page }
{
    Buffer::new(alloc, &core.geometry()).expect(rt, "a buffer")
}

/// A device of 64 blocks of 16 bytes, with its side of the deeds.
#[derive(Drop)]
struct Disk<B: Naming> {
    device: Watched<ScriptDevice>,
    side: DeviceSide<B>,
}

impl<B: Naming> Model for Disk<B> {
    ghost use Rattle.std.specs.Prelude.{◌≡◌};
    ghost use Rattle.blockdev.specs.Watching.{Watch};
    ghost use Rattle.deeds.specs.Shown.{AreTold, bytes_of};

    ghost Value = { Watch };

    ghost view = { λ d. d.device };

    ghost invariant = { λ d. AreTold B.told d.device.device (bytes_of d.side) × (d.device.device.count ≡ 64) × (d.device.device.size ≡ 16) };
}

/// Makes the device call of an errand, which is one for this device. Macros say so, since the call requires it.
fn made<B: Naming>(
    rt: &impl Abort,
    disk: &mut Disk<B>,
    core: &CacheCore,
    errand: Errand<B>,
) -> Report<B>
    ensures { length result.bytes ≡ core.now.state.sizes.page }
{
    let page = core.geometry().page();
    assert!(rt; page == 16);
    assert!(rt; errand.job().block().0 < 64);
    assert!(rt; errand.job().bytes().len() == 16);
    let Disk { device, side } = disk;
    side.carry_out(device, errand)
}

/// Makes the device call of an errand of this cache. Its pages have 16 bytes.
fn carried<B: Naming, T: Trail>(
    rt: &impl Abort,
    disk: &mut Disk<B>,
    held: &Held<B, T>,
    errand: Errand<B>,
) -> Report<B>
    ensures { length result.bytes ≡ B.sizes.page }
{
    made(rt, disk, held.core(), errand)
}

/// Ends a flush. Gives what that answers, and the receipt.
fn ends_flush<B: Naming, T: Trail>(
    rt: &impl Abort,
    held: &mut Held<B, T>,
    seat: &mut Seat,
    report: Report<B>,
) -> (Ended, Option<Receipt>)
    requires seat { seat.old.table ≡ B.table }
    requires size { length report.bytes ≡ B.sizes.page }
    ensures { seat.new.table ≡ seat.old.table }
{
    let (answer, receipt, _) = held.end(seat, report);
    (answer, receipt)
}

/// Writes the file's page to the device.
fn flushes<B: Naming, T: Trail>(
    rt: &impl Abort,
    alloc: Global,
    held: &mut Held<B, T>,
    seat: &mut Seat,
    disk: &mut Disk<B>,
) -> (Ended, Option<Receipt>)
    requires { seat.old.table ≡ B.table }
    ensures { seat.new.table ≡ seat.old.table }
{
    let buffer = buffer(rt, alloc, held);
    let begun = held.flush_begin(seat, FILE, buffer);
    let Ok((FlushStarted::Job(errand), _)) = begun else {
        panic!(rt; "a job");
    };
    let report = carried(rt, disk, held, errand);
    ends_flush(rt, held, seat, report)
}

/// Reads the page from the device.
fn fills<B: Naming, T: Trail>(
    rt: &impl Abort,
    alloc: Global,
    held: &mut Held<B, T>,
    seat: &mut Seat,
    disk: &mut Disk<B>,
) -> Ended
    requires { seat.old.table ≡ B.table }
    ensures { seat.new.table ≡ seat.old.table }
{
    let buffer = buffer(rt, alloc, held);
    let begun = held.fill_begin(seat, HANDLE, PageIndex(0), buffer);
    let Ok((FillStarted::Job(errand), _)) = begun else {
        panic!(rt; "a job");
    };
    let report = carried(rt, disk, held, errand);
    let (answer, receipt, _) = held.end(seat, report);
    check(rt, receipt.is_none());
    answer
}

// A page that was written and evicted is read back from the device.
fn writes_and_fills<B: Naming>(
    rt: &impl Abort,
    alloc: Global,
    held: &mut Held<B, NoTrail>,
    seat: &mut Seat,
    disk: &mut Disk<B>,
)
    requires { seat.old.table ≡ B.table }
{
    opens(rt, held, seat);
    writes(rt, held, seat);
    let (written, none) = flushes(rt, alloc, held, seat, disk);
    check(rt, matches!(written, Ended::Done(_)) && none.is_none());
    check(rt, held.age(seat).is_ok());
    let (evicted, _) = held.evict(seat).expect(rt, "room in the trail");
    check(rt, evicted == Some((FILE, PageIndex(0))));
    let filled = fills(rt, alloc, held, seat, disk);
    check(rt, matches!(filled, Ended::Done(_)));
    check(rt, reads(rt, held, seat, HANDLE).is_ok());
}

// The handle that was open when the write failed is told of it, once.
fn fails_a_flush<B: Naming>(
    rt: &impl Abort,
    alloc: Global,
    held: &mut Held<B, NoTrail>,
    board: &Board,
    seat: &mut Seat,
    disk: &mut Disk<B>,
)
    requires { (seat.old.table ≡ B.table) × (board.now ≡ B.board) }
{
    let mut pass = held.pass(FILE).expect(rt, "a pass");
    opens(rt, held, seat);
    writes(rt, held, seat);
    disk.device.fail_next(ErrCode::IO, FaultEffect::Old);
    let (failed, receipt) = flushes(rt, alloc, held, seat, disk);
    check(
        rt,
        matches!(failed, Ended::Failed(FileId(0), _, _)) && receipt.is_some(),
    );
    check(rt, board.poll(&mut pass) == Some(ErrCode::IO));
    check(rt, board.poll(&mut pass).is_none());
}

fn begins_sync<B: Naming>(rt: &impl Abort, held: &mut Held<B, NoTrail>, seat: &mut Seat) -> SyncId
    requires { seat.old.table ≡ B.table }
    ensures { seat.new.table ≡ seat.old.table }
{
    let (sync, _) = held
        .sync_begin(seat, HANDLE, PageIndex(0), PageIndex(LAST_PAGE))
        .expect(rt, "a sync");
    sync
}

/// Makes a step of the sync.
fn steps<B: Naming>(
    rt: &impl Abort,
    alloc: Global,
    held: &mut Held<B, NoTrail>,
    seat: &mut Seat,
    sync: SyncId,
) -> SyncMoved<B>
    requires { seat.old.table ≡ B.table }
    ensures { seat.new.table ≡ seat.old.table }
{
    let buffer = buffer(rt, alloc, held);
    let (answer, _) = held.sync_step(seat, sync, buffer).expect(rt, "a step");
    answer
}

// One sync goes to its end, and the next is given up.
fn syncs<B: Naming>(
    rt: &impl Abort,
    alloc: Global,
    held: &mut Held<B, NoTrail>,
    seat: &mut Seat,
    disk: &mut Disk<B>,
)
    requires { seat.old.table ≡ B.table }
{
    opens(rt, held, seat);
    writes(rt, held, seat);
    let sync = begins_sync(rt, held, seat);
    let SyncMoved::Job(errand) = steps(rt, alloc, held, seat, sync) else {
        panic!(rt; "a job");
    };
    let report = carried(rt, disk, held, errand);
    let (written, _) = ends_flush(rt, held, seat, report);
    check(rt, matches!(written, Ended::Done(_)));
    let clean = steps(rt, alloc, held, seat, sync);
    check(rt, matches!(clean, SyncMoved::Clean(_)));
    let next = begins_sync(rt, held, seat);
    check(rt, held.sync_drop(seat, next).is_ok());
}

// The calls without a device, over a trail that keeps nothing.
fn cuts<B: Naming>(rt: &impl Abort, held: &mut Held<B, NoTrail>, seat: &mut Seat)
    requires { seat.old.table ≡ B.table }
{
    opens(rt, held, seat);
    writes(rt, held, seat);
    let appended = held.append(seat, HANDLE, b"\xbb");
    let (answer, _) = appended.expect(rt, "an append");
    check(rt, answer == WriteAnswer::Wrote { count: 1, end: 2 });
    let (cut, _) = held.truncate(seat, HANDLE, 1).expect(rt, "a truncation");
    check(rt, cut == TruncateAnswer::Done);
    let (size, _) = held.size(seat, HANDLE).expect(rt, "a size");
    check(rt, size == 1);
    check(rt, reads(rt, held, seat, HANDLE).is_ok());
    let slip = held.close_handle(seat, HANDLE).expect(rt, "a close");
    check(rt, slip.name == 7 && slip.place == 7);
}

// A pass is levelled and taken back.
fn passes<B: Naming>(rt: &impl Abort, held: &mut Held<B, NoTrail>, board: &Board)
    requires { board.now ≡ B.board }
{
    let mut pass = held.pass(FILE).expect(rt, "a pass");
    check(rt, held.pass(FileId(64)).err() == Some(Refusal::NoSuchFile));
    held.level(&mut pass);
    check(rt, board.poll(&mut pass).is_none());
    held.retire(pass);
}

#[derive(Clone, Copy)]
enum Row {
    Passes,
    Cuts,
    WritesAndFills,
    FailsAFlush,
    Syncs,
}

fn run<B: Naming>(
    rt: &impl Abort,
    alloc: Global,
    held: &mut Held<B, NoTrail>,
    board: &Board,
    seat: &mut Seat,
    disk: &mut Disk<B>,
    row: Row,
)
    requires { (seat.old.table ≡ B.table) × (board.now ≡ B.board) }
{
    match row {
        Row::Passes => passes(rt, held, board),
        Row::Cuts => cuts(rt, held, seat),
        Row::WritesAndFills => writes_and_fills(rt, alloc, held, seat, disk),
        Row::FailsAFlush => fails_a_flush(rt, alloc, held, board, seat, disk),
        Row::Syncs => syncs(rt, alloc, held, seat, disk),
    }
}

/// Runs a row over the cache that B names.
fn run_named<B: Naming>(
    rt: &impl Abort,
    alloc: Global,
    opened: Opened<NoTrail>,
    deeds: Deeds,
    device: Watched<ScriptDevice>,
    board: &Board,
    mut own: Seat,
    row: Row,
)
    requires state { IsLocked B.name B.table B.board B.sizes B.seats B.whole opened }
    requires fresh { (opened.log.history ≡ []) × (opened.core.state ≡ adopted B.sizes B.name B.files) }
    requires files { IsCatalog B.sizes B.files }
    requires named { (deeds.table ≡ B.deeds) × (deeds.told ≡ B.told) × (deeds.blocks ≡ B.blocks) }
    requires count { length B.blocks ≡ B.sizes.blocks }
    requires first { B.told ≡ true → MayBegin B.files B.sizes B.name B.blocks }
    requires device { AreTold B.told device.device B.blocks × (device.device.count ≡ 64) × (device.device.size ≡ 16) }
    requires own { (own.table ≡ B.table) × (board.now ≡ B.board) }
{
    let (desk, side) = deeds.named::<B>();
    let mut disk = Disk { device, side };
    let mut held = Held::<B, NoTrail>::of(opened, desk);
    run(rt, alloc, &mut held, board, &mut own, &mut disk, row);
    drop(held);
    drop(own);
}

/// The deeds of a device of zeros, and the device.
pub(crate) fn opened_deeds(rt: &impl Abort, alloc: Global) -> (Deeds, Watched<ScriptDevice>)
    ensures zeros { result.0.blocks ≡ zero_blocks 16 64 }
    ensures told { AreTold result.0.told result.1.device result.0.blocks }
    ensures device { (result.1.device.count ≡ 64) × (result.1.device.size ≡ 16) }
{
    let device = ScriptDevice::new(alloc, 16, 64).expect(rt, "a device");
    let deeds = Deeds::over(alloc, &device).expect(rt, "memory");
    (deeds, Watched::over(device))
}

/// Runs a row over a new cache, by the cache's own seat.
fn over_no_trail(rt: &impl Abort, alloc: Global, row: Row) {
    let geometry = Geometry::new(16, 48, 16, 64).expect(rt, "sizes");
    let new = Opened::new(alloc, &geometry, 7, NoTrail::new(), 1);
    let Ok((opened, board, seats, own)) = new else {
        panic!(rt; "a cache");
    };
    let (deeds, device) = opened_deeds(rt, alloc);
    run_named::<Brand>(rt, alloc, opened, deeds, device, &board, own, row);
    drop(board);
    drop(seats);
}

#[test]
fn a_truncation_cuts_what_was_appended(rt: HostRuntime) {
    over_no_trail(&rt, rt.alloc(), Row::Cuts);
}

#[test]
fn an_evicted_page_is_read_back(rt: HostRuntime) {
    over_no_trail(&rt, rt.alloc(), Row::WritesAndFills);
}

#[test]
fn a_failed_flush_is_told_once(rt: HostRuntime) {
    over_no_trail(&rt, rt.alloc(), Row::FailsAFlush);
}

#[test]
fn a_pass_is_levelled(rt: HostRuntime) {
    over_no_trail(&rt, rt.alloc(), Row::Passes);
}

#[test]
fn a_sync_ends_clean(rt: HostRuntime) {
    over_no_trail(&rt, rt.alloc(), Row::Syncs);
}
