//! A service as its callers use it, over a device that fails where it is told to.

ghost use Rattle.std.specs.Prelude.{◌≡◌, IfOk, None, OnOk};
ghost use Rattle.pc_types.specs.Files.{pwrite};
ghost use Rattle.runs.specs.Plain.{plain_file};
ghost use Rattle.filesvc.specs.Service as service;
ghost use Rattle.filesvc.specs.Service.{CameFrom, IsOnDevice, IsOpen, Names, Tells};

use crate::checks::{check, same};
use blockdev::{BlockDevice, FaultEffect, ScriptDevice};
use filesvc::{Handle, Seek, Solo};
use pc_types::{BlockNo, ErrCode, FileId, Geometry, PageIndex, Refusal};
use std::alloc::Global;
use std::cell::Cell;
use std::marker::Model;
use std::process::Abort;
use std::rc::Rc;
use std::test::Fail;

/// How many writes a device was asked for, and the first byte of the last.
#[derive(Clone, Copy, PartialEq, Eq, Debug)]
struct Written {
    count: u64,
    byte: u8,
}

/// A device whose first read fails with this code, where there is one, and of whose flushes those past so many fail.
#[derive(Drop)]
struct OddDevice {
    device: ScriptDevice,
    first_read: Option<ErrCode>,
    good_flushes: u64,
    written: Rc<Cell<Written>>,
}

impl BlockDevice for OddDevice {
    // nothing is told of the faults to come, which are planned late
    ghost told = { λ d. record d.device { plan = None; flush_plan = None } };

    fn block_size(&self) -> u64 {
        self.device.block_size()
    }

    fn blocks(&self) -> u64 {
        self.device.blocks()
    }

    fn faults(&self) -> u64 {
        self.device.faults()
    }

    fn calls(&self) -> u64 {
        self.device.calls()
    }

    fn flushes(&self) -> u64 {
        self.device.flushes()
    }

    fn read(&mut self, block: BlockNo, out: &mut [u8]) -> Result<(), ErrCode> {
        if let Some(code) = self.first_read.take() {
            self.device.fail_next(code, FaultEffect::Old);
        }
        self.device.read(block, out)
    }

    fn write(&mut self, block: BlockNo, bytes: &[u8]) -> Result<(), ErrCode> {
        note(&self.written, bytes);
        self.device.write(block, bytes)
    }

    fn flush(&mut self) -> Result<(), ErrCode> {
        if self.device.flushes() >= self.good_flushes {
            self.device.fail_next_flush(ErrCode::IO);
        }
        self.device.flush()
    }
}

fn note(written: &Cell<Written>, bytes: &[u8]) {
    written.set(Written {
        count: written.get().count.wrapping_add(1),
        byte: bytes.first().copied().unwrap_or(0),
    });
}

/// A service and a handle that it opened.
#[derive(Drop)]
struct Desk {
    // in a box, since the check is slow where a service itself goes out of scope
    solo: Box<Solo<OddDevice>>,
    handle: Handle,
    written: Rc<Cell<Written>>,
}

impl Model for Desk {
    ghost use Rattle.std.specs.Prelude.{box_value};
    ghost use Rattle.filesvc.specs.Service.{IsOpen};

    ghost Value = { Unit };

    ghost view = { λ d. tt };

    ghost invariant = { λ d. IsOpen (box_value d.solo) d.handle };
}

impl Desk {
    fn read(&mut self, out: &mut [u8]) -> Result<u64, Refusal> {
        self.solo.read(&mut self.handle, out)
    }

    fn write(&mut self, bytes: &[u8]) -> Result<u64, Refusal> {
        self.solo.write(&mut self.handle, bytes)
    }

    fn pread(&mut self, offset: u64, out: &mut [u8]) -> Result<u64, Refusal> {
        self.solo.pread(&self.handle, offset, out)
    }

    fn pwrite(&mut self, offset: u64, bytes: &[u8]) -> Result<u64, Refusal> {
        self.solo.pwrite(&self.handle, offset, bytes)
    }

    fn seek(&mut self, place: Seek) -> Result<u64, Refusal> {
        self.solo.seek(&mut self.handle, place)
    }

    fn truncate(&mut self, size: u64) -> Result<(), Refusal> {
        self.solo.truncate(&self.handle, size)
    }

    fn fsync(&mut self) -> Result<(), Refusal> {
        self.solo.fsync(&mut self.handle)
    }

    fn fsync_range(&mut self, first: u64, last: u64) -> Result<(), Refusal> {
        self.solo
            .fsync_range(&mut self.handle, PageIndex(first), PageIndex(last))
    }

    /// Whether so many writes reached the device.
    fn has_written(&self, count: u64) -> bool {
        self.written.get().count == count
    }

    /// Whether so many did, the last of which began with this byte.
    fn has_last_written(&self, count: u64, byte: u8) -> bool {
        self.written.get() == Written { count, byte }
    }

    fn poll_error(&mut self) -> Result<Option<ErrCode>, Refusal> {
        self.solo.poll_error(&mut self.handle)
    }

    fn close(self) -> bool {
        let Desk {
            mut solo,
            handle,
            ..
        } = self;
        solo.close(handle).is_ok()
    }

    /// The same service with its file closed, and opened again.
    fn reopened(self) -> Result<Desk, Refusal> {
        let Desk {
            mut solo,
            handle,
            written,
        } = self;
        let handle = reopen(&mut solo, handle)?;
        Ok(Desk {
            solo,
            handle,
            written,
        })
    }
}

/// The code of the fault that is planned: another than that of a call which can't be counted.
fn full() -> Result<ErrCode, Refusal> {
    ErrCode::new(28)
}

// Reads, writes and seeks of one handle, at the ends of a file and of what a cursor may be.
fn moves_a_cursor(rt: &impl Abort, desk: &mut Desk) {
    let mut out = [0; 16];
    let mut part = [0; 8];
    same(rt, desk.write(&[1, 2, 3]), Ok(3));
    same(rt, desk.seek(Seek::Set(1)), Ok(1));
    same(rt, desk.read(&mut part), Ok(2));
    check(rt, part.starts_with(&[2, 3, 0]));
    same(rt, desk.read(&mut part), Ok(0));
    same(rt, desk.seek(Seek::End(2)), Ok(5));
    same(rt, desk.write(&[255]), Ok(1));
    same(rt, desk.pread(0, &mut out), Ok(6));
    check(rt, out.starts_with(&[1, 2, 3, 0, 0, 255, 0]));
    same(rt, desk.seek(Seek::Cur(-7)), Err(Refusal::TooLarge));
    same(rt, desk.seek(Seek::Cur(0)), Ok(6));
    same(
        rt,
        desk.seek(Seek::Set(1_099_511_627_777)),
        Err(Refusal::TooLarge),
    );
    same(rt, desk.truncate(2), Ok(()));
    same(rt, desk.pread(0, &mut out), Ok(2));
    check(rt, out.starts_with(&[1, 2]));
}

// A failed write is told once, and the next sync succeeds.
fn tells_an_error_once(rt: &impl Abort, desk: &mut Desk) -> Result<(), Refusal> {
    same(rt, desk.pwrite(0, &[0xaa]), Ok(1));
    same(rt, desk.fsync(), Err(Refusal::Io(full()?)));
    same(rt, desk.poll_error(), Ok(None));
    same(rt, desk.fsync(), Ok(()));
    same(rt, desk.fsync(), Ok(()));
    Ok(())
}

// Where nothing was written since the last good flush none is made. One that fails is answered each time, and the handle is told nothing;
// the page is clean by then.
fn flushes_again(rt: &impl Abort, desk: &mut Desk) {
    same(rt, desk.pwrite(0, &[1]), Ok(1));
    same(rt, desk.fsync(), Ok(()));
    same(rt, desk.fsync(), Ok(()));
    same(rt, desk.pwrite(0, &[2]), Ok(1));
    same(rt, desk.fsync(), Err(Refusal::Io(ErrCode::IO)));
    check(rt, desk.has_last_written(2, 2));
    same(rt, desk.poll_error(), Ok(None));
    same(rt, desk.fsync_range(3, 4), Err(Refusal::Io(ErrCode::IO)));
    same(rt, desk.fsync(), Err(Refusal::Io(ErrCode::IO)));
    check(rt, desk.has_written(2));
}

// More fsyncs than syncs may be in progress at once, one after the other.
fn syncs_again_and_again(rt: &impl Abort, desk: &mut Desk) {
    for at in 0..65u64 {
        same(rt, desk.pwrite(at, &[1]), Ok(1));
        same(rt, desk.fsync(), Ok(()));
        same(rt, desk.solo.attempts(), 1);
    }
}

// A sync of a range writes the dirty pages of the range alone. One that is turned round is refused, and nothing else happens.
fn syncs_a_range(rt: &impl Abort, desk: &mut Desk) {
    same(rt, desk.pwrite(0, &[0xaa]), Ok(1));
    same(rt, desk.pwrite(32, &[0xbb]), Ok(1));
    same(rt, desk.fsync_range(5, 4), Err(Refusal::BadRange));
    check(rt, desk.has_written(0));
    same(rt, desk.fsync_range(2, 5), Ok(()));
    same(rt, desk.solo.attempts(), 1);
    check(rt, desk.has_last_written(1, 0xbb));
    same(rt, desk.fsync_range(7, 7), Ok(()));
    check(rt, desk.has_written(1));
    same(rt, desk.fsync(), Ok(()));
    check(rt, desk.has_last_written(2, 0xaa));
    same(rt, desk.fsync(), Ok(()));
    check(rt, desk.has_written(2));
}

// A failed write of a page outside the range is told all the same, once. The pages outside stay dirty: the last fsync writes 14.
fn tells_of_any_page(rt: &impl Abort, desk: &mut Desk) -> Result<(), Refusal> {
    same(rt, desk.pwrite(0, &[1; 256]), Ok(256));
    same(rt, desk.pwrite(256, &[2]), Err(Refusal::DirtyLimit));
    same(rt, desk.fsync_range(3, 4), Err(Refusal::Io(full()?)));
    same(rt, desk.fsync_range(3, 4), Ok(()));
    check(rt, desk.has_written(3));
    same(rt, desk.fsync(), Ok(()));
    check(rt, desk.has_written(17));
    Ok(())
}

// Where as many pages are dirty as may be, a write makes room by writing one back.
fn makes_room(rt: &impl Abort, desk: &mut Desk) {
    same(rt, desk.pwrite(0, &[1; 256]), Ok(256));
    same(rt, desk.solo.attempts(), 1);
    same(rt, desk.pwrite(256, &[2]), Ok(1));
    same(rt, desk.solo.attempts(), 2);
}

// Where that fails, the write is refused, and the next sync tells of it.
fn refuses_without_room(rt: &impl Abort, desk: &mut Desk) -> Result<(), Refusal> {
    same(rt, desk.pwrite(0, &[1; 256]), Ok(256));
    same(rt, desk.pwrite(256, &[2]), Err(Refusal::DirtyLimit));
    same(rt, desk.fsync(), Err(Refusal::Io(full()?)));
    same(rt, desk.fsync(), Ok(()));
    Ok(())
}

// A write that failed while room was made, and that no handle was told of, is told to the next one that is opened, and to no other.
fn hands_an_error_down(rt: &impl Abort, mut desk: Desk) -> Result<Desk, Refusal> {
    same(rt, desk.pwrite(0, &[1; 256]), Ok(256));
    same(rt, desk.pwrite(256, &[2]), Err(Refusal::DirtyLimit));
    let mut desk = desk.reopened()?;
    same(rt, desk.poll_error(), Ok(Some(full()?)));
    same(rt, desk.poll_error(), Ok(None));
    let mut desk = desk.reopened()?;
    same(rt, desk.poll_error(), Ok(None));
    Ok(desk)
}

// An appending handle writes at the end, and pwrite where it is told to.
fn appends(rt: &impl Abort, desk: &mut Desk) {
    let mut out = [0; 8];
    same(rt, desk.write(&[1, 2]), Ok(2));
    same(rt, desk.seek(Seek::Set(0)), Ok(0));
    same(rt, desk.write(&[3]), Ok(1));
    same(rt, desk.handle.cursor(), 3);
    same(rt, desk.pwrite(0, &[9]), Ok(1));
    same(rt, desk.seek(Seek::Set(1)), Ok(1));
    same(rt, desk.write(&[]), Ok(0));
    same(rt, desk.handle.cursor(), 3);
    same(rt, desk.pread(0, &mut out), Ok(3));
    check(rt, out.starts_with(&[9, 2, 3]));
    same(rt, desk.pread(3, &mut out), Ok(0));
}

// More pages than frames: a read of an evicted page fills it again.
fn reads_back(rt: &impl Abort, desk: &mut Desk) {
    for at in 0..64u64 {
        same(rt, desk.pwrite(at * 16, &[at as u8; 16]), Ok(16));
    }
    same(rt, desk.fsync(), Ok(()));
    let mut out = [0; 16];
    for at in 0..64u64 {
        same(rt, desk.pread(at * 16, &mut out), Ok(16));
        check(rt, out == [at as u8; 16]);
    }
    same(rt, desk.pread(0, &mut [0; 1024]), Err(Refusal::TooLong));
}

// A page that was evicted and whose fill fails is refused with the code of its own device call, which is no failed write; the next
// read fills it.
fn fails_to_fill(rt: &impl Abort, desk: &mut Desk) -> Result<(), Refusal> {
    for at in 0..64u64 {
        same(rt, desk.pwrite(at * 16, &[at as u8; 16]), Ok(16));
    }
    same(rt, desk.fsync(), Ok(()));
    let mut out = [0; 16];
    same(rt, desk.pread(0, &mut out), Err(Refusal::Io(full()?)));
    same(rt, desk.solo.attempts(), 1);
    same(rt, desk.poll_error(), Ok(None));
    same(rt, desk.pread(16, &mut out), Ok(16));
    check(rt, out == [1; 16]);
    same(rt, desk.pread(0, &mut out), Ok(16));
    check(rt, out == [0; 16]);
    Ok(())
}

// Clean pages that are used often, as many dirty ones as may be, and then calls that lack two pages.
fn is_never_stuck(rt: &impl Abort, desk: &mut Desk, clean: u16, dirty: u16) {
    let mut out = [0; 32];
    for page in 0..3000u64 {
        same(
            rt,
            desk.pwrite(page * 16, &[(page % 256) as u8; 16]),
            Ok(16),
        );
    }
    same(rt, desk.fsync(), Ok(()));
    for _ in 0..3 {
        for page in 1000..1000 + u64::from(clean) {
            same(rt, desk.pread(page * 16, &mut out), Ok(32));
        }
    }
    for page in 0..u64::from(dirty) {
        same(rt, desk.pwrite(page * 16, &[1]), Ok(1));
    }
    for page in 2000..2004u64 {
        same(rt, desk.pread(page * 16, &mut out), Ok(32));
        check(rt, desk.solo.attempts() <= 3);
        check(
            rt,
            out.starts_with(&[(page % 256) as u8; 16])
                && out.ends_with(&[((page + 1) % 256) as u8; 16]),
        );
    }
    same(rt, desk.pwrite(2100 * 16 + 8, &[2; 16]), Ok(16));
    check(rt, desk.solo.attempts() <= 4);
    same(rt, desk.pread(2200 * 16, &mut [0; 256]), Ok(256));
    check(rt, desk.solo.attempts() <= 17);
}

// A mix of reads of many pages and small writes, none of which is refused.
fn mixes(rt: &impl Abort, desk: &mut Desk) {
    for page in 0..600u64 {
        same(
            rt,
            desk.pwrite(page * 16, &[(page % 256) as u8; 16]),
            Ok(16),
        );
    }
    let mut out = [0; 240];
    let mut seed: u32 = 1;
    for _ in 0..600 {
        seed = seed.wrapping_mul(1103515245).wrapping_add(12345);
        let offset = (seed >> 8) as u64 % (600 - 16) * 16 + 7;
        seed = seed.wrapping_mul(1103515245).wrapping_add(12345);
        if (seed >> 20) % 4 == 0 {
            same(rt, desk.pwrite(offset, &[3; 64]), Ok(64));
        } else {
            same(rt, desk.pread(offset, &mut out), Ok(240));
        }
        check(rt, desk.solo.attempts() <= 18);
    }
}

// 20,000 calls as a user makes them: three reads for each write, of two pages or three, and an fsync now and then. None is refused.
fn serves_a_user(rt: &impl Abort, desk: &mut Desk) {
    for page in 0..300u64 {
        same(
            rt,
            desk.pwrite(page * 16, &[(page % 256) as u8; 16]),
            Ok(16),
        );
    }
    let mut out = [0; 24];
    let mut seed: u32 = 1;
    for _ in 0..20000 {
        seed = seed.wrapping_mul(1103515245).wrapping_add(12345);
        let offset = (seed >> 8) as u64 % (300 - 2) * 16 + 7;
        seed = seed.wrapping_mul(1103515245).wrapping_add(12345);
        if (seed >> 20) % 256 == 0 {
            same(rt, desk.fsync(), Ok(()));
        } else if (seed >> 20) % 4 == 0 {
            same(rt, desk.pwrite(offset, &[3; 24]), Ok(24));
        } else {
            same(rt, desk.pread(offset, &mut out), Ok(24));
        }
        check(rt, desk.solo.attempts() <= 5);
    }
}

// Saves the bytes at the beginning of a file. After success the device holds the file.
fn save<D: BlockDevice>(
    files: &mut Solo<D>,
    handle: &mut Handle,
    bytes: &[u8],
) -> Result<(), Refusal>
    requires came { CameFrom files.old handle.old }
    ensures open { IsOpen files.old handle.old → IsOpen files.new handle.new }
    ensures saved { Names files.old handle.old → Tells files.old → OnOk result (plain_file (service.files files.new) handle.old.file ≡ pwrite (plain_file (service.files files.old) handle.old.file) 0 bytes.now) }
    ensures synced { Names files.old handle.old → Tells files.old → OnOk result (IsOnDevice files.new handle.old.file) }
{
    files.pwrite(handle, 0, bytes)?;
    match files.fsync(handle) {
        // The pages whose write failed are dirty again, so a second fsync writes them.
        Err(Refusal::Io(_)) => files.fsync(handle),
        done => done,
    }
}

// A caller that meets a failed write.
fn saves(rt: &impl Abort, desk: &mut Desk) -> Result<(), Refusal> {
    save(&mut desk.solo, &mut desk.handle, &[0xaa; 40])?;
    let mut out = [0; 64];
    same(rt, desk.pread(0, &mut out), Ok(40));
    check(
        rt,
        out.starts_with(&[0xaa; 40]) && !out.starts_with(&[0xaa; 41]),
    );
    Ok(())
}

#[derive(Clone, Copy)]
enum Row {
    MovesACursor,
    TellsAnErrorOnce,
    MakesRoom,
    RefusesWithoutRoom,
    Appends,
    ReadsBack,
    FailsToFill,
    Saves,
    SyncsAgainAndAgain,
    SyncsARange,
    TellsOfAnyPage,
    FlushesAgain,
    // so many clean pages in use, and so many dirty ones
    IsNeverStuck(u16, u16),
    Mixes,
    ServesAUser,
}

fn run(rt: &impl Abort, desk: &mut Desk, row: Row) -> Result<(), Refusal> {
    match row {
        Row::MovesACursor => moves_a_cursor(rt, desk),
        Row::TellsAnErrorOnce => tells_an_error_once(rt, desk)?,
        Row::MakesRoom => makes_room(rt, desk),
        Row::RefusesWithoutRoom => refuses_without_room(rt, desk)?,
        Row::Appends => appends(rt, desk),
        Row::ReadsBack => reads_back(rt, desk),
        Row::FailsToFill => fails_to_fill(rt, desk)?,
        Row::Saves => saves(rt, desk)?,
        Row::SyncsAgainAndAgain => syncs_again_and_again(rt, desk),
        Row::SyncsARange => syncs_a_range(rt, desk),
        Row::TellsOfAnyPage => tells_of_any_page(rt, desk)?,
        Row::FlushesAgain => flushes_again(rt, desk),
        Row::IsNeverStuck(clean, dirty) => is_never_stuck(rt, desk, clean, dirty),
        Row::Mixes => mixes(rt, desk),
        Row::ServesAUser => serves_a_user(rt, desk),
    }
    Ok(())
}

/// Which device call fails of those that a row makes.
#[derive(Clone, Copy)]
enum Failing {
    None,
    FirstCall,
    FirstRead,
    SecondFlush,
}

/// Another handle of the first file, in place of this one.
fn reopen(solo: &mut Solo<OddDevice>, handle: Handle) -> Result<Handle, Refusal>
    requires { CameFrom solo.old handle }
    ensures { IfOk result (IsOpen solo.new) }
{
    let _ = solo.close(handle);
    solo.open(FileId(0), false)
}

/// A handle of a new file.
fn open_first(solo: &mut Solo<OddDevice>, append: bool) -> Result<Handle, Refusal>
    ensures { IfOk result (IsOpen solo.new) }
{
    let file = solo.create()?;
    solo.open(file, append)
}

/// A service over a device that fails so, with pages of 16 bytes and one file that is open.
fn open_desk(
    alloc: Global,
    geometry: &Geometry,
    failing: Failing,
    append: bool,
) -> Result<Desk, Refusal> {
    let written = Rc::new(alloc, Cell::new(Written { count: 0, byte: 0 }))?;
    let mut device = OddDevice {
        device: ScriptDevice::new(alloc, 16, geometry.blocks())?,
        first_read: None,
        good_flushes: u64::MAX,
        written: written.clone()?,
    };
    match failing {
        Failing::None => {}
        Failing::FirstCall => device.device.fail_next(full()?, FaultEffect::Old),
        Failing::FirstRead => device.first_read = Some(full()?),
        Failing::SecondFlush => device.good_flushes = 1,
    }
    let Ok(solo) = Solo::new(alloc, geometry, 7, device) else {
        return Err(Refusal::Memory);
    };
    let mut solo = Box::new(alloc, solo)?;
    let handle = open_first(&mut solo, append)?;
    Ok(Desk {
        solo,
        handle,
        written,
    })
}

fn over_a_service(
    rt: &impl Abort,
    alloc: Global,
    failing: Failing,
    row: Row,
) -> Result<(), Refusal> {
    over(rt, alloc, &Geometry::new(16, 48, 16, 64)?, failing, row)
}

fn over(
    rt: &impl Abort,
    alloc: Global,
    geometry: &Geometry,
    failing: Failing,
    row: Row,
) -> Result<(), Refusal> {
    let mut desk = open_desk(alloc, geometry, failing, matches!(row, Row::Appends))?;
    let done = run(rt, &mut desk, row);
    check(rt, desk.close());
    done
}

#[test]
fn a_cursor_moves(rt: HostRuntime) -> Result<(), Refusal> {
    over_a_service(&rt, rt.alloc(), Failing::None, Row::MovesACursor)
}

#[test]
fn an_error_is_told_once(rt: HostRuntime) -> Result<(), Refusal> {
    over_a_service(&rt, rt.alloc(), Failing::FirstCall, Row::TellsAnErrorOnce)
}

#[test]
fn an_untold_error_is_handed_down(rt: HostRuntime) -> Result<(), Refusal> {
    let geometry = Geometry::new(16, 48, 16, 64)?;
    let desk = open_desk(rt.alloc(), &geometry, Failing::FirstCall, false)?;
    let desk = hands_an_error_down(&rt, desk)?;
    check(&rt, desk.close());
    Ok(())
}

#[test]
fn no_sync_is_left(rt: HostRuntime) -> Result<(), Refusal> {
    over_a_service(&rt, rt.alloc(), Failing::None, Row::SyncsAgainAndAgain)
}

#[test]
fn a_sync_of_a_range_stays_in_it(rt: HostRuntime) -> Result<(), Refusal> {
    over_a_service(&rt, rt.alloc(), Failing::None, Row::SyncsARange)
}

#[test]
fn a_sync_of_a_range_tells_of_any_page(rt: HostRuntime) -> Result<(), Refusal> {
    over_a_service(&rt, rt.alloc(), Failing::FirstCall, Row::TellsOfAnyPage)
}

#[test]
fn a_flush_that_failed_is_made_again(rt: HostRuntime) -> Result<(), Refusal> {
    over_a_service(&rt, rt.alloc(), Failing::SecondFlush, Row::FlushesAgain)
}

#[test]
fn a_write_makes_room(rt: HostRuntime) -> Result<(), Refusal> {
    over_a_service(&rt, rt.alloc(), Failing::None, Row::MakesRoom)
}

#[test]
fn a_write_without_room_is_refused(rt: HostRuntime) -> Result<(), Refusal> {
    over_a_service(&rt, rt.alloc(), Failing::FirstCall, Row::RefusesWithoutRoom)
}

#[test]
fn an_append_goes_to_the_end(rt: HostRuntime) -> Result<(), Refusal> {
    over_a_service(&rt, rt.alloc(), Failing::None, Row::Appends)
}

#[test]
fn evicted_pages_read_back(rt: HostRuntime) -> Result<(), Refusal> {
    over_a_service(&rt, rt.alloc(), Failing::None, Row::ReadsBack)
}

#[test]
fn a_failed_fill_has_its_own_code(rt: HostRuntime) -> Result<(), Refusal> {
    over_a_service(&rt, rt.alloc(), Failing::FirstRead, Row::FailsToFill)
}

#[test]
fn a_caller_saves(rt: HostRuntime) -> Result<(), Refusal> {
    over_a_service(&rt, rt.alloc(), Failing::FirstCall, Row::Saves)
}

#[test]
fn another_device_is_refused(rt: HostRuntime) -> Result<(), Refusal> {
    let alloc = rt.alloc();
    let device = ScriptDevice::new(alloc, 16, 63)?;
    let refused = Solo::new(alloc, &Geometry::new(16, 48, 16, 64)?, 7, device);
    check(&rt, matches!(refused, Err((Refusal::BadConfig, _))));
    Ok(())
}

#[test]
fn two_absent_pages_of_64(rt: HostRuntime) -> Result<(), Refusal> {
    let geometry = Geometry::new(16, 64, 32, 4096)?;
    over(
        &rt,
        rt.alloc(),
        &geometry,
        Failing::None,
        Row::IsNeverStuck(32, 32),
    )
}

#[test]
fn two_absent_pages_of_128(rt: HostRuntime) -> Result<(), Refusal> {
    let geometry = Geometry::new(16, 128, 96, 4096)?;
    over(
        &rt,
        rt.alloc(),
        &geometry,
        Failing::None,
        Row::IsNeverStuck(32, 96),
    )
}

#[test]
fn two_absent_pages_of_256(rt: HostRuntime) -> Result<(), Refusal> {
    let geometry = Geometry::new(16, 256, 128, 4096)?;
    over(
        &rt,
        rt.alloc(),
        &geometry,
        Failing::None,
        Row::IsNeverStuck(128, 128),
    )
}

#[test]
fn a_mix_over_64(rt: HostRuntime) -> Result<(), Refusal> {
    let geometry = Geometry::new(16, 64, 32, 4096)?;
    over(&rt, rt.alloc(), &geometry, Failing::None, Row::Mixes)
}

#[test]
fn a_mix_over_80(rt: HostRuntime) -> Result<(), Refusal> {
    let geometry = Geometry::new(16, 80, 48, 4096)?;
    over(&rt, rt.alloc(), &geometry, Failing::None, Row::Mixes)
}

#[test]
fn a_mix_over_128(rt: HostRuntime) -> Result<(), Refusal> {
    let geometry = Geometry::new(16, 128, 96, 4096)?;
    over(&rt, rt.alloc(), &geometry, Failing::None, Row::Mixes)
}

#[test]
fn a_mix_over_256(rt: HostRuntime) -> Result<(), Refusal> {
    let geometry = Geometry::new(16, 256, 224, 4096)?;
    over(&rt, rt.alloc(), &geometry, Failing::None, Row::Mixes)
}

#[test]
fn a_user_over_64(rt: HostRuntime) -> Result<(), Refusal> {
    let geometry = Geometry::new(16, 64, 32, 512)?;
    over(&rt, rt.alloc(), &geometry, Failing::None, Row::ServesAUser)
}

#[test]
fn a_user_over_80(rt: HostRuntime) -> Result<(), Refusal> {
    let geometry = Geometry::new(16, 80, 48, 512)?;
    over(&rt, rt.alloc(), &geometry, Failing::None, Row::ServesAUser)
}

#[test]
fn a_user_over_128(rt: HostRuntime) -> Result<(), Refusal> {
    let geometry = Geometry::new(16, 128, 96, 512)?;
    over(&rt, rt.alloc(), &geometry, Failing::None, Row::ServesAUser)
}

#[test]
fn a_user_over_256(rt: HostRuntime) -> Result<(), Refusal> {
    let geometry = Geometry::new(16, 256, 224, 512)?;
    over(&rt, rt.alloc(), &geometry, Failing::None, Row::ServesAUser)
}
