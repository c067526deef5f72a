//! A service over a device over a file: what was written and synced is read back from the file.

ghost use Rattle.std.specs.Prelude.{IfOk};
ghost use Rattle.filesvc.specs.Service.{IsOpen};

use crate::checks::check;
use blockdev::FileDevice;
use filesvc::{Handle, Solo};
use pc_types::{Geometry, Refusal};
use std::alloc::Global;
use std::marker::Model;
use std::ops::Range;
use std::path::{Path, PathBuf};
use std::test::*;
use std::{env, fs, process};

/// Bytes of a page.
const PAGE: u64 = 512;

/// How many pages are written, each of which may be dirty.
const PAGES: u64 = 1_000;

/// No more frames than that takes.
const FRAMES: u64 = PAGES + 32;

/// A service over a file, and a handle that it opened.
#[derive(Drop)]
struct Desk {
    // in a box, since the check is slow where a service itself goes out of scope
    solo: Box<Solo<FileDevice>>,
    handle: Handle,
}

impl Model for Desk {
    ghost use Rattle.std.specs.Prelude.{box_value};
    ghost use Rattle.filesvc.specs.Service.{IsOpen};

    ghost Value = { Unit };

    ghost view = { λ d. tt };

    ghost invariant = { λ d. IsOpen (box_value d.solo) d.handle };
}

impl Desk {
    fn new(rt: &HostRuntime, path: Path) -> Result<Desk, Refusal> {
        let geometry = Geometry::new(PAGE, FRAMES, PAGES, 2 * FRAMES)?;
        let device = FileDevice::open(rt, rt.alloc(), path, PAGE, 2 * FRAMES)?;
        let Ok(solo) = Solo::new(rt.alloc(), &geometry, 7, device) else {
            return Err(Refusal::Memory);
        };
        let mut solo = Box::new(rt.alloc(), solo)?;
        let handle = open_new(&mut solo)?;
        Ok(Desk { solo, handle })
    }

    fn write(&mut self, page: u64) -> Result<u64, Refusal> {
        self.solo.pwrite(
            &self.handle,
            page.wrapping_mul(PAGE),
            &[byte_of(page); PAGE as usize],
        )
    }

    /// Whether the page reads as it was written.
    fn has(&mut self, page: u64) -> Result<bool, Refusal> {
        let mut out = [0; PAGE as usize];
        let count = self
            .solo
            .pread(&self.handle, page.wrapping_mul(PAGE), &mut out)?;
        Ok(count == PAGE && out == [byte_of(page); PAGE as usize])
    }

    fn write_all(&mut self, pages: Range<u64>) -> Result<(), Refusal> {
        for page in pages {
            self.write(page)?;
        }
        Ok(())
    }

    fn has_all(&mut self) -> Result<bool, Refusal> {
        for page in 0..PAGES {
            if !self.has(page)? {
                return Ok(false);
            }
        }
        Ok(true)
    }

    fn fsync(&mut self) -> Result<(), Refusal> {
        self.solo.fsync(&mut self.handle)
    }

    /// Whether the pages that were written and synced are read back, when as many others as there are frames were written.
    fn reads_back(&mut self) -> Result<bool, Refusal> {
        self.write_all(0..PAGES)?;
        self.fsync()?;
        self.write_all(PAGES..PAGES + FRAMES)?;
        self.has_all()
    }
}

/// A handle of a new file.
fn open_new(solo: &mut Solo<FileDevice>) -> Result<Handle, Refusal>
    ensures { IfOk result (IsOpen solo.new) }
{
    let file = solo.create()?;
    solo.open(file, false)
}

/// What each byte of the page is.
fn byte_of(page: u64) -> u8 {
    (page % 251) as u8
}

/// A folder of the test's own, with an empty file.
fn disk(rt: &HostRuntime) -> Result<(PathBuf, PathBuf), Fail> {
    let mut folder = env::temp_dir(rt)?;
    folder.push(format!(in rt.alloc(); "filesvc-{}", process::id(rt.process()))?.as_str())?;
    fs::create_dir(rt, folder.as_path())?;
    let path = folder.join(rt.alloc(), "disk")?;
    fs::write(rt, path.as_path(), "")?;
    Ok((folder, path))
}

/// Whether that is so over a file at this path.
fn reads_back(rt: &HostRuntime, path: Path) -> Result<bool, Refusal> {
    let mut desk = Desk::new(rt, path)?;
    desk.reads_back()
}

#[test]
fn what_was_synced_is_in_the_file(rt: HostRuntime) -> Result<(), Fail> {
    let (folder, path) = disk(&rt)?;
    check(&rt, reads_back(&rt, path.as_path()) == Ok(true));
    fs::remove_dir_all(&rt, folder.as_path())?;
    Ok(())
}
