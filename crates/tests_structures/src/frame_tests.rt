//! The page lists row by row, a full table, and random calls beside a plain program of two vectors.

ghost use Rattle.std.specs.Prelude.{◌≡◌, true, length, slice_set};
ghost use Rattle.frames.specs.Table.{is_taken};

use crate::checks::{check, same};
use frames::Frames;
use pc_types::{FileId, FrameId, Geometry, PageIndex, Refusal};
use std::process::Abort;
use std::test::Fail;

/// A number past that of each frame.
const NO_FRAME: u32 = u32::MAX;

/// Stops the test unless the frame is taken.
fn expect_taken(rt: &impl Abort, frames: &Frames, frame: FrameId)
    ensures { is_taken frames.now frame.0 ≡ true }
{
    assert!(rt; frames.owner(frame).is_some());
}

fn give(rt: &impl Abort, frames: &mut Frames, frame: u32) {
    expect_taken(rt, frames, FrameId(frame));
    frames.give(FrameId(frame));
}

fn access(rt: &impl Abort, frames: &mut Frames, frame: u32) {
    expect_taken(rt, frames, FrameId(frame));
    frames.accessed(FrameId(frame));
}

/// Sets a frame aside, or back.
fn set_aside(rt: &impl Abort, frames: &mut Frames, frame: u32, aside: bool) {
    expect_taken(rt, frames, FrameId(frame));
    if aside {
        frames.set_aside(FrameId(frame));
    } else {
        frames.put_back(FrameId(frame));
    }
}

/// Writes over a frame's bytes, and no others: so a caller sees what `bytes_mut` lends.
fn put(frames: &mut Frames, frame: FrameId, bytes: &[u8])
    requires taken { is_taken frames.old frame.0 ≡ true }
    requires size { length bytes.now ≡ frames.old.size }
    ensures { frames.new ≡ record frames.old { bytes = slice_set frames.old.bytes frame.0 bytes.now } }
{
    frames.bytes_mut(frame).copy_from_slice(bytes);
}

/// The oldest frame but this one.
fn first_but(frames: &Frames, but: u32) -> Option<FrameId> {
    frames.scan(|at| at.0 != but)
}

fn assert_first(rt: &impl Abort, frames: &Frames, frame: u32) {
    same(rt, first_but(frames, NO_FRAME), Some(FrameId(frame)));
}

fn assert_first_but(rt: &impl Abort, frames: &Frames, but: u32, frame: u32) {
    same(rt, first_but(frames, but), Some(FrameId(frame)));
}

fn assert_free(rt: &impl Abort, frames: &Frames, count: u64) {
    same(rt, frames.free_count(), count);
}

fn assert_takes(rt: &impl Abort, frames: &mut Frames, page: u64, frame: u32) {
    let taken = frames.take(FileId(7), PageIndex(page));
    same(rt, taken, Ok(FrameId(frame)));
    let owner = frames.owner(FrameId(frame));
    same(rt, owner, Some((FileId(7), PageIndex(page))));
}

fn assert_ages(rt: &impl Abort, frames: &mut Frames, count: u64) {
    same(rt, frames.age(), count);
}

/// Accesses move a frame from the inactive list to the active one.
fn check_accesses(rt: &impl Abort, frames: &mut Frames) {
    // inactive and unreferenced: it becomes referenced, its place unchanged
    access(rt, frames, 0);
    assert_first(rt, frames, 0);
    // inactive and referenced: it goes to the active head
    access(rt, frames, 0);
    assert_first(rt, frames, 1);
    // active: it becomes referenced, its place unchanged
    access(rt, frames, 0);
    access(rt, frames, 1);
    access(rt, frames, 1);
    // from the inactive tail to its head, then from the active tail to its head
    assert_first(rt, frames, 2);
    assert_first_but(rt, frames, 2, 0);
}

/// Ages the lists, and gives a frame back.
fn check_ages(rt: &impl Abort, frames: &mut Frames) {
    // the active tail goes to the inactive head, whatever its flag, while active is longer
    assert_ages(rt, frames, 1);
    assert_ages(rt, frames, 0);
    assert_first(rt, frames, 2);
    assert_first_but(rt, frames, 2, 0);
    // and it is unreferenced there, so that one access leaves it in its place
    access(rt, frames, 0);
    assert_first_but(rt, frames, 2, 0);
    // a frame that is given leaves its list, and is the lowest free one again
    give(rt, frames, 1);
    assert_free(rt, frames, 46);
    assert_takes(rt, frames, 13, 1);
}

#[test]
fn page_lists_row_by_row(rt: HostRuntime) -> Result<(), Fail> {
    let mut frames = Frames::new(rt.alloc(), &Geometry::new(16, 48, 16, 64)?)?;
    assert_free(&rt, &frames, 48);
    // the lowest free frame goes to the inactive head
    for frame in 0..3 {
        assert_takes(&rt, &mut frames, 10 + frame as u64, frame);
    }
    assert_first(&rt, &frames, 0);
    check_accesses(&rt, &mut frames);
    check_ages(&rt, &mut frames);
    drop(frames);
    Ok(())
}

#[test]
fn a_frame_keeps_its_bytes_until_it_is_laid(rt: HostRuntime) -> Result<(), Fail> {
    let mut frames = Frames::new(rt.alloc(), &Geometry::new(16, 48, 16, 64)?)?;
    for page in 0..2 {
        let frame = frames.take(FileId(0), PageIndex(page))?;
        expect_taken(&rt, &frames, frame);
        frames.bytes_mut(frame).fill(9);
    }
    expect_taken(&rt, &frames, FrameId(0));
    // a macro, since `put` requires what it says
    assert_eq!(rt; frames.bytes(FrameId(0)).len(), 16);
    put(&mut frames, FrameId(0), &[1; 16]);
    give(&rt, &mut frames, 0);
    assert_takes(&rt, &mut frames, 2, 0);
    expect_taken(&rt, &frames, FrameId(0));
    // and this one, since `lay` does
    assert_eq!(rt; frames.bytes(FrameId(0)), [1; 16].as_slice());
    frames.lay(FrameId(0), 13, &[5, 6]);
    let laid = [0, 0, 0, 0, 0, 0, 0, 0, 0, 0, 0, 0, 0, 5, 6, 0];
    check(&rt, frames.bytes(FrameId(0)) == laid.as_slice());
    expect_taken(&rt, &frames, FrameId(1));
    check(&rt, frames.bytes(FrameId(1)) == [9; 16].as_slice());
    drop(frames);
    Ok(())
}

/// Takes a frame for a page that is of no matter.
fn takes(rt: &impl Abort, frames: &mut Frames, want: Result<FrameId, Refusal>) {
    same(rt, frames.take(FileId(0), PageIndex(0)), want);
}

#[test]
fn a_full_table_is_taken_and_given_back(rt: HostRuntime) -> Result<(), Fail> {
    let mut frames = Frames::new(rt.alloc(), &Geometry::new(16, 65_536, 16, 64)?)?;
    for frame in 0..65_536 {
        takes(&rt, &mut frames, Ok(FrameId(frame)));
    }
    takes(&rt, &mut frames, Err(Refusal::NoFrame));
    assert_free(&rt, &frames, 0);
    // one far from the lowest word is found at once
    give(&rt, &mut frames, 65_535);
    takes(&rt, &mut frames, Ok(FrameId(65_535)));
    for frame in 0..65_536 {
        give(&rt, &mut frames, frame);
    }
    assert_free(&rt, &frames, 65_536);
    same(&rt, first_but(&frames, NO_FRAME), None);
    drop(frames);
    Ok(())
}

/// The two lists as vectors, the head first.
#[derive(Drop)]
struct Plain {
    active: Vec<u32>,
    inactive: Vec<u32>,
    referenced: Vec<u32>,
    aside: Vec<u32>,
}

fn leave(list: &mut Vec<u32>, frame: u32) -> bool {
    match list.iter().position(|at| *at == frame) {
        Some(place) => {
            list.remove(place);
            true
        }
        None => false,
    }
}

impl Plain {
    fn take(&mut self) -> Result<Option<u32>, Fail> {
        for frame in 0..48 {
            if !self.active.contains(&frame) && !self.inactive.contains(&frame) {
                self.inactive.insert(0, frame)?;
                leave(&mut self.aside, frame);
                return Ok(Some(frame));
            }
        }
        Ok(None)
    }

    fn give(&mut self, frame: u32) {
        leave(&mut self.active, frame);
        leave(&mut self.inactive, frame);
        leave(&mut self.referenced, frame);
    }

    fn access(&mut self, frame: u32) -> Result<(), Fail> {
        if self.active.contains(&frame) {
            if !self.referenced.contains(&frame) {
                self.referenced.push(frame)?;
            }
        } else if leave(&mut self.referenced, frame) {
            leave(&mut self.inactive, frame);
            self.active.insert(0, frame)?;
        } else {
            self.referenced.push(frame)?;
        }
        Ok(())
    }

    fn set_aside(&mut self, frame: u32, aside: bool) -> Result<(), Fail> {
        leave(&mut self.aside, frame);
        if aside {
            self.aside.push(frame)?;
        }
        Ok(())
    }

    fn oldest(&self) -> Option<u32> {
        for frame in self.inactive.iter().rev() {
            if !self.aside.contains(frame) {
                return Some(*frame);
            }
        }
        for frame in self.active.iter().rev() {
            if !self.aside.contains(frame) {
                return Some(*frame);
            }
        }
        None
    }

    fn age(&mut self) -> Result<u64, Fail> {
        let before = self.active.len();
        for _ in 0..48 {
            if self.active.len() > self.inactive.len()
                && let Some(frame) = self.active.pop()
            {
                leave(&mut self.referenced, frame);
                self.inactive.insert(0, frame)?;
            }
        }
        Ok(before.saturating_sub(self.active.len()) as u64)
    }

    fn first(&self, rest: u32) -> Option<u32> {
        for frame in self.inactive.iter().rev() {
            if *frame % 4 == rest {
                return Some(*frame);
            }
        }
        for frame in self.active.iter().rev() {
            if *frame % 4 == rest {
                return Some(*frame);
            }
        }
        None
    }
}

/// Makes one of the calls on both, as the number says.
fn call_both(
    rt: &impl Abort,
    frames: &mut Frames,
    plain: &mut Plain,
    number: u64,
) -> Result<(), Fail> {
    let frame = (number % 48) as u32;
    let is_taken = frames.owner(FrameId(frame)).is_some();
    match number / 48 % 24 {
        0..=4 => {
            let taken = frames.take(FileId(0), PageIndex(0)).ok();
            same(rt, taken, plain.take()?.map(FrameId));
        }
        5..=6 if is_taken => {
            give(rt, frames, frame);
            plain.give(frame);
        }
        7 => assert_ages(rt, frames, plain.age()?),
        8..=15 if is_taken => {
            access(rt, frames, frame);
            plain.access(frame)?;
        }
        16..=23 if is_taken => {
            let aside = number / 48 % 24 < 22;
            set_aside(rt, frames, frame, aside);
            plain.set_aside(frame, aside)?;
        }
        _ => {}
    }
    Ok(())
}

fn compare(rt: &impl Abort, frames: &mut Frames, plain: &Plain) {
    same(rt, frames.oldest(), plain.oldest().map(FrameId));
    let free = 48_u64
        .saturating_sub(plain.active.len() as u64)
        .saturating_sub(plain.inactive.len() as u64);
    assert_free(rt, frames, free);
    for rest in 0..4 {
        let first = frames.scan(|at| at.0 % 4 == rest);
        same(rt, first, plain.first(rest).map(FrameId));
    }
}

/// Makes random calls on both, and compares them after each.
fn call_at_random(rt: &impl Abort, frames: &mut Frames, plain: &mut Plain) -> Result<(), Fail> {
    let mut seed = 20_261_122_u64;
    for _ in 0..4_000 {
        seed = seed
            .wrapping_mul(6_364_136_223_846_793_005)
            .wrapping_add(1_442_695_040_888_963_407);
        call_both(rt, frames, plain, seed >> 33)?;
        compare(rt, frames, plain);
    }
    Ok(())
}

#[test]
fn random_calls_as_the_plain_program(rt: HostRuntime) -> Result<(), Fail> {
    let mut frames = Frames::new(rt.alloc(), &Geometry::new(16, 48, 16, 64)?)?;
    let mut plain = Plain {
        active: Vec::new(rt.alloc()),
        inactive: Vec::new(rt.alloc()),
        referenced: Vec::new(rt.alloc()),
        aside: Vec::new(rt.alloc()),
    };
    let done = call_at_random(&rt, &mut frames, &mut plain);
    // by a call, since the check is slow where frames go out of scope
    drop(frames);
    drop(plain);
    done
}
