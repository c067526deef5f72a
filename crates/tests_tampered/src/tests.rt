//! A storm's history, changed ten thousand times, one change each.

use crate::change::Changes;
use crate::checks::{check, same};
use crate::judge::is_plain;
use crate::rows::{Rows, trail_for};
use pc_types::Refusal;
use std::alloc::Global;
use std::fs::{File, Files};
use std::process::Abort;
use std::sync::Wait;
use std::test::Fail;
use std::thread::Threads;
use storm::{BLOCKS, Weather, storm};
use storm_text::Options;
use trail::{FullTrail, replay_plain};

/// How many changes are made.
const CHANGES: u64 = 10_000;

/// The history of a storm of two callers.
fn history<R: Threads + Wait + Files<File = File> + Sync>(rt: &R, alloc: Global) -> Option<Rows> {
    let options = Options {
        threads: 2,
        steps: 60,
        path: None,
    };
    let weather = Weather {
        seed: 1,
        faults: 0,
        blocks: BLOCKS,
    };
    match storm(rt, alloc, options, weather) {
        Ok(after) => {
            let rows = Rows::of(alloc, &after.trail);
            drop(after);
            rows.ok()
        }
        Err(_) => None,
    }
}

/// Whether the replay says that the rows are a history of plain files.
fn replays(alloc: Global, rows: &Rows, trail: &mut FullTrail) -> Result<bool, Refusal> {
    rows.enter(alloc, trail);
    Ok(replay_plain(alloc, trail)?.is_some())
}

/// Changes the rows so often, each time as they were first. Answers how many changes were told.
fn tell_changes(rt: &impl Abort, alloc: Global, rows: &Rows) -> Result<u64, Refusal> {
    let mut trail = trail_for(alloc, rows)?;
    let mut changes = Changes::new(1);
    let mut changed = Rows::new(alloc);
    let mut told: u64 = 0;
    for _ in 0..CHANGES {
        changed.copy(rows)?;
        changes.change(&mut changed)?;
        let replays = replays(alloc, &changed, &mut trail)?;
        same(rt, replays, is_plain(alloc, &changed)?);
        told = told.wrapping_add(u64::from(!replays));
    }
    drop(trail);
    Ok(told)
}

#[test]
fn changes_are_told_where_they_matter(rt: HostRuntime) -> Result<(), Fail> {
    let alloc = rt.alloc();
    let Some(rows) = history(&rt, alloc) else {
        return Ok(());
    };
    let mut trail = trail_for(alloc, &rows)?;
    same(&rt, replays(alloc, &rows, &mut trail), Ok(true));
    let told = tell_changes(&rt, alloc, &rows);
    // some of each: the history has entries that a replay passes over, and calls whose order does not matter
    check(&rt, told.is_ok_and(|told| told > 1_000 && told < CHANGES));
    drop(trail);
    Ok(())
}
