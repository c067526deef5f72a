//! Rounds of random calls, over devices in memory and over files, with restarts.
//!
//! They take some seconds of the proved program, and half an hour unproved: `rt try --test --seconds 1800` waits for them.

ghost use Rattle.std.specs.Prelude.{◌<◌, ◌≤◌};

use crate::checks::same;
use crate::game::{BLOCKS, Game};
use crate::odd::Odd;
use blockdev::{BlockDevice, FileDevice, MemDevice, MemFile};
use catalog::Catalog;
use filesvc::Solo;
use pc_types::Refusal;
use std::alloc::Global;
use std::ops::Range;
use std::process::Abort;

/// One life of a service over these files.
fn life<D: BlockDevice>(
    alloc: Global,
    game: &mut Game,
    catalog: Catalog,
    device: D,
) -> Result<(Catalog, D), Odd> {
    let geometry = game.geometry()?;
    match Solo::over(alloc, &geometry, game.name(), catalog, device) {
        Ok(mut solo) => {
            let lived = game.live(&mut solo);
            end(solo, lived)
        }
        Err((refusal, catalog, device)) => {
            // each by a call, since the check is slow where they go out of scope
            drop(catalog);
            drop(device);
            Err(Odd::from(refusal))
        }
    }
}

fn end<D: BlockDevice>(solo: Solo<D>, lived: Result<Catalog, Odd>) -> Result<(Catalog, D), Odd> {
    let device = solo.into_device();
    match lived {
        Ok(catalog) => Ok((catalog, device)),
        Err(odd) => {
            drop(device);
            Err(odd)
        }
    }
}

/// Four lives, the first without files.
fn lives<D: BlockDevice>(alloc: Global, game: &mut Game, device: D) -> Result<(), Odd> {
    let none = Catalog::new(alloc, &game.geometry()?);
    let (catalog, device) = life(alloc, game, none, device)?;
    let (catalog, device) = life(alloc, game, catalog, device)?;
    let (catalog, device) = life(alloc, game, catalog, device)?;
    let (catalog, device) = life(alloc, game, catalog, device)?;
    drop(catalog);
    drop(device);
    Ok(())
}

fn in_memory(alloc: Global, seed: u64, page: u64) -> Result<(), Odd>
    requires { (0 < page) × (page ≤ 64) }
{
    let mut game = Game::new(alloc, seed, page);
    let device = MemDevice::new(alloc, page, BLOCKS)?;
    lives(alloc, &mut game, device)
}

fn small_file(alloc: Global) -> Result<FileDevice<MemFile>, Refusal> {
    let file = MemFile::zeros(alloc, 4096)?;
    let spare = vec![in alloc; 0; 16]?;
    Ok(FileDevice::new(file, 16, 256, spare))
}

fn large_file(alloc: Global) -> Result<FileDevice<MemFile>, Refusal> {
    let file = MemFile::zeros(alloc, 16384)?;
    let spare = vec![in alloc; 0; 64]?;
    Ok(FileDevice::new(file, 64, 256, spare))
}

fn in_small_file(alloc: Global, seed: u64) -> Result<(), Odd> {
    let mut game = Game::new(alloc, seed, 16);
    let device = small_file(alloc)?;
    lives(alloc, &mut game, device)
}

fn in_large_file(alloc: Global, seed: u64) -> Result<(), Odd> {
    let mut game = Game::new(alloc, seed, 64);
    let device = large_file(alloc)?;
    lives(alloc, &mut game, device)
}

fn agrees(rt: &impl Abort, seed: u64, played: Result<(), Odd>) {
    same(rt, (seed, played), (seed, Ok(())));
}

#[test]
fn rounds_in_memory_agree(rt: HostRuntime) {
    for seed in 0..350 {
        agrees(&rt, seed, in_memory(rt.alloc(), seed, 16));
    }
}

#[test]
fn rounds_of_larger_pages_agree(rt: HostRuntime) {
    for seed in 1000..1200 {
        agrees(&rt, seed, in_memory(rt.alloc(), seed, 64));
    }
}

#[test]
fn rounds_over_a_file_agree(rt: HostRuntime) {
    for seed in 2000..2300 {
        agrees(&rt, seed, in_small_file(rt.alloc(), seed));
    }
}

#[test]
fn rounds_over_a_file_of_larger_pages_agree(rt: HostRuntime) {
    for seed in 3000..3150 {
        agrees(&rt, seed, in_large_file(rt.alloc(), seed));
    }
}
