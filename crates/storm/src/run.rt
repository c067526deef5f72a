//! A storm: many callers and the workers of one cache at once, and whether its history is that of plain files.

ghost use Rattle.std.specs.FinMap as map;
ghost use Rattle.std.specs.Prelude.{◌≡◌, [], ◌≤◌, All, IfOk, IfSome, is_some, true};
ghost use Rattle.held.specs.Shown.{AreFresh};
ghost use Rattle.held.specs.Keeps.{IsLocked};
ghost use Rattle.machine.specs.Catalogs.{IsCatalog, adopted};
ghost use Rattle.shared.specs.Keeps.{AreBlocksOf, IsDisk};
ghost use Rattle.shared.specs.Workers.{IsWorkerOf};
ghost use Rattle.storm.specs.Crews.{IsCrewOf};
ghost use Rattle.storm_text.specs.Told.{StormTells};
ghost use Rattle.world.specs.Stepping.{fits};

use crate::caller::{Caller, Done};
use crate::crew::{Crew, Pair, WORKERS, hand_back};
use crate::member::{Member, members_of, seats_of};
use crate::odd::Odd;
use crate::steps::{FILES, Steps};
use blockdev::{BlockDevice, FileDevice, MemDevice};
use faulty::FaultyDevice;
use held::log::{Seat, Slip};
use held::naming::Naming;
use machine::{Event, Reply};
use pc_types::{Geometry, Refusal};
use playback::{Copies, Verdict, copies_of, judge};
use shared::cache::{Parts, SharedCache};
use shared::worker::Worker;
use std::alloc::Global;
use std::fs::{File, Files};
use std::io::Write;
use std::marker::Brand;
use std::sync::Wait;
use std::thread::{Threads, join, map_vec};
use storm_text::{Fault, Findings, Keeping, Options, Refused, say_usage, tell};
use textline::Printer;
use trail::{Entry, FullTrail};

/// Bytes of a page.
pub(crate) const PAGE: u64 = 64;

/// How many blocks the device of the program's storms has.
pub const BLOCKS: u64 = 256;

/// Fewer frames than the files have pages, and a limit that the writes come to.
pub(crate) const FRAMES: u64 = 64;

pub(crate) const DIRTY_LIMIT: u64 = 24;

/// The most events of the trail, and bytes of all of them. The greatest storm has some 86,000 events, and 1.9 million bytes.
pub(crate) const EVENTS: u64 = 262_144;

pub(crate) const BYTES: u64 = 8_388_608;

/// The cache's name, or that of the first shard.
pub(crate) const NAME: u64 = 1;

/// What a storm is made with beside its arguments.
#[derive(Clone, Copy)]
pub struct Weather {
    /// The calls of each caller follow from it.
    pub seed: u64,
    /// Each read, write or flush of the device whose number is a multiple of this one fails; none where it is 0.
    pub faults: u64,
    /// How many blocks of 64 bytes the device has.
    pub blocks: u64,
}

/// What a storm leaves.
#[derive(Drop)]
pub struct Aftermath {
    /// What the cache was made with.
    pub geometry: Geometry,
    pub trail: FullTrail,
    /// The entries at which a call was refused for want of a block.
    pub crowded: Vec<Slip>,
    /// By what calls were refused, and events of the workers.
    pub refused: Refused,
    /// Whether the device kept what was written to it.
    pub device: Keeping,
}

/// The entries at which calls were refused for want of a block, and by what calls were refused.
#[derive(Drop)]
struct Denials {
    crowded: Vec<Slip>,
    refused: Refused,
}

/// The history of a storm, with its refusals.
#[derive(Drop)]
struct Past {
    trail: FullTrail,
    crowded: Vec<Slip>,
    refused: Refused,
}

/// What a storm over a device leaves, with the device.
#[derive(Drop)]
struct Left<D: BlockDevice> {
    geometry: Geometry,
    past: Past,
    device: D,
}

/// Runs a storm, prints how many calls were made, whether the history replays, by what calls were refused and whether the device kept
/// what was written to it, and gives the status that the program ends with. What went wrong is said on `err`.
pub fn run_storm<R: Threads + Wait + Files<File = File> + Sync, W: Write, E: Write>(
    rt: &R,
    alloc: Global,
    arguments: &[&str],
    weather: Weather,
    out: &mut Printer<W>,
    err: &mut E,
) -> u8
    ensures told { StormTells arguments.now result (W.contents out.old.writer) (W.contents out.new.writer) }
{
    let Some(options) = Options::parse(arguments) else {
        let _ = say_usage(err);
        return 2;
    };
    let findings = match storm(rt, alloc, options, weather) {
        Ok(after) => findings_of(alloc, after, err),
        Err(fault) => Err(fault),
    };
    let calls = options.threads * options.steps;
    tell(out, err, calls, weather.seed, findings)
}

/// What is found of a storm. Which entry is odd, if one is, is said on `err`.
fn findings_of<E: Write>(alloc: Global, after: Aftermath, err: &mut E) -> Result<Findings, Fault> {
    let Aftermath {
        trail,
        refused,
        device,
        ..
    } = after;
    match Odd::first_in(alloc, trail) {
        Ok(odd) => Ok(Findings {
            replays: say_odd(alloc, odd, err),
            refused,
            device,
        }),
        Err(fault) => Err(fault),
    }
}

/// Says which entry is odd, if one is, and answers whether none is.
fn say_odd<E: Write>(alloc: Global, odd: Option<Odd>, err: &mut E) -> bool {
    let Some(odd) = odd else {
        return true;
    };
    let _ = odd.say(alloc, err);
    // by a call, since the check is slow where a trail goes out of scope
    drop(odd);
    false
}

/// Runs a storm over memory, or over the file of the options. Over a file the history is not played again.
pub fn storm<R: Threads + Wait + Files<File = File> + Sync>(
    rt: &R,
    alloc: Global,
    options: Options<'_>,
    weather: Weather,
) -> Result<Aftermath, Fault>
    requires { options.threads ≤ 16 }
{
    let blocks = weather.blocks;
    let Some(path) = options.path else {
        let device = MemDevice::new(alloc, PAGE, blocks).map_err(fault_of)?;
        return storm_over(rt, alloc, device, options, weather);
    };
    let device = FileDevice::open(rt, alloc, path, PAGE, blocks).map_err(fault_of)?;
    match over(rt, alloc, device, options, weather) {
        Ok(left) => Ok(unplayed(left)),
        Err(fault) => Err(fault),
    }
}

/// Runs a storm over a device of blocks of 64 bytes. The history is played again over copies of it.
#[tactic(auto, using(crate::proofs::Copying::copies_fit))]
pub fn storm_over<R: Threads + Wait + Sync, D: BlockDevice + Send>(
    rt: &R,
    alloc: Global,
    mut device: D,
    options: Options<'_>,
    weather: Weather,
) -> Result<Aftermath, Fault>
    requires few { options.threads ≤ 16 }
    requires device { ((D.told device).size ≡ 64) × ((D.told device).count ≡ weather.blocks) }
{
    // each by a call, since the check is slow where a device goes out of scope
    match copies_of(alloc, &mut device) {
        Ok(Ok(copies)) => match over(rt, alloc, device, options, weather) {
            Ok(left) => played(alloc, left, copies),
            Err(fault) => {
                drop(copies);
                Err(fault)
            }
        },
        Ok(Err(_)) => {
            drop(device);
            Err(Fault::Device)
        }
        Err(_) => {
            drop(device);
            Err(Fault::Memory)
        }
    }
}

/// Why there is no storm where a device or a cache was refused so.
pub(crate) fn fault_of(refusal: Refusal) -> Fault {
    match refusal {
        Refusal::Memory => Fault::Memory,
        _ => Fault::Device,
    }
}

/// A storm over a device.
fn over<R: Threads + Wait + Sync, D: BlockDevice + Send>(
    rt: &R,
    alloc: Global,
    device: D,
    options: Options<'_>,
    weather: Weather,
) -> Result<Left<D>, Fault>
    requires few { options.threads ≤ 16 }
    requires device { ((D.told device).size ≡ 64) × ((D.told device).count ≡ weather.blocks) }
    ensures sizes { IfOk result (λ l. (l.geometry.page ≡ 64) × (l.geometry.blocks ≡ weather.blocks)) }
{
    let geometry = Geometry::new(PAGE, FRAMES, DIRTY_LIMIT, weather.blocks).map_err(fault_of)?;
    let Ok(trail) = FullTrail::new(alloc, EVENTS, BYTES) else {
        return Err(Fault::Memory);
    };
    let device = FaultyDevice::new(device, weather.faults);
    let seats = options.threads + WORKERS;
    let Ok((parts, seats)) = Parts::make(rt, alloc, &geometry, NAME, device, trail, seats) else {
        return Err(Fault::Memory);
    };
    let steps = options.steps;
    let seed = weather.seed;
    match history::<Brand, FaultyDevice<D>, R>(rt, alloc, parts, seats, steps, seed) {
        Some((past, device)) => Ok(Left {
            geometry,
            past,
            device: device.into_device(),
        }),
        None => Err(Fault::Memory),
    }
}

/// A storm whose history is not played again.
fn unplayed<D: BlockDevice>(left: Left<D>) -> Aftermath {
    let Left {
        geometry,
        past,
        device,
    } = left;
    drop(device);
    aftermath_of(geometry, past, Keeping::Unplayed)
}

/// A storm whose history is played again, over copies of its device as that was before.
fn played<D: BlockDevice>(alloc: Global, left: Left<D>, copies: Copies) -> Result<Aftermath, Fault>
    requires sized { (fits left.geometry copies.one ≡ true) × (fits left.geometry copies.other ≡ true) }
    requires told { (is_some copies.one.contents ≡ true) × (is_some copies.other.contents ≡ true) }
{
    let Left {
        geometry,
        past,
        mut device,
    } = left;
    let verdict = judge(alloc, &geometry, NAME, &past.trail, copies, &mut device);
    drop(device);
    match verdict {
        Ok(verdict) => {
            let device = keeping_of(&past.trail, verdict);
            Ok(aftermath_of(geometry, past, device))
        }
        Err(_) => {
            drop(past);
            Err(Fault::Memory)
        }
    }
}

fn aftermath_of(geometry: Geometry, past: Past, device: Keeping) -> Aftermath {
    let Past {
        trail,
        crowded,
        refused,
    } = past;
    Aftermath {
        geometry,
        trail,
        crowded,
        refused,
        device,
    }
}

/// What a history says of its device. An odd end tells which block was read otherwise than it was written.
pub(crate) fn keeping_of(trail: &FullTrail, verdict: Verdict) -> Keeping {
    match verdict {
        Verdict::AllAlike => Keeping::Kept,
        Verdict::Unlike(block) => Keeping::Lost(block),
        Verdict::OddEntry(place) => match trail.entry(place) {
            Some(
                (
                    Entry {
                        event: Event::End(_, end),
                        ..
                    },
                    _,
                ),
            ) => Keeping::Lost(u64::from(end.block.0)),
            _ => Keeping::Odd(place),
        },
    }
}

/// Makes a cache of the parts, has a caller at each seat but the workers' make so many calls, and closes it. Gives its history with
/// their refusals, and the device, or nothing where memory is wanted.
#[tactic(auto, using(crate::proofs::Seating::all_seated))]
fn history<B: Naming + Send + Sync, D: BlockDevice + Send, R: Threads + Wait + Sync>(
    rt: &R,
    alloc: Global,
    parts: Parts<D, FullTrail>,
    seats: Vec<Seat>,
    steps: u64,
    seed: u64,
) -> Option<(Past, D)>
    requires named { parts.name ≡ B.name }
    requires sized { parts.geometry ≡ B.sizes }
    requires board { parts.board ≡ B.board }
    requires state { IsLocked B.name B.table B.board B.sizes B.seats B.whole parts.held }
    requires idle { map.len parts.held.core.state.requests ≡ 0 }
    requires fresh { (parts.held.log.history ≡ []) × (parts.held.core.state ≡ adopted B.sizes B.name B.files) }
    requires files { IsCatalog B.sizes B.files }
    requires own { IsWorkerOf parts.ring B.name B.table B.deeds B.sizes parts.own }
    requires device { IsDisk B.sizes (D.told parts.device) }
    requires deeds { (parts.deeds.table ≡ B.deeds) × (parts.deeds.told ≡ B.told) × (parts.deeds.blocks ≡ B.blocks) }
    requires blocks { AreBlocksOf B.told B.blocks (D.told parts.device) }
    requires calls { (D.told parts.device).calls ≡ B.calls }
    requires seats { AreFresh B.table B.name seats.items }
{
    let callers = (seats.len() as u64).saturating_sub(WORKERS);
    let (cache, mut own) = SharedCache::<B, D, FullTrail>::of(alloc, parts);
    let members = members_of(alloc, seats);
    let Some((seats, mut denials)) = take_part(rt, alloc, &cache, &mut own, members, steps, seed)
    else {
        // each by a call, since the check is slow where a cache goes out of scope
        drop(cache);
        drop(own);
        return None;
    };
    match cache.close(rt, own, seats) {
        Ok((trail, core, device)) => {
            drop(core);
            count_workers(&trail, callers, &mut denials.refused);
            let Denials { crowded, refused } = denials;
            let past = Past {
                trail,
                crowded,
                refused,
            };
            Some((past, device))
        }
        Err(open) => {
            drop(open);
            None
        }
    }
}

/// Counts the refusals of workers, whose seats come after those of so many callers.
pub(crate) fn count_workers(trail: &FullTrail, callers: u64, refused: &mut Refused) {
    for place in 0..trail.len() {
        if let Some(
            (
                Entry {
                    seat,
                    reply: Reply::Refused(refusal),
                    ..
                },
                _,
            ),
        ) = trail.entry(place)
        {
            if *seat >= callers {
                refused.count(*refusal);
            }
        }
    }
}

/// Has a caller at each seat but the workers' make so many calls, and gives the seats back with the refusals, or nothing where memory
/// is wanted.
fn take_part<B: Naming + Send + Sync, D: BlockDevice + Send, R: Threads + Wait + Sync>(
    rt: &R,
    alloc: Global,
    cache: &SharedCache<B, D, FullTrail>,
    own: &mut Worker,
    members: Option<Vec<Member<B>>>,
    steps: u64,
    seed: u64,
) -> Option<(Vec<Seat>, Denials)>
    requires { IsWorkerOf cache.now.ring B.name B.table B.deeds B.sizes own.old }
    ensures own { IsWorkerOf cache.now.ring B.name B.table B.deeds B.sizes own.new }
    ensures seats { IfSome result (λ r. All (λ s. s.table ≡ B.table) r.0.items) }
{
    let mut members = members?;
    let Some(crew) = Crew::of(cache, own, &mut members) else {
        drop(members);
        return None;
    };
    let mut refused = Refused::none();
    create_files(rt, cache, &mut members, &mut refused);
    match callers_of(alloc, members, steps, seed) {
        Some(callers) => all_seats(alloc, rage(rt, cache, crew, callers), refused),
        None => {
            drop(crew);
            None
        }
    }
}

/// The seats of the workers and of the callers, and the refusals of all, with those that were counted before.
fn all_seats<B: Naming>(
    alloc: Global,
    back: ((Pair<B>, Pair<B>), Option<Vec<Done<B>>>),
    refused: Refused,
) -> Option<(Vec<Seat>, Denials)>
    ensures { IfSome result (λ r. All (λ s. s.table ≡ B.table) r.0.items) }
{
    let (workers, done) = back;
    let Some((mut members, denials)) = parted(alloc, done, refused) else {
        drop(workers);
        return None;
    };
    match hand_back(workers, &mut members) {
        Some(()) => Some((seats_of(alloc, members)?, denials)),
        None => {
            drop(members);
            None
        }
    }
}

/// The members among callers that are done, and the refusals of all, with those that were counted before.
fn parted<B: Naming>(
    alloc: Global,
    done: Option<Vec<Done<B>>>,
    mut refused: Refused,
) -> Option<(Vec<Member<B>>, Denials)> {
    let mut members = Vec::new(alloc);
    let mut all = Vec::new(alloc);
    for Done {
        member,
        crowded,
        refused: more,
    } in done? {
        members.push(member).ok()?;
        all.extend_from_slice(&crowded).ok()?;
        refused.add(&more);
    }
    Some((
        members,
        Denials {
            crowded: all,
            refused,
        },
    ))
}

/// Makes the files, by the seat of the first of these members.
fn create_files<R: Wait, B: Naming, D: BlockDevice>(
    rt: &R,
    cache: &SharedCache<B, D, FullTrail>,
    members: &mut Vec<Member<B>>,
    refused: &mut Refused,
) {
    if let Some(member) = members.first_mut() {
        for _ in 0..FILES {
            if let Err(denied) = cache.create(rt, &mut member.seat) {
                refused.count(denied.refusal);
            }
        }
    }
}

/// Runs the callers beside the workers, who are told to stop when the callers are done. Where no thread can be had the callers run
/// first, and then the workers.
fn rage<R: Threads + Wait + Sync, B: Naming + Send + Sync, D: BlockDevice + Send>(
    rt: &R,
    cache: &SharedCache<B, D, FullTrail>,
    crew: Crew,
    callers: Vec<Caller<B>>,
) -> ((Pair<B>, Pair<B>), Option<Vec<Done<B>>>)
    requires { IsCrewOf cache.now.ring B.name B.table B.deeds B.sizes crew }
{
    join(
        rt,
        move ||
            requires { IsCrewOf cache.now.ring B.name B.table B.deeds B.sizes crew }
        { crew.run(rt, cache) },
        move || call_all(rt, cache, callers),
    )
}

/// Runs the callers, each in a thread of its own, and then tells the workers to stop. Nothing is answered where memory is wanted.
fn call_all<R: Threads + Wait + Sync, B: Naming + Send + Sync, D: BlockDevice + Send>(
    rt: &R,
    cache: &SharedCache<B, D, FullTrail>,
    callers: Vec<Caller<B>>,
) -> Option<Vec<Done<B>>> {
    let done = map_vec(rt, callers, &|caller: Caller<B>| caller.run(rt, cache));
    cache.stop(rt);
    done.ok()
}

/// A caller of each of these members, who makes so many calls.
fn callers_of<B: Naming>(
    alloc: Global,
    members: Vec<Member<B>>,
    count: u64,
    seed: u64,
) -> Option<Vec<Caller<B>>> {
    let mut callers = Vec::new(alloc);
    for (number, member) in members.into_iter().enumerate() {
        let steps = Steps::new(seed, number as u64);
        callers
            .push(Caller::new(alloc, member, steps, count).ok()?)
            .ok()?;
    }
    Some(callers)
}
