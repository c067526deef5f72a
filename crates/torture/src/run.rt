//! Rounds, one after the other, and what is found of them.

ghost use Rattle.std.specs.Prelude.{◌≡◌};
ghost use Rattle.torture.specs.Told.{TortureTells};

use crate::desk::Desk;
use crate::due::{Odd, Wrong};
pub use crate::game::Room;
use crate::game::{Calls, Game};
use crate::halves::{Trial, fewest};
use crate::plan::{Failing, Plan};
use crate::told::{Difference, Fault, Findings, Options, tell};
use blockdev::{BlockDevice, MemDevice};
use faulty::{FailingDevice, Log};
use pc_types::Refusal;
use std::alloc::Global;
use std::cell::Cell;
use std::io::Write;
use std::rc::Rc;
use storm_text::{Refused, say_usage};
use textline::Printer;

/// So many rounds are played between two lines of progress.
const STRIDE: u64 = 256;

/// What a round came to.
#[derive(Clone, Copy, Debug)]
pub struct Played {
    /// How many calls were made.
    pub calls: u64,
    pub refused: Refused,
    pub faults: u64,
    /// How many calls of the device were made.
    pub device_calls: u64,
    /// Whether the last fsync of the calls succeeded.
    pub synced: bool,
    pub wrong: Option<Wrong>,
}

impl Played {
    /// A round in which no call was made.
    fn not_begun(wrong: Wrong) -> Played {
        Played {
            calls: 0,
            refused: Refused::none(),
            faults: 0,
            device_calls: 0,
            synced: false,
            wrong: Some(wrong),
        }
    }
}

/// Plays these calls of a round.
pub fn play(
    alloc: Global,
    room: &mut Room,
    plan: &Plan,
    calls: Calls<'_>,
) -> Result<Played, Fault> {
    if room.reset(alloc, plan).is_err() {
        return Err(Fault::Memory);
    }
    let Ok(log) = Rc::new(alloc, Cell::new(Log::empty())) else {
        return Err(Fault::Memory);
    };
    let Ok(lent) = log.clone() else {
        return Err(Fault::Memory);
    };
    match MemDevice::new(alloc, plan.geometry.page(), plan.geometry.blocks()) {
        Ok(device) => {
            let device = failing(device, plan, lent);
            play_over(alloc, room, plan, calls, device, log)
        }
        Err(_) => Err(Fault::Memory),
    }
}

/// The device, as it fails in this round.
fn failing(device: MemDevice, plan: &Plan, log: Rc<Cell<Log>>) -> FailingDevice<MemDevice> {
    match plan.failing {
        Failing::OneOf(many) => {
            FailingDevice::by_chance(device, plan.seed ^ plan.round, many, log)
        }
        Failing::At(number, fault) => FailingDevice::at(device, number, fault, log),
    }
}

/// Plays these calls of a round over a device with this log.
fn play_over<D: BlockDevice>(
    alloc: Global,
    room: &mut Room,
    plan: &Plan,
    calls: Calls<'_>,
    device: D,
    log: Rc<Cell<Log>>,
) -> Result<Played, Fault> {
    let files = plan.files.saturating_add(1);
    let desk = match Desk::new(alloc, &plan.geometry, device, files) {
        Ok(desk) => desk,
        Err(refusal) => return no_desk(refusal),
    };
    let mut game = Game::new(desk, log, plan);
    let end = game.play(room, plan, calls);
    let played = game.played(room, end);
    // by a call, since the check is slow where a service goes out of scope
    drop(game);
    played
}

fn no_desk(refusal: Refusal) -> Result<Played, Fault> {
    match Odd::refused(refusal) {
        Odd::Memory => Err(Fault::Memory),
        Odd::Wrong(wrong) => Ok(Played::not_begun(wrong)),
    }
}

impl<D: BlockDevice> Game<D> {
    /// What the round came to that ended so.
    fn played(&self, room: &Room, end: Result<(), Odd>) -> Result<Played, Fault> {
        let wrong = match end {
            Ok(()) => None,
            Err(Odd::Wrong(wrong)) => Some(wrong),
            Err(Odd::Memory) => return Err(Fault::Memory),
        };
        let log = self.log();
        Ok(Played {
            calls: room.made.len() as u64,
            refused: self.refused,
            faults: log.faults(),
            device_calls: log.calls,
            synced: self.was_synced,
            wrong,
        })
    }
}

/// A round, and the room that it is played in.
#[derive(Drop)]
struct Replay {
    alloc: Global,
    room: Room,
    plan: Plan,
}

impl Trial for Replay {
    fn shows(&mut self, calls: u64) -> Result<bool, Fault> {
        let played = play(self.alloc, &mut self.room, &self.plan, Calls::Drawn(calls))?;
        Ok(played.wrong.is_some())
    }
}

/// Plays the rounds that the words ask for, prints what was found, and gives the status that the program ends with. A difference, with the
/// calls that show it, is said on `err`; so is how far the rounds are, where that is `watched`.
pub fn run_torture<W: Write, E: Write>(
    alloc: Global,
    arguments: &[&str],
    watched: bool,
    out: &mut Printer<W>,
    err: &mut E,
) -> u8
    ensures told { TortureTells arguments.now result (W.contents out.old.writer) (W.contents out.new.writer) }
{
    let Some(options) = Options::parse(arguments) else {
        let _ = say_usage(err);
        return 2;
    };
    let findings = torture(alloc, options, watched, err);
    tell(out, err, findings)
}

/// Plays rounds, up to the first that shows a difference.
pub fn torture<E: Write>(
    alloc: Global,
    options: Options,
    watched: bool,
    err: &mut E,
) -> Result<Findings, Fault> {
    let Ok(mut room) = Room::new(alloc) else {
        return Err(Fault::Memory);
    };
    let mut findings = Findings {
        rounds: 0,
        calls: 0,
        refused: Refused::none(),
        faults: 0,
        difference: None,
    };
    for round in 0..options.rounds {
        if watched && round % STRIDE == 0 {
            let _ = write!(err, "\rpcache: round {round} of {}", options.rounds);
        }
        let Ok(plan) = Plan::new(options.seed, round) else {
            findings.difference = Some(Difference {
                seed: options.seed,
                round,
                calls: 0,
            });
            break;
        };
        let played = play(alloc, &mut room, &plan, Calls::Drawn(plan.calls))?;
        findings.add(&played);
        if let Some(wrong) = played.wrong {
            clear(watched, err);
            findings.difference = Some(search(alloc, room, plan, played.calls, wrong, err)?);
            return Ok(findings);
        }
    }
    clear(watched, err);
    Ok(findings)
}

/// Takes the line of progress away.
fn clear<E: Write>(watched: bool, err: &mut E) {
    if watched {
        let _ = write!(err, "\r{:50}\r", "");
    }
}

/// The fewest calls of the round that show a difference. They are said on `err`.
fn search<E: Write>(
    alloc: Global,
    room: Room,
    plan: Plan,
    calls: u64,
    wrong: Wrong,
    err: &mut E,
) -> Result<Difference, Fault> {
    let mut replay = Replay { alloc, room, plan };
    let calls = fewest(&mut replay, calls)?;
    let played = play(alloc, &mut replay.room, &plan, Calls::Drawn(calls))?;
    let _ = say(err, &replay, played.wrong.unwrap_or(wrong));
    Ok(Difference {
        seed: plan.seed,
        round: plan.round,
        calls,
    })
}

fn say<E: Write>(err: &mut E, replay: &Replay, wrong: Wrong) -> std::io::Result<()> {
    let Plan { seed, round, .. } = replay.plan;
    writeln!(
        err,
        "pcache: torture of seed {seed}, round {round}: {wrong}"
    )?;
    for made in replay.room.made.iter() {
        writeln!(err, "pcache: {made}")?;
    }
    Ok(())
}

impl Findings {
    fn add(&mut self, played: &Played) {
        self.rounds = self.rounds.saturating_add(1);
        self.calls = self.calls.saturating_add(played.calls);
        self.faults = self.faults.saturating_add(played.faults);
        self.refused.add(&played.refused);
    }
}
