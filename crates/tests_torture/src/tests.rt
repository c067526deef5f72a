//! Rounds by their seeds, with what is printed of them.

use crate::checks::{check, same};
use pc_types::Refusal;
use std::alloc::Global;
use std::process::Abort;
use std::test::Fail;
use storm_text::Refused;
use textline::Printer;
use torture::{
    Calls, Difference, Fault, Findings, Plan, Room, Trial, fewest, play, run_torture, tell,
};

const USAGE: &str =
    "pcache: usage: pcache run | pcache storm THREADS STEPS [PATH] | pcache torture SEED ROUNDS | pcache over PATH SIZE | pcache shards SHARDS THREADS STEPS\n";

/// What a torture of these words is to give.
#[derive(Clone, Copy)]
struct Row<'a> {
    words: &'a [&'a str],
    output: &'a str,
    message: &'a str,
    status: u8,
}

fn check_row(rt: &impl Abort, alloc: Global, row: Row<'_>) -> Result<(), Fail> {
    let mut out = Printer::new(alloc, Vec::new(alloc));
    let mut message = Vec::new(alloc);
    let status = run_torture(alloc, row.words, false, &mut out, &mut message);
    check(
        rt,
        std::str::from_utf8(out.writer.as_slice())? == row.output,
    );
    check(rt, std::str::from_utf8(message.as_slice())? == row.message);
    same(rt, status, row.status);
    Ok(())
}

#[test]
fn words_that_ask_for_no_rounds_are_refused(rt: HostRuntime) -> Result<(), Fail> {
    let rows: [&[&str]; 6] = [
        &[],
        &["1"],
        &["1", "0"],
        &["1", "1000001"],
        &["01", "1"],
        &["1", "1", "1"],
    ];
    for words in rows {
        let row = Row {
            words,
            output: "",
            message: USAGE,
            status: 2,
        };
        check_row(&rt, rt.alloc(), row)?;
    }
    Ok(())
}

/// The rounds of a seed agree: each line of the output but that of refusals begins as it has to.
#[test]
fn rounds_agree(rt: HostRuntime) -> Result<(), Fail> {
    let alloc = rt.alloc();
    let mut out = Printer::new(alloc, Vec::new(alloc));
    let mut message = Vec::new(alloc);
    let status = run_torture(alloc, &["1", "40"], false, &mut out, &mut message);
    let text = std::str::from_utf8(out.writer.as_slice())?;
    check(&rt, text.starts_with("rounds 40\ncalls "));
    check(&rt, text.ends_with("\nagree yes\n"));
    check(&rt, message.is_empty());
    same(&rt, status, 0);
    Ok(())
}

/// Some number of calls, from which on a difference is shown.
#[derive(Drop)]
struct Threshold {
    first: u64,
    asked: u64,
}

impl Trial for Threshold {
    fn shows(&mut self, calls: u64) -> Result<bool, Fault> {
        self.asked = self.asked.wrapping_add(1);
        Ok(calls >= self.first)
    }
}

// The fewest calls are found wherever they are, and no number is asked for twice.
#[test]
fn halving_finds_the_first(rt: HostRuntime) -> Result<(), Fail> {
    for first in 0..=20 {
        let mut trial = Threshold { first, asked: 0 };
        same(&rt, fewest(&mut trial, 20), Ok(first));
        check(&rt, trial.asked <= 5);
    }
    Ok(())
}

/// A round whose plain files leave the change of a call out.
#[derive(Drop)]
struct Forgetful {
    alloc: Global,
    room: Room,
    plan: Plan,
}

impl Forgetful {
    fn new(alloc: Global) -> Option<Forgetful> {
        Some(Forgetful {
            alloc,
            room: Room::new(alloc).ok()?,
            plan: Plan::new(1, 0).ok()?,
        })
    }
}

impl Trial for Forgetful {
    fn shows(&mut self, calls: u64) -> Result<bool, Fault> {
        let played = play(self.alloc, &mut self.room, &self.plan, Calls::Drawn(calls))?;
        Ok(played.wrong.is_some())
    }
}

/// How many of the first calls are writes or truncations whose loss is shown: by no run that ends before the call, and by the run that
/// ends with it.
fn count_shown(rt: &impl Abort, trial: &mut Forgetful) -> Result<u64, Fault> {
    let mut shown: u64 = 0;
    for number in 0..24 {
        trial.plan.forgets = Some(number);
        let most = trial.plan.calls;
        if trial.shows(most)? {
            same(rt, fewest(trial, most), Ok(number + 1));
            shown = shown.wrapping_add(1);
        }
    }
    Ok(shown)
}

#[test]
fn a_lost_change_is_found(rt: HostRuntime) -> Result<(), Fail> {
    let Some(mut trial) = Forgetful::new(rt.alloc()) else {
        return Ok(());
    };
    let shown = count_shown(&rt, &mut trial);
    check(&rt, shown.is_ok_and(|shown| shown > 4));
    drop(trial);
    Ok(())
}

/// What is printed of findings, the refusals by their numbers.
#[test]
fn what_was_found_is_told(rt: HostRuntime) -> Result<(), Fail> {
    let alloc = rt.alloc();
    let mut refused = Refused::none();
    refused.count(Refusal::BadRange);
    refused.count(Refusal::NoFrame);
    refused.count(Refusal::NoFrame);
    let findings = Findings {
        rounds: 3,
        calls: 20,
        refused,
        faults: 2,
        difference: Some(Difference {
            seed: 9,
            round: 2,
            calls: 5,
        }),
    };
    let mut out = Printer::new(alloc, Vec::new(alloc));
    let mut message = Vec::new(alloc);
    let status = tell(&mut out, &mut message, Ok(findings));
    check(
        &rt,
        std::str::from_utf8(out.writer.as_slice())?
            == "rounds 3\ncalls 20\nrefused 8:2 24:1\nfaults 2\nagree no: seed 9, round 2, calls 5\n",
    );
    check(&rt, message.is_empty());
    same(&rt, status, 1);
    Ok(())
}
