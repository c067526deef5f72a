//! What a storm prints, and the status that it ends with.

ghost use Rattle.std.specs.Prelude.{OnErr, OnOk, Ok, IfErr};
ghost use Rattle.std.specs.Io.KnownBytes.{Appends};
ghost use Rattle.textline.specs.Prints.{AppendsPart, IsPrintFault, Writes, ended};
ghost use Rattle.storm_text.specs.Told.{Tells, device_text, lines_found, lines_left, lines_told, refused_text, replay_text, usage_line};

use crate::findings::{Findings, Keeping, Refused};
use std::fmt::Display;
use std::io::Write;
use std::{fmt, io};
use textline::{Printer, Stop, flush, print_line};

/// Why there was no storm.
#[derive(Clone, Copy, PartialEq, Eq, Debug)]
pub enum Fault {
    /// The file that was to be the device can't be opened.
    Device,
    Memory,
}

impl Display for Fault {
    fn fmt<W: fmt::Write>(&self, f: &mut fmt::Formatter<W>) -> fmt::Result {
        match self {
            Fault::Device => f.write_str("device failed"),
            Fault::Memory => f.write_str("out of memory"),
        }
    }
}

/// Says how the program is called.
pub fn say_usage<E: Write>(err: &mut E) -> std::io::Result<()>
    ensures { OnOk result (Appends (E.contents err.old) (E.contents err.new) usage_line) }
{
    writeln!(
        err,
        "pcache: usage: pcache run | pcache storm THREADS STEPS [PATH] | pcache torture SEED ROUNDS | pcache over PATH SIZE | pcache shards SHARDS THREADS STEPS"
    )
}

/// Tells what a storm of so many calls came to. Where its history does not replay, or its device lost a block, that and the seed are
/// said on `err`, and where something failed what it was. Gives the status.
pub fn tell<W: Write, E: Write>(
    out: &mut Printer<W>,
    err: &mut E,
    calls: u64,
    seed: u64,
    storm: Result<Findings, Fault>,
) -> u8
    ensures { Tells calls storm result (W.contents out.old.writer) (W.contents out.new.writer) }
{
    match storm {
        Ok(findings) => {
            let _ = say_wrong(err, seed, &findings);
            tell_findings(out, err, calls, &findings)
        }
        Err(fault) => {
            let _ = writeln!(err, "pcache: {fault}");
            match fault {
                Fault::Device => 3,
                Fault::Memory => 4,
            }
        }
    }
}

/// Says what is wrong with a storm of this seed, if something is.
fn say_wrong<E: Write>(err: &mut E, seed: u64, findings: &Findings) -> io::Result<()> {
    if !findings.replays {
        writeln!(
            err,
            "pcache: storm of seed {seed}: an answer is not that of plain files"
        )?;
    }
    match findings.device {
        Keeping::Lost(block) => writeln!(
            err,
            "pcache: storm of seed {seed}: the device did not keep block {block}"
        ),
        Keeping::Odd(place) => writeln!(
            err,
            "pcache: storm of seed {seed}: entry {place} is not one of an honest device"
        ),
        Keeping::Kept | Keeping::Unplayed => Ok(()),
    }
}

fn tell_findings<W: Write, E: Write>(
    out: &mut Printer<W>,
    err: &mut E,
    calls: u64,
    findings: &Findings,
) -> u8
    ensures { Tells calls (Ok findings.now) result (W.contents out.old.writer) (W.contents out.new.writer) }
{
    match print_lines(out, calls, findings) {
        Ok(()) => u8::from(!findings.are_well()),
        Err(stop) => {
            let _ = writeln!(err, "pcache: {stop}");
            stop.status()
        }
    }
}

fn print_lines<W: Write>(out: &mut Printer<W>, calls: u64, findings: &Findings) -> Result<(), Stop>
    ensures fault { IfErr result IsPrintFault }
    ensures printed { OnOk result (Appends (W.contents out.old.writer) (W.contents out.new.writer) (lines_told calls findings.now)) }
    ensures begun { OnErr result (AppendsPart (W.contents out.old.writer) (W.contents out.new.writer) (lines_told calls findings.now)) }
{
    print_line(out, format_args!("calls {calls}"))?;
    print_findings(out, findings)?;
    flush(&mut out.writer)
}

fn print_findings<W: Write>(out: &mut Printer<W>, findings: &Findings) -> Result<(), Stop>
    ensures fault { IfErr result IsPrintFault }
    ensures printed { OnOk result (Appends (W.contents out.old.writer) (W.contents out.new.writer) (lines_found findings.now)) }
    ensures begun { OnErr result (AppendsPart (W.contents out.old.writer) (W.contents out.new.writer) (lines_found findings.now)) }
{
    print_replay(out, findings.replays)?;
    print_rest(out, findings)
}

fn print_rest<W: Write>(out: &mut Printer<W>, findings: &Findings) -> Result<(), Stop>
    ensures fault { IfErr result IsPrintFault }
    ensures printed { OnOk result (Appends (W.contents out.old.writer) (W.contents out.new.writer) (lines_left findings.now)) }
    ensures begun { OnErr result (AppendsPart (W.contents out.old.writer) (W.contents out.new.writer) (lines_left findings.now)) }
{
    print_refused(out, findings.refused)?;
    print_device(out, findings.device)
}

fn print_replay<W: Write>(out: &mut Printer<W>, replays: bool) -> Result<(), Stop>
    ensures { Writes result (ended (replay_text replays)) (W.contents out.old.writer) (W.contents out.new.writer) }
{
    if replays {
        print_line(out, "replay yes")
    } else {
        print_line(out, "replay no")
    }
}

fn print_refused<W: Write>(out: &mut Printer<W>, refused: Refused) -> Result<(), Stop>
    ensures { Writes result (ended (refused_text refused.times)) (W.contents out.old.writer) (W.contents out.new.writer) }
{
    print_line(out, refused)
}

fn print_device<W: Write>(out: &mut Printer<W>, device: Keeping) -> Result<(), Stop>
    ensures { Writes result (ended (device_text device)) (W.contents out.old.writer) (W.contents out.new.writer) }
{
    match device {
        Keeping::Kept => print_line(out, "device yes"),
        Keeping::Lost(block) => print_line(out, format_args!("device no {block}")),
        Keeping::Odd(place) => print_line(out, format_args!("device odd {place}")),
        Keeping::Unplayed => print_line(out, "device unplayed"),
    }
}
