//! What was found of rounds, as it is told.

ghost use Rattle.std.specs.Prelude.{◌≡◌, ◌<◌, ◌≤◌, ℕ, Ok, IfErr, IfNone, IfSome, OnErr, OnOk};
ghost use Rattle.std.specs.Io.KnownBytes.{Appends};
ghost use Rattle.textline.specs.Prints.{AppendsPart, IsPrintFault, ended};
ghost use Rattle.textline.specs.Words.{IsNumber};
ghost use Rattle.storm_text.specs.Asked.{IsNumberUpTo};
ghost use Rattle.torture.specs.Told.{AsksFor, Tells, findings_text};

pub use crate::due::Wrong;
use std::fmt;
use std::fmt::Display;
use std::io::Write;
use storm_text::Refused;
use textline::words::number;
use textline::{Printer, Stop, flush, print_line};

/// The most rounds.
const MOST_ROUNDS: u64 = 1_000_000;

/// Why the rounds were not played.
#[derive(Clone, Copy, PartialEq, Eq, Debug)]
pub enum Fault {
    Memory,
}

/// What is asked for.
#[derive(Clone, Copy, PartialEq, Eq, Debug)]
pub struct Options {
    pub seed: u64,
    pub rounds: u64,
}

impl Options {
    /// What the words after `torture` ask for, where they are `SEED ROUNDS`.
    pub fn parse(words: &[&str]) -> Option<Options>
        ensures asked { IfSome result (AsksFor words.now) }
        ensures none { IfNone result ((o : Options) → ¬ (AsksFor words.now o)) }
    {
        if words.len() != 2 {
            return None;
        }
        let seed = number(words[0].as_bytes())?;
        let rounds = number_up_to(words[1], MOST_ROUNDS)?;
        Some(Options { seed, rounds })
    }
}

/// The number that a word is, where it is one from 1 to `most`.
#[tactic(auto, using(crate::proofs::Prints::one_number))]
fn number_up_to(word: &str, most: u64) -> Option<u64>
    ensures value { IfSome result (IsNumberUpTo most word.now) }
    ensures none { IfNone result ((n : ℕ) → ¬ (IsNumberUpTo most word.now n)) }
{
    let number = number(word.as_bytes())?;
    if number == 0 || number > most {
        return None;
    }
    Some(number)
}

/// A difference: the fewest calls of a round that show it.
#[derive(Clone, Copy, PartialEq, Eq, Debug)]
pub struct Difference {
    pub seed: u64,
    pub round: u64,
    pub calls: u64,
}

impl Display for Difference {
    ghost use Rattle.std.specs.Prelude.{Some};
    ghost use Rattle.torture.specs.Told.{difference_text};

    ghost output = { λ d. Some (difference_text d) };

    fn fmt<W: fmt::Write>(&self, f: &mut fmt::Formatter<W>) -> fmt::Result {
        write!(
            f,
            "agree no: seed {}, round {}, calls {}",
            self.seed, self.round, self.calls
        )
    }
}

/// What was found.
#[derive(Clone, Copy, PartialEq, Eq, Debug)]
pub struct Findings {
    pub rounds: u64,
    pub calls: u64,
    pub refused: Refused,
    pub faults: u64,
    pub difference: Option<Difference>,
}

/// Whether all answers were those of plain files, or which difference there is.
#[derive(Clone, Copy)]
struct Agreement(Option<Difference>);

impl Display for Agreement {
    ghost use Rattle.std.specs.Prelude.{Some};
    ghost use Rattle.torture.specs.Told.{agreement_text};

    ghost output = { λ a. Some (agreement_text a.0) };

    fn fmt<W: fmt::Write>(&self, f: &mut fmt::Formatter<W>) -> fmt::Result {
        match &self.0 {
            Some(difference) => write!(f, "{difference}"),
            None => f.write_str("agree yes"),
        }
    }
}

/// How many rounds were played, and calls made.
#[derive(Clone, Copy)]
struct Counts {
    rounds: u64,
    calls: u64,
}

impl Display for Counts {
    ghost use Rattle.std.specs.Prelude.{Some};
    ghost use Rattle.torture.specs.Told.{counts_text};

    ghost output = { λ c. Some (counts_text c.rounds c.calls) };

    fn fmt<W: fmt::Write>(&self, f: &mut fmt::Formatter<W>) -> fmt::Result {
        write!(f, "rounds {}\ncalls {}", self.rounds, self.calls)
    }
}

/// By what calls were refused, and how many device calls failed.
#[derive(Clone, Copy)]
struct Trouble {
    refused: Refused,
    faults: u64,
}

impl Display for Trouble {
    ghost use Rattle.std.specs.Prelude.{Some};
    ghost use Rattle.torture.specs.Told.{trouble_text};

    ghost output = { λ t. Some (trouble_text t.refused.times t.faults) };

    fn fmt<W: fmt::Write>(&self, f: &mut fmt::Formatter<W>) -> fmt::Result {
        let refused = self.refused;
        let faults = self.faults;
        write!(f, "{refused}\nfaults {faults}")
    }
}

impl Display for Findings {
    ghost use Rattle.std.specs.Prelude.{Some};
    ghost use Rattle.torture.specs.Told.{findings_text};

    ghost output = { λ f. Some (findings_text f) };

    fn fmt<W: fmt::Write>(&self, f: &mut fmt::Formatter<W>) -> fmt::Result {
        let counts = Counts {
            rounds: self.rounds,
            calls: self.calls,
        };
        let trouble = Trouble {
            refused: self.refused,
            faults: self.faults,
        };
        let agreement = Agreement(self.difference);
        write!(f, "{counts}\n{trouble}\n{agreement}")
    }
}

/// Tells what was found, and gives the status.
pub fn tell<W: Write, E: Write>(
    out: &mut Printer<W>,
    err: &mut E,
    findings: Result<Findings, Fault>,
) -> u8
    ensures { Tells findings result (W.contents out.old.writer) (W.contents out.new.writer) }
{
    match findings {
        Ok(findings) => tell_findings(out, err, &findings),
        Err(Fault::Memory) => {
            let _ = writeln!(err, "pcache: out of memory");
            4
        }
    }
}

fn tell_findings<W: Write, E: Write>(out: &mut Printer<W>, err: &mut E, findings: &Findings) -> u8
    ensures { Tells (Ok findings.now) result (W.contents out.old.writer) (W.contents out.new.writer) }
{
    match print(out, *findings) {
        Ok(()) => u8::from(findings.difference.is_some()),
        Err(stop) => {
            let _ = writeln!(err, "pcache: {stop}");
            stop.status()
        }
    }
}

fn print<W: Write>(out: &mut Printer<W>, findings: Findings) -> Result<(), Stop>
    ensures fault { IfErr result IsPrintFault }
    ensures printed { OnOk result (Appends (W.contents out.old.writer) (W.contents out.new.writer) (ended (findings_text findings))) }
    ensures begun { OnErr result (AppendsPart (W.contents out.old.writer) (W.contents out.new.writer) (ended (findings_text findings))) }
{
    print_line(out, findings)?;
    flush(&mut out.writer)
}
