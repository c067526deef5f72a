//! What is found of a storm, as it is printed.

ghost use Rattle.std.specs.Prelude.{◌≡◌, ◌-◌, ◌+◌, ◌<◌, Some, min, replicate, slice_index_or, slice_set};
ghost use Rattle.pc_types.specs.Refusals.{refusal_number};
ghost use Rattle.storm_text.specs.Told.{AreAdded, are_well, counted, is_kept, no_times, refused_text};

use pc_types::Refusal;
use std::fmt;
use std::fmt::Display;

/// The greatest number of a refusal.
const NUMBERS: usize = 24;

/// How often calls were refused, by the number of the refusal: how often by number N stands at place N - 1.
#[derive(Clone, Copy, PartialEq, Eq, Debug)]
pub struct Refused {
    pub times: [u64; NUMBERS],
}

impl Refused {
    /// No call was refused.
    pub fn none() -> Refused
        ensures { result.times ≡ replicate 24 0 }
    {
        Refused {
            times: [0; NUMBERS],
        }
    }

    /// Counts a refusal, up to the greatest number of 64 bits.
    #[tactic(auto, using(crate::proofs::Numbers::number_fits))]
    pub fn count(&mut self, refusal: Refusal)
        ensures { self.new.times ≡ (let place = refusal_number refusal - 1 in slice_set self.old.times place (min (slice_index_or self.old.times place 0 + 1) u64.MAX)) }
    {
        let place = refusal.number() as usize - 1;
        self.times[place] = self.times[place].saturating_add(1);
    }

    /// Counts what another one counted, up to the greatest number of 64 bits.
    #[tactic(auto, using(crate::proofs::Adding::none_added, crate::proofs::Adding::added_next, crate::proofs::Adding::all_added))]
    pub fn add(&mut self, other: &Refused)
        ensures { AreAdded self.old.times other.now.times self.new.times }
    {
        for place in 0..NUMBERS {
            self.times[place] = self.times[place].saturating_add(other.times[place]);
        }
    }

    fn is_none(&self) -> bool
        ensures { result ≡ no_times self.now.times }
    {
        self.times.iter().all(|times| *times == 0)
    }
}

impl Display for Refused {
    ghost output = { λ r. Some (refused_text r.times) };

    fn fmt<W: fmt::Write>(&self, f: &mut fmt::Formatter<W>) -> fmt::Result {
        f.write_str("refused")?;
        if self.is_none() {
            return f.write_str(" none");
        }
        for place in 0..NUMBERS {
            let counted = Counted {
                number: place as u64 + 1,
                times: self.times[place],
            };
            write!(f, "{counted}")?;
        }
        Ok(())
    }
}

/// How often calls were refused by a number. Nothing is printed where none was.
#[derive(Clone, Copy)]
struct Counted {
    number: u64,
    times: u64,
}

impl Display for Counted {
    ghost output = { λ c. Some (counted c.number c.times) };

    fn fmt<W: fmt::Write>(&self, f: &mut fmt::Formatter<W>) -> fmt::Result {
        if self.times == 0 {
            return Ok(());
        }
        write!(f, " {}:{}", self.number, self.times)
    }
}

/// Whether the device of a storm kept what was written to it.
#[derive(Clone, Copy, PartialEq, Eq, Debug)]
pub enum Keeping {
    /// It has what the history leaves on it, and each read gave that.
    Kept,
    /// Not this block.
    Lost(u64),
    /// The history is no honest device's from the entry at this place on.
    Odd(u64),
    /// The history was not played again.
    Unplayed,
}

impl Keeping {
    /// Whether nothing was found that an honest device does not do.
    pub fn is_kept(self) -> bool
        ensures { result ≡ is_kept self }
    {
        match self {
            Keeping::Kept | Keeping::Unplayed => true,
            Keeping::Lost(_) | Keeping::Odd(_) => false,
        }
    }
}

/// What is found of a storm.
#[derive(Clone, Copy, Debug)]
pub struct Findings {
    /// Whether its history is that of plain files.
    pub replays: bool,
    pub refused: Refused,
    pub device: Keeping,
}

impl Findings {
    /// Whether the history is that of plain files, and the device kept what was written to it.
    pub fn are_well(&self) -> bool
        ensures { result ≡ are_well self.now }
    {
        self.replays && self.device.is_kept()
    }
}
