//! The fewest calls that show a difference, found by halving.

ghost use Rattle.std.specs.Prelude.{◌<◌, ◌≤◌, IfOk};

use crate::told::Fault;

/// A run of any number of calls, of which each is the beginning of a longer one.
pub trait Trial {
    /// Whether a run of so many calls shows a difference.
    fn shows(&mut self, calls: u64) -> Result<bool, Fault>;
}

/// The fewest calls that show the difference, which so many show.
pub fn fewest<T: Trial>(trial: &mut T, most: u64) -> Result<u64, Fault>
    ensures { IfOk result (λ n. n ≤ most) }
{
    let mut none = 0;
    let mut some = most;
    'halves: while none < some {
        let middle = none + (some - none) / 2;
        if trial.shows(middle)? {
            some = middle;
        } else {
            none = middle + 1;
        }
    }
    Ok(some)
}
