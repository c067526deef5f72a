//! What a call answers to C: a count or a number, or the number of a refusal, below 0.

ghost use Rattle.std.specs.Prelude.{◌≡◌, ℕ, pos, Ok, Err, IfErr};
ghost use Rattle.pc_types.specs.declared.refusal.Refusal.TheVariants.{BadHandle};
ghost use Rattle.pcache_c.specs.Answers.{bad_handle, misfit_answer, refusal_answer};

use catalog::Misfit;
use pc_types::Refusal;

/// What a call answers that waits for jobs.
pub(crate) const WAITS: i64 = -32;

const BAD_HANDLE: i64 = -4;

/// What a call answers where there is no cache.
pub(crate) fn no_cache() -> i64
    ensures { result ≡ bad_handle }
{
    BAD_HANDLE
}

/// The refusal's number, below 0.
#[tactic(auto, using(crate::proofs::Numbers::few))]
pub(crate) fn refused(refusal: Refusal) -> i64
    ensures { result ≡ refusal_answer refusal }
{
    let number = refusal.number();
    -(number as i64)
}

/// Why a list of files is refused: the number of a refusal, where one says it.
pub(crate) fn misfit(why: Misfit) -> i64
    ensures { result ≡ misfit_answer why }
{
    match why {
        Misfit::TooManyFiles => refused(Refusal::TooManyFiles),
        Misfit::TooLarge => refused(Refusal::TooLarge),
        Misfit::NoSuchFile => refused(Refusal::NoSuchFile),
        Misfit::Memory => refused(Refusal::Memory),
        Misfit::Empty => -40,
        Misfit::PastSize => -41,
        Misfit::OutOfOrder => -42,
        Misfit::PastDevice => -43,
        Misfit::BlockTwice => -44,
    }
}

/// A count, or the refusal's number below 0.
pub(crate) fn answer(done: Result<u64, Refusal>) -> i64
    ensures counted { (n : ℕ) → result ≡ pos n → done ≡ Ok n }
    ensures refused { IfErr done (λ r. result ≡ refusal_answer r) }
{
    match done {
        Ok(count) => match i64::try_from(count) {
            Ok(count) => count,
            Err(_) => refused(Refusal::TooLarge),
        },
        Err(refusal) => refused(refusal),
    }
}

/// The code of a device call that failed, or 0.
pub(crate) fn io_code(done: &Result<u64, Refusal>) -> u16
    ensures { done.now ≡ Err BadHandle → result ≡ 0 }
{
    match done {
        Err(Refusal::Io(code)) => code.code(),
        _ => 0,
    }
}
