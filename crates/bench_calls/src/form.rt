//! The two forms in which a call is timed: as the compiler inlines it, and behind a call that it may not inline.

ghost use Rattle.std.specs.Prelude.{◌<◌};

use std::alloc::Global;

/// A call that is timed. It is said once; a form makes it.
pub trait Call {
    /// What the call is made on.
    type On;

    /// Makes the call at an index, or at what stands for one. Its answer is added to the others; it is none where nothing was
    /// found, or memory was refused.
    fn make(on: &mut Self::On, index: u64) -> Option<u64>;
}

/// How a call is made.
pub trait Form {
    fn call<C: Call>(on: &mut C::On, index: u64) -> Option<u64>;
}

/// The compiler may inline the call into the loop.
pub struct Inlined;

impl Form for Inlined {
    #[inline(always)]
    fn call<C: Call>(on: &mut C::On, index: u64) -> Option<u64> {
        C::make(on, index)
    }
}

/// The call stays a call.
pub struct Outlined;

impl Form for Outlined {
    #[inline(never)]
    fn call<C: Call>(on: &mut C::On, index: u64) -> Option<u64> {
        C::make(on, index)
    }
}

/// A row that is printed in each form.
pub trait Timed: Copy {
    /// What its calls are made on, anew in each round.
    type On: Drop;

    fn label(self) -> &'static str;

    /// By how many a time is divided: the calls, or the entries found.
    fn count(self) -> u64
        ensures { 0 < result };

    /// What the row starts from, where there is memory for it.
    fn start(self, alloc: Global, order: &[u64]) -> Option<Self::On>;

    /// Runs what is timed, and gives the sum of its answers, where there is memory for it.
    fn run<F: Form>(self, on: &mut Self::On, order: &[u64]) -> Option<u64>;
}
