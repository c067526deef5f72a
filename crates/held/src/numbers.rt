//! The numbers of syncs.

ghost use Rattle.held.specs.Numbers.{NumbersStay};

/// No number is given to a sync while a seat has one of that number in progress by its own entries, if each seat ends such syncs
/// alone.
pub fn sync_numbers_stay()
    ensures { NumbersStay }
{}
