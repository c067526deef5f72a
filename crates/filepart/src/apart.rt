//! What parts of one file are to each other.

ghost use Rattle.filepart.specs.Parts.{OutsideGoesOn, PartsAreApart};

/// What holds of parts of one file, one after another: calls of one leave the bytes of another that shares none with it.
pub fn parts_are_apart()
    ensures goes_on { OutsideGoesOn }
    ensures apart { PartsAreApart }
{}
