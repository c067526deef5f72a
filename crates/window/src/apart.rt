//! What windows of one device are to each other.

ghost use Rattle.window.specs.Windows.{OutsideGoesOn, WindowsAreApart};

/// What holds of windows of one device, one after another: calls of one leave the blocks of another that shares none with it.
pub fn windows_are_apart()
    ensures goes_on { OutsideGoesOn }
    ensures apart { WindowsAreApart }
{}
