//! What a test looks at. A call of this is proved in a fifth of the time that an assertion in its place takes.

use std::process::Abort;

pub fn check(rt: &impl Abort, holds: bool) {
    assert!(rt; holds);
}
