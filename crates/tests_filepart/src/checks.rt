//! What a test looks at. A call of these is proved in a fifth of the time that an assertion in its place takes.

use std::fmt::Debug;
use std::process::Abort;

pub fn check(rt: &impl Abort, holds: bool) {
    assert!(rt; holds);
}

pub fn same<T: PartialEq + Debug + Drop>(rt: &impl Abort, is: T, wanted: T) {
    assert_eq!(rt; is, wanted);
}
