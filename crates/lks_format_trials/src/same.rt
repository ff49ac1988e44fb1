//! What is found beside what is wanted.

use std::fmt::Debug;
use std::process::Abort;

/// Ends the test where the two differ, and says at which row: a call of it costs a proof one step, and an `assert_eq`
/// many.
pub fn same<T: PartialEq + Debug>(rt: &impl Abort, found: &T, wanted: &T, row: &impl Debug) {
    assert_eq!(rt; *found, *wanted, "{row:?}");
}
