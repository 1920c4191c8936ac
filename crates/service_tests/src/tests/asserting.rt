//! The one assertion of most tests.

use std::fmt::Debug;
use std::process::Abort;

/// Ends the test where a case told another value than is wanted.
pub fn same<T: PartialEq + Debug + Drop>(rt: &impl Abort, case: &str, told: T, want: T) {
    assert_eq!(rt; told, want, "{case}");
}
