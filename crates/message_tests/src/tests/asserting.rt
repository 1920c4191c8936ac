//! The assertions about the rows of a table. What a function asserts is spelled out in it, with its
//! message, each time that `assert!` stands there, and the check takes so much the longer.

use std::fmt::Debug;
use std::process::Abort;

/// Ends the test where this does not hold of a case.
pub fn holds<C: Debug + Drop>(rt: &impl Abort, case: C, it: bool) {
    assert!(rt; it, "{case:?}");
}

/// Ends the test where a case told another value than is wanted.
pub fn same<C: Debug + Drop, T: PartialEq + Debug + Drop>(
    rt: &impl Abort,
    case: C,
    told: T,
    want: T,
) {
    assert_eq!(rt; told, want, "{case:?}");
}
