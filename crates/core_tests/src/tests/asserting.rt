//! The assertions of most tests.

use std::alloc::{AllocError, Global};
use std::fmt::{Debug, Display};
use std::process::Abort;

/// Ends the test where a case told another value than is wanted.
pub fn same<T: PartialEq + Debug + Drop>(rt: &impl Abort, case: &str, told: T, want: T) {
    assert_eq!(rt; told, want, "{case}");
}

/// Ends the test where a value is displayed by another text.
pub fn displays(
    rt: &impl Abort,
    alloc: Global,
    value: &impl Display,
    want: &str,
) -> Result<(), AllocError> {
    let text = value.to_string(alloc)?;
    same(rt, "displayed", text.as_str(), want);
    Ok(())
}

/// Ends the test where a value is shown to programmers by another text.
pub fn debugs(
    rt: &impl Abort,
    alloc: Global,
    value: &impl Debug,
    want: &str,
) -> Result<(), AllocError> {
    let text = format!(in alloc; "{value:?}")?;
    same(rt, "shown", text.as_str(), want);
    Ok(())
}
