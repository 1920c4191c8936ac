//! Why replies are not marked.

use std::io;

/// Why replies are not marked.
#[derive(Drop)]
pub(crate) enum Trouble {
    /// What stands in the place of FILE-sums cannot be read, and is left alone.
    Unreadable(io::Error),
    /// FILE-sums cannot be made or written.
    Unwritable(io::Error),
}

impl Trouble {
    /// Reports it of the file at this path.
    pub(crate) fn report(&self, rt: &HostRuntime, path: &str) {
        let _ = match self {
            Trouble::Unreadable(error) => rt.eprintln(format_args!(
                "{path}-sums: {error}: it is left alone, and a log that goes missing may not be \
                noticed"
            )),
            Trouble::Unwritable(error) => rt.eprintln(format_args!(
                "{path}-sums: {error}: a log that goes missing may not be noticed"
            )),
        };
    }
}
