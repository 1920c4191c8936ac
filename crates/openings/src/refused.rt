//! An opening that was refused, and whether what the files held stands.

use crate::opening::OpenFault;

/// Why two files were not opened, and what is known of them now.
#[derive(Clone, Copy, Debug, PartialEq, Eq)]
pub struct Refused {
    pub fault: OpenFault,
    /// The files hold what they held. It is not known only where the database's own opening refused
    /// them.
    pub stands: bool,
}
