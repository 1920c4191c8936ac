//! Where the files of a store are.

use openings::open_tables::OpenTables;
use sqlite::Files;
use sqlite_disk::Disk;

/// Where the files are.
#[derive(Drop)]
pub(crate) enum Place<D: Disk> {
    /// In open tables, or in tables that a fault of the disk has shut.
    Open(OpenTables<D>),
    /// With the store itself, since they could not be opened again.
    Shut(Files<D>),
}
