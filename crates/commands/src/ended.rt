use chain::InUse;
use control::Answer;
use migrate::LedgerOfVersion;
use sqlite::Files;
use sqlite_disk::Disk;
use store::Store;

/// What a command leaves where it ends without a fault.
#[derive(Drop)]
pub(crate) struct Ended<'a, O, D: Disk + Drop> {
    /// Standard output.
    pub(crate) out: O,
    /// Whether damage was told there.
    pub(crate) is_damaged: bool,
    /// The file that has become a new ledger, if it has.
    pub(crate) made: Option<&'a str>,
    /// The line that says what is in a file that was read whole.
    pub(crate) contents: Option<String>,
    pub(crate) held: Held<D>,
}

/// What a command has of the ledger in a file, where it ends.
#[derive(Drop)]
pub(crate) enum Held<D: Disk + Drop> {
    Nothing,
    /// The service that has the file has answered so.
    Asked(Answer),
    Opened(InUse<Store<D>>),
    /// It was brought to a version.
    Migrated(LedgerOfVersion<D>),
    /// It was not opened, as it is damaged.
    Damaged(Files<D>),
}
