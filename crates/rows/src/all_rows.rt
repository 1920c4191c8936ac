use crate::TenantRows;

/// A tenant in the directory.
#[derive(Debug, Drop, PartialEq, Eq)]
pub struct DirectoryRow {
    /// The number under which the tables keep the tenant's rows.
    pub number: i64,
    pub name: String,
    /// The digest of the tenant's key.
    pub digest: [u8; 32],
}

/// The rows of the tenant whose key has this digest.
#[derive(Debug, Drop, PartialEq, Eq)]
pub struct TenantOfDigest {
    pub digest: [u8; 32],
    pub rows: TenantRows,
}

/// All rows of a file.
#[derive(Debug, Drop, PartialEq, Eq)]
pub struct AllRows {
    /// The version of the schema, from 1 to 3.
    pub version: u32,
    /// In order of the tenants' numbers.
    pub directory: Vec<DirectoryRow>,
    /// One for each row of the directory, in the same order.
    pub tenants: Vec<TenantOfDigest>,
}
