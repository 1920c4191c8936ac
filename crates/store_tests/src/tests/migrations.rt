//! A worked ledger of an older version, whose transfer was posted too late: its rows in newer
//! versions, and its file migrated. What is expected is of `docs/MODEL.md`.

mod acts;
mod at_path;
mod database;
mod files;
mod fixture;
mod newer;
mod stops;
mod stored;
mod work;
