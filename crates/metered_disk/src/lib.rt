//! A disk that counts its syncs, how long they took, and the calls that failed.
#![tactic(auto)]

mod files;
mod meter;
mod metered;
mod reading;

pub use files::measured;
pub use meter::Meter;
pub use metered::Metered;
pub use reading::Reading;
