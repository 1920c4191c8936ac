//! A disk that fails one call and goes on, for tests.
#![tactic(auto)]

mod once_failing;

pub use once_failing::OnceFailing;
