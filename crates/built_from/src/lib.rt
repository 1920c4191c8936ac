//! The commit that a packaged program is built from.
#![tactic(auto)]

mod commit;

pub use commit::commit_line;
