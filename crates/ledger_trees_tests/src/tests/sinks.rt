//! What takes an account's entries in a test.

ghost use Rattle.std.specs.Prelude.{◌≡◌, false};

use ledger_sql::{EntryCells, EntrySink};
use std::alloc::Global;

/// Takes entries until it has four, or memory runs out.
#[derive(Drop)]
pub struct Taken {
    pub entries: Vec<EntryCells>,
    pub is_full: bool,
}

impl Taken {
    pub fn new(alloc: Global) -> Taken
        ensures { result.is_full ≡ false }
    {
        Taken {
            entries: Vec::new(alloc),
            is_full: false,
        }
    }
}

impl EntrySink for Taken {
    ghost takes = { λ _ _ _. Unit {0} };

    ghost is_full = { λ taken. taken.is_full };

    fn entry(&mut self, entry: &EntryCells) -> bool {
        let pushed = self.entries.push(*entry).is_ok();
        self.is_full = !pushed || self.entries.len() >= 4;
        !self.is_full
    }
}
