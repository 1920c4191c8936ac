//! What takes an account's entries.
ghost use Rattle.std.specs.Prelude.{◌≡◌, Bool, false, not};
ghost use Rattle.ledger_sql.specs.declared.entry_cells.EntryCells.{EntryCells};

use crate::entry_cells::EntryCells;

/// Takes the entries of an account, one after the other, until it is full. It is not called again
/// then.
pub trait EntrySink {
    // What taking an entry makes of the sink.
    ghost takes: { Self → EntryCells → Self → Type 0 };

    // Whether it wants no more.
    ghost is_full: { Self → Bool };

    /// Takes the next entry, and tells whether it wants more.
    fn entry(&mut self, entry: &EntryCells) -> bool
        requires { is_full self.old ≡ false }
        ensures taken { takes self.old entry.now self.new }
        ensures more { result ≡ not (is_full self.new) };
}
