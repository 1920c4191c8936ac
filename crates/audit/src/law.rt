ghost use Rattle.audit.specs.Laws.{Laws};
ghost use Rattle.audit.specs.Sound.{SoundRowsPass};

use engine::valid_exactly_entry_by_entry;
use rows::{
    BalanceRow, HistoryRow, StatusRow, cells_tell_rows, keys_are_distinct, read_in_order, rows_fit,
    rows_stand_in_order,
};
use running::{replayed_is_valid, valid_replays};

/// What the crates below tell of all valid machines and their rows. It does nothing: its contract
/// is a law.
pub(crate) fn known_laws()
    ensures { Laws }
{
    cells_tell_rows();
    rows_fit();
    keys_are_distinct();
    rows_stand_in_order();
    read_in_order::<BalanceRow>();
    read_in_order::<StatusRow>();
    read_in_order::<HistoryRow>();
    valid_replays();
    replayed_is_valid();
    valid_exactly_entry_by_entry();
}

/// The rows of a valid machine have no damage. It does nothing: its contract is a law.
pub fn sound_rows_pass()
    ensures { SoundRowsPass }
{
    known_laws();
}
