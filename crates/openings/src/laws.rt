//! Laws of openings: empty functions, each of which proves a fact of the definitions.

ghost use Rattle.openings.specs.Told.{CasesAreApart, MakingCasesAreApart, NothingHindersMaking};
ghost use Rattle.openings.specs.Told.{SoundHasNoDamage, SoundIsNotRefused};

use amount::columns_keep_order;
use audit::sound_rows_pass;
use rows::{BalanceRow, HistoryRow, StatusRow, read_in_order, rows_fit};

/// A law: of a database at most one fault is told, unless something is unavailable, and of a sound
/// ledger none. So each fault is told exactly in its case.
pub fn cases_are_apart()
    ensures apart { CasesAreApart }
    ensures sound { SoundIsNotRefused }
{
    sound_has_no_damage();
}

/// The same of what a making is refused for.
pub fn cases_of_making_are_apart()
    ensures apart { MakingCasesAreApart }
    ensures blank { NothingHindersMaking }
{}

/// A law: where one reading of all rows in order finds them sound, none finds damage.
pub fn sound_has_no_damage()
    ensures { SoundHasNoDamage }
{
    sound_rows_pass();
    rows_fit();
    columns_keep_order();
    read_in_order::<BalanceRow>();
    read_in_order::<StatusRow>();
    read_in_order::<HistoryRow>();
    read_in_order::<u128>();
}
