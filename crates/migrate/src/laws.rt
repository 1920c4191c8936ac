//! Laws of migration: empty functions, each of which proves a fact of the definitions.

ghost use Rattle.migrate.specs.Told.{OlderCasesAreApart, SoundOlderIsNotRefused};

use openings::laws::{cases_are_apart, sound_has_no_damage};

/// A law: of a database an opening for a migration tells at most one fault, unless something is
/// unavailable, and of a sound ledger of a version that it knows none. So each fault is told
/// exactly in its case.
pub fn cases_of_a_migration_are_apart()
    ensures apart { OlderCasesAreApart }
    ensures sound { SoundOlderIsNotRefused }
{
    cases_are_apart();
    sound_has_no_damage();
}
