//! Laws of the rows and keys of a ledger's file: empty functions, each of which proves a fact of the
//! definitions.

ghost use Rattle.ledger_rules.specs.Whole.{SoundTreesAreWhole, WholeTreesAreSound};
ghost use Rattle.ledger_rules.specs.Written.{LedgerRowsFit};

/// A law: the rows that a ledger writes fit their tables.
pub fn law_ledger_rows_fit()
    ensures { LedgerRowsFit }
{}

/// A law: the rows of a sound file are a ledger's, their keys are their own, each key has its
/// entries, and the file lists the ledger's tables.
pub fn law_sound_trees_are_whole()
    ensures { SoundTreesAreWhole }
{}

/// A law: a file of which all that is so is sound.
pub fn law_whole_trees_are_sound()
    ensures { WholeTreesAreSound }
{}
