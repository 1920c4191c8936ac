//! Laws of statements in parts. The functions do nothing; their contracts are the laws.
ghost use Rattle.parts.specs.Parts.{BeginsWhole, RestsStay};

/// What is left of a statement is the same in each later ledger of its tenant: entries never
/// change, and those that come are later than the clock at which the statement was asked for.
pub fn rests_stay()
    ensures { RestsStay }
{}

/// Before anything of a statement is told all of it is left.
pub fn begins_whole()
    ensures { BeginsWhole }
{}
