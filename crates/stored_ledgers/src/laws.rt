//! Laws of stores. The functions do nothing; their contracts are the laws.

ghost use Rattle.stored_ledgers.specs.Joining.{JoiningAddsOne};
ghost use Rattle.stored_ledgers.specs.Keying.{KeyingMovesKey};
ghost use Rattle.stored_ledgers.specs.Names.{JoiningGivesName, KeyingGivesName};
ghost use Rattle.stored_ledgers.specs.Overdue.{WholeSearchTells};

/// A tenant that joins has a new machine, where it had none, and every other tenant's stays.
pub fn joining_adds_one()
    ensures { JoiningAddsOne }
{}

/// A tenant whose key is changed has its machine under the new digest, and none under the old one;
/// every other tenant's stays.
pub fn keying_moves_key()
    ensures { KeyingMovesKey }
{}

/// A name under which a tenant has joined goes together with its digest, and so does the name of a
/// tenant whose key was changed with the new one; every other name stays.
pub fn names_are_given()
    ensures joining { JoiningGivesName }
    ensures keying { KeyingGivesName }
{}

/// Where a search from the first tenant on finds none and begins anew, no tenant's open pending
/// transfer has been due for a second.
pub fn whole_search_tells()
    ensures { WholeSearchTells }
{}
