//! Stores of which nothing is claimed, so that a test may make any call on one and see what
//! happens.

ghost use Rattle.sqlite.specs.State.{HasCleanDisk};
ghost use Rattle.sqlite.specs.Held.{state};
ghost use Rattle.sqlite_trees.specs.View.{IsClean};

use sqlite::{Alter, Connection};

pub trait Unclaimed: Alter {
    ghost never_clean: { (store : Self) → ¬ IsClean (Self.Store.view store) };
}

/// So no contract asks anything of a call on a connection to such a store.
pub fn claims_nothing<S: Unclaimed>(conn: &Connection<S>)
    ensures { ¬ HasCleanDisk (state S.Store conn.now) }
{}
