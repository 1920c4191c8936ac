//! Tables of which nothing is claimed, so that a test may make any call on them and see what
//! happens.

ghost use Rattle.std.specs.Prelude.{◌≡◌};
ghost use Rattle.std.proofs.Common.{subst};
ghost use Rattle.sqlite.specs.State.{HasCleanDisk};
ghost use Rattle.sqlite_trees.specs.View.{doubt, IsClean};
ghost use Rattle.sqlite_trees.proofs.Doubt.{never_clean};
ghost use Rattle.sqlite_pool.proofs.StateLemmas.{clean_is};

use super::doubted::Store;
use keyed_trees::Tables;
use ledger_layout::LedgerLayout;
use ledger_tables::LedgerTables;
use ledger_trees::LedgerTrees;
use sqlite::Connection;
use sqlite_trees::store::Store as Trees;

pub trait Unclaimed: LedgerTables {
    ghost never_clean: { (tables : Self) → ¬ HasCleanDisk (Self.LedgerTables.state tables) };
}

/// So no contract asks anything of a call on such tables.
pub fn claims_nothing<T: Unclaimed>(tables: &T)
    ensures { ¬ HasCleanDisk (T.LedgerTables.state tables.now) }
{}

impl Unclaimed for Connection<Store> {
    ghost never_clean = { λ tables clean. never_clean
        (subst (λ b. doubt b ≡ 0) (clean_is tables.store.pool) clean) };
}

impl Unclaimed for LedgerTrees<Store> {
    ghost never_clean = { λ tables clean. never_clean
        (subst (λ b. doubt b ≡ 0) (clean_is tables.store.pool) clean) };
}

/// A store whose disk is in doubt.
pub trait Doubtful: Trees {
    ghost never_clean: { (store : Self) → ¬ IsClean (Self.Store.view store) };
}

/// So no contract asks anything of what is made of such a store.
pub fn store_claims_nothing<S: Doubtful>(store: &S)
    ensures { ¬ IsClean (S.Store.view store.now) }
{}

/// Nor of a call on tables over it.
pub fn tables_claim_nothing<S: Doubtful>(tables: &Tables<S, LedgerLayout>)
    ensures { ¬ IsClean (S.Store.view tables.now.store) }
{}

impl Doubtful for Store {
    ghost never_clean = { λ store clean. never_clean
        (subst (λ b. doubt b ≡ 0) (clean_is store.pool) clean) };
}
