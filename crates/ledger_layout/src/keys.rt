//! The unique keys of the tables.

use crate::file_rows::TenantEntry;
use crate::indexes::{HISTORY_BY_ENTRY, TENANT_BY_DIGEST, TENANT_BY_NAME};
use crate::kind::{Identified, TenantRow, Timed};
use crate::layout::LedgerLayout;
use keyed_trees::Key;
use rows::HistoryCells;
use sqlite_sql::query::Index;
use std::marker::PhantomData;

/// The key (tenant, id).
pub struct ById<C: Identified> {
    kind: PhantomData<C>,
}

impl<C: Identified> Key<LedgerLayout> for ById<C> {
    ghost use Rattle.ledger_layout.specs.Keys.{by_id};

    type Of = TenantRow<C>;

    ghost shape = { by_id C.table };

    ghost listed = { C.keyed };

    fn index() -> Index<'static> {
        C::id_index()
    }
}

/// The key (tenant, timestamp).
pub struct ByTime<C: Timed> {
    kind: PhantomData<C>,
}

impl<C: Timed> Key<LedgerLayout> for ByTime<C> {
    ghost use Rattle.ledger_layout.specs.Keys.{by_time};

    type Of = TenantRow<C>;

    ghost shape = { by_time C.table C.time_at };

    ghost listed = { C.ordered };

    fn index() -> Index<'static> {
        C::time_index()
    }
}

/// The key (tenant, account, timestamp) of the history.
pub struct ByEntry;

impl Key<LedgerLayout> for ByEntry {
    ghost use Rattle.std.specs.Prelude.{refl};
    ghost use Rattle.std.proofs.Common.{rules};
    ghost use Rattle.ledger_layout.specs.Keys.{by_entry};

    type Of = TenantRow<HistoryCells>;

    ghost shape = { by_entry };

    ghost listed = { (8, Prim.search rules, refl) };

    fn index() -> Index<'static> {
        HISTORY_BY_ENTRY
    }
}

/// The key of the directory by a tenant's name.
pub struct ByName;

impl Key<LedgerLayout> for ByName {
    ghost use Rattle.std.specs.Prelude.{refl};
    ghost use Rattle.std.proofs.Common.{rules};
    ghost use Rattle.ledger_layout.specs.Keys.{by_name};

    type Of = TenantEntry;

    ghost shape = { by_name };

    ghost listed = { (0, Prim.search rules, refl) };

    fn index() -> Index<'static> {
        TENANT_BY_NAME
    }
}

/// The key of the directory by the digest of a tenant's key.
pub struct ByDigest;

impl Key<LedgerLayout> for ByDigest {
    ghost use Rattle.std.specs.Prelude.{refl};
    ghost use Rattle.std.proofs.Common.{rules};
    ghost use Rattle.ledger_layout.specs.Keys.{by_digest};

    type Of = TenantEntry;

    ghost shape = { by_digest };

    ghost listed = { (1, Prim.search rules, refl) };

    fn index() -> Index<'static> {
        TENANT_BY_DIGEST
    }
}
