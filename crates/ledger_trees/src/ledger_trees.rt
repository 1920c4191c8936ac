//! The tables of a ledger over a store.

ghost use Rattle.std.specs.Prelude.{◌≡◌, false, IfErr, IfOk, IsTrue};
ghost use Rattle.sqlite_trees.specs.View.{IsClean, IsQuiet};
ghost use Rattle.ledger_trees.specs.Files.{IsLedgerStore};

use keyed_trees::Tables;
use ledger_layout::{LedgerLayout, law_committed_trees_are_sound};
use sqlite_trees::store::Store;
use sqlite_value::row::Row;
use std::alloc::Global;
use std::marker::Model;

/// The tables of a ledger, in a transaction or outside one.
#[derive(Drop)]
pub struct LedgerTrees<S: Store> {
    pub(crate) tables: Tables<S, LedgerLayout>,
    pub(crate) alloc: Global,
    /// The values of the key of a call.
    pub(crate) key: Row,
}

impl<S: Store> Model for LedgerTrees<S> {
    ghost use Rattle.keyed_trees.specs.Kept.{Kept, kept_code};

    ghost Value = { Kept S };

    ghost coded = { kept_code S.code };

    ghost view = { λ t. t.tables };
}

impl<S: Store> LedgerTrees<S> {
    /// The tables of a ledger over the store of its file, whose open transaction is undone. The
    /// store is given back where it is shut, or where its trees are not those of a ledger.
    pub fn over(alloc: Global, store: S) -> Result<LedgerTrees<S>, S>
        requires { IsLedgerStore S.Store store }
        ensures trees { IfOk result (λ t. IsClean (S.Store.view t.store) →
            (S.Store.view t.store).trees ≡ (S.Store.view store).committed) }
        ensures settled { IfOk result (λ t. IsClean (S.Store.view t.store) →
            (S.Store.view t.store).trees ≡ (S.Store.view t.store).committed) }
        ensures open { IfOk result (λ t. IsClean (S.Store.view t.store) →
            IsTrue (S.Store.view t.store).is_open) }
        ensures out { IfOk result (λ t. t.in_transaction ≡ false) }
        ensures quiet { IfOk result (λ t. IsQuiet S.Store.view S.Store.faults S.Store.recovers
            S.Store.is_shielded store t.store) }
        ensures unharmed { IfErr result (λ left. IsQuiet S.Store.view S.Store.faults
            S.Store.recovers S.Store.is_shielded store left) }
        ensures kept { IfErr result (IsLedgerStore S.Store) }
    {
        law_committed_trees_are_sound();
        match Tables::over(alloc, store) {
            Ok(tables) => Ok(LedgerTrees {
                tables,
                alloc,
                key: Row::new(alloc),
            }),
            Err(store) => Err(store),
        }
    }

    /// The store, with what an open transaction has written.
    pub fn into_store(self) -> S
        ensures same { result ≡ self.store }
        ensures file { IsLedgerStore S.Store result }
    {
        law_committed_trees_are_sound();
        let LedgerTrees { tables, .. } = self;
        tables.into_store()
    }

    /// A law: the store is that of a ledger's file, after each call.
    pub fn law_is_ledger_store(&self)
        ensures { IsLedgerStore S.Store self.now.store }
    {
        law_committed_trees_are_sound();
        self.tables.law_is_file();
    }
}
