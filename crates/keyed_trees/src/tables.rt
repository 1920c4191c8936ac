//! Tables over a store, in a transaction or outside one.

ghost use Rattle.std.specs.Prelude.{◌≡◌, false, IfErr, IfOk, IsTrue};
ghost use Rattle.sqlite_trees.specs.View.{IsClean, IsQuiet};
ghost use Rattle.keyed_trees.specs.Files.{IsFileOf};

mod reading;
mod stages;
mod writing;

use crate::buffers::Buffers;
use crate::checking;
use crate::layout::Layout;
use crate::next_rowids::NextRowids;
use sqlite_sql::query::Index;
use sqlite_trees::store::Store;
use std::alloc::Global;
use std::marker::{Model, PhantomData};

/// The tables of a layout over a store. A call that fails may have undone the transaction.
#[derive(Drop)]
pub struct Tables<S: Store, L: Layout> {
    store: S,
    catalog: &'static [Index<'static>],
    in_transaction: bool,
    next: NextRowids,
    alloc: Global,
    buffers: Buffers,
    layout: PhantomData<L>,
}

impl<S: Store, L: Layout> Model for Tables<S, L> {
    ghost use Rattle.keyed_trees.specs.Kept.{Kept, kept_code};
    ghost use Rattle.keyed_trees.specs.Serving.{KeepsTables};

    ghost Value = { Kept S };

    ghost coded = { kept_code S.code };

    ghost view = { λ t. record { store = t.store; in_transaction = t.in_transaction } };

    ghost invariant = { λ t. KeepsTables L.Layout S.Store t.store t.catalog.now t.next
        t.in_transaction };
}

impl<S: Store, L: Layout> Tables<S, L> {
    /// Tables over a store, whose open transaction is undone. The store is given back where it is
    /// shut, or where its trees do not have the shapes of the layout.
    pub fn over(alloc: Global, mut store: S) -> Result<Tables<S, L>, S>
        requires { IsFileOf L.Layout S.Store store }
        ensures trees { IfOk result (λ t. IsClean (S.Store.view t.store) →
            (S.Store.view t.store).trees ≡ (S.Store.view store).committed) }
        ensures settled { IfOk result (λ t. IsClean (S.Store.view t.store) →
            (S.Store.view t.store).trees ≡ (S.Store.view t.store).committed) }
        ensures open { IfOk result (λ t. IsClean (S.Store.view t.store) →
            IsTrue (S.Store.view t.store).is_open) }
        ensures out { IfOk result (λ t. t.in_transaction ≡ false) }
        ensures quiet { IfOk result (λ t. IsQuiet S.Store.view S.Store.faults S.Store.recovers
            S.Store.is_shielded store t.store) }
        ensures unharmed { IfErr result (λ left. IsQuiet S.Store.view S.Store.faults
            S.Store.recovers S.Store.is_shielded store left) }
        ensures kept { IfErr result (IsFileOf L.Layout S.Store) }
    {
        store.rollback();
        let catalog = L::catalog();
        if !checking::fits(&store, L::tables(), catalog) {
            return Err(store);
        }
        Ok(Tables {
            store,
            catalog,
            in_transaction: false,
            next: NextRowids::new(alloc),
            alloc,
            buffers: Buffers::new(alloc),
            layout: PhantomData,
        })
    }

    /// Whether a transaction is open.
    pub fn is_in_transaction(&self) -> bool
        ensures { result ≡ self.now.in_transaction }
    {
        self.in_transaction
    }

    /// Whether the store is open: false after a failure that only another opening mends.
    pub fn is_open(&self) -> bool
        ensures { IsClean (S.Store.view self.now.store) →
            result ≡ (S.Store.view self.now.store).is_open }
    {
        !self.store.is_broken()
    }

    /// The store, with what an open transaction has written.
    pub fn into_store(self) -> S
        ensures same { result ≡ self.store }
        ensures file { IsFileOf L.Layout S.Store result }
    {
        let Tables { store, .. } = self;
        store
    }

    /// A law: the store is that of a file with these tables, after each call.
    pub fn law_is_file(&self)
        ensures { IsFileOf L.Layout S.Store self.now.store }
    {
        let _ = &self.store;
    }
}
