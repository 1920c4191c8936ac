//! Things on shelves, with the keys (shelf, name) and (shelf, place).

ghost use Rattle.std.specs.Prelude.{IfOk};
ghost use Rattle.keyed_trees.specs.Files.{IsFileOf};

use keyed_trees::{Columns, Committed, Key, Layout, Record, Transaction, write_values};
use sqlite_sql::query::Index;
use sqlite_trees::error::StoreError;
use sqlite_trees::memory::MemStore;
use sqlite_trees::schema::Object;
use sqlite_trees::store::{Shape, Store};
use sqlite_value::keys::Order;
use sqlite_value::row::Row;
use sqlite_value::value::ValueRef;
use std::alloc::{AllocError, Global};
use std::test::Fail;

pub(crate) struct Shelves;

impl Layout for Shelves {
    ghost use Rattle.std.specs.Prelude.{[], ◌∷◌};
    ghost use Rattle.std.proofs.Common.{rules};
    ghost use Rattle.sqlite_value.specs.Keys.{plain};

    ghost schema = { record { tables = []; indexes = []; views = [] } };

    ghost tables = { 0 ∷ [] };

    ghost keys = { record { tree = 1; table = 0; columns = 1 ∷ 2 ∷ []; order = plain }
        ∷ record { tree = 2; table = 0; columns = 1 ∷ 3 ∷ []; order = plain } ∷ [] };

    ghost is_row = { λ _ _. Unit {0} };

    ghost is_listed = { λ _. Unit {0} };

    ghost is_whole = { λ _. Unit {0} };

    ghost apart = { Prim.search rules };

    ghost unlisted = { Prim.search rules };

    fn tables() -> &'static [u32] {
        &[0]
    }

    fn catalog() -> &'static [Index<'static>] {
        &[
            Index {
                tree: 1,
                table: 0,
                columns: &[1, 2],
                order: Order::PLAIN,
            },
            Index {
                tree: 2,
                table: 0,
                columns: &[1, 3],
                order: Order::PLAIN,
            },
        ]
    }
}

#[derive(Clone, Copy, Debug, PartialEq)]
pub(crate) struct Thing {
    pub shelf: i64,
    pub name: i64,
    pub place: i64,
}

impl Record<Shelves> for Thing {
    ghost use Rattle.std.specs.Prelude.{[], ◌∷◌};
    ghost use Rattle.std.proofs.Common.{rules};
    ghost use Rattle.sqlite_value.specs.declared.value.Value.TheVariants.{Int};

    ghost table = { 0 };

    ghost cells = { λ thing. Int thing.shelf ∷ Int thing.name ∷ Int thing.place ∷ [] };

    ghost listed = { Prim.search rules };

    fn table() -> u32 {
        0
    }

    fn write(&self, row: &mut Row) -> Result<(), AllocError> {
        row.push(ValueRef::Int(self.shelf))?;
        row.push(ValueRef::Int(self.name))?;
        row.push(ValueRef::Int(self.place))
    }

    fn read(columns: &mut Columns<'_>) -> Result<Thing, StoreError> {
        Ok(Thing {
            shelf: columns.integer()?,
            name: columns.integer()?,
            place: columns.integer()?,
        })
    }
}

/// A row of the same table whose columns have other types.
#[derive(Debug, Drop, PartialEq)]
pub(crate) struct Label {
    pub code: [u8; 2],
    pub text: String,
}

impl Record<Shelves> for Label {
    ghost use Rattle.std.specs.Prelude.{[], ◌∷◌, string_bytes};
    ghost use Rattle.std.proofs.Common.{rules};
    ghost use Rattle.sqlite_value.specs.declared.value.Value.TheVariants.{Blob, Null, Text};

    ghost table = { 0 };

    ghost cells = { λ label. Null ∷ Blob label.code ∷ Text (string_bytes label.text) ∷ [] };

    ghost listed = { Prim.search rules };

    fn table() -> u32 {
        0
    }

    fn write(&self, row: &mut Row) -> Result<(), AllocError> {
        write_values(
            row,
            &[
                ValueRef::Null,
                ValueRef::Blob(&self.code),
                ValueRef::Text(self.text.as_bytes()),
            ],
        )
    }

    fn read(columns: &mut Columns<'_>) -> Result<Label, StoreError> {
        columns.null()?;
        Ok(Label {
            code: columns.bytes()?,
            text: columns.text()?,
        })
    }
}

pub(crate) struct ByName;

impl Key<Shelves> for ByName {
    ghost use Rattle.std.specs.Prelude.{[], ◌∷◌};
    ghost use Rattle.std.proofs.Common.{rules};
    ghost use Rattle.sqlite_value.specs.Keys.{plain};

    type Of = Thing;

    ghost shape = { record { tree = 1; table = 0; columns = 1 ∷ 2 ∷ []; order = plain } };

    ghost listed = { Prim.search rules };

    fn index() -> Index<'static> {
        Index {
            tree: 1,
            table: 0,
            columns: &[1, 2],
            order: Order::PLAIN,
        }
    }
}

pub(crate) struct ByPlace;

impl Key<Shelves> for ByPlace {
    ghost use Rattle.std.specs.Prelude.{[], ◌∷◌};
    ghost use Rattle.std.proofs.Common.{rules};
    ghost use Rattle.sqlite_value.specs.Keys.{plain};

    type Of = Thing;

    ghost shape = { record { tree = 2; table = 0; columns = 1 ∷ 3 ∷ []; order = plain } };

    ghost listed = { Prim.search rules };

    fn index() -> Index<'static> {
        Index {
            tree: 2,
            table: 0,
            columns: &[1, 3],
            order: Order::PLAIN,
        }
    }
}

pub(crate) fn object(name: &'static str, shape: Shape, sql: &'static str) -> Object<'static> {
    Object {
        shape,
        kind: if matches!(shape, Shape::Table) {
            "table"
        } else {
            "index"
        },
        name,
        table: "thing",
        reals: 0,
        sql: Some(sql),
    }
}

/// A store in memory with these objects and no rows.
pub(crate) fn store_of(alloc: Global, objects: &[Object<'_>]) -> Result<MemStore, Fail>
    ensures { IfOk result (IsFileOf ⟦<Shelves as Layout>⟧ ⟦<MemStore as Store>⟧) }
{
    Ok(MemStore::new(alloc, objects)?)
}

pub(crate) fn store(alloc: Global) -> Result<MemStore, Fail>
    ensures { IfOk result (IsFileOf ⟦<Shelves as Layout>⟧ ⟦<MemStore as Store>⟧) }
{
    store_of(
        alloc,
        &[
            object(
                "thing",
                Shape::Table,
                "CREATE TABLE thing (shelf, name, place)",
            ),
            object(
                "by_name",
                Shape::Index(Order::PLAIN),
                "CREATE INDEX by_name ON thing (shelf, name)",
            ),
            object(
                "by_place",
                Shape::Index(Order::PLAIN),
                "CREATE INDEX by_place ON thing (shelf, place)",
            ),
        ],
    )
}

pub(crate) fn things(alloc: Global) -> Result<Committed<MemStore, Shelves>, Fail> {
    match Committed::over(alloc, store(alloc)?) {
        Ok(tables) => Ok(tables),
        Err(_) => Err(Fail::from(StoreError::Broken)),
    }
}

pub(crate) fn begin(
    tables: Committed<MemStore, Shelves>,
) -> Result<Transaction<MemStore, Shelves>, Fail> {
    tables.begin().map_err(|_| Fail::from(StoreError::Broken))
}

pub(crate) fn numbers(alloc: Global, numbers: &[i64]) -> Result<Row, AllocError> {
    let mut row = Row::new(alloc);
    for number in numbers {
        row.push(ValueRef::Int(*number))?;
    }
    Ok(row)
}

pub(crate) fn placed(shelf: i64, name: i64, place: i64) -> Thing {
    Thing { shelf, name, place }
}
