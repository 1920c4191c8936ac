mod shelves;

use keyed_trees::{Committed, Range, Tables, Transaction};
use shelves::{
    ByName, ByPlace, Label, Shelves, Thing, begin, numbers, object, placed, store, store_of, things,
};
use sqlite_trees::error::StoreError;
use sqlite_trees::memory::MemStore;
use sqlite_trees::store::{Direction, Shape};
use std::alloc::Global;
use std::rt::HostRuntime;
use std::test::Fail;

#[test]
fn rows_are_found_by_each_key_and_set(rt: HostRuntime) -> Result<(), Fail> {
    let alloc = rt.alloc();
    let mut tables = begin(things(rt.alloc())?)?;
    tables.add(&placed(7, 1, 30))?;
    tables.add(&placed(7, 2, 20))?;
    let key = numbers(alloc, &[7, 2])?;
    assert_eq!(&rt; tables.find::<ByName>(&key)?, Some((2, placed(7, 2, 20))));
    tables.set::<ByName>(&key, &placed(7, 2, 25))?;
    assert_eq!(&rt;
        tables.find::<ByPlace>(&numbers(alloc, &[7, 25])?)?,
        Some((2, placed(7, 2, 25)))
    );
    assert_eq!(&rt; tables.find::<ByPlace>(&numbers(alloc, &[7, 20])?)?, None);
    assert_eq!(&rt; tables.find_at::<Thing>(2)?, Some((2, placed(7, 2, 25))));
    assert_eq!(&rt; tables.find_at::<Thing>(3)?, None);
    Ok(())
}

/// Four things on two shelves, with the rowids 1 to 4.
fn four_things(alloc: Global) -> Result<Transaction<MemStore, Shelves>, Fail> {
    let mut tables = begin(things(alloc)?)?;
    tables.add(&placed(7, 1, 30))?;
    tables.add(&placed(7, 2, 20))?;
    tables.add(&placed(7, 3, 40))?;
    tables.add(&placed(8, 1, 10))?;
    Ok(tables)
}

#[test]
fn a_range_is_walked_in_either_order(rt: HostRuntime) -> Result<(), Fail> {
    let alloc = rt.alloc();
    let mut tables = four_things(alloc)?;
    let shelf = numbers(alloc, &[7])?;
    let low = numbers(alloc, &[7, 20])?;
    let high = numbers(alloc, &[7, 30])?;
    let up = Range {
        start: &low,
        stop: &high,
        direction: Direction::Forward,
    };
    assert_eq!(&rt;
        tables.range::<ByPlace>(&up, 9)?.as_slice(),
        [(2, placed(7, 2, 20)), (1, placed(7, 1, 30))].as_slice()
    );
    let down = Range {
        start: &shelf,
        stop: &shelf,
        direction: Direction::Backward,
    };
    assert_eq!(&rt;
        tables.range::<ByPlace>(&down, 2)?.as_slice(),
        [(3, placed(7, 3, 40)), (1, placed(7, 1, 30))].as_slice()
    );
    assert_eq!(&rt;
        tables.all_in_range::<ByPlace>(&down)?.as_slice(),
        [
            (3, placed(7, 3, 40)),
            (1, placed(7, 1, 30)),
            (2, placed(7, 2, 20))
        ]
        .as_slice()
    );
    Ok(())
}

#[test]
fn a_table_is_read_whole_without_the_row_removed(rt: HostRuntime) -> Result<(), Fail> {
    let alloc = rt.alloc();
    let mut tables = four_things(alloc)?;
    tables.remove::<Thing>(2)?;
    tables.remove::<Thing>(9)?;
    assert_eq!(&rt;
        tables.rows::<Thing>()?.as_slice(),
        [
            (1, placed(7, 1, 30)),
            (3, placed(7, 3, 40)),
            (4, placed(8, 1, 10))
        ]
        .as_slice()
    );
    assert_eq!(&rt; tables.find::<ByName>(&numbers(alloc, &[7, 2])?)?, None);
    Ok(())
}

#[test]
fn a_rowid_that_is_taken_is_refused(rt: HostRuntime) -> Result<(), Fail> {
    let alloc = rt.alloc();
    let mut tables = begin(things(rt.alloc())?)?;
    tables.add_at(5, &placed(7, 1, 30))?;
    tables.add(&placed(7, 2, 20))?;
    assert_eq!(&rt;
        tables.find::<ByName>(&numbers(alloc, &[7, 2])?)?,
        Some((6, placed(7, 2, 20)))
    );
    assert_eq!(&rt;
        tables.add_at(5, &placed(7, 3, 10)),
        Err(StoreError::Unstorable)
    );
    assert_eq!(&rt; tables.find_at::<Thing>(5)?, None);
    Ok(())
}

#[test]
fn what_is_undone_gives_its_rowids_back(rt: HostRuntime) -> Result<(), Fail> {
    let mut tables = begin(things(rt.alloc())?)?;
    tables.add(&placed(7, 1, 10))?;
    tables.mark()?;
    tables.add(&placed(7, 2, 20))?;
    tables.back_to_mark()?;
    tables.add(&placed(7, 3, 30))?;
    assert_eq!(&rt; tables.find_at::<Thing>(2)?, Some((2, placed(7, 3, 30))));
    tables.release_mark()?;
    tables.put(9, &placed(7, 9, 90))?;
    tables.add(&placed(7, 4, 40))?;
    assert_eq!(&rt; tables.find_at::<Thing>(10)?, Some((10, placed(7, 4, 40))));
    let mut tables = begin(tables.rollback())?;
    tables.add(&placed(7, 5, 50))?;
    assert_eq!(&rt; tables.find_at::<Thing>(1)?, Some((1, placed(7, 5, 50))));
    let (outcome, mut tables) = tables.commit();
    outcome?;
    assert_eq!(&rt; tables.find_at::<Thing>(1)?, Some((1, placed(7, 5, 50))));
    Ok(())
}

#[test]
fn a_store_that_is_given_back_has_what_was_committed(rt: HostRuntime) -> Result<(), Fail> {
    let (outcome, tables) = four_things(rt.alloc())?.commit();
    outcome?;
    assert!(&rt; tables.is_open());
    let Ok(mut again) = Committed::<MemStore, Shelves>::over(rt.alloc(), tables.into_store()) else {
        panic!(&rt; "the store was refused");
    };
    assert_eq!(&rt; again.rows::<Thing>()?.len(), 4);
    Ok(())
}

#[test]
fn a_write_outside_a_transaction_fails(rt: HostRuntime) -> Result<(), Fail> {
    let Ok(mut tables) = Tables::<MemStore, Shelves>::over(rt.alloc(), store(rt.alloc())?) else {
        panic!(&rt; "the store was refused");
    };
    assert_eq!(&rt; tables.add(&placed(7, 1, 10)), Err(StoreError::Broken));
    tables.begin()?;
    tables.add(&placed(7, 1, 10))?;
    tables.commit()?;
    assert_eq!(&rt; tables.commit(), Err(StoreError::Broken));
    assert_eq!(&rt; tables.find_at::<Thing>(1)?, Some((1, placed(7, 1, 10))));
    Ok(())
}

#[test]
fn a_store_with_other_trees_is_refused(rt: HostRuntime) -> Result<(), Fail> {
    let alloc = rt.alloc();
    let other = store_of(
        alloc,
        &[object(
            "thing",
            Shape::Table,
            "CREATE TABLE thing (shelf, name, place)",
        )],
    )?;
    assert!(&rt; Committed::<MemStore, Shelves>::over(alloc, other).is_err());
    Ok(())
}

#[test]
fn columns_of_each_type_are_read_back(rt: HostRuntime) -> Result<(), Fail> {
    let alloc = rt.alloc();
    let mut tables = begin(things(alloc)?)?;
    tables.add(&Label {
        code: [1, 2],
        text: String::from_str(alloc, "glass")?,
    })?;
    let Some((1, label)) = tables.find_at::<Label>(1)? else {
        panic!(&rt; "the row was not found");
    };
    assert_eq!(&rt; label.code, [1, 2]);
    assert_eq!(&rt; label.text.as_str(), "glass");
    assert_eq!(&rt; tables.find_at::<Thing>(1), Err(StoreError::Unstorable));
    Ok(())
}
