//! Keys of tables, and tables by numbers of accounts: each call that can want for memory, with ample memory.

use crate::fault::Fault;
use review_table::{BadRows, Key, RowEdit, Table};
use review_words::{AccountNo, Form, LabelName};
use std::alloc::{AllocError, Global};
use std::test::Fail;

/// Whether the copy of a label's name is that name.
fn is_copied(alloc: Global) -> Result<bool, Fault> {
    let label = LabelName::read(alloc, "Verified")?;
    let copy = Key::copy(&label)?;
    Ok(copy == label)
}

#[test]
fn a_key_is_copied(rt: HostRuntime) -> Result<(), Fail> {
    assert!(rt; is_copied(rt.alloc())?);
    Ok(())
}

/// The account of a number, or the last one.
fn account(number: u64) -> AccountNo {
    AccountNo::from_number(number).unwrap_or(AccountNo::last())
}

/// The table of 30 at account 3 and 10 at account 1.
fn first_table(alloc: Global) -> Result<Table<AccountNo, u8>, AllocError> {
    let mut table = Table::new(alloc);
    table.put(account(3), 30u8)?;
    table.put(account(1), 10)?;
    Ok(table)
}

fn row(table: &Table<AccountNo, u8>, number: u64) -> Option<u8> {
    table.get(&account(number)).copied()
}

/// 20 at account 2 and nothing at account 3.
fn changes(alloc: Global) -> Result<Vec<RowEdit<AccountNo, u8>>, AllocError> {
    let mut changes = Vec::new(alloc);
    changes.push(RowEdit {
        key: account(2),
        row: Some(20u8),
    })?;
    changes.push(RowEdit {
        key: account(3),
        row: None,
    })?;
    Ok(changes)
}

fn make_changes(alloc: Global, table: &mut Table<AccountNo, u8>) -> Result<(), AllocError> {
    let changes = changes(alloc)?;
    table.reserve_all(&changes)?;
    table.apply(changes);
    Ok(())
}

/// The first table with these changes.
fn changed_table(alloc: Global) -> Result<Table<AccountNo, u8>, AllocError> {
    let mut table = first_table(alloc)?;
    make_changes(alloc, &mut table)?;
    Ok(table)
}

#[test]
fn changes_are_made(rt: HostRuntime) -> Result<(), Fail> {
    let table = changed_table(rt.alloc())?;
    assert_eq!(rt; row(&table, 2), Some(20));
    assert_eq!(rt; row(&table, 3), None);
    assert_eq!(rt; table.last_key().copied(), Some(account(2)));
    assert_eq!(rt; table.rows(rt.alloc())?.len(), 2);
    assert_eq!(rt; table.select(rt.alloc(), account(2), account(9))?.len(), 1);
    let rows = table.into_rows(rt.alloc())?;
    assert_eq!(rt;
        rows.as_slice(),
        [(account(1), 10), (account(2), 20)].as_slice()
    );
    Ok(())
}

/// The row at account 1 of the table of two rows.
fn row_of(alloc: Global, first: u64, second: u64) -> Result<Option<u8>, BadRows> {
    let Ok(rows) = vec![in alloc; (account(first), 20u8), (account(second), 10)] else {
        return Err(BadRows::Memory);
    };
    let table = Table::from_vec(alloc, rows)?;
    Ok(row(&table, 1))
}

#[test]
fn each_key_stands_once(rt: HostRuntime) {
    assert_eq!(rt; row_of(rt.alloc(), 2, 1), Ok(Some(10)));
    assert_eq!(rt; row_of(rt.alloc(), 2, 2), Err(BadRows::Double));
}

#[test]
fn a_row_is_taken_out_and_put_back(rt: HostRuntime) -> Result<(), Fail> {
    let mut table = first_table(rt.alloc())?;
    assert_eq!(rt; table.take(account(3)), Some(30));
    assert_eq!(rt; table.take(account(3)), None);
    assert_eq!(rt; row(&table, 3), None);
    table.restore(account(3), 31);
    assert_eq!(rt; row(&table, 3), Some(31));
    assert_eq!(rt; row(&table, 1), Some(10));
    Ok(())
}

#[test]
fn a_row_is_put_where_a_place_was_made(rt: HostRuntime) -> Result<(), Fail> {
    let mut table = first_table(rt.alloc())?;
    table.restore(account(2), 20);
    assert_eq!(rt; row(&table, 2), None);
    table.reserve(account(2))?;
    assert_eq!(rt; row(&table, 2), None);
    table.restore(account(2), 20);
    assert_eq!(rt; row(&table, 2), Some(20));
    assert_eq!(rt; table.rows(rt.alloc())?.len(), 3);
    Ok(())
}
