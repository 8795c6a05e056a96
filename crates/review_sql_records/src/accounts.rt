//! The accounts, by their numbers and by their names.
ghost use Rattle.std.specs.Prelude.{pos};
ghost use Rattle.review_sql_tables.proofs.TextsOfLookups.{find_account, find_account_named, find_last_account};
ghost use Rattle.review_sql_records.specs.Forms.{account_names, account_numbers, accounts};
ghost use Rattle.review_sql_records.specs.Laws.{account_table};
ghost use Rattle.review_sql_tables.specs.declared.texts.TheConstants as texts;

use crate::names::{name_at, numbered_at, stored_number};
use review_sql_tables::bound::Bound;
use review_sql_tables::columns::number_at;
use review_sql_tables::greatest::Greatest;
use review_sql_tables::table::{Lookup, Record, Sql, Writes};
use review_sql_tables::texts;
use review_words::{AccountName, AccountNo};
use sqlite::{Error, Row};
use std::alloc::{AllocError, Global};

/// The accounts by their numbers.
pub struct Accounts;

impl Lookup for Accounts {
    type Key = AccountNo;

    type Item = AccountName;

    const SQL: Sql = Sql(texts::FIND_ACCOUNT);

    ghost SQL = { texts.FIND_ACCOUNT.now };

    ghost search = { accounts };

    fn bind<'a>(key: &'a AccountNo) -> Result<Bound<'a>, Error> {
        Ok(Bound::new().number(key.get()))
    }

    fn read(alloc: Global, row: &Row) -> Result<Option<AccountName>, AllocError> {
        name_at(alloc, row, 0)
    }

    ghost asks = { λ number. find_account (pos number) };
}

impl Record for Accounts {
    type Key = AccountNo;

    type Item = AccountName;

    ghost table = { account_table };

    fn writes() -> Writes {
        Writes::puts_in(texts::INSERT_ACCOUNT, texts::DELETE_ACCOUNT)
    }

    fn bind_key<'a>(key: &'a AccountNo) -> Result<Bound<'a>, Error> {
        Ok(Bound::new().number(stored_number(*key)))
    }

    fn bind_row<'a>(
        _alloc: Global,
        key: &'a AccountNo,
        row: &'a AccountName,
        _buffer: &'a mut String,
    ) -> Result<Bound<'a>, Error> {
        Ok(Accounts::bind_key(key)?.text(row.as_str()))
    }
}

/// The accounts by their names.
pub struct AccountNames;

impl Lookup for AccountNames {
    type Key = AccountName;

    type Item = AccountNo;

    const SQL: Sql = Sql(texts::FIND_ACCOUNT_NAMED);

    ghost SQL = { texts.FIND_ACCOUNT_NAMED.now };

    ghost search = { account_names };

    fn bind<'a>(key: &'a AccountName) -> Result<Bound<'a>, Error> {
        Ok(Bound::new().text(key.as_str()))
    }

    fn read(_alloc: Global, row: &Row) -> Result<Option<AccountNo>, AllocError> {
        Ok(numbered_at(row, 0))
    }

    ghost asks = { find_account_named };
}

/// The greatest number of an account.
pub struct LastAccount;

impl Greatest for LastAccount {
    type Key = ();

    type Item = u64;

    const SQL: Sql = Sql(texts::FIND_LAST_ACCOUNT);

    ghost SQL = { texts.FIND_LAST_ACCOUNT.now };

    ghost search = { account_numbers };

    ghost place = { 0 };

    fn bind<'a>(_key: &'a ()) -> Result<Bound<'a>, Error> {
        Ok(Bound::new())
    }

    fn read(_alloc: Global, row: &Row) -> Result<Option<u64>, AllocError> {
        Ok(number_at(row, 0))
    }

    ghost asks = { λ _. find_last_account };
}
