//! The reviewers and CCs of changes.
ghost use Rattle.{std.specs.Prelude.pos, review_sql_tables.proofs.TextsOfLookups.find_reviewers};
ghost use Rattle.review_sql_change_records.specs.Forms.{change_roles, roles};
ghost use Rattle.review_sql_change_records.specs.Laws.{role_table, roles_of_change};
ghost use Rattle.review_sql_tables.specs.declared.texts.TheConstants as texts;

use crate::values::role_at;
use review_sql_records::names::{numbered_at, stored_number};
use review_sql_tables::bound::Bound;
use review_sql_tables::fronts::Front;
use review_sql_tables::table::{Lookup, Record, Sql, Writes};
use review_sql_tables::texts;
use review_words::{AccountNo, ChangeNo, Role};
use sqlite::{Error, Row};
use std::alloc::{AllocError, Global};

/// The reviewers and CCs of a change, by their accounts.
pub struct Roles;

impl Lookup for Roles {
    type Key = ChangeNo;

    type Item = (AccountNo, Role);

    const SQL: Sql = Sql(texts::FIND_REVIEWERS);

    ghost SQL = { texts.FIND_REVIEWERS.now };

    ghost search = { change_roles };

    fn bind<'a>(key: &'a ChangeNo) -> Result<Bound<'a>, Error> {
        Ok(Bound::new().number(key.get()))
    }

    fn read(_alloc: Global, row: &Row) -> Result<Option<(AccountNo, Role)>, AllocError> {
        Ok(numbered_at(row, 0).zip(role_at(row, 1)))
    }

    ghost asks = { λ change. find_reviewers (pos change) };
}

impl Front for Roles {
    type Part = AccountNo;

    type Rest = Role;

    ghost whole = { roles };

    ghost lawful = { roles_of_change };
}

impl Record for Roles {
    type Key = (ChangeNo, AccountNo);

    type Item = Role;

    ghost table = { role_table };

    fn writes() -> Writes {
        Writes::replaces(texts::INSERT_REVIEWER, texts::DELETE_REVIEWER)
    }

    fn bind_key<'a>(key: &'a (ChangeNo, AccountNo)) -> Result<Bound<'a>, Error> {
        let (change, account) = (stored_number(key.0), stored_number(key.1));
        Ok(Bound::new().number(change).number(account))
    }

    fn bind_row<'a>(
        _alloc: Global,
        key: &'a (ChangeNo, AccountNo),
        row: &'a Role,
        _buffer: &'a mut String,
    ) -> Result<Bound<'a>, Error> {
        let values = Roles::bind_key(key)?;
        Ok(values.text(row.name()))
    }
}
