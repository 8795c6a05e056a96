//! The members of groups.
ghost use Rattle.std.specs.Prelude.{pos};
ghost use Rattle.review_sql_tables.proofs.TextsOfLookups.{find_group, find_member};
ghost use Rattle.review_sql_records.specs.Forms.{group_members, member_parts, members};
ghost use Rattle.review_sql_records.specs.Laws.{member_table, members_of_group};
ghost use Rattle.review_sql_tables.specs.declared.texts.TheConstants as texts;

use crate::names::{numbered_at, stored_number};
use review_machine_rows::MemberKey;
use review_sql_tables::bound::Bound;
use review_sql_tables::fronts::Front;
use review_sql_tables::table::{Lookup, Record, Sql, Writes};
use review_sql_tables::texts;
use review_words::{AccountNo, GroupName};
use sqlite::{Error, Row};
use std::alloc::{AllocError, Global};

/// The members, each by its group and its account.
pub struct Members;

impl Lookup for Members {
    type Key = MemberKey;

    type Item = ();

    const SQL: Sql = Sql(texts::FIND_MEMBER);

    ghost SQL = { texts.FIND_MEMBER.now };

    ghost search = { members };

    fn bind<'a>(key: &'a MemberKey) -> Result<Bound<'a>, Error> {
        let values = Bound::new().text(key.group.as_str());
        Ok(values.number(key.account.get()))
    }

    fn read(_alloc: Global, _row: &Row) -> Result<Option<()>, AllocError> {
        Ok(Some(()))
    }

    ghost asks = { λ m. find_member m.group (pos m.account) };
}

impl Record for Members {
    type Key = MemberKey;

    type Item = ();

    ghost table = { member_table };

    fn writes() -> Writes {
        Writes::puts_in(texts::INSERT_MEMBER, texts::DELETE_MEMBER)
    }

    fn bind_key<'a>(key: &'a MemberKey) -> Result<Bound<'a>, Error> {
        let account = stored_number(key.account);
        Ok(Bound::new().text(key.group.as_str()).number(account))
    }

    fn bind_row<'a>(
        _alloc: Global,
        key: &'a MemberKey,
        _row: &'a (),
        _buffer: &'a mut String,
    ) -> Result<Bound<'a>, Error> {
        Members::bind_key(key)
    }
}

/// The members of a group, by their accounts.
pub struct GroupMembers;

impl Lookup for GroupMembers {
    type Key = GroupName;

    type Item = (AccountNo, ());

    const SQL: Sql = Sql(texts::FIND_GROUP);

    ghost SQL = { texts.FIND_GROUP.now };

    ghost search = { group_members };

    fn bind<'a>(key: &'a GroupName) -> Result<Bound<'a>, Error> {
        Ok(Bound::new().text(key.as_str()))
    }

    fn read(_alloc: Global, row: &Row) -> Result<Option<(AccountNo, ())>, AllocError> {
        let Some(account) = numbered_at(row, 0) else {
            return Ok(None);
        };
        Ok(Some((account, ())))
    }

    ghost asks = { find_group };
}

impl Front for GroupMembers {
    type Part = AccountNo;

    type Rest = ();

    ghost whole = { member_parts };

    ghost lawful = { members_of_group };
}
