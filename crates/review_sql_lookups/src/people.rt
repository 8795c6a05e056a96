//! What is looked up of accounts and groups.
ghost use Rattle.std.specs.Ordering.{nat_cmp};
ghost use Rattle.std.specs.Prelude.{◌≡◌, ℕ, List, true, false, Some, None};
ghost use Rattle.{sqlite.specs.Held.state, sqlite_trees.specs.Tree.Trees, review_table.specs.Rows.rows_of};
ghost use Rattle.review_sql_tables.specs.{Ran.Looks, Search.HasGreatest, Search.HasOne, Search.row_at};
ghost use Rattle.review_machine_rows.specs.{Known.HasMembers, declared.rows.MemberKey.MemberKey};
ghost use Rattle.review_sql_records.specs.Forms.{accounts, account_names, account_numbers, members};
ghost use Rattle.review_sql_lookups.specs.{Loads.IfTold, Loads.Sees, Tables.tables_at};
ghost use Rattle.review_machine_rows.specs.declared.rows.Want.TheVariants as want;

use crate::Sight;
use crate::plain::{last, whole};
use crate::told::{Told, ToldByGreatest};
use review_machine_rows::Found;
use review_sql_records::accounts::{AccountNames, Accounts, LastAccount};
use review_sql_records::members::{GroupMembers, Members};
use review_sql_tables::fronts::find_parts;
use review_sql_tables::reads::{find, find_any};
use review_table::Table;
use review_words::{AccountName, AccountNo, GroupName};
use sqlite::{Alter, Error, Transaction};
use std::alloc::Global;

// The account of a number.
impl Told for Accounts {
    ghost asked = { want.Account };

    #[tactic(auto, using(crate::proofs::Telling::told_whole))]
    fn tell(found: Option<Option<AccountName>>) -> Sight
        ensures { (number : ℕ) (db : Trees) → found ≡ row_at accounts db number → Sees (want.Account number) db result }
    {
        match whole(found) {
            Ok(name) => Sight::Found(Found::Name(name)),
            Err(sight) => sight,
        }
    }
}

// The greatest number of an account.
impl ToldByGreatest for LastAccount {
    ghost asked = { λ _. want.LastAccount };

    fn tell(found: Option<Option<u64>>) -> Sight
        ensures { (u : Unit {0}) (db : Trees) → HasGreatest account_numbers 0 u db found → Sees want.LastAccount db result }
    {
        match last(found) {
            Some(number) => Sight::Found(Found::Number(u64::from(number))),
            None => Sight::Damaged,
        }
    }
}

// Whether an account is a member of a group.
impl Told for Members {
    ghost asked = { want.Member };

    #[tactic(auto, using(crate::proofs::Telling::is_member_told))]
    fn tell(found: Option<Option<()>>) -> Sight
        ensures { (member : MemberKey) (db : Trees) → found ≡ row_at members db member → Sees (want.Member member) db result }
    {
        match whole(found) {
            Ok(row) => Sight::Found(Found::IsSo(row.is_some())),
            Err(sight) => sight,
        }
    }
}

/// All members of a group; none where the tables are those of no history.
pub fn find_group<S: Alter>(
    tx: &mut Transaction<'_, S>,
    alloc: Global,
    group: &GroupName,
) -> Result<Option<Table<AccountNo, ()>>, Error>
    ensures same_reference { tx.new.conn.ghost_name ≡ tx.old.conn.ghost_name }
    ensures looks { Looks (λ db found. IfTold db (λ t. HasMembers (tables_at db).row group.now (rows_of t)) found) (state S.Store tx.old.conn.now) (state S.Store tx.new.conn.now) result }
{
    let found = find_parts::<GroupMembers, S>(tx, alloc, group)?;
    Ok(found)
}

// Whether an account has a name.
fn is_named(named: &Option<Option<AccountName>>, name: &AccountName) -> bool
    ensures is { result ≡ true → named.now ≡ Some (Some name.now) }
    ensures other { result ≡ false → named.now ≡ Some (Some name.now) → ⊥ }
{
    match named {
        Some(Some(other)) => other.as_str() == name.as_str(),
        _ => false,
    }
}

fn tell_holder(name: &AccountName, number: AccountNo, named: Option<Option<AccountName>>) -> Sight
    ensures { (db : Trees) → HasOne account_names name.now db (Some (Some number)) → named ≡ row_at accounts db number → Sees (want.AccountNamed name.now) db result }
{
    if !is_named(&named, name) {
        return Sight::Damaged;
    }
    Sight::Found(Found::Holder(Some(number)))
}

fn no_holder() -> Sight
    ensures { (name : List ℕ) (db : Trees) → HasOne account_names name db None → Sees (want.AccountNamed name) db result }
{
    Sight::Found(Found::Holder(None))
}

/// The account of a name. The name is looked up first, and then the account that has it.
pub fn find_holder<S: Alter>(
    tx: &mut Transaction<'_, S>,
    alloc: Global,
    name: &AccountName,
) -> Result<Sight, Error>
    ensures same_reference { tx.new.conn.ghost_name ≡ tx.old.conn.ghost_name }
    ensures looks { Looks (Sees (want.AccountNamed name.now)) (state S.Store tx.old.conn.now) (state S.Store tx.new.conn.now) result }
{
    let found = find_any::<AccountNames, S>(tx, alloc, name)?;
    match found {
        Some(Some(number)) => {
            let named = find::<Accounts, S>(tx, alloc, &number)?;
            Ok(tell_holder(name, number, named))
        }
        Some(None) => Ok(Sight::Damaged),
        None => Ok(no_holder()),
    }
}
