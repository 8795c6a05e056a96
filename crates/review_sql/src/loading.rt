//! What the look-ups of a need find.
ghost use Rattle.std.specs.Prelude.{◌≡◌, None, false, IfOk, OnOk};
ghost use Rattle.{sqlite.specs.Held.state, sqlite_trees.specs.Tree.Trees, review_table.specs.Rows.rows_of};
ghost use Rattle.review_sql_tables.specs.Ran.{Looks, Serves};
ghost use Rattle.review_machine_rows.specs.Known.{AreAsked, HasMembers, Learns, group_of, held, meaning};
ghost use Rattle.review_sql_lookups.specs.{Loads.SeesBounded, Loads.IfTold, Loads.Sees, Tables.tables_at};
ghost use Rattle.review_sql.specs.Loading.{HasLearnt, LearnsBounded, LearnsSeen, LooksIf, LooksOnce, WereSeen, learnt_by};
ghost use Rattle.review_machine_rows.specs.declared.rows.Want.TheVariants as want;

use review_machine_rows::{Counted, Found, Rows, Want};
use review_sql_change_lookups::{bases, joins, places, reviews, senders};
use review_sql_lookups::counts::Counts;
use review_sql_lookups::known::find_known;
use review_sql_lookups::told::{find_greatest_told, find_told};
use review_sql_lookups::{Sight, branches, people};
use review_sql_records::accounts::{Accounts, LastAccount};
use review_sql_records::bases::LastPlace;
use review_sql_records::desk::Desk;
use review_sql_records::epochs::Epochs;
use review_sql_records::members::Members;
use review_sql_records::projects::{ProjectNames, Projects};
use review_sql_tables::reads::find as find_row;
use review_table::{Key, Table};
use review_words::{AccountNo, GroupName};
use sqlite::{Alter, Connection, Error, Transaction};
use std::alloc::{AllocError, Global};

/// How a look-up ended.
#[derive(Clone, Copy, PartialEq, Eq)]
pub enum Ended {
    /// Rows learnt what it found.
    Learnt,
    /// There was no memory for it.
    NoMemory,
    /// It shows that the tables are those of no history.
    Damaged,
}

// What a look-up finds by statements, but for that of a group.
fn see<S: Alter>(
    tx: &mut Transaction<'_, S>,
    alloc: Global,
    want: &Want,
    counts: &mut Counts,
) -> Result<Sight, Error>
    requires plain { group_of want.now ≡ None }
    ensures same_reference { tx.new.conn.ghost_name ≡ tx.old.conn.ghost_name }
    ensures looks { Looks (SeesBounded want.now counts.old counts.new) (state S.Store tx.old.conn.now) (state S.Store tx.new.conn.now) result }
{
    match want {
        Want::Requests => branches::find_requests(tx, alloc, counts),
        Want::LeastEpoch => find_told::<Epochs, S>(tx, alloc, &()),
        Want::Account(number) => find_told::<Accounts, S>(tx, alloc, number),
        Want::AccountNamed(name) => people::find_holder(tx, alloc, name),
        Want::LastAccount => find_greatest_told::<LastAccount, S>(tx, alloc, &()),
        Want::Member(member) => find_told::<Members, S>(tx, alloc, member),
        Want::Group(_) => unreachable!(),
        Want::File(project) => find_told::<Projects, S>(tx, alloc, project),
        Want::Project(project) => find_told::<ProjectNames, S>(tx, alloc, project),
        Want::Room(Counted::Projects) => branches::find_room_for_projects(tx, counts),
        Want::Room(Counted::BasesOf(project)) => {
            branches::find_room_for_bases(tx, project, counts)
        }
        Want::Base(base) => bases::find_base(tx, alloc, base),
        Want::LastPlace(branch) => find_greatest_told::<LastPlace, S>(tx, alloc, branch),
        Want::Bases(branch) => branches::find_bases(tx, alloc, branch),
        Want::Change(number) => reviews::find_change(tx, alloc, *number),
        Want::LastChange => reviews::find_last_change(tx, alloc),
        Want::ChangeOf(base) => senders::find_change_of(tx, alloc, base),
        Want::Standing(base) => senders::find_standing(tx, alloc, base),
        Want::LastJoined(branch) => places::find_last_joined(tx, alloc, branch),
        Want::Joined(branch) => joins::find_joined(tx, alloc, branch),
    }
}

// That rows learnt, or that there was no memory for it.
fn learnt(learning: Result<(), AllocError>) -> Ended
    ensures { result ≡ learnt_by learning }
{
    match learning {
        Ok(()) => Ended::Learnt,
        Err(_) => Ended::NoMemory,
    }
}

// Rows learn what was found, but for that of a group.
fn put_found(want: &Want, found: Found, rows: &mut Rows) -> Result<(), AllocError>
    requires plain { group_of want.now ≡ None }
    ensures { OnOk result (Learns want.now (meaning found) rows.old rows.new) }
{
    rows.learn(want.copy()?, found)
}

// Rows learn the members of a group.
fn put_members(
    group: &GroupName,
    members: Table<AccountNo, ()>,
    rows: &mut Rows,
) -> Result<(), AllocError>
    ensures { OnOk result (Learns (want.Group group.now) (held members) rows.old rows.new) }
{
    rows.learn_group(group.copy()?, members)
}

// Rows learn what was seen, but for that of a group.
fn learn(want: &Want, sight: Sight, rows: &mut Rows) -> Ended
    requires plain { group_of want.now ≡ None }
    ensures told { (db : Trees) → Sees want.now db sight → LearnsSeen want.now rows.old rows.new db result }
    ensures learnt { result ≡ Ended.Learnt → HasLearnt want.now rows.old rows.new }
{
    match sight {
        Sight::Found(found) => learnt(put_found(want, found, rows)),
        Sight::NoMemory => Ended::NoMemory,
        Sight::Damaged => Ended::Damaged,
    }
}

// The same of a group.
fn learn_group(group: &GroupName, found: Option<Table<AccountNo, ()>>, rows: &mut Rows) -> Ended
    ensures told { (db : Trees) → IfTold db (λ t. HasMembers (tables_at db).row group.now (rows_of t)) found → LearnsSeen (want.Group group.now) rows.old rows.new db result }
    ensures learnt { result ≡ Ended.Learnt → HasLearnt (want.Group group.now) rows.old rows.new }
{
    match found {
        Some(members) => learnt(put_members(group, members, rows)),
        None => Ended::Damaged,
    }
}

// Makes one look-up more: by what the shelf knows of counts where that tells it, and else by statements, which is noted.
fn find_next<S: Alter>(
    tx: &mut Transaction<'_, S>,
    alloc: Global,
    want: &Want,
    counts: &mut Counts,
    rows: &mut Rows,
    is_asked: &mut bool,
) -> Result<Ended, Error>
    ensures same_reference { tx.new.conn.ghost_name ≡ tx.old.conn.ghost_name }
    ensures looks { LooksOnce S.Store is_asked.old is_asked.new (LearnsBounded want.now rows.old rows.new counts.old counts.new) tx.old.conn.now tx.new.conn.now result }
    ensures learnt { IfOk result (λ e. e ≡ Ended.Learnt → HasLearnt want.now rows.old rows.new) }
{
    if let Some(sight) = find_known(want, counts) {
        return Ok(learn(want, sight, rows));
    }
    *is_asked = true;
    match want.group() {
        Some(group) => {
            let found = people::find_group(tx, alloc, group)?;
            Ok(learn_group(group, found, rows))
        }
        None => {
            let sight = see(tx, alloc, want, counts)?;
            Ok(learn(want, sight, rows))
        }
    }
}

// Makes look-ups one after the other, until all have learnt, or there is no memory, or one meets damage; what the rows know counts only where all have learnt.
fn find_in_turn<S: Alter>(
    tx: &mut Transaction<'_, S>,
    alloc: Global,
    wants: &[Want],
    counts: &mut Counts,
    rows: &mut Rows,
    is_asked: &mut bool,
) -> Result<Ended, Error>
    requires unasked { is_asked.old ≡ false }
    ensures same_reference { tx.new.conn.ghost_name ≡ tx.old.conn.ghost_name }
    ensures looks { LooksIf S.Store is_asked.new (WereSeen rows.old rows.new counts.old counts.new) tx.old.conn.now tx.new.conn.now result }
    ensures asked { IfOk result (λ e. e ≡ Ended.Learnt → AreAsked wants.now rows.old rows.new) }
{
    for want in wants {
        let end = find_next(tx, alloc, want, counts, rows, is_asked)?;
        match end {
            Ended::Learnt => {}
            Ended::NoMemory => return Ok(Ended::NoMemory),
            Ended::Damaged => return Ok(Ended::Damaged),
        }
    }
    Ok(Ended::Learnt)
}

// Makes look-ups one after the other. Where no statement was needed, the row of the desk is asked for: a store that was shut is found so, whatever is
// known.
fn find_each<S: Alter>(
    tx: &mut Transaction<'_, S>,
    alloc: Global,
    wants: &[Want],
    counts: &mut Counts,
    rows: &mut Rows,
) -> Result<Ended, Error>
    ensures same_reference { tx.new.conn.ghost_name ≡ tx.old.conn.ghost_name }
    ensures looks { Looks (WereSeen rows.old rows.new counts.old counts.new) (state S.Store tx.old.conn.now) (state S.Store tx.new.conn.now) result }
    ensures asked { IfOk result (λ e. e ≡ Ended.Learnt → AreAsked wants.now rows.old rows.new) }
{
    let mut is_asked = false;
    let end = find_in_turn(tx, alloc, wants, counts, rows, &mut is_asked)?;
    if !is_asked {
        let _desk = find_row::<Desk, S>(tx, alloc, &())?;
    }
    Ok(end)
}

/// Rows learn what look-ups find, and of no others, in a transaction of their own. Where the store fails, what is known of counts then is of no
/// more use.
pub fn load<S: Alter>(
    conn: &mut Connection<S>,
    alloc: Global,
    wants: &[Want],
    counts: &mut Counts,
    rows: &mut Rows,
) -> Result<Ended, Error>
    requires mode { conn.old.in_transaction ≡ false }
    ensures mode { conn.new.in_transaction ≡ false }
    ensures serves { Serves (WereSeen rows.old rows.new counts.old counts.new) (state S.Store conn.old) (state S.Store conn.new) result }
    ensures asked { IfOk result (λ e. e ≡ Ended.Learnt → AreAsked wants.now rows.old rows.new) }
{
    let _settled = conn.is_autocommit();
    let mut tx = conn.transaction();
    let end = find_each(&mut tx, alloc, wants, counts, rows)?;
    tx.commit()?;
    Ok(end)
}
