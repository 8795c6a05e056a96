//! Shelves that fail, beside one that doesn't: account 2 becomes ann, then bob, and so gives up the name, which no command does; which account
//! has which name, and whether the first request is stored.

use crate::fault::Fault;
use review_machine_rows::{Delta, Found, Kept, Need, Recalled, Rows, Shelf, ShelfFault, Want};
use review_memory::{FaultyShelf, MemoryShelf, ShuttingShelf};
use review_table::{Key, RowEdit};
use review_words::{AccountName, AccountNo, Epoch, RequestId};
use std::alloc::Global;
use std::test::Fail;

/// What changes accounts alone, and perhaps the least open epoch.
fn delta(
    alloc: Global,
    accounts: Vec<RowEdit<AccountNo, AccountName>>,
    least_epoch: Option<Epoch>,
) -> Delta {
    Delta {
        accounts,
        members: Vec::new(alloc),
        file: None,
        base: None,
        changes: Vec::new(alloc),
        least_epoch,
    }
}

/// Account 2 gets a name.
fn second_account(alloc: Global, name: &str) -> Result<Delta, Fault> {
    let name = AccountName::read(alloc, name)?;
    let change = RowEdit {
        key: AccountNo::from_number(2).unwrap_or(AccountNo::last()),
        row: Some(name),
    };
    let accounts = vec![in alloc; change]?;
    Ok(delta(alloc, accounts, None))
}

/// A request of account 1, of an epoch.
fn request(alloc: Global, epoch: Epoch, id: &str) -> Result<Kept, Fault> {
    let id = RequestId::read(alloc, id)?;
    Ok(Kept {
        caller: AccountNo::first(),
        epoch,
        id,
        request: 1,
        content: String::new(alloc),
        reply: String::new(alloc),
    })
}

/// A fault of a shelf, in a word.
fn fault_word(fault: ShelfFault) -> &'static str {
    match fault {
        ShelfFault::Memory => "memory",
        ShelfFault::Store => "store",
        ShelfFault::Damaged => "damaged",
    }
}

/// What a commit answers.
fn commit_word<S: Shelf>(alloc: Global, shelf: &mut S, delta: Delta, kept: Kept) -> &'static str {
    match shelf.commit(alloc, delta, kept) {
        Ok(()) => "done",
        Err(fault) => fault_word(fault),
    }
}

/// Gives account 2 a name: what the commit answers.
fn commit<S: Shelf>(alloc: Global, shelf: &mut S, name: &str) -> Result<&'static str, Fault> {
    let kept = request(alloc, Epoch::first(), name)?;
    let delta = second_account(alloc, name)?;
    Ok(commit_word(alloc, shelf, delta, kept))
}

/// The account that a look-up found, in words.
fn holder_word(found: Option<&Found>) -> &'static str {
    match found {
        Some(Found::Holder(Some(number))) if number.get() == 2 => "account 2",
        Some(Found::Holder(Some(_))) => "another",
        _ => "nobody",
    }
}

/// What is needed to know the account of a name.
fn need_of(alloc: Global, want: &Want) -> Result<Need, Fault> {
    let want = want.copy()?;
    let wants = vec![in alloc; want]?;
    Ok(Need { wants })
}

/// What a look-up says of the account of a name.
fn loaded_word<S: Shelf>(alloc: Global, shelf: &mut S, need: &Need, want: &Want) -> &'static str {
    let mut rows = Rows::new(alloc);
    match shelf.load(alloc, need, &mut rows) {
        Ok(()) => holder_word(rows.found.get(want)),
        Err(fault) => fault_word(fault),
    }
}

/// The account of a name, or what else the look-up answers.
pub fn account_of<S: Shelf>(
    alloc: Global,
    shelf: &mut S,
    name: &str,
) -> Result<&'static str, Fault> {
    let want = Want::AccountNamed(AccountName::read(alloc, name)?);
    let need = need_of(alloc, &want)?;
    Ok(loaded_word(alloc, shelf, &need, &want))
}

/// What is known of a request of account 1, of an epoch.
fn recall_in<S: Shelf>(
    alloc: Global,
    shelf: &mut S,
    epoch: Epoch,
    id: &str,
) -> Result<&'static str, Fault> {
    let id = RequestId::read(alloc, id)?;
    match shelf.recall(alloc, AccountNo::first(), epoch, &id) {
        Ok(Recalled::Kept(_)) => Ok("recalled"),
        Ok(Recalled::Fresh) => Ok("unknown"),
        Ok(Recalled::Closed) => Ok("closed"),
        Err(fault) => Ok(fault_word(fault)),
    }
}

/// Whether a request of account 1 that names no epoch is recalled.
pub fn recall<S: Shelf>(alloc: Global, shelf: &mut S, id: &str) -> Result<&'static str, Fault> {
    recall_in(alloc, shelf, Epoch::first(), id)
}

/// What five calls answer, and how many faults were counted.
#[derive(Clone, Copy, Drop)]
struct Calls {
    first: &'static str,
    second: &'static str,
    ann: &'static str,
    bob: &'static str,
    request: &'static str,
    faults: u64,
}

/// Commits ann, then bob, asks whose the names are, and recalls the first request.
fn call<S: Shelf>(alloc: Global, shelf: &mut S) -> Result<Calls, Fault> {
    let first = commit(alloc, shelf, "ann")?;
    let second = commit(alloc, shelf, "bob")?;
    let ann = account_of(alloc, shelf, "ann")?;
    let bob = account_of(alloc, shelf, "bob")?;
    let request = recall(alloc, shelf, "ann")?;
    Ok(Calls {
        first,
        second,
        ann,
        bob,
        request,
        faults: shelf.faults(),
    })
}

/// What the five calls answer on a shelf none of whose calls fails.
fn call_memory(alloc: Global) -> Result<Calls, Fault> {
    let mut shelf = MemoryShelf::new(alloc)?;
    call(alloc, &mut shelf)
}

/// What the five calls answer on a shelf one of whose calls fails.
fn call_faulty(alloc: Global, failing: u64) -> Result<Calls, Fault> {
    let mut shelf = FaultyShelf::new(MemoryShelf::new(alloc)?, failing);
    call(alloc, &mut shelf)
}

#[test]
fn a_shelf_in_memory(rt: HostRuntime) -> Result<(), Fail> {
    let calls = call_memory(rt.alloc())?;
    assert!(rt; calls.first == "done");
    assert!(rt; calls.second == "done");
    assert!(rt; calls.ann == "nobody");
    assert!(rt; calls.bob == "account 2");
    assert!(rt; calls.request == "recalled");
    assert!(rt; calls.faults == 0);
    Ok(())
}

#[test]
fn a_commit_that_fails_does_nothing(rt: HostRuntime) -> Result<(), Fail> {
    let calls = call_faulty(rt.alloc(), 2)?;
    assert!(rt; calls.first == "done");
    assert!(rt; calls.second == "store");
    assert!(rt; calls.ann == "account 2");
    assert!(rt; calls.bob == "nobody");
    assert!(rt; calls.request == "recalled");
    assert!(rt; calls.faults == 1);
    Ok(())
}

#[test]
fn a_look_up_that_fails_tells_nothing(rt: HostRuntime) -> Result<(), Fail> {
    let calls = call_faulty(rt.alloc(), 3)?;
    assert!(rt; calls.second == "done");
    assert!(rt; calls.ann == "store");
    assert!(rt; calls.bob == "account 2");
    assert!(rt; calls.request == "recalled");
    assert!(rt; calls.faults == 1);
    Ok(())
}

/// The account of bob on the shelf below one that shut.
fn bob_below(alloc: Global, shelf: ShuttingShelf<MemoryShelf>) -> Result<&'static str, Fault> {
    let mut below = shelf.into_inner();
    account_of(alloc, &mut below, "bob")
}

/// What the five calls answer on a shelf that shuts in the second commit, and whose bob is below it.
fn call_shutting(alloc: Global) -> Result<(Calls, &'static str), Fault> {
    let mut shelf = ShuttingShelf::new(MemoryShelf::new(alloc)?, 2);
    let calls = call(alloc, &mut shelf);
    let bob = bob_below(alloc, shelf);
    Ok((calls?, bob?))
}

/// The second commit is made below, and shuts the shelf.
#[test]
fn a_shelf_that_shuts_fails_for_good(rt: HostRuntime) -> Result<(), Fail> {
    let (calls, bob) = call_shutting(rt.alloc())?;
    assert!(rt; calls.first == "done");
    assert!(rt; calls.second == "store");
    assert!(rt; calls.ann == "store");
    assert!(rt; calls.bob == "store");
    assert!(rt; calls.request == "store");
    assert!(rt; calls.faults == 4);
    assert!(rt; bob == "account 2");
    Ok(())
}

/// What is known of three requests after epoch 0 was closed.
#[derive(Drop)]
struct Closed {
    before: &'static str,
    own: &'static str,
    after: &'static str,
}

/// The second epoch.
fn next_epoch() -> Epoch {
    Epoch::from_number(1).unwrap_or(Epoch::first())
}

/// Closes epoch 0 in a request of epoch 1, which becomes the least open one.
fn close<S: Shelf>(alloc: Global, shelf: &mut S) -> Result<&'static str, Fault> {
    let kept = request(alloc, next_epoch(), "close")?;
    let delta = delta(alloc, Vec::new(alloc), Epoch::from_number(1));
    Ok(commit_word(alloc, shelf, delta, kept))
}

/// Stores ann in epoch 0 and closes this epoch; then what is known of both requests, and of a new one of epoch 1.
fn call_closing<S: Shelf>(alloc: Global, shelf: &mut S) -> Result<Closed, Fault> {
    commit(alloc, shelf, "ann")?;
    close(alloc, shelf)?;
    let before = recall(alloc, shelf, "ann")?;
    let own = recall_in(alloc, shelf, next_epoch(), "close")?;
    let after = recall_in(alloc, shelf, next_epoch(), "ann")?;
    Ok(Closed { before, own, after })
}

/// The answers to requests of a closed and of an open epoch on a new shelf in memory.
fn close_in_memory(alloc: Global) -> Result<Closed, Fault> {
    let mut shelf = MemoryShelf::new(alloc)?;
    call_closing(alloc, &mut shelf)
}

#[test]
fn a_closed_epoch_is_told_and_its_answers_are_given_up(rt: HostRuntime) -> Result<(), Fail> {
    let closed = close_in_memory(rt.alloc())?;
    assert!(rt; closed.before == "closed");
    assert!(rt; closed.own == "recalled");
    assert!(rt; closed.after == "unknown");
    Ok(())
}
