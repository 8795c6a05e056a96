//! Names and numbers of fixed forms. Contracts see a name's bytes, and a number itself.
ghost use Rattle.std.specs.Cmp.Lexicographic.{pointwise, slice_cmp, nat_list_eq_equiv, nat_list_cmp_total, texts_ties, texts_po};
ghost use Rattle.std.specs.{List.list_all, List.list_any, List.Sorted.IsStrictlySortedBy, Ordering.nat_cmp};
ghost use Rattle.std.specs.Prelude.{◌≡◌, ◌≤◌, ◌<◌, ◌==◌, ℕ, List, Bool, Option, Some, None, Err, true, false, IfOk, IfSome, length, IsTrue, refl};
ghost use Rattle.review_names.specs.Forms.{accounts_span};
ghost use Rattle.review_names.specs.Names.{administrators, admin_name, is_word, is_plain, is_account_number, set_of, most_members};
ghost use Rattle.review_names.specs.Numerals.{account_of};
ghost use Rattle.std.specs.Cmp as Cmp;

use crate::forms::{Form, Name};
use crate::numbers::{Number, NumberKind, read_number};
use std::alloc::{AllocError, AllocFailed, Global};
use std::cmp::Ordering;
use std::collections::BTreeSet;
use std::marker::{Model, PhantomData};

/// Why a name, a number, a set, a stored reply, a line or a body was not read.
#[derive(Clone, Copy, PartialEq, Eq)]
pub enum Bad {
    /// What was given isn't of the form. It will not be, however often it is tried.
    Form,
    /// There was no memory for it. It may be tried again.
    Memory,
}

impl From<AllocError> for Bad {
    ghost use Rattle.std.specs.Prelude.{◌≡◌};
    ghost use Rattle.review_names.specs.declared.names.Bad.TheVariants.{Memory};

    ghost from_gives = { λ _ e. e ≡ Memory };

    fn from(_error: AllocError) -> Bad {
        Bad::Memory
    }
}

impl<T: Drop> From<AllocFailed<T>> for Bad {
    ghost use Rattle.std.specs.Prelude.{◌≡◌};
    ghost use Rattle.review_names.specs.declared.names.Bad.TheVariants.{Memory};

    ghost from_gives = { λ _ e. e ≡ Memory };

    fn from(_error: AllocFailed<T>) -> Bad {
        Bad::Memory
    }
}

/// The form of an account's name, 1 to 64 of `A-Z a-z 0-9 . _ -`, and the kind of its number.
#[derive(Clone, Copy)]
pub struct OfAccount;

/// The form of a group's name, which is that of an account's.
#[derive(Drop)]
pub struct OfGroup;

/// The form of a request's id, which is that of an account's name.
#[derive(Drop)]
pub struct OfRequest;

/// The number of an account, from 1 to 1,000,000. Contracts see the number.
pub type AccountNo = Number<OfAccount>;

/// The name of an account.
pub type AccountName = Name<OfAccount>;

/// The name of a group.
pub type GroupName = Name<OfGroup>;

/// The id that a caller gives a request.
pub type RequestId = Name<OfRequest>;

fn is_plain(byte: u8) -> bool
    ensures { result ≡ is_plain byte }
{
    byte.is_ascii_alphanumeric() || byte == b'.' || byte == b'_' || byte == b'-'
}

pub(crate) fn is_all_plain(text: &str) -> bool
    ensures { result ≡ list_all is_plain text.now }
{
    text.as_bytes().iter().all(|byte| is_plain(*byte))
}

#[tactic(auto, unfolding(crate::specs::Names::is_word))]
fn is_word(text: &str) -> bool
    ensures { result ≡ is_word text.now }
{
    let plain = is_all_plain(text);
    let length = text.len();
    1 <= length && length <= 64 && plain
}

impl Form for OfAccount {
    ghost is_form = { is_word };

    fn is_met(text: &str) -> bool {
        is_word(text)
    }
}

impl NumberKind for OfAccount {
    ghost MOST = { 1000000 };

    const MOST: u32 = 1_000_000;

    ghost is_met = { is_account_number };

    ghost spans = { accounts_span };

    ghost fits = { refl };
}

impl Form for OfGroup {
    ghost is_form = { is_word };

    fn is_met(text: &str) -> bool {
        is_word(text)
    }
}

impl Form for OfRequest {
    ghost is_form = { is_word };

    fn is_met(text: &str) -> bool {
        is_word(text)
    }
}

/// The name of the group whose members run the desk, `Administrators`.
/// An error where there was no memory for it.
#[tactic(auto, unfolding(crate::specs::Names::is_word))]
pub fn administrators(alloc: Global) -> Result<GroupName, AllocError>
    ensures { IfOk result (λ w. w ≡ administrators) }
{
    Name::of_form(alloc, "Administrators")
}

/// The name of account 1, `admin`. An error where there was no memory for it.
#[tactic(auto, unfolding(crate::specs::Names::is_word))]
pub fn admin_name(alloc: Global) -> Result<AccountName, AllocError>
    ensures { IfOk result (λ w. w ≡ admin_name) }
{
    Name::of_form(alloc, "admin")
}

/// The account whose number the bytes are, if they are one.
#[tactic(auto, unfolding(crate::specs::Numerals::account_of, crate::specs::Names::is_account_number))]
pub fn read_account(bytes: &[u8]) -> Option<AccountNo>
    ensures account { result ≡ account_of bytes.now }
    ensures range { IfSome result (λ n. (1 ≤ n) × (n ≤ 1000000)) }
{
    AccountNo::from_number(read_number(bytes)?)
}

/// A set of accounts, at most 1,024. Contracts see its numbers in order, each once.
#[derive(Drop)]
pub struct Members {
    accounts: Vec<AccountNo>,
}

impl Model for Members {
    ghost use Rattle.std.specs.{List.Sorted.IsStrictlySortedBy, Ordering.nat_cmp};
    ghost use Rattle.std.specs.Prelude.{ℕ, List, length, ◌≤◌};
    ghost use Rattle.review_names.specs.Names.{most_members};

    ghost Value = { List ℕ };

    ghost view = { λ m. m.accounts.items };

    ghost invariant = { λ m. IsStrictlySortedBy nat_cmp m.accounts.items × (length m.accounts.items ≤ most_members) };
}

/// The set of the accounts in a list.
fn collected(alloc: Global, accounts: Vec<AccountNo>) -> Result<BTreeSet<AccountNo>, Bad>
    ensures ok { IfOk result (λ s. s.keys ≡ set_of accounts.items) }
    ensures form { result ≡ Err Bad.Form → ⊥ }
{
    let mut set = BTreeSet::new(alloc);
    let mut rest = accounts;
    while let Some(account) = rest.pop() {
        set.insert(account)?;
    }
    Ok(set)
}

impl Members {
    /// The set of the accounts in a list of any length, whatever their order and with doubles
    /// counted once. Form exactly where the set has more than 1,024 members; Memory where there
    /// was no memory to sort them.
    pub fn from_vec(alloc: Global, accounts: Vec<AccountNo>) -> Result<Members, Bad>
        ensures ok { IfOk result (λ m. (m ≡ set_of accounts.items) × (length m ≤ most_members)) }
        ensures form { result ≡ Err Bad.Form → most_members < length (set_of accounts.items) }
    {
        let set = collected(alloc, accounts)?;
        if set.len() > 1024 {
            return Err(Bad::Form);
        }
        let mut sorted = Vec::new(alloc);
        for account in set {
            sorted.push(account)?;
        }
        Ok(Members { accounts: sorted })
    }

    /// The accounts in the order of their numbers, each once.
    pub fn as_slice(&self) -> &[AccountNo]
        ensures accounts { result.now ≡ self.now }
        ensures ordered { IsStrictlySortedBy nat_cmp self.now }
        ensures most { length self.now ≤ most_members }
    {
        self.accounts.as_slice()
    }

    /// How many accounts, from 0 to 1,024.
    pub fn len(&self) -> usize
        ensures { result ≡ length self.now }
    {
        self.accounts.len()
    }

    /// Whether an account is in the set, by a binary search.
    pub fn has(&self, account: AccountNo) -> bool
        ensures { result ≡ list_any (λ n. n == account) self.now }
    {
        self.as_slice().binary_search(&account).is_ok()
    }
}
