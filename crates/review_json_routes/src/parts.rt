//! What the members of an object spell.
ghost use Rattle.std.specs.Prelude.{◌≡◌, Some, None, Err, IfOk, option_map};
ghost use Rattle.serde_json.specs.View.{view, items_view};
ghost use Rattle.review_names.specs.{Bad.Gives, Forms.most_changes};
ghost use Rattle.review_json_routes.specs.Parts.{text_at, name_at, account_of, account_at, accounts_in, members_at, change_at, epoch_of, epoch_at, epoch_or_first, flag_at};

use review_names::Bad;
use review_words::{AccountNo, ChangeNo, Epoch, FileText, Form, Members, Name};
use serde_json::Value;
use std::alloc::Global;

/// The text of the member `key`, if it is one.
#[tactic(auto, unfolding(crate::specs::Parts::text_at))]
pub fn text_at<'a>(key: &str, value: &'a Value) -> Option<&'a str>
    ensures { option_map (λ t. t.now) result ≡ text_at key.now (view value.now) }
{
    value.get(key).and_then(Value::as_str)
}

/// The name of the member `key`, a text of the name's form.
#[tactic(auto, unfolding(crate::specs::Parts::name_at))]
pub fn name_at<F: Form>(alloc: Global, key: &str, value: &Value) -> Result<Name<F>, Bad>
    ensures { Gives result (name_at F.is_form key.now (view value.now)) }
{
    let text = text_at(key, value).ok_or(Bad::Form)?;
    Name::read(alloc, text)
}

/// The file whose text the member `key` is, if it is one.
pub fn file_at(alloc: Global, key: &str, value: &Value) -> Result<FileText, Bad>
    ensures { Gives result (text_at key.now (view value.now)) }
{
    let text = text_at(key, value).ok_or(Bad::Form)?;
    Ok(FileText::from_str(alloc, text)?)
}

/// The account of a whole number.
pub fn account_of(value: &Value) -> Option<AccountNo>
    ensures { result ≡ account_of (view value.now) }
{
    AccountNo::from_number(value.as_u64()?)
}

/// The account of the member `key`, a whole number.
#[tactic(auto, unfolding(crate::specs::Parts::account_at))]
pub fn account_at(key: &str, value: &Value) -> Result<AccountNo, Bad>
    ensures { Gives result (account_at key.now (view value.now)) }
{
    value.get(key).and_then(account_of).ok_or(Bad::Form)
}

fn accounts_in(alloc: Global, list: &Vec<Value>) -> Result<Vec<AccountNo>, Bad>
    ensures ok { IfOk result (λ accounts. accounts_in (items_view list.now.items) ≡ Some accounts.items) }
    ensures form { result ≡ Err Bad.Form → accounts_in (items_view list.now.items) ≡ None }
{
    let mut accounts = Vec::new(alloc);
    for value in list.iter() {
        let account = account_of(value).ok_or(Bad::Form)?;
        accounts.push(account)?;
    }
    Ok(accounts)
}

/// The members of a group: the member `key`, a list of accounts in any order, each once or more often.
#[tactic(auto, unfolding(crate::specs::Parts::members_at))]
pub fn members_at(alloc: Global, key: &str, value: &Value) -> Result<Members, Bad>
    ensures { Gives result (members_at key.now (view value.now)) }
{
    let Some(list) = value.get(key).and_then(Value::as_array) else {
        return Err(Bad::Form);
    };
    Members::from_vec(alloc, accounts_in(alloc, list)?)
}

/// The change of the member `key`, a whole number.
#[tactic(auto, unfolding(crate::specs::Parts::change_at))]
pub fn change_at(key: &str, value: &Value) -> Result<ChangeNo, Bad>
    ensures { Gives result (change_at key.now (view value.now)) }
{
    let number = value.get(key).and_then(Value::as_u64).ok_or(Bad::Form)?;
    ChangeNo::from_number(number).ok_or(Bad::Form)
}

fn epoch_of(value: &Value) -> Option<Epoch>
    ensures { result ≡ epoch_of (view value.now) }
{
    Epoch::from_number(value.as_u64()?)
}

/// The epoch of the member `key`, a whole number.
#[tactic(auto, unfolding(crate::specs::Parts::epoch_at))]
pub fn epoch_at(key: &str, value: &Value) -> Result<Epoch, Bad>
    ensures { Gives result (epoch_at key.now (view value.now)) }
{
    value.get(key).and_then(epoch_of).ok_or(Bad::Form)
}

/// The epoch of the member `key`, a whole number; the first epoch where the member is absent.
#[tactic(auto, unfolding(crate::specs::Parts::epoch_or_first))]
pub fn epoch_or_first(key: &str, value: &Value) -> Result<Epoch, Bad>
    ensures { Gives result (epoch_or_first key.now (view value.now)) }
{
    match value.get(key) {
        Some(epoch) => epoch_of(epoch).ok_or(Bad::Form),
        None => Ok(Epoch::first()),
    }
}

/// The truth value of the member `key`, if it is there.
#[tactic(auto, unfolding(crate::specs::Parts::flag_at))]
pub fn flag_at(key: &str, value: &Value) -> Result<Option<bool>, Bad>
    ensures { Gives result (flag_at key.now (view value.now)) }
{
    match value.get(key) {
        Some(flag) => {
            let flag = flag.as_bool().ok_or(Bad::Form)?;
            Ok(Some(flag))
        }
        None => Ok(None),
    }
}
