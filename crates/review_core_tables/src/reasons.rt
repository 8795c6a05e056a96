//! The words for why an account is called.
ghost use Rattle.std.specs.{Char.is_ascii_control, List.list_all};
ghost use Rattle.std.specs.Prelude.{◌≡◌, ◌≤◌, ◌++◌, IfOk, OnOk, true, not, length, string_bytes, codes};
ghost use Rattle.review_names.specs.{Forms.is_line, Numerals.numeral};
ghost use Rattle.review_core_rules.specs.Change.{reason_of};

use review_core_rules::Why;
use review_words::{AccountNo, Bad, LabelName, Reason, label_form};
use std::alloc::{AllocError, Global};

fn worded(alloc: Global, text: &str) -> Result<Reason, AllocError>
    requires { is_line text.now ≡ true }
    ensures { IfOk result (λ r. r ≡ text.now) }
{
    match Reason::read(alloc, text) {
        Ok(reason) => Ok(reason),
        Err(Bad::Memory) => Err(AllocError),
        Err(Bad::Form) => unreachable!(),
    }
}

#[tactic(auto, using(review_names::proofs::Numerals::decimal_numeral))]
fn add_account(text: &mut String, number: u32, does: &str) -> Result<(), AllocError>
    ensures { OnOk result (string_bytes text.new ≡ string_bytes text.old ++ (codes "account " ++ (numeral number ++ does.now))) }
{
    write!(text, "account {number}{does}")
}

fn by_account(alloc: Global, account: AccountNo, does: &str) -> Result<Reason, AllocError>
    requires short { length does.now ≤ 100 }
    requires shown { list_all (λ c. not (is_ascii_control c)) does.now ≡ true }
    ensures { IfOk result (λ r. r ≡ codes "account " ++ (numeral account ++ does.now)) }
{
    let mut text = String::with_capacity(alloc, 120)?;
    add_account(&mut text, account.get(), does)?;
    worded(alloc, text.as_str())
}

fn by_label(alloc: Global, label: &LabelName) -> Result<Reason, AllocError>
    ensures { IfOk result (λ r. r ≡ codes "vote on " ++ (label.now ++ codes " was not copied")) }
{
    label_form();
    let mut text = String::from_str(alloc, "vote on ")?;
    text.push_str(label.as_str())?;
    text.push_str(" was not copied")?;
    worded(alloc, text.as_str())
}

/// The reason that an attention set gives.
#[tactic(auto, unfolding(review_names::specs::Forms::is_line))]
pub fn reason_of(alloc: Global, why: Why) -> Result<Reason, AllocError>
    ensures { IfOk result (λ r. r ≡ reason_of why) }
{
    match why {
        Why::Added => worded(alloc, "Reviewer was added"),
        Why::Ready => worded(alloc, "Change is ready for review"),
        Why::Replied(account) => by_account(alloc, account, " replied on the change"),
        Why::RepliedInThread(account) => by_account(alloc, account, " replied in a thread"),
        Why::LeftUnresolved(account) => by_account(alloc, account, " left an unresolved comment"),
        Why::NotCopied(label) => by_label(alloc, &label),
        Why::Told(reason) => Ok(reason),
    }
}
