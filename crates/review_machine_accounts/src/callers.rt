//! Who asks.
ghost use Rattle.std.specs.Prelude.{◌≡◌, List, Option, IfOk, false};
ghost use Rattle.review_names.specs.Names.{administrators};
ghost use Rattle.review_words.specs.{History.Entry, History.is_account, declared.command.Query.Query};
ghost use Rattle.review_words.specs.declared.reply.{Refusal.TheVariants.UnknownCaller, Reply.TheVariants.Refused};
ghost use Rattle.review_machine_rows.specs.{Changes.Reading, Files.File, Known.known, Known.is_so, Known.is_there};
ghost use Rattle.review_machine_rows.specs.{Questions.IsQueryAnswerBy, Steps.OfQuery, View.AreEnough};
ghost use Rattle.review_machine_rows.specs.declared.rows.Want.TheVariants.{Account, Member};

use review_machine_rows::{MemberKey, Rows, Want};
use review_words::{AccountNo, administrators};
use std::alloc::{AllocError, Global};

/// Whether an account is known to be an administrator.
pub fn is_admin(alloc: Global, rows: &Rows, caller: AccountNo) -> Result<bool, AllocError>
    ensures { IfOk result (λ b. b ≡ is_so (known rows.now (Member (record { group = administrators; account = caller })))) }
{
    let want = Want::Member(MemberKey {
        group: administrators(alloc)?,
        account: caller,
    });
    let is = rows.is_so(&want);
    drop(want);
    Ok(is)
}

/// Whether an account is known to be there.
pub fn is_account(rows: &Rows, account: AccountNo) -> bool
    ensures { result ≡ is_there (known rows.now (Account account)) }
{
    let want = Want::Account(account);
    let is = rows.is_there(&want);
    drop(want);
    is
}

/// Whether who asks a question is an account. Where it is none, the question is refused for an unknown caller, whatever it asks.
pub fn is_asker(rows: &Rows, caller: AccountNo) -> bool
    ensures known { result ≡ is_there (known rows.now (Account caller)) }
    ensures told { (reading : Reading) (file : Option File) (h : List Entry) (query : Query) → AreEnough reading h caller (OfQuery query) file rows.now → result ≡ is_account h caller }
    ensures refused { result ≡ false → (reading : Reading) (file : Option File) (h : List Entry) (query : Query) → AreEnough reading h caller (OfQuery query) file rows.now → IsQueryAnswerBy reading h caller query (Refused UnknownCaller) }
{
    is_account(rows, caller)
}
