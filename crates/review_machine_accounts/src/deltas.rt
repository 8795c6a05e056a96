//! Deltas that change nothing.
ghost use Rattle.std.specs.Prelude.{◌≡◌, ◌<◌, [], None};
ghost use Rattle.review_words.specs.{Texts.IsPlaced, Texts.IsStored, declared.reply.Reply.TheVariants.Refused};
ghost use Rattle.review_machine_accounts.specs.Decisions.{IsEmpty};

use review_machine_rows::Delta;
use review_words::{FileFault, Refusal, Reply};
use std::alloc::Global;

/// The delta that changes nothing.
pub fn nothing(alloc: Global) -> Delta
    ensures { IsEmpty result }
{
    Delta {
        accounts: Vec::new(alloc),
        members: Vec::new(alloc),
        file: None,
        base: None,
        changes: Vec::new(alloc),
        least_epoch: None,
    }
}

/// A refusal, which changes nothing.
pub fn refused(alloc: Global, refusal: Refusal) -> (Delta, Reply)
    ensures empty { IsEmpty result.0 }
    ensures reply { result.1 ≡ Refused refusal }
    ensures stored { IsStored result.1 }
{
    is_stored(&refusal);
    (nothing(alloc), Reply::Refused(refusal))
}

// The numbers and names in a refusal are of their forms.
fn is_stored(refusal: &Refusal)
    ensures { IsStored (Refused refusal.now) }
{
    match refusal {
        Refusal::BadFile(fault) => is_placed(fault),
        Refusal::RequirementUnsatisfied {
            change,
            requirement,
        } => {
            let _ = change.get();
            let _ = requirement.as_str();
        }
        _ => {}
    }
}

// The place of an expression's fault is below 2^64.
fn is_placed(fault: &FileFault)
    ensures { IsPlaced fault.now }
{
    if let FileFault::Expr(expr) = fault {
        fits_in_64_bits(expr.place);
    }
}

fn fits_in_64_bits(place: usize)
    ensures { place < 18446744073709551616 }
{}
