//! What is given up of lower epochs.
ghost use Rattle.std.specs.Map.Iter.{deref_pair};
ghost use Rattle.std.specs.Prelude.{◌≡◌, ◌++◌, IfOk, OnOk, None, map, if◌then◌else◌};
ghost use Rattle.review_table.specs.Rows.{row_in, rows_of, HasNoEmptyPlace};
ghost use Rattle.review_machine_rows.specs.Rows.{kept_row};
ghost use Rattle.review_memory_rows.specs.Answers.{answer_cmp, if_lower, is_among, key_of, lower, lower_of};
ghost use Rattle.review_memory_rows.specs.declared.answer_keys.AnswerKey.{AnswerKey};

use crate::answer_keys::{AnswerKey, StoredAnswer};
use review_machine_rows::Kept;
use review_table::{Key, Table};
use review_words::Epoch;
use std::alloc::{AllocError, Global};

/// The keys of what is given up where an epoch is named: those of lower epochs, of what is stored and of a request that is to be. An error where there was
/// no memory for them.
pub fn lower_keys(
    alloc: Global,
    answers: &Table<AnswerKey, StoredAnswer>,
    epoch: Option<Epoch>,
    kept: &Kept,
) -> Result<Vec<AnswerKey>, AllocError>
    ensures { IfOk result (λ keys. keys.items ≡ lower_of epoch (rows_of answers.now) (key_of (kept_row kept.now).identity)) }
{
    let mut keys = Vec::new(alloc);
    if let Some(least) = epoch {
        let rows = answers.rows(alloc)?;
        push_lower(&mut keys, &rows, least.get())?;
        let own = key_of(kept)?;
        add_lower(&mut keys, &own, least.get())?;
    }
    Ok(keys)
}

/// The key of a request that is to be stored. An error where there was no memory for it.
pub fn key_of(kept: &Kept) -> Result<AnswerKey, AllocError>
    ensures { IfOk result (λ key. key ≡ key_of (kept_row kept.now).identity) }
{
    Ok(AnswerKey {
        epoch: kept.epoch,
        caller: kept.caller,
        id: kept.id.copy()?,
    })
}

// Adds a key, where its epoch is below the least.
fn add_lower(keys: &mut Vec<AnswerKey>, key: &AnswerKey, least: u32) -> Result<(), AllocError>
    ensures { OnOk result (keys.new.items ≡ keys.old.items ++ if_lower least key.now) }
{
    if key.epoch.get() < least {
        keys.push(key.copy()?)?;
    }
    Ok(())
}

// Adds the keys of rows whose epochs are below the least.
fn push_lower(
    keys: &mut Vec<AnswerKey>,
    rows: &[(&AnswerKey, &StoredAnswer)],
    least: u32,
) -> Result<(), AllocError>
    ensures { OnOk result (keys.new.items ≡ keys.old.items ++ lower least (map deref_pair rows.now)) }
{
    for row in rows {
        add_lower(keys, row.0, least)?;
    }
    Ok(())
}

/// Drops the rows of keys, with their places.
pub fn remove_keys(answers: &mut Table<AnswerKey, StoredAnswer>, keys: &[AnswerKey])
    ensures rows { (q : AnswerKey) → row_in answer_cmp (rows_of answers.new) q ≡ (if is_among keys.now q then None else row_in answer_cmp (rows_of answers.old) q) }
    ensures filled { HasNoEmptyPlace answer_cmp answers.old → HasNoEmptyPlace answer_cmp answers.new }
{
    for key in keys {
        answers.remove(key);
    }
}
