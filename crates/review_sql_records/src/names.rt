//! Names and numbers, as they are read from columns.
ghost use Rattle.std.specs.Prelude.{◌≡◌, true, Some, IfOk, nat_le, option_map, pos};
ghost use Rattle.{sqlite_value.specs.Order.column, review_words.specs.Epochs.is_epoch};
ghost use Rattle.review_sql_tables.specs.Search.{number_in, text_in};
ghost use Rattle.review_sql_records.specs.Forms.{where_is, is_small};

use crate::rows::PlaceNo;
use review_names::{Number, NumberKind};
use review_sql_tables::columns::{number_at, text_at};
use review_words::{Bad, Epoch, Form, Name};
use sqlite::Row;
use std::alloc::{AllocError, Global};

/// The name in a column; none where it is no name of the form.
pub fn name_at<F: Form>(alloc: Global, row: &Row, at: usize) -> Result<Option<Name<F>>, AllocError>
    ensures { IfOk result (λ name. name ≡ where_is F.is_form (text_in (column row.now at))) }
{
    let Some(text) = text_at(row, at) else {
        return Ok(None);
    };
    match Name::read(alloc, text) {
        Ok(name) => Ok(Some(name)),
        Err(Bad::Form) => Ok(None),
        Err(Bad::Memory) => Err(AllocError),
    }
}

/// What has the number in a column; none where it is no such number.
pub fn numbered_at<K: NumberKind>(row: &Row, at: usize) -> Option<Number<K>>
    ensures { result ≡ where_is K.is_met (number_in (column row.now at)) }
{
    Number::from_number(number_at(row, at)?)
}

/// A number of a kind as it is stored.
pub fn stored_number<K: NumberKind>(number: Number<K>) -> u32
    ensures number { result ≡ number }
    ensures good { K.is_met number ≡ true }
{
    number.get()
}

/// The epoch whose number is in a column; none where it is no such number.
pub fn epoch_at(row: &Row, at: usize) -> Option<Epoch>
    ensures { result ≡ where_is is_epoch (number_in (column row.now at)) }
{
    Epoch::from_number(number_at(row, at)?)
}

/// The number of an epoch.
pub fn epoch_number(epoch: Epoch) -> u32
    ensures number { result ≡ epoch }
    ensures good { is_epoch epoch ≡ true }
{
    epoch.get()
}

/// The place whose number is in a column; none where it is no such number.
pub fn place_at(row: &Row, at: usize) -> Option<PlaceNo>
    ensures { result ≡ where_is (nat_le 1) (number_in (column row.now at)) }
{
    PlaceNo::from_number(number_at(row, at)?)
}

/// The number in a column, which is below 2^32; none where it is no such number.
pub fn small_at(row: &Row, at: usize) -> Option<u32>
    ensures { result ≡ where_is is_small (number_in (column row.now at)) }
{
    let number = number_at(row, at)?;
    if number < 4_294_967_296 {
        Some(number as u32)
    } else {
        None
    }
}

/// A number as it is stored: a `u32` is below 2^32, which is said here for the reader of a column.
pub fn small(number: u32) -> u32
    ensures same { result ≡ number }
    ensures small { is_small number ≡ true }
{
    number
}
