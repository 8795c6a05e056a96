//! What was found, unless it is odd.
ghost use Rattle.std.specs.Prelude.{◌≡◌, Some, None, IfOk, IfErr, option_map};
ghost use Rattle.review_sql_records.specs.Forms.{where_is, is_small};
ghost use Rattle.review_sql_lookups.specs.Loads.{last_of};

use crate::sights::Sight;

/// What a key has, unless that is odd.
pub fn whole<X>(found: Option<Option<X>>) -> Result<Option<X>, Sight>
    ensures ok { IfOk result (λ row. found ≡ option_map Some row) }
    ensures err { IfErr result (λ s. (s ≡ Sight.Damaged) × (found ≡ Some None)) }
{
    match found {
        Some(Some(row)) => Ok(Some(row)),
        Some(None) => Err(Sight::Damaged),
        None => Ok(None),
    }
}

/// The greatest number, or 0 where there is none, unless it is no number below 2^32.
pub fn last(found: Option<Option<u64>>) -> Option<u32>
    ensures { result ≡ where_is is_small (last_of found) }
{
    let number = match found {
        Some(Some(number)) => number,
        Some(None) => return None,
        None => 0,
    };
    if number < 4_294_967_296 {
        Some(number as u32)
    } else {
        None
    }
}
