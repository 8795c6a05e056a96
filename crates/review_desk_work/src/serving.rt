//! Serving in turns: what is left, and how often a desk is opened again.
ghost use Rattle.std.specs.Prelude.{◌≡◌, ◌<◌, ◌≤◌, ◌+◌, ◌==◌, if◌then◌else◌};
ghost use Rattle.review_desk_work.specs.Worked.{left_by};

use crate::fault::ProgramFault;
use review_json_lines::Outcome;

/// How many times in a row a desk is opened again of which each served one connection alone.
pub const MOST_IN_ROW: u32 = 8;

/// How many connections are left, where serving ended behind a fault of the store.
pub fn left_by(ended: Result<Outcome, ProgramFault>) -> Option<u32>
    ensures { result ≡ left_by ended }
{
    match ended {
        Err(ProgramFault::ServedInPart { left }) => Some(left),
        _ => None,
    }
}

/// How many times in a row a desk is opened again, with the time that follows a turn which had so many connections and has left so many.
pub fn row_with(in_row: u32, had: u32, left: u32) -> u32
    requires few { in_row ≤ 8 }
    requires fewer { left < had }
    ensures { result ≡ (if left + 1 == had then in_row + 1 else 1) }
{
    if left + 1 == had { in_row + 1 } else { 1 }
}
