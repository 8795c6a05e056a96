//! Values of columns, as they are read and stored.
ghost use Rattle.std.specs.{Int.w64, Prelude.◌≡◌, Prelude.true, Prelude.FitsSigned};
ghost use Rattle.{sqlite_value.specs.Order.column, review_names.specs.Kinds.kind_named};
ghost use Rattle.review_words.specs.{States.state_named, Texts.role_named};
ghost use Rattle.review_sql_tables.specs.Search.{number_in, text_in};
ghost use Rattle.review_sql_records.specs.Forms.{where_is};
ghost use Rattle.review_sql_change_records.specs.Forms.{answered, answers_number, flag_number, flagged, integer_in, is_answer, is_vote, named};

use review_core_rules::Vote;
use review_sql_tables::columns::{number_at, text_at};
use review_words::{ChangeKind, CommentNo, Role, State};
use sqlite::Row;
use sqlite::types::ValueRef;

/// The role whose name is in a column; none where it is no such name.
pub fn role_at(row: &Row, at: usize) -> Option<Role>
    ensures { result ≡ named role_named (text_in (column row.now at)) }
{
    Role::from_name(text_at(row, at)?)
}

/// The kind whose name is in a column; none where it is no such name.
pub fn kind_at(row: &Row, at: usize) -> Option<ChangeKind>
    ensures { result ≡ named kind_named (text_in (column row.now at)) }
{
    ChangeKind::from_name(text_at(row, at)?)
}

/// Where a change stands, by the name in a column; none where it is no such name.
pub fn state_at(row: &Row, at: usize) -> Option<State>
    ensures { result ≡ named state_named (text_in (column row.now at)) }
{
    State::from_name(text_at(row, at)?)
}

/// 1 where it is so, and 0 where it isn't.
pub fn flag_number(is: bool) -> u32
    ensures { result ≡ flag_number is }
{
    if is { 1 } else { 0 }
}

/// Whether it is so, by the number in a column; none where that is neither 0 nor 1.
pub fn flag_at(row: &Row, at: usize) -> Option<bool>
    ensures { result ≡ flagged (number_in (column row.now at)) }
{
    match number_at(row, at)? {
        0 => Some(false),
        1 => Some(true),
        _ => None,
    }
}

/// The comment that is answered, by its number, 0 for none; none where the column has no such number.
pub fn answers_at(row: &Row, at: usize) -> Option<Option<CommentNo>>
    ensures { result ≡ answered (number_in (column row.now at)) }
{
    let number = number_at(row, at)?;
    if number == 0 {
        return Some(None);
    }
    match CommentNo::from_number(number) {
        Some(comment) => Some(Some(comment)),
        None => None,
    }
}

/// The number of a comment that is answered, and 0 for none.
#[tactic(auto, unfolding(review_names::specs::Forms::is_within))]
pub fn answers_number(answers: Option<CommentNo>) -> u32
    ensures number { result ≡ answers_number answers }
    ensures good { is_answer answers ≡ true }
{
    match answers {
        Some(comment) => comment.get(),
        None => 0,
    }
}

/// The vote whose value is in a column; none where it is no value of a vote.
pub fn vote_at(row: &Row, at: usize) -> Option<Vote>
    ensures { result ≡ where_is is_vote (integer_in (column row.now at)) }
{
    match row.get_ref(at) {
        Ok(ValueRef::Int(number)) if -128 <= number && number <= 127 => {
            Vote::from_value(number as i8)
        }
        _ => None,
    }
}

/// The value of a vote.
pub fn vote_value(vote: Vote) -> i64
    ensures value { result ≡ vote }
    ensures fits { FitsSigned w64 result }
    ensures good { is_vote vote ≡ true }
{
    vote.get() as i64
}
