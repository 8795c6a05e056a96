//! How many rows a count tells.
ghost use Rattle.std.specs.Prelude.{ℕ, pos, ◌≡◌, ◌∷◌, [], Some};
ghost use Rattle.sqlite_value.specs.declared.value.Value.TheVariants.{Int};

use review_sql_tables::columns::number_at;
use sqlite::Row;

/// The number that the one row of a count has; none where it has no number.
pub fn read_count(rows: &[Row]) -> Option<u64>
    ensures { (n : ℕ) → rows.now ≡ (Int (pos n) ∷ []) ∷ [] → result ≡ Some n }
{
    let row = rows.first()?;
    number_at(row, 0)
}
