//! How look-ups end.

use review_machine_rows::Found;

/// How a look-up ended.
#[derive(Drop)]
pub enum Sight {
    /// What it found.
    Found(Found),
    /// There was no memory for it.
    NoMemory,
    /// It shows that the tables are those of no history: a row doesn't read as one of its table, or doesn't fit the others.
    Damaged,
}
