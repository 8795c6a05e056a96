//! Why a desk is not made or opened.
ghost use Rattle.std.specs.Prelude.{◌≡◌, ◌≢◌, ◌⊎◌};

use sqlite::{Error, ErrorCode};

/// Why a desk was not made or opened.
#[derive(Clone, Copy, PartialEq, Eq)]
pub enum DeskFault {
    /// The tables are not those of a desk.
    NotADesk,
    /// They are those of another version.
    WrongVersion,
    /// The store failed.
    Store,
    /// A table of one of the names that tables of a desk have is there.
    NotEmpty,
    /// The tables are not those that `create` makes, or for `migrate` those of an earlier version; or not these alone; or two rows of one have the same rowid.
    NotOurs,
    /// There was no memory for it.
    Memory,
}

impl DeskFault {
    /// The fault of an error of the store: want of memory where the store says so, and else that it failed.
    pub fn of(error: Error) -> DeskFault
        ensures memory { error ≡ Error.SqliteFailure ErrorCode.OutOfMemory → result ≡ DeskFault.Memory }
        ensures store { error ≢ Error.SqliteFailure ErrorCode.OutOfMemory → result ≡ DeskFault.Store }
        ensures kinds { (result ≡ DeskFault.Memory) ⊎ (result ≡ DeskFault.Store) }
        ensures plain { (result ≢ DeskFault.NotADesk) × (result ≢ DeskFault.WrongVersion) × (result ≢ DeskFault.NotEmpty) × (result ≢ DeskFault.NotOurs) }
    {
        match error {
            Error::SqliteFailure(ErrorCode::OutOfMemory) => DeskFault::Memory,
            _ => DeskFault::Store,
        }
    }
}
