//! The rows of a desk, what a delivery needs of them and changes in them, and what a shelf is that keeps them.
//!
//! The definitions here are what every crate above speaks of: the answer to a command after a history (`specs/Answer`), the facts that a
//! history says, the tables that are its view (`specs/View`), and what is known of tables ([`Rows`], `specs/Known`). A [`Shelf`] has three
//! calls on tables: `recall` for a repeat, `load` for look-ups, `commit` for a delta with the request; and it counts the faults of its
//! store. `Want::Account(2)`, say, is a look-up, and what it finds is a name or that there is none.
//!
//! - **Proved**: what rows tell after they have learnt a look-up.
//! - **Assumed**: nothing beyond the kit.
//! - **Only tested**: nothing.
//! - **Must not know**: how a shelf keeps rows, or how an answer is reached.
#![tactic(auto)]

mod known;
pub mod links;
pub mod matter;
pub mod rows;
pub mod shelf;
pub mod step;

pub use links::RowLinks;
pub use matter::Matter;
pub use rows::{
    Base, BranchKey, ChangeEdit, Counted, Delta, Found, Kept, MemberKey, Need, PlaceKey, Put,
    Recalled, Rows, StoredFile, Want,
};
pub use shelf::{Shelf, ShelfFault};
pub use step::Step;
