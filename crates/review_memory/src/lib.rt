//! Shelves: a desk in memory ([`MemoryShelf`]), and shelves over another one that fail a call or shut ([`FaultyShelf`], [`ShuttingShelf`]),
//! for tests of what stands above. `FaultyShelf::new(shelf, 3)`, say, fails the third call.
//!
//! - **Proved**: a desk in memory keeps the contract of `Shelf`, its count of faults stays 0, and a new one is the desk of the empty
//!   history; the others keep it too, and fail where they were told to ([`only_that_fails`], [`shut_from_then`]).
//! - **Assumed**: nothing beyond the kit, no premise on a store.
//! - **Only tested**: `value_tests` runs shelves that fail.
//! - **Must not know**: requests or answers but their texts.
#![tactic(auto)]

mod changes;
mod faulty;
mod keys;
mod laws;
mod loading;
mod memory;
mod shutting;
mod tables;

pub use faulty::FaultyShelf;
pub use laws::{only_that_fails, shut_from_then};
pub use memory::MemoryShelf;
pub use shutting::ShuttingShelf;
