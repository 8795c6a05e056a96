//! Names, numbers and sets of fixed forms, and what a key of a table is ([`Key`]).
//!
//! A value of a type of this crate has the form of that type: `AccountName::read` takes `ann` and refuses `Ann Lee`, and every other call
//! that makes one keeps to the form. A contract sees a value as its bytes, its number, or its sorted list.
//!
//! - **Proved**: each `read`, `from_number`, `from_vec` takes exactly what has the form; a copy is the same value; [`number_tells`] and
//!   [`label_form`] say the forms of numbers and of labels' names in other words.
//! - **Assumed**: nothing beyond the kit.
//! - **Only tested**: `word_scripts` runs each reader.
//! - **Must not know**: commands, tables or a desk.
#![tactic(auto)]

pub mod changes;
pub mod forms;
pub mod groups;
pub mod key;
pub mod keys;
pub mod kinds;
pub mod laws;
pub mod messages;
pub mod names;
pub mod numbers;
pub mod places;

pub use changes::{ChangeNo, CommentNo, PatchNo};
pub use forms::{Form, Name};
pub use groups::{Groups, Paths};
pub use key::Key;
pub use kinds::ChangeKind;
pub use laws::{label_form, number_tells};
pub use messages::{Message, Reason, Subject};
pub use names::{
    AccountName, AccountNo, Bad, GroupName, Members, RequestId, admin_name, administrators,
    read_account,
};
pub use numbers::{Number, NumberKind, read_number};
pub use places::{BranchName, CommitName, LabelName, Path, Place, ProjectName, patch_set_level};
