//! The changes that one submit joins to a branch.
//!
//! The chain of a change is found from the change backwards: where the current patch set's parent is in the branch, the chain ends;
//! otherwise the parent must be the current commit of another change that is open and not in work in progress, which is then the next of
//! the chain, up to 100 changes. The first link that isn't so is the change's bad link.
//!
//! [`Links`] say what is known of a branch, which may be a part: [`chain`] answers the chain, or the name of the bad link, or that
//! something isn't known; [`wanted`] what has to be looked up next, [`wanted_on`] the same from where an earlier look has come to.
//! [`joins`] gives the changes of a chain their places.
//!
//! - **Proved**: there is one chain or one bad link; a part in which nothing is wanted decides for the whole branch; look-ups end (the
//!   laws).
//! - **Assumed**: nothing beyond the kit.
//! - **Only tested**: `scripts/desk.txt`, by submits.
//! - **Must not know**: rows, requirements or rights; of a change it sees its state, whether it is in work in progress, its patch sets'
//!   commits and parents.
#![tactic(auto)]

pub mod laws;
pub mod links;
pub mod places;
pub mod walks;

pub use laws::{
    each_front_is_a_chain, each_has_one, look_ups_end, only_one_chain, parts_decide, parts_keep,
    places_go_on,
};
pub use links::{Link, Links, Standing};
pub use places::joins;
pub use walks::{ChainFault, LookUp, Walked, chain, wanted, wanted_on};
