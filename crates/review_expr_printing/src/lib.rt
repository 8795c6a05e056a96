//! Expressions and terms written: `label:Code-Review+2 -(is:true)` is printed `label:Code-Review=2 AND NOT is:true`.
//!
//! The desk prints nothing. What is here says more of the language: laws of the words of terms, in other words than those by which they are
//! read, in which a mistake that code and definition share would show ([`label_values`], [`label_words`]).
//!
//! - **Proved**: a print is that expression again, where it has at most 4,096 bytes ([`print`], [`requirement_print_tells`],
//!   [`copy_print_tells`]); a word that is written is read as its term.
//! - **Assumed**: nothing beyond the kit.
//! - **Only tested**: `language_scripts`.
//! - **Must not know**: changes or votes.
#![tactic(auto)]

pub mod label_laws;
pub mod laws;
pub mod printer;
pub mod printing;
mod term_words;
mod terms;
pub mod word_laws;
pub mod written;

pub use label_laws::{label_values, label_words};
pub use laws::{copy_print_tells, print_tells, requirement_print_tells};
pub use printing::print;
pub use term_words::{push_copy, push_requirement};
pub use word_laws::{
    copy_word_stands, copy_word_tells, minus_is_no_term, requirement_word_stands,
    requirement_word_tells,
};
pub use written::Written;
