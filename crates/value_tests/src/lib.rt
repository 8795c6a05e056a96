//! Tests of values that no script has, over public calls alone: what tables hold, tokens and words that are never cut from a text, and a term
//! that no word spells, shelves that fail, a request over a socket within one process, one over readers, writers and shelves that fail, a writer that keeps back what was not flushed. All else is in the scripts of `word_scripts` and `language_scripts`.
#![tactic(auto)]

#[cfg(test)]
mod fault;
#[cfg(test)]
mod http;
#[cfg(test)]
mod shelves;
#[cfg(test)]
mod sockets;
#[cfg(test)]
mod streams;
#[cfg(test)]
mod tables;
#[cfg(test)]
mod terms;
#[cfg(test)]
mod tokens;
#[cfg(test)]
mod words;
