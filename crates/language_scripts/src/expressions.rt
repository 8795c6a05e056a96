//! Scripts on expressions: submit requirements and copy conditions.
//!
//! A line is
//!
//! - a question about an expression:
//!   - `requirement TEXT`, `copy TEXT`: TEXT is read as a submit requirement, as a copy condition. The answer is the text that it is
//!     printed as, or that text's length where it has more than 200 bytes, and beneath it the labels that it names, if any;
//!   - `holds TEXT`, `copies TEXT`: whether that requirement holds for the change, that condition for the vote. The answer is yes
//!     or no;
//!   - `change-copies TEXT`, `vote-holds TEXT`: a condition asked of the change, a requirement of the vote;
//! - or a fact, which has no answer. Both kinds of facts have
//!   - `uploader A`: account A sent the current patch set; in copying, the new one;
//!   - `group G A A ..`: the accounts of a group.
//!
//!   A change has besides
//!   - `owner A`, `branch B`, `paths P, P, ..`, `threads resolved`, `threads unresolved`;
//!   - `label L LEAST GREATEST`: the values of a label;
//!   - `votes L A VALUE, A VALUE, ..`: what each account voted on it.
//!
//!   A vote on the patch set before a new one has besides
//!   - `voter A`, `value VALUE`, `range LEAST GREATEST`: the values of its label;
//!   - `kind K`: the new patch set's kind; `files same`, `files changed`: whether both patch sets have the same paths.
//!
//! A text that is no expression is answered by its fault and place. In the text of a question `{N:PART}` is PART N times, and `\t`,
//! `\r` and `\n` are a tab, a carriage return and a line feed; any other brace or backslash is itself.
//!
//! # Facts
//!
//! When a script begins, account 1 made a change for the branch main and sent its patch set, which has no paths, votes or threads; and
//! account 1 voted 2 on a label from -2 to 2, and sends a rework of other paths. There are no labels and no groups.

use crate::answers::{judgement, reading};
use crate::facts::{first_change, first_vote, tell};
use crate::fault::Fault;
use crate::texts::whole_text;
use review_expr::{Facts, parse_copy, parse_requirement};
use std::alloc::Global;

/// What the lines of a script have said so far.
#[derive(Drop)]
pub struct ExpressionScript {
    change: Facts,
    vote: Facts,
}

impl ExpressionScript {
    /// One that has said nothing.
    pub fn new(alloc: Global) -> Result<ExpressionScript, Fault> {
        let change = Facts::Change(first_change(alloc)?);
        let vote = first_vote(alloc);
        Ok(ExpressionScript { change, vote })
    }

    /// The answer to a question, if a word asks one.
    fn asked(&self, alloc: Global, word: &str, text: &str) -> Result<Option<String>, Fault> {
        let answer = match word {
            "requirement" => reading(alloc, parse_requirement(alloc, text)),
            "copy" => reading(alloc, parse_copy(alloc, text)),
            "holds" => judgement(alloc, parse_requirement(alloc, text), &self.change),
            "copies" => judgement(alloc, parse_copy(alloc, text), &self.vote),
            "change-copies" => judgement(alloc, parse_copy(alloc, text), &self.change),
            "vote-holds" => judgement(alloc, parse_requirement(alloc, text), &self.vote),
            _ => return Ok(None),
        };
        Ok(Some(answer?))
    }

    /// Takes a fact of the change, of the vote, or of both.
    fn take_fact(&mut self, alloc: Global, word: &str, text: &str) -> Result<(), Fault> {
        let of_change = tell(alloc, &mut self.change, word, text)?;
        let of_vote = tell(alloc, &mut self.vote, word, text)?;
        if of_change || of_vote {
            return Ok(());
        }
        Err(Fault::Form)
    }

    /// Takes a line: its answer, if it asks something.
    pub fn take(&mut self, alloc: Global, line: &str) -> Result<Option<String>, Fault> {
        let (word, rest) = line.split_once(" ").unwrap_or((line, ""));
        let text = whole_text(alloc, rest)?;
        let answer = self.asked(alloc, word, text.as_str())?;
        if answer.is_none() {
            self.take_fact(alloc, word, rest)?;
        }
        Ok(answer)
    }
}
