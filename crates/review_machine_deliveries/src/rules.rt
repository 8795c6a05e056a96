//! What decides deliveries.
use review_file::ProjectFile;
use review_machine_rows::{Delta, Matter, Need, Rows, Step};
use review_words::{AccountNo, Command, Epoch, NotTaken, Query, Reply};
use std::alloc::{AllocError, Global};

/// What a desk is told of commands and questions, from the rows that decide them and the project file by which they are judged. It may
/// keep what it worked out before, on which no answer may depend.
pub trait Rules {
    ghost use Rattle.std.specs.Prelude.{◌≡◌, true, false, ◌<◌, List, length, IfOk, IfErr, IfSome, option_copied};
    ghost use Rattle.review_words.specs.{History.Entry, History.if_done, Texts.IsStored};
    ghost use Rattle.review_machine_rows.specs.{Answer.most_requests, Changes.Reading};
    ghost use Rattle.review_machine_rows.specs.Decisions.{IsUndecided, IsUnread, IsUnshown, NamesEachOnce, IsDoneOrRefused, RestsOn};
    ghost use Rattle.review_machine_rows.specs.{Known.known, Known.number_of, Questions.IsQueryAnswerBy};
    ghost use Rattle.review_machine_rows.specs.Rows.{HasNoEffect, new_least, is_above, is_below};
    ghost use Rattle.review_machine_rows.specs.Steps.{ComesTo, HasComeTo, HasFile, next, texts_for, topic_of, wants_in, unless_none, OfCommand, OfQuery};
    ghost use Rattle.review_machine_rows.specs.View.{AreEnough, IsDecidedAt};
    ghost use Rattle.review_machine_rows.specs.declared.rows.Want.TheVariants as want;

    /// What a command or a question asks of the tables next, where this file was read; nothing where the rows decide it. Asking goes on from
    /// the step that it has come to, and tells the one that it comes to once what is asked is known.
    fn next_need(
        &mut self,
        alloc: Global,
        effective: Option<&ProjectFile>,
        rows: &Rows,
        caller: AccountNo,
        matter: Matter<'_>,
        come: &mut Step,
    ) -> Result<Option<Need>, AllocError>
        ensures need { HasComeTo (option_copied effective.entry) rows.now caller (topic_of matter.entry) come.old →
            IfOk result (λ need. wants_in need ≡ unless_none (next (option_copied effective.entry) rows.now caller (topic_of matter.entry))) }
        ensures come { HasComeTo (option_copied effective.entry) rows.now caller (topic_of matter.entry) come.old →
            IfOk result (λ need. IfSome need (λ n. ComesTo (option_copied effective.entry) rows.now caller (topic_of matter.entry) n.wants.items come.new)) };

    /// Reads the effective file of the project by which a command or a question is judged, as rows know its text and those of its ancestors; none where
    /// the project has none.
    fn read(
        &mut self,
        alloc: Global,
        rows: &Rows,
        matter: Matter<'_>,
    ) -> Result<Option<ProjectFile>, NotTaken>
        ensures read { IfOk result (λ r. HasFile (texts_for rows.now (topic_of matter.entry)) r) }
        ensures cause { IfErr result (IsUnread (texts_for rows.now (topic_of matter.entry))) };

    /// The reply to a command and what it changes, where this file was read and a number is left for the request. A refusal changes nothing.
    /// A least open epoch is named just where a CloseEpoch is accepted: the one that it names, which isn't beyond that of the request and is
    /// above the one that rows tell.
    fn decide(
        &mut self,
        alloc: Global,
        effective: Option<&ProjectFile>,
        rows: &Rows,
        caller: AccountNo,
        epoch: Epoch,
        command: &Command,
    ) -> Result<(Delta, Reply), NotTaken>
        ensures decided { IfOk result (λ r. (reading : Reading) (h : List Entry) → length h < most_requests → RestsOn (OfCommand command.now) h → AreEnough reading h caller (OfCommand command.now) (option_copied effective.entry) rows.now → IsDecidedAt reading h caller epoch command.now r.0 r.1) }
        ensures cause { IfErr result (IsUndecided caller command.now (option_copied effective.entry) rows.now) }
        ensures stored { IfOk result (λ r. IsStored r.1) }
        ensures refused { IfOk result (λ r. HasNoEffect r.1 r.0) }
        ensures closes { IfOk result (λ r. r.0.least_epoch ≡ new_least (if_done r.1 command.now)) }
        ensures own { IfOk result (λ r. is_below r.0.least_epoch epoch ≡ false) }
        ensures raises { IfOk result (λ r. is_above r.0.least_epoch (number_of (known rows.now want.LeastEpoch)) ≡ true) }
        ensures once { IfOk result (λ r. NamesEachOnce r.0) };

    /// The answer to a question, where this file was read.
    fn show(
        &mut self,
        alloc: Global,
        effective: Option<&ProjectFile>,
        rows: &Rows,
        caller: AccountNo,
        query: &Query,
    ) -> Result<Reply, NotTaken>
        ensures shown { IfOk result (λ r. (reading : Reading) (h : List Entry) → RestsOn (OfQuery query.now) h → AreEnough reading h caller (OfQuery query.now) (option_copied effective.entry) rows.now → IsQueryAnswerBy reading h caller query.now r) }
        ensures answered { IfOk result IsDoneOrRefused }
        ensures cause { IfErr result (IsUnshown caller query.now (option_copied effective.entry) rows.now) };
}
