//! The comments of changes.
ghost use Rattle.{std.specs.Prelude.pos, review_sql_tables.proofs.TextsOfLookups.find_comments};
ghost use Rattle.review_sql_change_records.specs.Forms.{answers_number, change_comments, comments, flag_number};
ghost use Rattle.review_sql_change_records.specs.Laws.{comment_table, comments_of_change};
ghost use Rattle.review_sql_tables.specs.declared.texts.TheConstants as texts;

use crate::values::{answers_at, answers_number, flag_at, flag_number};
use review_core_rules::{Comment, CommentRow};
use review_sql_records::names::{name_at, numbered_at, small, small_at, stored_number};
use review_sql_tables::bound::Bound;
use review_sql_tables::columns::number_at;
use review_sql_tables::fronts::Front;
use review_sql_tables::table::{Lookup, Record, Sql, Writes};
use review_sql_tables::texts;
use review_words::{ChangeNo, CommentNo};
use sqlite::{Error, Row};
use std::alloc::{AllocError, Global};

/// The comments of a change, by their numbers.
pub struct Comments;

impl Lookup for Comments {
    type Key = ChangeNo;

    type Item = (CommentNo, Comment);

    const SQL: Sql = Sql(texts::FIND_COMMENTS);

    ghost SQL = { texts.FIND_COMMENTS.now };

    ghost search = { change_comments };

    fn bind<'a>(key: &'a ChangeNo) -> Result<Bound<'a>, Error> {
        Ok(Bound::new().number(key.get()))
    }

    fn read(alloc: Global, row: &Row) -> Result<Option<(CommentNo, Comment)>, AllocError> {
        let (Some(number), Some(patch), Some(line)) = (
            numbered_at(row, 0),
            numbered_at(row, 1),
            small_at(row, 3),
        ) else {
            return Ok(None);
        };
        let (Some(author), Some(unresolved)) = (numbered_at(row, 4), flag_at(row, 6)) else {
            return Ok(None);
        };
        let (Some(answers), Some(request)) = (answers_at(row, 7), number_at(row, 8)) else {
            return Ok(None);
        };
        let Some(path) = name_at(alloc, row, 2)? else {
            return Ok(None);
        };
        let Some(message) = name_at(alloc, row, 5)? else {
            return Ok(None);
        };
        let comment = CommentRow {
            patch,
            path,
            line,
            author,
            message,
            unresolved,
            answers,
            request,
        };
        let comment = Comment::new(alloc, comment)?;
        Ok(Some((number, comment)))
    }

    ghost asks = { λ change. find_comments (pos change) };
}

impl Front for Comments {
    type Part = CommentNo;

    type Rest = Comment;

    ghost whole = { comments };

    ghost lawful = { comments_of_change };
}

impl Record for Comments {
    type Key = (ChangeNo, CommentNo);

    type Item = Comment;

    ghost table = { comment_table };

    fn writes() -> Writes {
        Writes::puts_in(texts::INSERT_COMMENT, texts::DELETE_COMMENT)
    }

    fn bind_key<'a>(key: &'a (ChangeNo, CommentNo)) -> Result<Bound<'a>, Error> {
        let (change, comment) = (stored_number(key.0), stored_number(key.1));
        Ok(Bound::new().number(change).number(comment))
    }

    fn bind_row<'a>(
        _alloc: Global,
        key: &'a (ChangeNo, CommentNo),
        row: &'a Comment,
        _buffer: &'a mut String,
    ) -> Result<Bound<'a>, Error> {
        let row = row.row();
        let values = Comments::bind_key(key)?;
        values
            .number(stored_number(row.patch))
            .text(row.path.as_str())
            .number(small(row.line))
            .number(stored_number(row.author))
            .text(row.message.as_str())
            .number(flag_number(row.unresolved))
            .number(answers_number(row.answers))
            .large(row.request)
    }
}
