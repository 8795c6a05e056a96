//! The patch sets of changes.
ghost use Rattle.std.specs.Prelude.{pos, ◌≡◌, ◌≤◌, ◌+◌, IfOk};
ghost use Rattle.sqlite_value.specs.Order.{column};
ghost use Rattle.review_sql_tables.proofs.TextsOfLookups.{find_last_patch, find_patch, find_patches};
ghost use Rattle.review_sql_change_records.specs.Forms.{change_patches, patch_numbers, patches, patch_in, paths_text};
ghost use Rattle.review_sql_change_records.specs.Laws.{patch_table, patches_of_change};
ghost use Rattle.review_sql_tables.specs.declared.texts.TheConstants as texts;

use crate::paths::{is_read_back, paths_text, read_paths};
use crate::values::kind_at;
use review_core_rules::PatchRow;
use review_sql_records::names::{name_at, numbered_at, stored_number};
use review_sql_tables::bound::Bound;
use review_sql_tables::columns::text_at;
use review_sql_tables::fronts::Front;
use review_sql_tables::greatest::Greatest;
use review_sql_tables::table::{Lookup, Record, Sql, Writes};
use review_sql_tables::texts;
use review_words::{ChangeNo, PatchNo};
use sqlite::{Error, Row};
use std::alloc::{AllocError, Global};

// A patch set from five columns.
fn read_patch(alloc: Global, row: &Row, from: usize) -> Result<Option<PatchRow>, AllocError>
    requires { from ≤ 1 }
    ensures { IfOk result (λ x. x ≡ patch_in (column row.now from) (column row.now (from + 1)) (column row.now (from + 2)) (column row.now (from + 3)) (column row.now (from + 4))) }
{
    let Some(commit) = name_at(alloc, row, from)? else {
        return Ok(None);
    };
    let Some(parent) = name_at(alloc, row, from + 1)? else {
        return Ok(None);
    };
    let (Some(kind), Some(uploader), Some(text)) = (
        kind_at(row, from + 2),
        numbered_at(row, from + 3),
        text_at(row, from + 4),
    ) else {
        return Ok(None);
    };
    let Some(paths) = read_paths(alloc, text)? else {
        return Ok(None);
    };
    Ok(Some(PatchRow {
        commit,
        parent,
        kind,
        uploader,
        paths,
    }))
}

/// The patch sets, by the numbers of their changes and their own.
pub struct PatchSets;

impl Lookup for PatchSets {
    type Key = (ChangeNo, PatchNo);

    type Item = PatchRow;

    const SQL: Sql = Sql(texts::FIND_PATCH);

    ghost SQL = { texts.FIND_PATCH.now };

    ghost search = { patches };

    fn bind<'a>(key: &'a (ChangeNo, PatchNo)) -> Result<Bound<'a>, Error> {
        Ok(Bound::new().number(key.0.get()).number(key.1.get()))
    }

    fn read(alloc: Global, row: &Row) -> Result<Option<PatchRow>, AllocError> {
        read_patch(alloc, row, 0)
    }

    ghost asks = { λ p. find_patch (pos p.0) (pos p.1) };
}

/// The greatest number of a patch set of a change.
pub struct LastPatch;

impl Greatest for LastPatch {
    type Key = ChangeNo;

    type Item = PatchNo;

    const SQL: Sql = Sql(texts::FIND_LAST_PATCH);

    ghost SQL = { texts.FIND_LAST_PATCH.now };

    ghost search = { patch_numbers };

    ghost place = { 2 };

    fn bind<'a>(key: &'a ChangeNo) -> Result<Bound<'a>, Error> {
        Ok(Bound::new().number(key.get()))
    }

    fn read(_alloc: Global, row: &Row) -> Result<Option<PatchNo>, AllocError> {
        Ok(numbered_at(row, 0))
    }

    ghost asks = { λ change. find_last_patch (pos change) };
}

/// The patch sets of a change, by their numbers.
pub struct Patches;

impl Lookup for Patches {
    type Key = ChangeNo;

    type Item = (PatchNo, PatchRow);

    const SQL: Sql = Sql(texts::FIND_PATCHES);

    ghost SQL = { texts.FIND_PATCHES.now };

    ghost search = { change_patches };

    fn bind<'a>(key: &'a ChangeNo) -> Result<Bound<'a>, Error> {
        Ok(Bound::new().number(key.get()))
    }

    fn read(alloc: Global, row: &Row) -> Result<Option<(PatchNo, PatchRow)>, AllocError> {
        Ok(numbered_at(row, 0).zip(read_patch(alloc, row, 1)?))
    }

    ghost asks = { λ change. find_patches (pos change) };
}

impl Front for Patches {
    type Part = PatchNo;

    type Rest = PatchRow;

    ghost whole = { patches };

    ghost lawful = { patches_of_change };
}

impl Record for Patches {
    type Key = (ChangeNo, PatchNo);

    type Item = PatchRow;

    ghost table = { patch_table };

    fn writes() -> Writes {
        Writes::puts_in(texts::INSERT_PATCH, texts::DELETE_PATCH)
    }

    fn bind_key<'a>(key: &'a (ChangeNo, PatchNo)) -> Result<Bound<'a>, Error> {
        let (change, patch) = (stored_number(key.0), stored_number(key.1));
        Ok(Bound::new().number(change).number(patch))
    }

    fn bind_row<'a>(
        alloc: Global,
        key: &'a (ChangeNo, PatchNo),
        row: &'a PatchRow,
        buffer: &'a mut String,
    ) -> Result<Bound<'a>, Error> {
        // What would not read back is not stored; the paths of a patch set always do.
        if !is_read_back(alloc, &row.paths)? {
            return Err(Error::InvalidQuery);
        }
        *buffer = paths_text(alloc, row.paths.as_slice())?;
        let values = Patches::bind_key(key)?;
        Ok(
            values
                .text(row.commit.as_str())
                .text(row.parent.as_str())
                .text(row.kind.name())
                .number(stored_number(row.uploader))
                .text(buffer.as_str()),
        )
    }
}
