//! A new patch set: its votes, and who is called.
ghost use Rattle.std.specs.Cmp.Lexicographic.{pointwise};
ghost use Rattle.std.specs.Prelude.{◌≡◌, ◌+◌, ◌==◌, [], pos, true, length, IfOk, OnOk};
ghost use Rattle.review_names.specs.Forms.{is_within, most_patches};
ghost use Rattle.review_words.specs.declared.command.ChangeCommand.TheVariants.{Upload};
ghost use Rattle.review_core_rules.specs.Change.{after, carried, copying, is_lost, last_paths};
ghost use Rattle.review_core_rules.specs.EditedChanges.{IsUnedited, Makes, after_edits};
ghost use Rattle.review_core_rules.specs.{Seen.seen, Sound.fits, Votes.voted};
ghost use Rattle.review_core_tables.specs.Copies.{AreMany, GroupTable, group_list, with_groups};

use crate::file::ChangeFile;
use crate::roles::current_patch;
use review_core_rules::{EditedChange, PatchRow, begin_edits, stays_sound};
use review_core_standing::last_uploader;
use review_core_tables::{
    GroupTables, Parted, WhenLost, Who, call_all, callable, drop_called, is_eligible, part_votes,
    put_all,
};
use review_expr_judging::{ValueRange, VoteFacts};
use review_file::ProjectFile;
use review_words::{AccountNo, Groups, NewPatch, PatchNo, Path, Paths};
use std::alloc::{AllocError, Global};
use std::collections::BTreeMap;

/// How many votes a new patch set copies, and how many it doesn't.
#[derive(Clone, Copy, PartialEq, Eq)]
pub struct Copied {
    pub copied: usize,
    pub outdated: usize,
}

fn last_paths(patches: &[PatchRow]) -> &[Path]
    ensures { result.now ≡ last_paths [] patches.now }
{
    let mut last: &[Path] = &[];
    for patch in patches {
        last = patch.paths.as_slice();
    }
    last
}

fn has_paths(patches: &[PatchRow], paths: &Paths) -> bool
    ensures { result ≡ pointwise (pointwise ◌==◌) (last_paths [] patches.now) paths.now }
{
    last_paths(patches) == paths.as_slice()
}

/// The number after a patch set's.
fn next_patch(patch: PatchNo) -> PatchNo
    requires { is_within most_patches (patch + 1) ≡ true }
    ensures { result ≡ patch + 1 }
{
    match PatchNo::from_number(patch.get() as u64 + 1) {
        Some(next) => next,
        None => unreachable!(),
    }
}

/// What copy conditions ask of the change and of the new patch set; each vote is put in later, and the groups are asked of tables.
fn upload_facts(
    alloc: Global,
    patches: &[PatchRow],
    patch: &NewPatch,
    caller: AccountNo,
) -> VoteFacts
    ensures { (groups : GroupTable) → with_groups result groups ≡ record { value = pos 0; voter = caller; range = record { least = pos 0; greatest = pos 0 }; kind = patch.now.kind; uploader = caller; unchanged_files = pointwise (pointwise ◌==◌) (last_paths [] patches.now) patch.now.paths; groups = group_list groups } }
{
    VoteFacts {
        value: 0,
        voter: caller,
        range: ValueRange {
            least: 0,
            greatest: 0,
        },
        kind: patch.kind,
        uploader: caller,
        unchanged_files: has_paths(patches, &patch.paths),
        groups: Groups(BTreeMap::new(alloc)),
    }
}

fn sent_by(patch: NewPatch, caller: AccountNo) -> PatchRow
    ensures { result ≡ record { commit = patch.commit; parent = patch.parent; kind = patch.kind; uploader = caller; paths = patch.paths } }
{
    PatchRow {
        commit: patch.commit,
        parent: patch.parent,
        kind: patch.kind,
        uploader: caller,
        paths: patch.paths,
    }
}

impl<'r> ChangeFile<'r> {
    /// A new patch set, with the numbers of votes that were copied to it and that weren't. The file and the groups are those
    /// before the request.
    pub fn with_patch_set(
        &self,
        alloc: Global,
        patch: NewPatch,
        caller: AccountNo,
        file: &ProjectFile,
        groups: &GroupTables,
        request: u64,
    ) -> Result<(EditedChange<'r>, Copied), AllocError>
        requires { fits (Upload patch) (seen self.now.rows.now) ≡ true }
        ensures change { IfOk result (λ r. Makes self.now.rows.now (after (record { file = file.now; groups = group_list groups.now }) (Upload patch) caller request (seen self.now.rows.now)) r.0) }
        ensures copied { IfOk result (λ r. AreMany (λ l u. voted (carried (copying (record { file = file.now; groups = group_list groups.now }) (Upload patch) caller (seen self.now.rows.now)) (seen self.now.rows.now) l u)) r.1.copied) }
        ensures outdated { IfOk result (λ r. AreMany (λ l u. is_lost (copying (record { file = file.now; groups = group_list groups.now }) (Upload patch) caller (seen self.now.rows.now)) (seen self.now.rows.now) u l) r.1.outdated) }
    {
        let mut edited = begin_edits(alloc, self.rows, self.rows.header.state, request)?;
        match self.add_patch_set(alloc, &mut edited, patch, caller, file, groups, request) {
            Ok(counts) => Ok((edited, counts)),
            Err(error) => {
                drop(edited);
                Err(error)
            }
        }
    }

    // Adds a patch set to a change that is begun.
    fn add_patch_set(
        &self,
        alloc: Global,
        edited: &mut EditedChange<'r>,
        patch: NewPatch,
        caller: AccountNo,
        file: &ProjectFile,
        groups: &GroupTables,
        request: u64,
    ) -> Result<Copied, AllocError>
        requires fitting { fits (Upload patch) (seen self.now.rows.now) ≡ true }
        requires over { edited.old.rows ≡ self.now.rows }
        requires unedited { IsUnedited self.now.rows.now edited.old }
        requires same { after_edits edited.old ≡ record (seen self.now.rows.now) { updated = request } }
        ensures change { OnOk result (Makes self.now.rows.now (after (record { file = file.now; groups = group_list groups.now }) (Upload patch) caller request (seen self.now.rows.now)) edited.new) }
        ensures copied { IfOk result (λ r. AreMany (λ l u. voted (carried (copying (record { file = file.now; groups = group_list groups.now }) (Upload patch) caller (seen self.now.rows.now)) (seen self.now.rows.now) l u)) r.copied) }
        ensures outdated { IfOk result (λ r. AreMany (λ l u. is_lost (copying (record { file = file.now; groups = group_list groups.now }) (Upload patch) caller (seen self.now.rows.now)) (seen self.now.rows.now) u l) r.outdated) }
    {
        stays_sound();
        let now = current_patch(&self.rows.patches);
        let next = next_patch(now);
        let former = last_uploader(self.rows.header.owner, &self.rows.patches);
        let facts = upload_facts(alloc, &self.rows.patches, &patch, caller);
        let parted = part_votes(alloc, &self.rows.votes, file, facts, groups, now, next)?;
        let Parted { copied, lost } = parted;
        let counts = Copied {
            copied: copied.len(),
            outdated: lost.len(),
        };
        put_all(&mut edited.votes, copied)?;
        edited.patches.push(sent_by(patch, caller))?;
        let who = Who {
            owner: self.rows.header.owner,
            uploader: caller,
            caller,
            wip: self.rows.header.wip,
        };
        let is_gone = !is_eligible(who.owner, who.uploader, &self.rows.roles, former);
        drop_called(&mut edited.attention, former, is_gone)?;
        let rule = WhenLost {
            labels: file.labels(),
            lost: &lost,
        };
        let accounts = callable(alloc, &edited.roles, &who)?;
        call_all(alloc, &mut edited.attention, &accounts, &rule, request)?;
        Ok(counts)
    }
}
