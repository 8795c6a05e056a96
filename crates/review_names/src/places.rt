//! The names of labels, projects, branches and commits, paths, and the places of comments.
ghost use Rattle.std.specs.{Char.is_ascii_control, List.list_all};
ghost use Rattle.std.specs.Prelude.{◌≡◌, ◌==◌, ◌&&◌, IfOk, not};
ghost use Rattle.review_names.specs.Forms.{components, goes_on, is_hexadecimal, is_label, is_slashed_name, is_step, is_commit, is_path, is_path_step, is_place, patch_set_level};

use crate::forms::{Form, Name};
use crate::names::is_all_plain;
use std::alloc::{AllocError, Global};

/// The form of a label's name: 1 to 40 of `A-Z a-z 0-9 -`, a letter first, each hyphen followed
/// by a letter.
#[derive(Drop)]
pub struct OfLabel;

/// The form of a project's name: 1 to 128 bytes, components of `A-Z a-z 0-9 . _ -` joined by
/// `/`, none of them `.` or `..`.
#[derive(Drop)]
pub struct OfProject;

/// The form of a branch's name, which is that of a project's.
#[derive(Drop)]
pub struct OfBranch;

/// The form of a commit's name: 40 of `0-9 a-f`.
#[derive(Drop)]
pub struct OfCommit;

/// The form of a path: 1 to 512 bytes of UTF-8 without the control characters of ASCII,
/// components joined by `/`, none of them empty.
#[derive(Drop)]
pub struct OfPath;

/// The form of the place of a comment: a path, `/COMMIT_MSG` or `/PATCHSET_LEVEL`.
#[derive(Drop)]
pub struct OfPlace;

/// A component of a project's or a branch's name.
#[derive(Drop)]
struct OfStep;

/// A component of a path.
#[derive(Drop)]
struct OfFile;

/// The name of a label or a requirement.
pub type LabelName = Name<OfLabel>;

/// The name of a project.
pub type ProjectName = Name<OfProject>;

/// The name of a branch.
pub type BranchName = Name<OfBranch>;

/// The name of a commit.
pub type CommitName = Name<OfCommit>;

/// The path of a file.
pub type Path = Name<OfPath>;

/// The place of a comment: the path of a file, `/COMMIT_MSG` for the change's message, or
/// `/PATCHSET_LEVEL` for the patch set as a whole.
pub type Place = Name<OfPlace>;

impl Form for OfLabel {
    ghost is_form = { is_label };

    #[tactic(auto, unfolding(crate::specs::Forms::is_label))]
    fn is_met(text: &str) -> bool {
        let goes_on = is_label_to_end(text.as_bytes());
        text.len() <= 40 && goes_on
    }
}

impl Form for OfProject {
    ghost is_form = { is_slashed_name };

    fn is_met(text: &str) -> bool {
        is_slashed_name(text)
    }
}

impl Form for OfBranch {
    ghost is_form = { is_slashed_name };

    fn is_met(text: &str) -> bool {
        is_slashed_name(text)
    }
}

impl Form for OfCommit {
    ghost is_form = { is_commit };

    #[tactic(auto, unfolding(crate::specs::Forms::is_commit))]
    fn is_met(text: &str) -> bool {
        let hexadecimal = is_all_hexadecimal(text);
        text.len() == 40 && hexadecimal
    }
}

impl Form for OfPath {
    ghost is_form = { is_path };

    #[tactic(auto, unfolding(crate::specs::Forms::is_path))]
    fn is_met(text: &str) -> bool {
        text.len() <= 512 && has_components::<OfFile>(text)
    }
}

impl Form for OfPlace {
    ghost is_form = { is_place };

    #[tactic(auto, unfolding(crate::specs::Forms::is_place))]
    fn is_met(text: &str) -> bool {
        OfPath::is_met(text) || text == "/COMMIT_MSG" || text == "/PATCHSET_LEVEL"
    }
}

impl Form for OfStep {
    ghost is_form = { is_step };

    #[tactic(auto, unfolding(crate::specs::Forms::is_step))]
    fn is_met(text: &str) -> bool {
        let plain = is_all_plain(text);
        1 <= text.len() && plain && text != "." && text != ".."
    }
}

impl Form for OfFile {
    ghost is_form = { is_path_step };

    #[tactic(auto, unfolding(crate::specs::Forms::is_path_step))]
    fn is_met(text: &str) -> bool {
        let shown = has_no_control(text);
        1 <= text.len() && shown
    }
}

fn is_hexadecimal(byte: u8) -> bool
    ensures { result ≡ is_hexadecimal byte }
{
    byte.is_ascii_digit() || (b'a' <= byte && byte <= b'f')
}

fn is_all_hexadecimal(text: &str) -> bool
    ensures { result ≡ list_all is_hexadecimal text.now }
{
    text.as_bytes().iter().all(|byte| is_hexadecimal(*byte))
}

fn is_shown(byte: u8) -> bool
    ensures { result ≡ not (is_ascii_control byte) }
{
    !byte.is_ascii_control()
}

pub(crate) fn has_no_control(text: &str) -> bool
    ensures { result ≡ list_all (λ c. not (is_ascii_control c)) text.now }
{
    text.as_bytes().iter().all(|byte| is_shown(*byte))
}

/// Whether letters, digits and hyphens make a label's name of any length.
fn is_label_to_end(bytes: &[u8]) -> bool
    ensures { result ≡ goes_on Rattle.std.specs.Prelude.true bytes.now }
{
    let mut letter = true;
    for byte in bytes {
        let hyphen = *byte == b'-';
        if !byte.is_ascii_alphabetic() && (letter || !hyphen && !byte.is_ascii_digit()) {
            return false;
        }
        letter = hyphen;
    }
    !letter
}

/// Whether each component between slashes is of a form.
fn has_components<F: Form>(text: &str) -> bool
    ensures { result ≡ list_all F.is_form (components text.now) }
{
    let mut rest = text;
    while let Some((component, more)) = rest.split_once('/') {
        if !F::is_met(component) {
            return false;
        }
        rest = more;
    }
    F::is_met(rest)
}

#[tactic(auto, unfolding(crate::specs::Forms::is_slashed_name))]
fn is_slashed_name(text: &str) -> bool
    ensures { result ≡ is_slashed_name text.now }
{
    text.len() <= 128 && has_components::<OfStep>(text)
}

/// The place of comments on a patch set as a whole, `/PATCHSET_LEVEL`. An error where there was no
/// memory for it.
#[tactic(auto, unfolding(crate::specs::Forms::is_place, crate::specs::Forms::is_path, crate::specs::Forms::is_path_step))]
pub fn patch_set_level(alloc: Global) -> Result<Place, AllocError>
    ensures { IfOk result (λ p. p ≡ patch_set_level) }
{
    Name::of_form(alloc, "/PATCHSET_LEVEL")
}
