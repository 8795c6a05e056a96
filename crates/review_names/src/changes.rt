//! The kinds of the numbers of changes, patch sets and comments.
ghost use Rattle.std.specs.Prelude.{refl};
ghost use Rattle.review_names.specs.Forms.{is_within, most_changes, most_comments, most_patches};

use crate::numbers::{Number, NumberKind};

/// The kind of the numbers of changes, from 1 to 1,000,000,000.
#[derive(Clone, Copy)]
pub struct OfChange;

/// The kind of the numbers of a change's patch sets, from 1 to 1,000.
#[derive(Clone, Copy)]
pub struct OfPatch;

/// The kind of the numbers of the comments on a change, from 1 to 10,000.
#[derive(Clone, Copy)]
pub struct OfComment;

/// The number of a change, from 1 to 1,000,000,000.
pub type ChangeNo = Number<OfChange>;

/// The number of a patch set of a change, from 1 to 1,000.
pub type PatchNo = Number<OfPatch>;

/// The number of a comment on a change, from 1 to 10,000.
pub type CommentNo = Number<OfComment>;

impl NumberKind for OfChange {
    ghost MOST = { most_changes };

    const MOST: u32 = 1_000_000_000;

    ghost is_met = { is_within most_changes };

    ghost spans = { λ n. refl };

    ghost fits = { refl };
}

impl NumberKind for OfPatch {
    ghost MOST = { most_patches };

    const MOST: u32 = 1_000;

    ghost is_met = { is_within most_patches };

    ghost spans = { λ n. refl };

    ghost fits = { refl };
}

impl NumberKind for OfComment {
    ghost MOST = { most_comments };

    const MOST: u32 = 10_000;

    ghost is_met = { is_within most_comments };

    ghost spans = { λ n. refl };

    ghost fits = { refl };
}
