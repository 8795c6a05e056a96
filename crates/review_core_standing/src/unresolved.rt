//! Whether a thread is unresolved.
ghost use Rattle.std.specs.Prelude.{◌≡◌, IfOk};
ghost use Rattle.review_core_rules.specs.Change.{has_unresolved, posts};

use review_core_rules::{Comment, Post};
use review_core_tables::posts;
use std::alloc::{AllocError, Global};
use std::collections::BTreeSet;

/// Whether one of the threads is unresolved: its last comment, which is met first from the end.
fn ends_unresolved(alloc: Global, posts: Vec<Post>) -> Result<bool, AllocError>
    ensures { IfOk result (λ b. b ≡ has_unresolved posts.items) }
{
    let mut left = posts;
    let mut seen = BTreeSet::new(alloc);
    while let Some(post) = left.pop() {
        let is_last = seen.insert(post.root)?;
        if is_last && post.unresolved {
            return Ok(true);
        }
    }
    Ok(false)
}

/// Whether a thread of a change's comments is unresolved: where the comment with its greatest number is. This is Gerrit's. An error is
/// want of memory.
pub fn has_unresolved(alloc: Global, comments: &[Comment]) -> Result<bool, AllocError>
    ensures { IfOk result (λ b. b ≡ has_unresolved (posts comments.now)) }
{
    let posts = posts(alloc, comments)?;
    ends_unresolved(alloc, posts)
}
