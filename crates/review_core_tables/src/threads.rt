//! The threads that comments are in.
ghost use Rattle.std.specs.List.{list_any};
ghost use Rattle.std.specs.Prelude.{◌≡◌, ◌+◌, ◌&&◌, ◌||◌, ◌==◌, not, length, IfOk};
ghost use Rattle.review_core_rules.specs.Change.{has_unresolved, posts, root_of};

use crate::comments::of_number;
use review_core_rules::{Comment, Post};
use std::alloc::{AllocError, Global};

fn root_of(earlier: &[Post], comment: &Comment) -> u64
    ensures { result ≡ root_of earlier.now comment.now }
{
    let own = earlier.len() as u64 + 1;
    let Some(number) = comment.row().answers else {
        return own;
    };
    match of_number(earlier, number) {
        Some(post) => post.root,
        None => own,
    }
}

/// The comments with the threads that they are in.
pub fn posts(alloc: Global, comments: &[Comment]) -> Result<Vec<Post>, AllocError>
    ensures { IfOk result (λ v. v.items ≡ posts comments.now) }
{
    let mut posts = Vec::new(alloc);
    for comment in comments {
        let root = root_of(&posts, comment);
        let row = comment.row();
        posts.push(Post {
            author: row.author,
            root,
            unresolved: row.unresolved,
        })?;
    }
    Ok(posts)
}

fn goes_on(posts: &[Post], root: u64) -> bool
    ensures { result ≡ list_any (λ q. q.root == root) posts.now }
{
    posts.iter().any(|post| post.root == root)
}

/// Whether a thread is unresolved. This takes no memory.
pub fn has_unresolved(posts: &[Post]) -> bool
    ensures { result ≡ has_unresolved posts.now }
{
    let mut rest = posts;
    while let [post, later @ ..] = rest {
        if post.unresolved && !goes_on(later, post.root) {
            return true;
        }
        rest = later;
    }
    false
}
