//! Comments, thread by thread.
ghost use Rattle.std.specs.Prelude.{◌≡◌, ◌<◌, ◌+◌, ◌∷◌, [], map, nat_le, length, true, IfOk, OnOk};
ghost use Rattle.review_names.specs.Forms.{most_comments};
ghost use Rattle.review_core_rules.specs.Threads.{shown_comment, threads};
ghost use Rattle.review_core_standing.specs.inner.Gathered.{place_of, put_in, thread_so_far};

use review_core_rules::Comment;
use review_core_tables::of_number;
use review_words::{CommentNo, Listed, ShownComment, Thread};
use std::alloc::{AllocError, Global};

/// The comments of a thread so far.
#[derive(Drop)]
struct Gathered {
    root: CommentNo,
    comments: Vec<ShownComment>,
    unresolved: bool,
}

/// The number of the comment after so many.
#[tactic(auto, unfolding(review_names::specs::Forms::is_within))]
fn number_after(count: usize) -> CommentNo
    requires { count < most_comments }
    ensures { result ≡ count + 1 }
{
    match CommentNo::from_number(count as u64 + 1) {
        Some(number) => number,
        None => unreachable!(),
    }
}

fn shown(number: CommentNo, comment: &Comment) -> Result<ShownComment, AllocError>
    ensures { IfOk result (λ x. x ≡ shown_comment number comment.now) }
{
    let comment = comment.row();
    let path = comment.path.copy()?;
    let message = comment.message.copy()?;
    Ok(ShownComment {
        number,
        patch: comment.patch,
        path,
        line: comment.line,
        author: comment.author,
        message,
        unresolved: comment.unresolved,
        answers: comment.answers,
    })
}

/// The place of a comment's thread, by those of the comments before it: that of the one which it answers, or else the next.
fn place_of(places: &[usize], next: usize, comment: &Comment) -> usize
    ensures { result ≡ place_of places.now next comment.now }
{
    let Some(number) = comment.row().answers else {
        return next;
    };
    match of_number(places, number) {
        Some(place) => *place,
        None => next,
    }
}

fn begun(alloc: Global, comment: ShownComment) -> Result<Gathered, AllocError>
    ensures { IfOk result (λ g. thread_so_far g ≡ record { root = comment.number; comments = comment ∷ []; unresolved = comment.unresolved }) }
{
    let root = comment.number;
    let unresolved = comment.unresolved;
    let mut comments = Vec::new(alloc);
    comments.push(comment)?;
    Ok(Gathered {
        root,
        comments,
        unresolved,
    })
}

/// Puts a comment at the end of the thread at a place, or begins one where there is none.
fn put_in(
    alloc: Global,
    gathered: &mut Vec<Gathered>,
    place: usize,
    comment: ShownComment,
) -> Result<(), AllocError>
    ensures { OnOk result (map thread_so_far gathered.new.items ≡ put_in place comment (map thread_so_far gathered.old.items)) }
{
    if place < gathered.len() {
        let unresolved = comment.unresolved;
        let one = &mut gathered[place];
        one.comments.push(comment)?;
        one.unresolved = unresolved;
        return Ok(());
    }
    gathered.push(begun(alloc, comment)?)?;
    Ok(())
}

fn gather(alloc: Global, comments: &[Comment]) -> Result<Vec<Gathered>, AllocError>
    requires { nat_le (length comments.now) most_comments ≡ true }
    ensures { IfOk result (λ v. map thread_so_far v.items ≡ threads comments.now) }
{
    let mut gathered = Vec::new(alloc);
    let mut places = Vec::new(alloc);
    for comment in comments {
        let place = place_of(&places, gathered.len(), comment);
        let shown = shown(number_after(places.len()), comment)?;
        put_in(alloc, &mut gathered, place, shown)?;
        places.push(place)?;
    }
    Ok(gathered)
}

fn finished(alloc: Global, gathered: Vec<Gathered>) -> Result<Vec<Thread>, AllocError>
    ensures { IfOk result (λ v. v.items ≡ map thread_so_far gathered.items) }
{
    let mut threads = Vec::new(alloc);
    for one in gathered {
        let comments = Listed::from_vec(one.comments);
        threads.push(Thread {
            root: one.root,
            comments,
            unresolved: one.unresolved,
        })?;
    }
    Ok(threads)
}

/// The threads of a change's comments, by their first comments, each with its comments in order. An error is want of memory.
pub fn threads(alloc: Global, comments: &[Comment]) -> Result<Listed<Thread>, AllocError>
    requires { nat_le (length comments.now) most_comments ≡ true }
    ensures { IfOk result (λ v. v ≡ threads comments.now) }
{
    let gathered = gather(alloc, comments)?;
    let threads = finished(alloc, gathered)?;
    Ok(Listed::from_vec(threads))
}
