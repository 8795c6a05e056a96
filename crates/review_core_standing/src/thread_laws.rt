//! The law of unresolved threads, as a contract of a call that does nothing.
ghost use Rattle.std.specs.{List.list_any, Prelude.◌≡◌, Prelude.List};
ghost use Rattle.review_core_rules.specs.Change.{has_unresolved, posts};
ghost use Rattle.review_core_rules.specs.{Threads.threads, declared.rows.CommentRow.CommentRow};

/// A change has an unresolved thread just where one of its threads is shown as unresolved.
#[tactic(auto, using(crate::proofs::InThreads::unresolved_alike))]
pub fn unresolved_threads()
    ensures { (comments : List CommentRow) → has_unresolved (posts comments) ≡ list_any (λ t. t.unresolved) (threads comments) }
{}
