//! What a stop leaves of a desk.
ghost use Rattle.review_sql.specs.Shelf.{MakesOurs, StopLeavesDesk, TreesTellSchema};

use sqlite::Alter;

/// What a stop may leave of a shelf of ours is a desk of ours, with the tables of a history, where all tables that it may leave are those of histories, as after a run: so `SqlShelf::open`
/// opens it as one of ours, unless there is no memory or the store has a fault. What `create` makes is such a desk; and trees tell their schema, so that
/// what a stop within `create` left as it was has no table still.
pub fn stop_leaves_desk<S: Alter>()
    ensures desk { StopLeavesDesk S.Store }
    ensures made { MakesOurs }
    ensures schema { TreesTellSchema }
{}
