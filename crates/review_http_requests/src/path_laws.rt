//! Laws of the table of paths.
ghost use Rattle.review_http_requests.specs.Table.{HoldsEachPath};

/// The table has a row for each path: none is left out, since each is one that the router reads.
#[tactic(auto, using(crate::proofs::Whole::whole))]
pub fn table_holds_each_path()
    ensures { HoldsEachPath }
{}
