//! Laws over all runs, as contracts of calls that do nothing.
ghost use Rattle.review_machine_deliveries.specs.Restart.{OneAnswer, RunsCompose, RunsGoOn, RunIsSession, RestartAfterCut, RestartAfterStop, RestartCompletes, RestartIsRun, RestartKeepsHistory, RepliesFollowHistory};

use review_core_standing::one_standing;
use review_machine_rows::Shelf;

/// A command has one answer, unless a pattern in the file that it puts nests deeper than the engine reads: of two different
/// answers one then refuses the file for a bad value in an expression.
pub fn one_answer()
    ensures { OneAnswer }
{
    // By this law a submit has one answer: requirements stand in one way.
    one_standing();
}

/// A run of one list followed by a run of another is the run of both.
pub fn runs_compose()
    ensures { RunsCompose }
{}

/// Runs with the shelf closed and opened between them, however many, are one run of the deliveries of all, in which faults are counted session by session.
pub fn runs_go_on<S: Shelf>()
    ensures first { RunIsSession S.state }
    ensures next { RunsGoOn S.state }
{}

/// A run that is begun again after a stop, all of it taken, completes what the first one began: it leaves the history of a run that wasn't stopped, and gives
/// its replies to requests, but that a request which stood before the stop is told that its epoch is closed, where it has been closed since.
pub fn restart_completes()
    ensures history { RestartKeepsHistory }
    ensures replies { RepliesFollowHistory }
    ensures run { RestartCompletes }
    ensures whole { RestartIsRun }
    ensures stop { RestartAfterStop }
    ensures cut { RestartAfterCut }
{
    // By this law a submit that comes again has the answer that it had.
    one_standing();
}
