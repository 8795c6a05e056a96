//! How a job ends.
ghost use Rattle.std.specs.Prelude.{◌≡◌};
ghost use Rattle.review_desk_work.specs.Faults.{after_closing, status_of};

use crate::fault::ProgramFault;
use review_json_lines::Outcome;

/// What is told of a job whose file is closed, or could not be. Where both failed, the job's own fault is told.
pub fn after_closing<T: Drop>(
    ended: Result<T, ProgramFault>,
    closed: Result<(), ProgramFault>,
) -> Result<T, ProgramFault>
    ensures { result ≡ after_closing ended closed }
{
    match ended {
        Err(fault) => Err(fault),
        Ok(done) => match closed {
            Ok(()) => Ok(done),
            Err(fault) => Err(fault),
        },
    }
}

/// The exit status of a job: 0 exactly where all was done; else 1.
pub fn status_of(ended: Result<Outcome, ProgramFault>) -> u8
    ensures { result ≡ status_of ended }
{
    match ended {
        Ok(Outcome::Complete) => 0,
        Ok(Outcome::Incomplete) | Err(_) => 1,
    }
}
