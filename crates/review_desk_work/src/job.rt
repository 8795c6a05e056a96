//! What the program can be asked to do.
ghost use Rattle.std.specs.Prelude.{◌≡◌};
ghost use Rattle.review_desk_work.specs.Jobs.{place_of, placed, spelled};

use review_names::{BranchName, ChangeNo, ProjectName};

/// What the program is to do, on the desk in a file.
#[derive(Drop)]
pub enum Job<'a> {
    /// Makes an empty desk.
    Init {
        file: &'a str,
    },
    /// Makes the tables of an earlier version those of the latest.
    Migrate {
        file: &'a str,
    },
    /// Takes the deliveries of its input.
    Apply {
        file: &'a str,
    },
    /// Serves so many connections over HTTP on a port of 127.0.0.1, one after the other.
    Serve {
        file: &'a str,
        port: u16,
        count: u32,
    },
    /// Shows a change.
    Show {
        file: &'a str,
        change: ChangeNo,
    },
    /// Shows which changes joined a branch.
    Joined {
        file: &'a str,
        project: ProjectName,
        branch: BranchName,
    },
}

/// Where the tables of a desk are.
#[derive(Clone, Copy, PartialEq, Eq)]
pub enum Place<'a> {
    /// In memory: a desk that is empty at first and gone at the end.
    Memory,
    /// In a file.
    File(&'a str),
}

impl<'a> Job<'a> {
    /// Where a job's tables are: in memory for `apply :memory:` alone.
    pub fn place(&self) -> Place<'a>
        ensures { placed result ≡ place_of (spelled self.now) }
    {
        match self {
            Job::Apply { file } if *file == ":memory:" => Place::Memory,
            Job::Init { file }
            | Job::Migrate { file }
            | Job::Apply { file }
            | Job::Serve { file, .. }
            | Job::Show { file, .. }
            | Job::Joined { file, .. } => Place::File(file),
        }
    }
}
