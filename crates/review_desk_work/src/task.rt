//! What is to be done on a desk, and from where to where.
use review_names::{BranchName, ChangeNo, ProjectName};

/// What is to be done on a desk that is there.
#[derive(Drop)]
pub enum Task {
    /// Takes the deliveries of the lines of the reader.
    Apply,
    /// Serves so many connections over HTTP, one after the other.
    Serve {
        count: u32,
    },
    /// Shows a change.
    Show {
        change: ChangeNo,
    },
    /// Shows which changes joined a branch.
    Joined {
        project: ProjectName,
        branch: BranchName,
    },
}

/// From where a task takes what it is given, and to where it writes: lines come from a reader, lines and pages go to a writer, and requests over HTTP come
/// and are answered over connections. Beside these it is told where the tables are not those of a desk alone.
#[derive(Drop)]
pub struct Ends<R, W, C, N> {
    pub input: R,
    pub output: W,
    pub connections: C,
    pub notices: N,
}
