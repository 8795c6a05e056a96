//! What is seen of a desk before it is opened.

use review_sql_writes::Numbers;

/// What the table `desk` says: a version, and how many requests there are, each where its one row has a number there.
#[derive(Clone, Copy, PartialEq, Eq)]
pub struct Said {
    pub version: Option<u64>,
    pub requests: Option<u64>,
}

/// What a desk is opened with: whether its tables are ours, and what it says of itself.
#[derive(Clone, Copy, PartialEq, Eq)]
pub struct Seen {
    pub is_ours: bool,
    pub numbers: Numbers,
}
