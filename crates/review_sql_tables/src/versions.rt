//! The versions of the tables.
ghost use Rattle.std.specs.Prelude.{◌≡◌, MatchOption};
ghost use Rattle.review_sql_tables.specs.Versions.{version_of};

/// A version of the tables.
#[derive(Clone, Copy, PartialEq, Eq)]
pub enum TablesVersion {
    /// No project has a parent.
    First,
    /// Each project has a parent or none.
    Second,
    /// The identity of a stored request has an epoch, and there is a least open epoch.
    Third,
}

impl TablesVersion {
    /// The version among the earlier ones; none where it is the latest.
    pub fn earlier(self) -> Option<EarlierVersion>
        ensures { MatchOption result (self ≡ TablesVersion.Third) (λ version. self ≡ version_of version) }
    {
        match self {
            TablesVersion::First => Some(EarlierVersion::First),
            TablesVersion::Second => Some(EarlierVersion::Second),
            TablesVersion::Third => None,
        }
    }
}

/// A version before the latest.
#[derive(Clone, Copy, PartialEq, Eq)]
pub enum EarlierVersion {
    First,
    Second,
}

impl EarlierVersion {
    /// The version among all.
    pub fn version(self) -> TablesVersion
        ensures { result ≡ version_of self }
    {
        match self {
            EarlierVersion::First => TablesVersion::First,
            EarlierVersion::Second => TablesVersion::Second,
        }
    }
}
