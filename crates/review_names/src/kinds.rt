//! What a patch set changed.
ghost use Rattle.std.specs.Prelude.{◌≡◌};
ghost use Rattle.review_names.specs.Kinds.{kind_name, kind_named};

/// What a new patch set changed.
#[derive(Clone, Copy, PartialEq, Eq)]
pub enum ChangeKind {
    /// `NO_CHANGE`
    NoChange,
    /// `NO_CODE_CHANGE`
    NoCodeChange,
    /// `TRIVIAL_REBASE`
    TrivialRebase,
    /// `TRIVIAL_REBASE_WITH_MESSAGE_UPDATE`
    TrivialRebaseWithMessageUpdate,
    /// `MERGE_FIRST_PARENT_UPDATE`
    MergeFirstParentUpdate,
    /// `REWORK`
    Rework,
}

impl ChangeKind {
    /// The kind that has a name, or none where no kind has it.
    #[tactic(auto, unfolding(crate::specs::Kinds::kind_named))]
    pub fn from_name(name: &str) -> Option<ChangeKind>
        ensures { result ≡ kind_named name.now }
    {
        match name {
            "NO_CHANGE" => Some(ChangeKind::NoChange),
            "NO_CODE_CHANGE" => Some(ChangeKind::NoCodeChange),
            "TRIVIAL_REBASE" => Some(ChangeKind::TrivialRebase),
            "TRIVIAL_REBASE_WITH_MESSAGE_UPDATE" => {
                Some(ChangeKind::TrivialRebaseWithMessageUpdate)
            }
            "MERGE_FIRST_PARENT_UPDATE" => Some(ChangeKind::MergeFirstParentUpdate),
            "REWORK" => Some(ChangeKind::Rework),
            _ => None,
        }
    }

    /// The name, in capitals with underscores.
    pub fn name(self) -> &'static str
        ensures { result.now ≡ kind_name self }
    {
        match self {
            ChangeKind::NoChange => "NO_CHANGE",
            ChangeKind::NoCodeChange => "NO_CODE_CHANGE",
            ChangeKind::TrivialRebase => "TRIVIAL_REBASE",
            ChangeKind::TrivialRebaseWithMessageUpdate => "TRIVIAL_REBASE_WITH_MESSAGE_UPDATE",
            ChangeKind::MergeFirstParentUpdate => "MERGE_FIRST_PARENT_UPDATE",
            ChangeKind::Rework => "REWORK",
        }
    }
}
