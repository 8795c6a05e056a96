//! The keys of terms.
ghost use Rattle.std.specs.Prelude.{◌≡◌};
ghost use Rattle.review_expr_spelling.specs.Words.{copy_key, requirement_key};

/// What stands before the colon in a term of a submit requirement.
#[derive(Clone, Copy, PartialEq, Eq)]
pub enum RequirementKey {
    /// `is`
    Is,
    /// `label`
    Label,
    /// `uploaderin`
    UploaderIn,
    /// `ownerin`
    OwnerIn,
    /// `branch`
    Branch,
    /// `path`
    Path,
    /// `file`
    File,
    /// `has`
    Has,
}

/// What stands before the colon in a term of a copy condition.
#[derive(Clone, Copy, PartialEq, Eq)]
pub enum CopyKey {
    /// `is`
    Is,
    /// `changekind`
    ChangeKind,
    /// `approverin`
    ApproverIn,
    /// `uploaderin`
    UploaderIn,
    /// `has`
    Has,
}

impl RequirementKey {
    /// The key of a name.
    #[tactic(auto, unfolding(crate::specs::Words::requirement_key))]
    pub fn read(name: &str) -> Option<RequirementKey>
        ensures { result ≡ requirement_key name.now }
    {
        match name {
            "is" => Some(RequirementKey::Is),
            "label" => Some(RequirementKey::Label),
            "uploaderin" => Some(RequirementKey::UploaderIn),
            "ownerin" => Some(RequirementKey::OwnerIn),
            "branch" => Some(RequirementKey::Branch),
            "path" => Some(RequirementKey::Path),
            "file" => Some(RequirementKey::File),
            "has" => Some(RequirementKey::Has),
            _ => None,
        }
    }
}

impl CopyKey {
    /// The key of a name.
    #[tactic(auto, unfolding(crate::specs::Words::copy_key))]
    pub fn read(name: &str) -> Option<CopyKey>
        ensures { result ≡ copy_key name.now }
    {
        match name {
            "is" => Some(CopyKey::Is),
            "changekind" => Some(CopyKey::ChangeKind),
            "approverin" => Some(CopyKey::ApproverIn),
            "uploaderin" => Some(CopyKey::UploaderIn),
            "has" => Some(CopyKey::Has),
            _ => None,
        }
    }
}
