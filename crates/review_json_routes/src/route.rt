//! What deliveries are addressed to.

use review_names::{AccountNo, BranchName, ChangeNo, GroupName, PatchNo, ProjectName};
use review_words::ChangeQuery;

/// What a request asks for, with what its path or its line's members say of it; what its body says isn't among it.
#[derive(Drop)]
pub enum Route {
    CreateAccount,
    PutGroup {
        group: GroupName,
    },
    PutProject {
        project: ProjectName,
    },
    RecordBase {
        project: ProjectName,
        branch: BranchName,
    },
    CreateChange,
    OnChange {
        change: ChangeNo,
        asked: ChangeRoute,
    },
    Submit {
        change: ChangeNo,
    },
    CloseEpoch,
    Branch {
        project: ProjectName,
        branch: BranchName,
    },
    AskChange {
        change: ChangeNo,
        query: ChangeQuery,
    },
}

/// What is asked of a change that is there, but for what the body says.
#[derive(Clone, Copy, PartialEq, Eq)]
pub enum ChangeRoute {
    Upload,
    /// No patch set stands for the current one.
    Review { patch: Option<PatchNo> },
    AddReviewer,
    RemoveReviewer { account: AccountNo },
    SetWip,
    SetReady,
    Abandon,
    Restore,
    AddAttention,
    RemoveAttention { account: AccountNo },
}
