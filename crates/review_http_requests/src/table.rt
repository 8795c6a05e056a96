//! The table of paths.
ghost use Rattle.std.specs.Prelude.{◌≡◌, IfOk, OnOk};
ghost use Rattle.review_http_requests.specs.{Table.resource_of, Table.table, Table.with_paths, inner.Words.entries};

use matchit::{InsertError, Router};
use review_words::ChangeQuery;
use std::alloc::{AllocError, Global};
use std::marker::Model;

/// What paths name, with the names and numbers of a path left open.
#[derive(Clone, Copy, PartialEq, Eq)]
pub enum Resource {
    Accounts,
    Group,
    Project,
    Branch,
    Changes,
    /// What may be known of a change.
    Asked(ChangeQuery),
    Attention,
    Revisions,
    Review,
    Reviewers,
    ReviewerDelete,
    Wip,
    Ready,
    Abandon,
    Restore,
    AttentionDelete,
    Submit,
    EpochsClose,
}

/// The paths that there are, each with the resource that it names. A name or a number is left open between braces.
const PATHS: [(&str, Resource); 20] = [
    ("/accounts", Resource::Accounts),
    ("/groups/{group}", Resource::Group),
    ("/projects/{project}", Resource::Project),
    ("/projects/{project}/branches/{branch}", Resource::Branch),
    ("/changes/", Resource::Changes),
    ("/changes/{change}", Resource::Asked(ChangeQuery::Change)),
    (
        "/changes/{change}/requirements",
        Resource::Asked(ChangeQuery::Requirements),
    ),
    (
        "/changes/{change}/threads",
        Resource::Asked(ChangeQuery::Threads),
    ),
    ("/changes/{change}/attention", Resource::Attention),
    ("/changes/{change}/revisions", Resource::Revisions),
    (
        "/changes/{change}/revisions/{patch_set}/review",
        Resource::Review,
    ),
    ("/changes/{change}/reviewers", Resource::Reviewers),
    (
        "/changes/{change}/reviewers/{account}/delete",
        Resource::ReviewerDelete,
    ),
    ("/changes/{change}/wip", Resource::Wip),
    ("/changes/{change}/ready", Resource::Ready),
    ("/changes/{change}/abandon", Resource::Abandon),
    ("/changes/{change}/restore", Resource::Restore),
    ("/changes/{change}/submit", Resource::Submit),
    (
        "/changes/{change}/attention/{account}/delete",
        Resource::AttentionDelete,
    ),
    ("/epochs/close", Resource::EpochsClose),
];

fn insert_each(router: &mut Router<Resource>, paths: &[(&str, Resource)]) -> Result<(), InsertError>
    ensures { OnOk result (router.new ≡ with_paths (entries paths.now) router.old) }
{
    for (text, resource) in paths {
        router.insert(text, *resource)?;
    }
    Ok(())
}

/// The router of the table.
#[tactic(auto, unfolding(crate::specs::Table::table))]
fn router(alloc: Global) -> Result<Router<Resource>, InsertError>
    ensures { IfOk result (λ r. r ≡ table) }
{
    let mut router = Router::new(alloc);
    insert_each(&mut router, &PATHS)?;
    Ok(router)
}

/// The table of paths, which is the same for every request: it is made once. Contracts see nothing of it, since there is one alone.
#[derive(Drop)]
pub struct PathTable {
    router: Router<Resource>,
}

impl Model for PathTable {
    ghost use Rattle.std.specs.Prelude.{◌≡◌};
    ghost use Rattle.review_http_requests.specs.Table.{table};

    ghost Value = { Unit {0} };

    ghost view = { λ _. tt };

    ghost invariant = { λ r. r.router ≡ table };
}

impl PathTable {
    /// The table, or an error where there is no memory for it.
    pub fn new(alloc: Global) -> Result<PathTable, AllocError> {
        match router(alloc) {
            Ok(router) => Ok(PathTable { router }),
            Err(_) => Err(AllocError),
        }
    }

    /// The resource that a path names, or none where it names none.
    pub fn resource_of(&self, path: &str) -> Option<Resource>
        ensures { result ≡ resource_of path.now }
    {
        match self.router.at(path) {
            Ok(found) => Some(*found.value),
            Err(_) => None,
        }
    }
}
