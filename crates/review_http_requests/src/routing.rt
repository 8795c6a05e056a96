//! Routes: what methods ask of the resources that paths name.
ghost use Rattle.std.specs.Prelude.{◌≡◌, IfOk};
ghost use Rattle.{percent_encoding.specs.Percent.percent_decode, review_names.specs.Bad.Gives};
ghost use Rattle.review_http_requests.specs.Heads.{Answers, route_of};
ghost use Rattle.review_http_requests.specs.Routes.{segment, name_in, account_in, patch_in, methods_of, branch_at, change_at, on_change, attention_at, route_at};

use crate::fault::unless_memory;
use crate::{HttpFault, Methods, PathTable, RequestFault, Resource};
use percent_encoding::percent_decode;
use review_json_routes::{ChangeRoute, Route, name_of_bytes};
use review_names::{Bad, read_account, read_number};
use review_words::{AccountNo, ChangeNo, ChangeQuery, Form, Name, PatchNo};
use std::alloc::{AllocError, Global};

/// What stands behind so many slashes of a path, up to the next slash or the end of the path; nothing where the path has fewer slashes.
fn segment(path: &str, index: usize) -> &str
    ensures { result.now ≡ segment index path.now }
{
    path.split('/').nth(index).unwrap_or("")
}

fn decoded(alloc: Global, segment: &str) -> Result<Vec<u8>, AllocError>
    ensures { IfOk result (λ bytes. bytes.items ≡ percent_decode segment.now) }
{
    let mut bytes = Vec::new(alloc);
    percent_decode(segment.as_bytes()).append_to(&mut bytes)?;
    Ok(bytes)
}

/// The name that a segment is once decoded: Form where the decoded bytes aren't a text in UTF-8 of the name's form.
#[tactic(auto, unfolding(crate::specs::Routes::name_in))]
fn name_in<F: Form>(alloc: Global, segment: &str) -> Result<Name<F>, Bad>
    ensures { Gives result (name_in F.is_form segment.now) }
{
    let bytes = decoded(alloc, segment)?;
    name_of_bytes(alloc, bytes.as_slice())
}

/// The account whose number a segment is once decoded, in decimal without leading zeros.
#[tactic(auto, unfolding(crate::specs::Routes::account_in))]
fn account_in(alloc: Global, segment: &str) -> Result<AccountNo, Bad>
    ensures { Gives result (account_in segment.now) }
{
    let bytes = decoded(alloc, segment)?;
    read_account(bytes.as_slice()).ok_or(Bad::Form)
}

/// The patch set that a segment means once decoded: its number in decimal without leading zeros, or `current`, for which it is none.
#[tactic(auto, unfolding(crate::specs::Routes::patch_in))]
fn patch_in(alloc: Global, segment: &str) -> Result<Option<PatchNo>, Bad>
    ensures { Gives result (patch_in segment.now) }
{
    let bytes = decoded(alloc, segment)?;
    if bytes.as_slice() == b"current".as_slice() {
        return Ok(None);
    }
    let patch = read_number(bytes.as_slice())
        .and_then(PatchNo::from_number)
        .ok_or(Bad::Form)?;
    Ok(Some(patch))
}

/// The methods that a resource takes.
fn methods_of(resource: Resource) -> Methods
    ensures { result ≡ methods_of resource }
{
    match resource {
        Resource::Asked(_) => Methods::Get,
        Resource::Attention => Methods::GetAndPost,
        Resource::Branch => Methods::GetAndPut,
        Resource::Group | Resource::Project => Methods::Put,
        _ => Methods::Post,
    }
}

#[tactic(auto, unfolding(crate::specs::Routes::branch_at))]
fn branch_at(alloc: Global, is_get: bool, path: &str) -> Result<Route, Bad>
    ensures { Gives result (branch_at is_get path.now) }
{
    let project = name_in(alloc, segment(path, 2))?;
    let branch = name_in(alloc, segment(path, 4))?;
    if is_get {
        Ok(Route::Branch { project, branch })
    } else {
        Ok(Route::RecordBase { project, branch })
    }
}

/// The change whose number the second segment of a path is once decoded, in decimal without leading zeros.
#[tactic(auto, unfolding(crate::specs::Routes::change_at))]
fn change_at(alloc: Global, path: &str) -> Result<ChangeNo, Bad>
    ensures { Gives result (change_at path.now) }
{
    let bytes = decoded(alloc, segment(path, 2))?;
    read_number(bytes.as_slice())
        .and_then(ChangeNo::from_number)
        .ok_or(Bad::Form)
}

/// What is asked of the change that a path names.
fn on_change(alloc: Global, asked: ChangeRoute, path: &str) -> Result<Route, Bad>
    ensures { Gives result (on_change asked path.now) }
{
    let change = change_at(alloc, path)?;
    Ok(Route::OnChange { change, asked })
}

/// The attention set of the change that a path names: it is asked for, or added to.
fn attention_at(alloc: Global, is_get: bool, path: &str) -> Result<Route, Bad>
    ensures { Gives result (attention_at is_get path.now) }
{
    if !is_get {
        return on_change(alloc, ChangeRoute::AddAttention, path);
    }
    let change = change_at(alloc, path)?;
    let query = ChangeQuery::Attention;
    Ok(Route::AskChange { change, query })
}

/// The route of a path that names this resource, asked for by GET or not: its segments decoded. Form exactly where a segment is no name or number of its kind.
#[tactic(auto, unfolding(crate::specs::Routes::route_at))]
fn route_at(alloc: Global, resource: Resource, is_get: bool, path: &str) -> Result<Route, Bad>
    ensures { Gives result (route_at resource is_get path.now) }
{
    match resource {
        Resource::Accounts => Ok(Route::CreateAccount),
        Resource::Group => Ok(Route::PutGroup {
            group: name_in(alloc, segment(path, 2))?,
        }),
        Resource::Project => Ok(Route::PutProject {
            project: name_in(alloc, segment(path, 2))?,
        }),
        Resource::Branch => branch_at(alloc, is_get, path),
        Resource::Changes => Ok(Route::CreateChange),
        Resource::Asked(query) => {
            let change = change_at(alloc, path)?;
            Ok(Route::AskChange { change, query })
        }
        Resource::Attention => attention_at(alloc, is_get, path),
        Resource::Revisions => on_change(alloc, ChangeRoute::Upload, path),
        Resource::Review => {
            let patch = patch_in(alloc, segment(path, 4))?;
            on_change(alloc, ChangeRoute::Review { patch }, path)
        }
        Resource::Reviewers => on_change(alloc, ChangeRoute::AddReviewer, path),
        Resource::ReviewerDelete => {
            let account = account_in(alloc, segment(path, 4))?;
            on_change(alloc, ChangeRoute::RemoveReviewer { account }, path)
        }
        Resource::Wip => on_change(alloc, ChangeRoute::SetWip, path),
        Resource::Ready => on_change(alloc, ChangeRoute::SetReady, path),
        Resource::Abandon => on_change(alloc, ChangeRoute::Abandon, path),
        Resource::Restore => on_change(alloc, ChangeRoute::Restore, path),
        Resource::Submit => Ok(Route::Submit {
            change: change_at(alloc, path)?,
        }),
        Resource::AttentionDelete => {
            let account = account_in(alloc, segment(path, 4))?;
            on_change(alloc, ChangeRoute::RemoveAttention { account }, path)
        }
        Resource::EpochsClose => Ok(Route::CloseEpoch),
    }
}

/// The route of a method and a path: the path names a resource, its segments are decoded to names and numbers, and then the method is one of those that
/// the resource takes, told apart by case. The first of these that isn't so is the fault.
#[tactic(auto, unfolding(crate::specs::Heads::route_of))]
pub fn route_of(
    alloc: Global,
    paths: &PathTable,
    method: &[u8],
    path: &str,
) -> Result<Route, RequestFault>
    ensures { Answers result (route_of method.now path.now) }
{
    let Some(resource) = paths.resource_of(path) else {
        return Err(RequestFault::Http(HttpFault::NoRoute));
    };
    let route = match route_at(alloc, resource, method == b"GET".as_slice(), path) {
        Ok(route) => route,
        Err(bad) => return Err(unless_memory(bad, HttpFault::NoRoute)),
    };
    let methods = methods_of(resource);
    if methods.takes(method) {
        Ok(route)
    } else {
        Err(RequestFault::Http(HttpFault::Method(methods)))
    }
}
