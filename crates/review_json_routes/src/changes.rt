//! The bodies of new changes and new patch sets.
ghost use Rattle.std.specs.Prelude.{◌≡◌, Some, None, Err, IfOk};
ghost use Rattle.{serde_json.specs.View.view, serde_json.specs.View.items_view, review_names.specs.Bad.Gives};
ghost use Rattle.review_json_routes.specs.{Commands.new_change, Commands.new_patch, Parts.paths_in, Parts.paths_at};

use crate::parts::{flag_at, name_at, text_at};
use review_names::Bad;
use review_words::{ChangeKind, NewChange, NewPatch, Path, Paths};
use serde_json::Value;
use std::alloc::Global;

fn paths_in(alloc: Global, list: &Vec<Value>) -> Result<Vec<Path>, Bad>
    ensures ok { IfOk result (λ paths. paths_in (items_view list.now.items) ≡ Some paths.items) }
    ensures form { result ≡ Err Bad.Form → paths_in (items_view list.now.items) ≡ None }
{
    let mut paths = Vec::new(alloc);
    for value in list.iter() {
        let text = value.as_str().ok_or(Bad::Form)?;
        paths.push(Path::read(alloc, text)?)?;
    }
    Ok(paths)
}

/// The paths of a patch set: the member `key`, a list of paths in any order, each once or more often.
#[tactic(auto, unfolding(crate::specs::Parts::paths_at))]
pub fn paths_at(alloc: Global, key: &str, value: &Value) -> Result<Paths, Bad>
    ensures { Gives result (paths_at key.now (view value.now)) }
{
    let Some(list) = value.get(key).and_then(Value::as_array) else {
        return Err(Bad::Form);
    };
    Paths::from_vec(alloc, paths_in(alloc, list)?)
}

/// The change of a body: `project`, `branch`, `subject`, `commit`, `parent`, `paths`, and
/// `work_in_progress`, which may be absent.
#[tactic(auto, unfolding(crate::specs::Commands::new_change, crate::specs::Commands::wip_in))]
pub fn new_change(alloc: Global, body: &Value) -> Result<NewChange, Bad>
    ensures { Gives result (new_change (view body.now)) }
{
    let project = name_at(alloc, "project", body)?;
    let branch = name_at(alloc, "branch", body)?;
    let subject = name_at(alloc, "subject", body)?;
    let commit = name_at(alloc, "commit", body)?;
    let parent = name_at(alloc, "parent", body)?;
    let paths = paths_at(alloc, "paths", body)?;
    let wip = flag_at("work_in_progress", body)?.unwrap_or(false);
    Ok(NewChange {
        project,
        branch,
        subject,
        commit,
        parent,
        paths,
        wip,
    })
}

/// The patch set of a body: `commit`, `parent`, `kind`, `paths`.
#[tactic(auto, unfolding(crate::specs::Commands::new_patch, crate::specs::Parts::kind_at))]
pub fn new_patch(alloc: Global, body: &Value) -> Result<NewPatch, Bad>
    ensures { Gives result (new_patch (view body.now)) }
{
    let commit = name_at(alloc, "commit", body)?;
    let parent = name_at(alloc, "parent", body)?;
    let kind = text_at("kind", body)
        .and_then(ChangeKind::from_name)
        .ok_or(Bad::Form)?;
    let paths = paths_at(alloc, "paths", body)?;
    Ok(NewPatch {
        commit,
        parent,
        kind,
        paths,
    })
}
