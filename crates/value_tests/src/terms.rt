//! A term that no word spells: `file:` with a path of several components.

use crate::fault::Fault;
use review_expr_judging::{ChangeFacts, eval};
use review_expr_terms::{Node, RequirementTerm};
use review_names::{AccountNo, BranchName, Groups, Path, Paths};
use std::alloc::Global;
use std::collections::BTreeMap;
use std::test::Fail;

fn paths(alloc: Global, path: &str) -> Result<Paths, Fault> {
    let path = Path::read(alloc, path)?;
    let paths = vec![in alloc; path]?;
    Ok(Paths::from_vec(alloc, paths)?)
}

fn change(alloc: Global, path: &str) -> Result<ChangeFacts, Fault> {
    let branch = BranchName::read(alloc, "main")?;
    let paths = paths(alloc, path)?;
    Ok(ChangeFacts {
        votes: BTreeMap::new(alloc),
        ranges: BTreeMap::new(alloc),
        paths,
        owner: AccountNo::first(),
        uploader: AccountNo::first(),
        branch,
        unresolved: false,
        groups: Groups(BTreeMap::new(alloc)),
    })
}

/// Whether a change with one path has a component.
fn has_component(alloc: Global, path: &str, name: &str) -> Result<bool, Fault> {
    let change = change(alloc, path)?;
    let name = Path::read(alloc, name)?;
    let node = Node::Term(Box::new(alloc, RequirementTerm::File(name))?);
    Ok(eval(alloc, &node, &change)?)
}

#[test]
fn a_component_has_no_slash(rt: HostRuntime) -> Result<(), Fail> {
    assert!(rt; has_component(rt.alloc(), "docs/a b.md", "docs")?);
    assert!(rt; !has_component(rt.alloc(), "docs/a b.md", "docs/a b.md")?);
    Ok(())
}
