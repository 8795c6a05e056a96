//! The effective file of a project, by its own file and its parent's.
ghost use Rattle.std.specs.Option.{option_map_or};
ghost use Rattle.std.specs.Prelude.{◌≡◌, ◌++◌, ◌≢◌, ◌<◌, ◌≤◌, length, slice_get, List, IfOk, IfErr, OnOk, find, fold, filter, false, true, option_copied};
ghost use Rattle.{std.specs.Str.bytes_eq, review_expr.specs.declared.expr.Expr.Expr};
ghost use Rattle.review_file_rules.specs.Expressions.{names_unknown_label};
ghost use Rattle.review_file_rules.specs.Inherited.{by_name, counts, inherit, inherited_labels, inherited_requirements, inherits_unknown_label, joined_access, put_by};
ghost use Rattle.review_file_rules.specs.View.{LabelView, RequirementView};
ghost use Rattle.review_file_lines.specs.inner.Before.{count_before};

use review_file::{Access, Content, Label, ProjectFile, Requirement, some_requires_other};
use review_words::{GroupName, LabelName};
use std::alloc::{AllocError, AllocFailed, Global};
use std::cmp::Ordering;

/// Why a file can't go on from its parent's.
#[derive(Clone, Copy, PartialEq, Eq)]
pub enum InheritFault {
    /// A requirement of its own names a label that is neither its own nor its parent's. It makes no difference whether the requirement counts.
    UnknownLabel,
    /// There was no memory for it. It may be tried again.
    Memory,
}

impl From<AllocError> for InheritFault {
    ghost use Rattle.review_file_lines.specs.declared.inheriting.InheritFault.TheVariants.{Memory};

    ghost from_gives = { λ _ e. e ≡ Memory };

    fn from(_error: AllocError) -> InheritFault {
        InheritFault::Memory
    }
}

/// What a file has under names, shared.
pub trait Named: Drop + Sized {
    ghost use Rattle.std.specs.Prelude.{◌≡◌, ℕ, List, IfOk};

    ghost name_of: { Self → List ℕ };

    fn name(&self) -> &LabelName
        ensures { result.now ≡ name_of self.now };

    fn copy(&self) -> Result<Self, AllocError>
        ensures { IfOk result (λ x. x ≡ self.now) };
}

impl Named for Label {
    ghost use Rattle.{review_expr.specs.declared.expr.Expr.Expr, review_file_rules.specs.View.LabelView};

    ghost name_of = { λ (l : LabelView Expr). l.name };

    fn name(&self) -> &LabelName {
        Label::name(self)
    }

    fn copy(&self) -> Result<Label, AllocError> {
        Label::copy(self)
    }
}

impl Named for Requirement {
    ghost use Rattle.{review_expr.specs.declared.expr.Expr.Expr, review_file_rules.specs.View.RequirementView};

    ghost name_of = { λ (r : RequirementView Expr). r.name };

    fn name(&self) -> &LabelName {
        Requirement::name(self)
    }

    fn copy(&self) -> Result<Requirement, AllocError> {
        Requirement::copy(self)
    }
}

// How many of some things stand before a name, one after the other from the first.
fn before<N: Named>(things: &[N], name: &LabelName) -> usize
    ensures count { result ≡ count_before N.name_of name.now things.now }
    ensures within { result ≤ length things.now }
{
    let mut count = 0;
    for thing in things {
        match thing.name().cmp(name) {
            Ordering::Less => count += 1,
            _ => return count,
        }
    }
    count
}

// Whether a thing of this name stands at a place.
fn stands_at<N: Named>(things: &[N], at: usize, name: &LabelName) -> bool
    ensures is { result ≡ option_map_or (λ x. bytes_eq (N.name_of x) name.now) (slice_get things.now at) false }
    ensures within { result ≡ true → at < length things.now }
{
    match things.get(at) {
        Some(thing) => *thing.name() == *name,
        None => false,
    }
}

// Puts a thing among others by its name, in place of one of the same name.
#[tactic(auto, using(crate::proofs::Putting::put_inserted, crate::proofs::Putting::put_replaced))]
fn put_by<N: Named>(things: &mut Vec<N>, thing: N) -> Result<(), AllocError>
    ensures { OnOk result (things.new.items ≡ put_by N.name_of things.old.items thing) }
{
    let at = before(things, thing.name());
    if stands_at(things, at, thing.name()) {
        things[at] = thing;
    } else {
        things.insert(at, thing)?;
    }
    Ok(())
}

// Puts all of these among others.
fn put_all<N: Named>(things: &mut Vec<N>, more: &[N]) -> Result<(), AllocError>
    ensures { OnOk result (things.new.items ≡ fold (put_by N.name_of) things.old.items more.now) }
{
    for thing in more {
        put_by(things, thing.copy()?)?;
    }
    Ok(())
}

// The labels of a parent with the own ones.
fn inherited_labels(
    alloc: Global,
    parent: &[Label],
    own: &[Label],
) -> Result<Vec<Label>, AllocError>
    ensures { IfOk result (λ labels. labels.items ≡ inherited_labels parent.now own.now) }
{
    let mut labels = Vec::new(alloc);
    put_all(&mut labels, parent)?;
    put_all(&mut labels, own)?;
    Ok(labels)
}

// The requirement of a name.
fn find_named<'r>(requirements: &'r [Requirement], name: &LabelName) -> Option<&'r Requirement>
    ensures { option_copied result ≡ find (λ (q : RequirementView Expr). bytes_eq q.name name.now) requirements.now }
{
    for requirement in requirements {
        if *requirement.name() == *name {
            return Some(requirement);
        }
    }
    None
}

// Whether an own requirement counts beside those of the parent.
fn counts(parent: &[Requirement], own: &Requirement) -> bool
    ensures { result ≡ counts parent.now own.now }
{
    match find_named(parent, own.name()) {
        Some(other) => other.can_override_in_child_projects(),
        None => true,
    }
}

// Puts those of some own requirements that count among others.
fn put_counting(
    requirements: &mut Vec<Requirement>,
    parent: &[Requirement],
    own: &[Requirement],
) -> Result<(), AllocError>
    ensures { OnOk result (requirements.new.items ≡ fold (put_by (λ (r : RequirementView Expr). r.name)) requirements.old.items (filter (counts parent.now) own.now)) }
{
    for requirement in own {
        if counts(parent, requirement) {
            put_by(requirements, requirement.copy()?)?;
        }
    }
    Ok(())
}

// The requirements of a parent with the own ones that count.
fn inherited_requirements(
    alloc: Global,
    parent: &[Requirement],
    own: &[Requirement],
) -> Result<Vec<Requirement>, AllocError>
    ensures { IfOk result (λ requirements. requirements.items ≡ inherited_requirements parent.now own.now) }
{
    let mut requirements = Vec::new(alloc);
    put_all(&mut requirements, parent)?;
    put_counting(&mut requirements, parent, own)?;
    Ok(requirements)
}

// The groups of two lists.
fn joined(
    alloc: Global,
    parent: &[GroupName],
    own: &[GroupName],
) -> Result<Vec<GroupName>, AllocError>
    ensures { IfOk result (λ groups. groups.items ≡ parent.now ++ own.now) }
{
    let mut groups = Vec::new(alloc);
    push_all(&mut groups, parent)?;
    push_all(&mut groups, own)?;
    Ok(groups)
}

fn push_all(groups: &mut Vec<GroupName>, more: &[GroupName]) -> Result<(), AllocError>
    ensures { OnOk result (groups.new.items ≡ groups.old.items ++ more.now) }
{
    for group in more {
        groups.push(group.copy()?)?;
    }
    Ok(())
}

fn joined_access(alloc: Global, parent: &Access, own: &Access) -> Result<Access, AllocError>
    ensures { IfOk result (λ access. access ≡ joined_access parent.now own.now) }
{
    Ok(Access {
        create: joined(alloc, &parent.create, &own.create)?,
        upload: joined(alloc, &parent.upload, &own.upload)?,
        submit: joined(alloc, &parent.submit, &own.submit)?,
        abandon: joined(alloc, &parent.abandon, &own.abandon)?,
    })
}

// Whether an own requirement, whether or not it counts, names a label that isn't among the effective ones.
fn inherits_unknown(
    alloc: Global,
    parent: &ProjectFile,
    own: &ProjectFile,
) -> Result<bool, AllocError>
    ensures { IfOk result (λ b. b ≡ inherits_unknown_label parent.now own.now) }
{
    let labels = inherited_labels(alloc, parent.labels(), own.labels())?;
    some_requires_other(alloc, &labels, own.requirements())
}

// What the effective file has.
fn inherited(alloc: Global, parent: &ProjectFile, own: &ProjectFile) -> Result<Content, AllocError>
    ensures { IfOk result (λ f. f ≡ inherit parent.now own.now) }
{
    let labels = inherited_labels(alloc, parent.labels(), own.labels())?;
    let requirements = inherited_requirements(alloc, parent.requirements(), own.requirements())?;
    let access = joined_access(alloc, parent.access(), own.access())?;
    let description = own.copied_description(alloc)?;
    let parent = own.copied_parent()?;
    Ok(Content {
        parent,
        description,
        access,
        labels,
        requirements,
    })
}

/// The effective file of a project that is stored: what `inherit` gives, which isn't asked again whether requirements name unknown labels.
pub fn inherit_stored(
    alloc: Global,
    parent: &ProjectFile,
    own: &ProjectFile,
) -> Result<ProjectFile, AllocError>
    ensures { IfOk result (λ f. f ≡ inherit parent.now own.now) }
{
    parent.facts();
    own.facts();
    let content = inherited(alloc, parent, own)?;
    ProjectFile::new(alloc, content)
}

/// The effective file of a project by its own file, where its parent has this effective file: labels and requirements by name, the own ones in
/// place of those of the same name, and the groups of each right joined. An own requirement counts where the parent has none of its name or lets
/// children override its own.
///
/// UnknownLabel: an own requirement, whether or not it counts, names a label that isn't among the effective ones.
pub fn inherit(
    alloc: Global,
    parent: &ProjectFile,
    own: &ProjectFile,
) -> Result<ProjectFile, InheritFault>
    ensures file { IfOk result (λ f. f ≡ inherit parent.now own.now) }
    ensures known { IfOk result (λ f. inherits_unknown_label parent.now own.now ≡ false) }
    ensures names { IfOk result (λ f. names_unknown_label parent.now ≡ false → names_unknown_label f ≡ false) }
    ensures fault { IfErr result (λ e. e ≢ InheritFault.Memory → inherits_unknown_label parent.now own.now ≡ true) }
{
    parent.facts();
    own.facts();
    let unknown = inherits_unknown(alloc, parent, own)?;
    if unknown {
        return Err(InheritFault::UnknownLabel);
    }
    Ok(inherit_stored(alloc, parent, own)?)
}
