//! A project file.
ghost use Rattle.std.specs.List.{All};
ghost use Rattle.std.specs.Prelude.{◌≡◌, ◌≤ℤ◌, true, IfOk, find, option_copied, option_map, string_bytes};
ghost use Rattle.std.specs.Str.{bytes_eq};
ghost use Rattle.review_file_rules.specs.Rights.{greatest_value, least_value};
ghost use Rattle.review_file_rules.specs.Sound.{HasGroupsInOrder, HasNamesInOrder, IsSoundFile, has_sound_labels, is_sound_label, is_value};

use review_expr::Expr;
use review_file_rules::Grant;
use review_words::{GroupName, LabelName, ProjectName};
use std::alloc::{AllocError, Global};
use std::marker::Model;
use std::rc::Rc;

/// The groups that have a right.
#[derive(Drop)]
pub struct Access {
    pub create: Vec<GroupName>,
    pub upload: Vec<GroupName>,
    pub submit: Vec<GroupName>,
    pub abandon: Vec<GroupName>,
}

impl Model for Access {
    ghost use Rattle.review_file_rules.specs.View.{AccessView};

    ghost Value = { AccessView };

    ghost view = { λ a. record { create = a.create.items; upload = a.upload.items; submit = a.submit.items; abandon = a.abandon.items } };
}

/// A value of a label, from -20 to 20, and what it means.
#[derive(Drop)]
pub struct LabelValue {
    pub(crate) value: i8,
    pub(crate) text: String,
}

impl Model for LabelValue {
    ghost use Rattle.std.specs.Prelude.{List, ℕ, ℤ, string_bytes};

    ghost Value = { ℤ × List ℕ };

    ghost view = { λ v. (v.value, string_bytes v.text) };
}

impl LabelValue {
    /// The value, from -20 to 20.
    pub fn value(&self) -> i8
        ensures { result ≡ self.now.0 }
    {
        self.value
    }

    /// What the value means, at most 256 bytes.
    pub fn text(&self) -> &str
        ensures { result.now ≡ self.now.1 }
    {
        self.text.as_str()
    }
}

/// What a label has.
#[derive(Drop)]
pub(crate) struct LabelParts {
    pub(crate) name: LabelName,
    pub(crate) values: Vec<LabelValue>,
    pub(crate) grants: Vec<Grant>,
    pub(crate) copy_condition: Option<Expr>,
}

impl Model for LabelParts {
    ghost use Rattle.{std.specs.Coded.codes, review_expr.specs.declared.expr.Expr.Expr};
    ghost use Rattle.review_file_rules.specs.View.{LabelView};
    ghost use Rattle.review_expr.specs.contracts.expr.Expr as expr;

    ghost Value = { LabelView Expr };

    ghost coded = { Prim.hlevel (codes, expr.the_row.coded) };

    ghost view = { λ l. record { name = l.name; values = l.values.items; grants = l.grants.items; copy_condition = l.copy_condition } };
}

/// A label, which is shared: its copies have one set of parts together.
#[derive(Drop)]
pub struct Label {
    parts: Rc<LabelParts>,
}

impl Model for Label {
    ghost use Rattle.{std.specs.Coded.codes, review_expr.specs.declared.expr.Expr.Expr};
    ghost use Rattle.review_file_rules.specs.View.{LabelView};
    ghost use Rattle.review_expr.specs.contracts.expr.Expr as expr;

    ghost Value = { LabelView Expr };

    ghost coded = { Prim.hlevel (codes, expr.the_row.coded) };

    ghost view = { λ l. l.parts.value };
}

impl Label {
    /// The label of these parts. An error where there was no memory for it.
    pub(crate) fn new(alloc: Global, parts: LabelParts) -> Result<Label, AllocError>
        ensures { IfOk result (λ l. l ≡ parts) }
    {
        let parts = Rc::new(alloc, parts)?;
        Ok(Label { parts })
    }

    /// The parts.
    fn parts(&self) -> &LabelParts
        ensures { result.now ≡ self.now }
    {
        self.parts.as_ref()
    }

    /// A copy of the label, which shares its parts and takes no memory. An error where there are as many copies as can be counted.
    pub fn copy(&self) -> Result<Label, AllocError>
        ensures { IfOk result (λ l. l ≡ self.now) }
    {
        let parts = self.parts.clone()?;
        Ok(Label { parts })
    }

    /// The name.
    pub fn name(&self) -> &LabelName
        ensures { result.now ≡ self.now.name }
    {
        &self.parts().name
    }

    /// The values, in the order of the bytes of their keys.
    pub fn values(&self) -> &[LabelValue]
        ensures { result.now ≡ self.now.values }
    {
        &self.parts().values
    }

    /// The least value, which `MIN` means. This is Gerrit's. It is a value of the label, as 0 is of
    /// every label of a file, and no value lies below it.
    pub fn least(&self) -> i8
        ensures least { result ≡ least_value self.now.values }
        ensures value { is_sound_label self.now ≡ true → is_value self.now.values result ≡ true }
        ensures below { All (λ v. result ≤ℤ v.0) self.now.values }
    {
        let mut least = 0;
        for value in self.values() {
            least = least.min(value.value);
        }
        least
    }

    /// The greatest value, which `MAX` means. This is Gerrit's. It is a value of the label, as 0 is
    /// of every label of a file, and no value lies above it.
    pub fn greatest(&self) -> i8
        ensures greatest { result ≡ greatest_value self.now.values }
        ensures value { is_sound_label self.now ≡ true → is_value self.now.values result ≡ true }
        ensures above { All (λ v. v.0 ≤ℤ result) self.now.values }
    {
        let mut greatest = 0;
        for value in self.values() {
            greatest = greatest.max(value.value);
        }
        greatest
    }

    /// The ranges that groups are granted, in the order of the groups' bytes.
    pub fn grants(&self) -> &[Grant]
        ensures { result.now ≡ self.now.grants }
    {
        &self.parts().grants
    }

    /// When a vote is copied to a new patch set; none: never.
    pub fn copy_condition(&self) -> Option<&Expr>
        ensures { option_copied result ≡ self.now.copy_condition }
    {
        self.parts().copy_condition.as_ref()
    }
}

fn shown(text: &Option<String>) -> Option<&str>
    ensures { option_copied result ≡ option_map string_bytes text.now }
{
    match text {
        Some(text) => Some(text.as_str()),
        None => None,
    }
}

/// What a submit requirement has.
#[derive(Drop)]
pub(crate) struct RequirementParts {
    pub(crate) name: LabelName,
    pub description: Option<String>,
    pub(crate) applicable_if: Option<Expr>,
    pub(crate) submittable_if: Expr,
    pub(crate) override_if: Option<Expr>,
    pub(crate) can_override_in_child_projects: bool,
}

impl Model for RequirementParts {
    ghost use Rattle.std.specs.{Coded.codes, Prelude.option_map, Prelude.string_bytes};
    ghost use Rattle.{review_expr.specs.declared.expr.Expr.Expr, review_file_rules.specs.View.RequirementView};
    ghost use Rattle.review_expr.specs.contracts.expr.Expr as expr;

    ghost Value = { RequirementView Expr };

    ghost coded = { Prim.hlevel (codes, expr.the_row.coded) };

    ghost view = { λ r. record {
      name = r.name;
      description = option_map string_bytes r.description;
      applicable_if = r.applicable_if;
      submittable_if = r.submittable_if;
      override_if = r.override_if;
      can_override_in_child_projects = r.can_override_in_child_projects;
    } };
}

/// A submit requirement, which is shared: its copies have one set of parts together.
#[derive(Drop)]
pub struct Requirement {
    parts: Rc<RequirementParts>,
}

impl Model for Requirement {
    ghost use Rattle.{std.specs.Coded.codes, review_expr.specs.declared.expr.Expr.Expr};
    ghost use Rattle.review_file_rules.specs.View.{RequirementView};
    ghost use Rattle.review_expr.specs.contracts.expr.Expr as expr;

    ghost Value = { RequirementView Expr };

    ghost coded = { Prim.hlevel (codes, expr.the_row.coded) };

    ghost view = { λ r. r.parts.value };
}

impl Requirement {
    /// The requirement of these parts. An error where there was no memory for it.
    pub(crate) fn new(alloc: Global, parts: RequirementParts) -> Result<Requirement, AllocError>
        ensures { IfOk result (λ r. r ≡ parts) }
    {
        let parts = Rc::new(alloc, parts)?;
        Ok(Requirement { parts })
    }

    /// The parts.
    fn parts(&self) -> &RequirementParts
        ensures { result.now ≡ self.now }
    {
        self.parts.as_ref()
    }

    /// A copy of the requirement, which shares its parts and takes no memory. An error where there are as many copies as can be counted.
    pub fn copy(&self) -> Result<Requirement, AllocError>
        ensures { IfOk result (λ r. r ≡ self.now) }
    {
        let parts = self.parts.clone()?;
        Ok(Requirement { parts })
    }

    /// The name.
    pub fn name(&self) -> &LabelName
        ensures { result.now ≡ self.now.name }
    {
        &self.parts().name
    }

    /// The description, at most 1,024 bytes.
    pub fn description(&self) -> Option<&str>
        ensures { option_copied result ≡ self.now.description }
    {
        shown(&self.parts().description)
    }

    /// To which changes it applies; none: to every change.
    pub fn applicable_if(&self) -> Option<&Expr>
        ensures { option_copied result ≡ self.now.applicable_if }
    {
        self.parts().applicable_if.as_ref()
    }

    /// When a change satisfies it.
    pub fn submittable_if(&self) -> &Expr
        ensures { result.now ≡ self.now.submittable_if }
    {
        &self.parts().submittable_if
    }

    /// When it is overridden; none: never.
    pub fn override_if(&self) -> Option<&Expr>
        ensures { option_copied result ≡ self.now.override_if }
    {
        self.parts().override_if.as_ref()
    }

    /// Whether child projects may have another requirement of this name.
    pub fn can_override_in_child_projects(&self) -> bool
        ensures { result ≡ self.now.can_override_in_child_projects }
    {
        self.parts().can_override_in_child_projects
    }
}

/// What a project file has, labels and requirements by name.
#[derive(Drop)]
pub struct Content {
    pub parent: Option<ProjectName>,
    pub description: Option<String>,
    pub access: Access,
    pub labels: Vec<Label>,
    pub requirements: Vec<Requirement>,
}

impl Model for Content {
    ghost use Rattle.std.specs.{Coded.codes, Prelude.option_map, Prelude.string_bytes};
    ghost use Rattle.{review_expr.specs.declared.expr.Expr.Expr, review_file_rules.specs.View.FileView};
    ghost use Rattle.review_expr.specs.contracts.expr.Expr as expr;

    ghost Value = { FileView Expr };

    ghost coded = { Prim.hlevel (codes, expr.the_row.coded) };

    ghost view = { λ f. record {
      parent = f.parent;
      description = option_map string_bytes f.description;
      access = f.access;
      labels = f.labels.items;
      requirements = f.requirements.items;
    } };
}

/// A project file, which is shared: its copies have one content together. Its labels are sound, and its names and groups in order, as
/// `facts` says.
#[derive(Drop)]
pub struct ProjectFile {
    content: Rc<Content>,
}

impl Model for ProjectFile {
    ghost use Rattle.{std.specs.Coded.codes, review_expr.specs.declared.expr.Expr.Expr};
    ghost use Rattle.review_file_rules.specs.{Sound.IsSoundFile, View.FileView};
    ghost use Rattle.review_expr.specs.contracts.expr.Expr as expr;

    ghost Value = { FileView Expr };

    ghost coded = { Prim.hlevel (codes, expr.the_row.coded) };

    ghost view = { λ f. f.content.value };

    ghost invariant = { λ f. IsSoundFile f.content.value };
}

impl ProjectFile {
    /// The file of a content that is sound. An error where there was no memory for it.
    pub fn new(alloc: Global, content: Content) -> Result<ProjectFile, AllocError>
        requires { IsSoundFile content }
        ensures { IfOk result (λ f. f ≡ content) }
    {
        let content = Rc::new(alloc, content)?;
        Ok(ProjectFile { content })
    }

    /// The content.
    fn content(&self) -> &Content
        ensures { result.now ≡ self.now }
    {
        self.content.as_ref()
    }

    /// A copy of the file, which shares its parts and takes no memory. An error where there are as many copies as can be counted.
    pub fn copy(&self) -> Result<ProjectFile, AllocError>
        ensures { IfOk result (λ f. f ≡ self.now) }
    {
        let content = self.content.clone()?;
        Ok(ProjectFile { content })
    }

    /// What is true of every file. The values of each label are two or more, an unbroken run within -20 to 20 with 0 among them and no
    /// number twice, and the ends of its grants are such values in order. The names of the labels ascend in the order of their bytes, and
    /// so do those of the requirements and the groups of each label's grants.
    pub fn facts(&self)
        ensures labels { has_sound_labels self.now ≡ true }
        ensures names { HasNamesInOrder self.now }
        ensures groups { HasGroupsInOrder self.now }
    {
        let _ = &self.content;
    }

    /// A copy of the description. An error where there was no memory for it.
    pub fn copied_description(&self, alloc: Global) -> Result<Option<String>, AllocError>
        ensures { IfOk result (λ d. option_map string_bytes d ≡ self.now.description) }
    {
        match self.description() {
            Some(text) => Ok(Some(String::from_str(alloc, text)?)),
            None => Ok(None),
        }
    }

    /// A copy of the parent. An error where there was no memory for it.
    pub fn copied_parent(&self) -> Result<Option<ProjectName>, AllocError>
        ensures { IfOk result (λ p. p ≡ self.now.parent) }
    {
        match self.parent() {
            Some(name) => Ok(Some(name.copy()?)),
            None => Ok(None),
        }
    }

    /// The parent that the file names: a project whose file it goes on from.
    pub fn parent(&self) -> Option<&ProjectName>
        ensures { option_copied result ≡ self.now.parent }
    {
        self.content().parent.as_ref()
    }

    /// The description, at most 1,024 bytes.
    pub fn description(&self) -> Option<&str>
        ensures { option_copied result ≡ self.now.description }
    {
        shown(&self.content().description)
    }

    /// The groups that have rights.
    pub fn access(&self) -> &Access
        ensures { result.now ≡ self.now.access }
    {
        &self.content().access
    }

    /// The labels, by name.
    pub fn labels(&self) -> &[Label]
        ensures { result.now ≡ self.now.labels }
    {
        &self.content().labels
    }

    /// The label of a name, if the file has it.
    pub fn label(&self, name: &LabelName) -> Option<&Label>
        ensures { option_copied result ≡ find (λ l. bytes_eq l.name name.now) self.now.labels }
    {
        let labels = self.labels();
        for label in labels {
            if *label.name() == *name {
                return Some(label);
            }
        }
        None
    }

    /// The submit requirements, by name.
    pub fn requirements(&self) -> &[Requirement]
        ensures { result.now ≡ self.now.requirements }
    {
        &self.content().requirements
    }
}
