ghost use Rattle.std.specs.Prelude.{◌≡◌, ◌≢◌, IfOk, IsTrue, ◌↔◌, All};
ghost use Rattle.sn_net.specs.Filter.{field, tag, target, is_from, is_over, IsClosedTemplate, IsClosedArm, IsClosed};

use crate::list::append;
use sn_list::{Memory, Seq};
use sn_record::{Kind, Label, LabelSet};
use sn_tagexpr::TagExpr;
use std::alloc::Global;

/// What gives one label of a template its value.
#[derive(Drop)]
pub enum Part {
    /// The label at its value in the record that was taken.
    Copy(Label),
    /// The first field at the value of the second.
    Rename(u32, u32),
    /// The tag at the value of the expression over the tags of the record that was taken.
    Compute(u32, TagExpr),
}

/// How a filter makes one record of the record that it takes.
pub struct Template {
    pub parts: Seq<Part>,
}

/// Written out, so that a function that gives a template up calls this, and is not proved over what it is made of.
impl Drop for Template {
    fn drop(self) {
        let Template { parts: _parts } = self;
    }
}

/// Templates that a filter uses where the guard is the first of its guards that is not 0.
pub struct Arm {
    pub guard: TagExpr,
    pub templates: Seq<Template>,
}

/// Written out as that of a template.
impl Drop for Arm {
    fn drop(self) {
        let Arm {
            guard: _guard,
            templates: _templates,
        } = self;
    }
}

/// Takes a record that has each label of the pattern, and answers one record for each template of a list: that of the first
/// arm whose guard is not 0, or the last list where every guard is 0.
pub struct Filter {
    /// The byte offset of its opening bracket in the source.
    pub place: u32,
    pub pattern: LabelSet,
    pub arms: Seq<Arm>,
    /// The last list.
    pub templates: Seq<Template>,
}

/// Written out as that of a template.
impl Drop for Filter {
    fn drop(self) {
        let Filter {
            place: _,
            pattern: _pattern,
            arms: _arms,
            templates: _templates,
        } = self;
    }
}

/// The field with a number.
fn field(id: u32) -> Label
    ensures { result ≡ field id }
{
    Label {
        kind: Kind::Field,
        id,
    }
}

/// The tag with a number.
pub(crate) fn tag(id: u32) -> Label
    ensures { result ≡ tag id }
{
    Label {
        kind: Kind::Tag,
        id,
    }
}

/// Whether each tag that the expression names is in `labels`.
pub fn is_over(labels: &LabelSet, expr: &TagExpr) -> bool
    ensures { result ≡ is_over labels.now expr.now }
{
    match expr {
        TagExpr::Number(_) => true,
        TagExpr::Tag(id) => labels.contains(tag(*id)),
        TagExpr::Neg(part) | TagExpr::Not(part) => is_over(labels, part.get()),
        TagExpr::Op(_, left, right) => is_over(labels, left.get()) && is_over(labels, right.get()),
        TagExpr::And(left, right) | TagExpr::Or(left, right) => {
            is_over(labels, left.get()) && is_over(labels, right.get())
        }
        TagExpr::Cond(test, left, right) => {
            is_over(labels, test.get())
                && is_over(labels, left.get())
                && is_over(labels, right.get())
        }
    }
}

impl Part {
    /// The label that the part sets.
    pub fn target(&self) -> Label
        ensures { result ≡ target self.now }
    {
        match self {
            Part::Copy(label) => *label,
            Part::Rename(new, _) => field(*new),
            Part::Compute(id, _) => tag(*id),
        }
    }

    /// Whether each label that the part copies, renames or computes from is in `pattern`.
    fn is_from(&self, pattern: &LabelSet) -> bool
        ensures { result ≡ is_from pattern.now self.now }
    {
        match self {
            Part::Copy(label) => pattern.contains(*label),
            Part::Rename(_, old) => pattern.contains(field(*old)),
            Part::Compute(_, expr) => is_over(pattern, expr),
        }
    }

    fn copy(&self, alloc: Global) -> Result<Part, Memory>
        ensures { IfOk result (λ copy. copy ≡ self.now) }
    {
        match self {
            Part::Copy(label) => Ok(Part::Copy(*label)),
            Part::Rename(new, old) => Ok(Part::Rename(*new, *old)),
            Part::Compute(id, expr) => Ok(Part::Compute(*id, expr.copy(alloc)?)),
        }
    }
}

/// Whether no part sets `label`.
fn is_unset(parts: &[Part], label: Label) -> bool
    ensures { IsTrue result ↔ All (λ part. target part ≢ label) parts.now }
{
    for part in parts {
        if part.target() == label {
            return false;
        }
    }
    true
}

impl Template {
    /// Whether each part takes its value from labels of `pattern`, and no two parts set one label.
    pub fn is_closed(&self, pattern: &LabelSet) -> bool
        ensures { IsTrue result ↔ IsClosedTemplate pattern.now self.now }
    {
        let parts = self.parts.as_slice();
        for (place, part) in parts.iter().enumerate() {
            if !part.is_from(pattern) || !is_unset(&parts[..place], part.target()) {
                return false;
            }
        }
        true
    }

    fn copy(&self, alloc: Global) -> Result<Template, Memory>
        ensures { IfOk result (λ copy. copy ≡ self.now) }
    {
        let mut parts = Seq::new(alloc);
        for part in self.parts.as_slice() {
            let part = part.copy(alloc)?;
            append(&mut parts, part)?;
        }
        Ok(Template { parts })
    }
}

/// Whether each template is closed over `pattern`.
fn are_closed(pattern: &LabelSet, templates: &[Template]) -> bool
    ensures { IsTrue result ↔ All (IsClosedTemplate pattern.now) templates.now }
{
    for template in templates {
        if !template.is_closed(pattern) {
            return false;
        }
    }
    true
}

fn copy_templates(alloc: Global, templates: &[Template]) -> Result<Seq<Template>, Memory>
    ensures { IfOk result (λ copies. copies ≡ templates.now) }
{
    let mut copies = Seq::new(alloc);
    for template in templates {
        let copy = template.copy(alloc)?;
        append(&mut copies, copy)?;
    }
    Ok(copies)
}

impl Arm {
    /// Whether the guard names tags of `pattern` alone, and each template is closed over it.
    pub fn is_closed(&self, pattern: &LabelSet) -> bool
        ensures { IsTrue result ↔ IsClosedArm pattern.now self.now }
    {
        is_over(pattern, &self.guard) && are_closed(pattern, self.templates.as_slice())
    }

    fn copy(&self, alloc: Global) -> Result<Arm, Memory>
        ensures { IfOk result (λ copy. copy ≡ self.now) }
    {
        let guard = self.guard.copy(alloc)?;
        let templates = copy_templates(alloc, self.templates.as_slice())?;
        Ok(Arm { guard, templates })
    }
}

fn copy_arms(alloc: Global, arms: &[Arm]) -> Result<Seq<Arm>, Memory>
    ensures { IfOk result (λ copies. copies ≡ arms.now) }
{
    let mut copies = Seq::new(alloc);
    for arm in arms {
        let copy = arm.copy(alloc)?;
        append(&mut copies, copy)?;
    }
    Ok(copies)
}

impl Filter {
    /// Whether each template takes its values from the pattern alone, and sets no label twice, and each guard names tags of
    /// the pattern alone.
    pub fn is_closed(&self) -> bool
        ensures { IsTrue result ↔ IsClosed self.now }
    {
        for arm in self.arms.as_slice() {
            if !arm.is_closed(&self.pattern) {
                return false;
            }
        }
        are_closed(&self.pattern, self.templates.as_slice())
    }

    /// A copy.
    pub fn copy(&self, alloc: Global) -> Result<Filter, Memory>
        ensures { IfOk result (λ copy. copy ≡ self.now) }
    {
        let arms = copy_arms(alloc, self.arms.as_slice())?;
        let templates = copy_templates(alloc, self.templates.as_slice())?;
        let pattern = self.pattern.copy()?;
        Ok(Filter {
            place: self.place,
            pattern,
            arms,
            templates,
        })
    }
}
