// When the members of a union are a part of its value, and which of them say the same.
ghost use Rattle.std.specs.Prelude.{◌≡◌, ℤ, ◌||◌, [], IfOk, OnOk, Option};
ghost use Rattle.std.specs.BTreeSet.{contains};
ghost use Rattle.std.specs.Ordering.{int_cmp, int_eq};
ghost use Rattle.gt_drafts.specs.declared.draft.Draft.{Draft};
ghost use Rattle.gt_markers.specs.Actives.{active_of, tag_of, without_tag};
ghost use Rattle.gt_markers.specs.Expressions.{constant_value};
ghost use Rattle.gt_markers.specs.Lookups.{IsLookupOf};
ghost use Rattle.gt_markers.specs.MarkerFaults.{same_tag, tag_value};
ghost use Rattle.gt_markers.specs.Members.{AreMembers, holds_tag};

use crate::constants::constant_value;
use crate::lookups::Lookup;
use crate::options::{has_option, option_named};
use gt_items::{Parameter, RawOption};
use gt_types::Active;
use std::alloc::{AllocError, Global};
use std::collections::BTreeSet;

// When a member with this tag is a part of the value; one whose tag is no constant, which is a fault, counts as the default.
fn tag_of(alloc: Global, lookup: &Lookup, tag: &Parameter) -> Result<Active, AllocError>
    ensures active { IfOk result (λ a. (draft : Draft) → IsLookupOf draft lookup.now → a ≡ tag_of (constant_value draft tag.now)) }
{
    match constant_value(alloc, lookup, tag)? {
        Some(value) => Ok(Active::Tag(value)),
        None => Ok(Active::Other),
    }
}

fn without_tag(options: &[RawOption]) -> Active
    ensures active { result ≡ without_tag options.now }
{
    if has_option(options, "default") {
        Active::Other
    } else {
        Active::Never
    }
}

/// When a field with these options is a part of the value, in a union or in a struct. Its only error is out of memory.
pub fn active_of(
    alloc: Global,
    lookup: &Lookup,
    in_union: bool,
    options: &[RawOption],
) -> Result<Active, AllocError>
    ensures active { IfOk result (λ a. (draft : Draft) → IsLookupOf draft lookup.now → a ≡ active_of draft in_union options.now) }
{
    if !in_union {
        return Ok(Active::Always);
    }
    match option_named(options, "tag") {
        Some(option) => tag_of(alloc, lookup, &option.parameter),
        None => Ok(without_tag(options)),
    }
}

/// The value of a member's tag; `None` where it has no tag, or one without a value. Its only error is out of memory.
pub fn tag_value(
    alloc: Global,
    lookup: &Lookup,
    options: &[RawOption],
) -> Result<Option<i64>, AllocError>
    ensures value { IfOk result (λ v. (draft : Draft) → IsLookupOf draft lookup.now → v ≡ tag_value draft options.now) }
{
    match option_named(options, "tag") {
        Some(option) => constant_value(alloc, lookup, &option.parameter),
        None => Ok(None),
    }
}

/// The fields of a structure so far, by their tags and by whether one of them is the default.
#[derive(Drop)]
pub struct Members {
    tags: BTreeSet<i64>,
    has_default: bool,
}

impl Members {
    /// No fields.
    pub fn new(alloc: Global) -> Members
        ensures none { (draft : Draft) → AreMembers draft [] result }
    {
        Members {
            tags: BTreeSet::new(alloc),
            has_default: false,
        }
    }

    /// Whether a field so far has a tag of this value.
    pub fn hold_tag(&self, tag: Option<i64>) -> bool
        ensures held { result ≡ holds_tag self.now tag }
    {
        match tag {
            Some(value) => self.tags.contains(&value),
            None => false,
        }
    }

    /// Whether a field so far is the default.
    pub fn hold_default(&self) -> bool
        ensures held { result ≡ self.now.has_default }
    {
        self.has_default
    }

    fn add_tag(&mut self, value: i64) -> Result<(), AllocError>
        ensures tags { OnOk result ((other : ℤ) → contains int_cmp self.new.tags other ≡ (contains int_cmp self.old.tags other || int_eq other value)) }
        ensures default { OnOk result (self.new.has_default ≡ self.old.has_default) }
    {
        self.tags.insert(value)?;
        Ok(())
    }

    /// Adds a field with this tag, which is the default or not. Its only error is out of memory.
    pub fn add(&mut self, tag: Option<i64>, is_default: bool) -> Result<(), AllocError>
        ensures tags { OnOk result ((other : Option ℤ) → holds_tag self.new other ≡ (holds_tag self.old other || same_tag other tag)) }
        ensures default { OnOk result (self.new.has_default ≡ (self.old.has_default || is_default)) }
    {
        self.has_default = self.has_default || is_default;
        match tag {
            Some(value) => self.add_tag(value),
            None => Ok(()),
        }
    }
}
