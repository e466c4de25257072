// The faults of one marker's options.
ghost use Rattle.std.specs.Prelude.{◌≡◌, ◌&&◌, ◌||◌, not, IfOk, List, Some, is_none, false};
ghost use Rattle.gt_items.specs.declared.items.RawOption.{RawOption};
ghost use Rattle.gt_drafts.specs.declared.draft.Draft.{Draft};
ghost use Rattle.gt_drafts.specs.Sameness.{same_bool};
ghost use Rattle.gt_markers.specs.Options.{has_parameter, needs_parameter, kind_of};
ghost use Rattle.gt_markers.specs.Expressions.{constant_value};
ghost use Rattle.gt_drafts.specs.FirstFaults.{first_from};
ghost use Rattle.gt_markers.specs.Lookups.{IsLookupOf};
ghost use Rattle.gt_markers.specs.Sites.{is_tag, is_unknown_hook, is_passed_over, known_faults, option_faults, marker_faults};
ghost use Rattle.gt_markers.specs.SiteViews.{site_of};
ghost use Rattle.gt_markers.specs.KindSets.{AreKindsOf};

use crate::constants::constant_value;
use crate::kind_sets::Kinds;
use crate::kinds::OptionKind;
use crate::lookups::Lookup;
use crate::sites::Site;
use crate::{BAD_PATH, DUPLICATE_TAG, UNKNOWN_HOOK, UNKNOWN_OPTION, WRONG_PLACE};
use gt_drafts::{Draft, with_fault};
use gt_items::{Parameter, RawOption};
use gt_types::Fault;
use std::alloc::{AllocError, Global};

/// A marker: where it stands, the place of its file from 1, and its options in order.
#[derive(Clone, Copy)]
pub struct Marker<'a> {
    pub site: Site<'a>,
    pub file: u32,
    pub options: &'a [RawOption],
}

// The kinds of a marker's options: of all of them, and of those before one.
#[derive(Clone, Copy)]
struct Standing {
    all: Kinds,
    before: Kinds,
}

fn has_parameter(parameter: &Parameter) -> bool
    ensures { result ≡ has_parameter parameter.now }
{
    !matches!(parameter, Parameter::Absent)
}

// Whether it is a hook that is not known.
fn is_unknown_hook(kind: OptionKind, parameter: &Parameter) -> bool
    ensures { result ≡ is_unknown_hook kind parameter.now }
{
    match (kind, parameter) {
        (OptionKind::Reorder, Parameter::Text(hook)) => hook.as_slice()
            != b"resort_by_address".as_slice(),
        _ => false,
    }
}

// Whether a parameter is missing or one is too many, whether the option stands twice, or whether it may not stand beside one before it.
fn is_ill_formed(kind: OptionKind, parameter: &Parameter, repeated: bool, excluded: bool) -> bool
    ensures ill { result ≡ (not (same_bool (needs_parameter kind) (has_parameter parameter.now)) || (not (is_tag kind) && repeated) || excluded) }
{
    kind.needs_parameter() != has_parameter(parameter) || (!kind.is_tag() && repeated) || excluded
}

// Whether it is a tag that is no constant.
fn is_bad_tag(
    alloc: Global,
    lookup: &Lookup,
    kind: OptionKind,
    parameter: &Parameter,
) -> Result<bool, AllocError>
    ensures bad { IfOk result (λ b. (draft : Draft) → IsLookupOf draft lookup.now → b ≡ (is_tag kind && is_none (constant_value draft parameter.now))) }
{
    if !kind.is_tag() {
        return Ok(false);
    }
    let value = constant_value(alloc, lookup, parameter)?;
    Ok(value.is_none())
}

// Whether it is a tag after another one.
fn is_second_tag(kind: OptionKind, repeated: bool) -> bool
    ensures second { result ≡ (is_tag kind && repeated) }
{
    kind.is_tag() && repeated
}

// The earliest fault with those of an option of this kind that is not passed over.
fn with_kind_faults(
    alloc: Global,
    earliest: Option<Fault>,
    draft: &Draft,
    lookup: &Lookup,
    marker: Marker,
    standing: Standing,
    option: &RawOption,
    kind: OptionKind,
) -> Result<Option<Fault>, AllocError>
    requires lookup { IsLookupOf draft.now lookup.now }
    requires all { AreKindsOf marker.options.now standing.all }
    requires kind { kind_of option.now.name.word ≡ Some kind }
    requires counted { is_passed_over (site_of marker.site) marker.options.now kind ≡ false }
    ensures earliest { IfOk result (λ r. (before : List RawOption) → AreKindsOf before standing.before → r ≡ first_from earliest (known_faults draft.now (site_of marker.entry.site) marker.entry.options.now marker.entry.file before option.now kind)) }
{
    let file = marker.file;
    let at = option.name.at;
    let repeated = standing.before.has(kind);
    let excluded = standing.before.exclude(kind);
    let ill = is_ill_formed(kind, &option.parameter, repeated, excluded);
    let earliest = with_fault(earliest, ill, WRONG_PLACE, file, at);
    let misplaced = !marker
        .site
        .may_hold(draft.structures.as_slice(), standing.all, kind);
    let number = marker.site.wrong_number(kind);
    let earliest = with_fault(earliest, misplaced, number, file, at);
    let second = is_second_tag(kind, repeated);
    let earliest = with_fault(earliest, second, DUPLICATE_TAG, file, at);
    let bad = is_bad_tag(alloc, lookup, kind, &option.parameter)?;
    let earliest = with_fault(earliest, bad, BAD_PATH, file, at);
    let unknown = is_unknown_hook(kind, &option.parameter);
    Ok(with_fault(earliest, unknown, UNKNOWN_HOOK, file, at))
}

// The earliest fault with those of an option, of which some stand before.
fn of_option(
    alloc: Global,
    earliest: Option<Fault>,
    draft: &Draft,
    lookup: &Lookup,
    marker: Marker,
    standing: Standing,
    option: &RawOption,
) -> Result<Option<Fault>, AllocError>
    requires lookup { IsLookupOf draft.now lookup.now }
    requires all { AreKindsOf marker.options.now standing.all }
    ensures earliest { IfOk result (λ r. (before : List RawOption) → AreKindsOf before standing.before → r ≡ first_from earliest (option_faults draft.now (site_of marker.entry.site) marker.entry.options.now marker.entry.file before option.now)) }
{
    let Some(kind) = OptionKind::of(&option.name.word) else {
        let at = option.name.at;
        return Ok(with_fault(earliest, true, UNKNOWN_OPTION, marker.file, at));
    };
    if marker.site.passes_over(standing.all, kind) {
        return Ok(earliest);
    }
    with_kind_faults(
        alloc, earliest, draft, lookup, marker, standing, option, kind,
    )
}

/// The earliest fault with those of a marker's options. Its time is linear in them. Its only error is out of memory.
pub fn of_marker(
    alloc: Global,
    earliest: Option<Fault>,
    draft: &Draft,
    lookup: &Lookup,
    marker: Marker,
) -> Result<Option<Fault>, AllocError>
    requires lookup { IsLookupOf draft.now lookup.now }
    ensures earliest { IfOk result (λ r. r ≡ first_from earliest (marker_faults draft.now (site_of marker.entry.site) marker.entry.file marker.entry.options.now)) }
{
    let all = Kinds::of(marker.options);
    let mut before = Kinds::none();
    let mut earliest = earliest;
    for option in marker.options {
        let standing = Standing { all, before };
        earliest = of_option(alloc, earliest, draft, lookup, marker, standing, option)?;
        before = before.with(option);
    }
    Ok(earliest)
}
