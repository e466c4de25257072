// Structures without their chains.
ghost use Rattle.std.specs.Prelude.{◌≡◌, map, IfOk, All};
ghost use Rattle.gt_markers.specs.Lookups.{IsLookupOf};
ghost use Rattle.gt_markers.specs.Sound.{IsSound};
ghost use Rattle.gt_typing.specs.SmallTypes.{IsSmallType};
ghost use Rattle.gt_declare.specs.Programs.{unchained, all_unchained};

use crate::fields::fields_of;
use gt_drafts::{Draft, DraftStructure};
use gt_layout::Plane;
use gt_markers::Lookup;
use gt_types::{Copied, List, Structure};
use gt_typing::own_desc;
use std::alloc::{AllocError, Global};

/// A structure without its chains, as the program has it. `planes` are those of the structures of the draft, by place, of which it reads
/// no more than those of the structures that this one holds by value. It fails only if memory runs out.
pub fn structure_without_chains(
    alloc: Global,
    draft: &Draft,
    lookup: &Lookup,
    planes: &[Plane],
    structure: &DraftStructure,
) -> Result<Structure, AllocError>
    requires lookup { IsLookupOf draft.now lookup.now }
    requires small { All (λ f. IsSmallType f.ty) structure.now.fields }
    ensures made { IfOk result (λ made. made ≡ unchained draft.now planes.now structure.now) }
{
    let is_union = structure.is_union;
    let fields = structure.fields.as_slice();
    Ok(Structure {
        name: structure.tag.word.copy(alloc)?,
        is_union,
        desc: own_desc(alloc, lookup, structure)?,
        fields: fields_of(alloc, draft, lookup, planes, is_union, fields)?,
        chains: List::new(alloc),
    })
}

/// All structures of a draft without their chains. It fails only if memory runs out.
pub fn structures_without_chains(
    alloc: Global,
    draft: &Draft,
    lookup: &Lookup,
    planes: &[Plane],
) -> Result<List<Structure>, AllocError>
    requires sound { IsSound draft.now }
    requires lookup { IsLookupOf draft.now lookup.now }
    ensures made { IfOk result (λ made. made ≡ all_unchained draft.now planes.now) }
{
    let mut made = Vec::new(alloc);
    for structure in draft.structures.as_slice() {
        made.push(structure_without_chains(alloc, draft, lookup, planes, structure)?)?;
    }
    Ok(List::of(made))
}
