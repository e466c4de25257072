// The fields of structures.
ghost use Rattle.std.specs.Prelude.{◌≡◌, map, IfOk, All};
ghost use Rattle.gt_markers.specs.Lookups.{IsLookupOf};
ghost use Rattle.gt_typing.specs.SmallTypes.{IsSmallType};
ghost use Rattle.gt_declare.specs.Programs.{field_of};

use gt_drafts::{Draft, DraftField};
use gt_layout::Plane;
use gt_markers::{Lookup, Scope, active_of};
use gt_types::{Copied, Field, List};
use gt_typing::field_type;
use std::alloc::{AllocError, Global};

// A field of a union or of a struct, as the program has it.
fn field_of(
    alloc: Global,
    draft: &Draft,
    lookup: &Lookup,
    planes: &[Plane],
    in_union: bool,
    field: &DraftField,
) -> Result<Field, AllocError>
    requires lookup { IsLookupOf draft.now lookup.now }
    requires small { IsSmallType field.now.ty }
    ensures made { IfOk result (λ made. made ≡ field_of draft.now planes.now in_union field.now) }
{
    let options = field.options.as_slice();
    Ok(Field {
        name: field.name.word.copy(alloc)?,
        ty: field_type(
            alloc,
            draft,
            lookup,
            Scope::Fields,
            planes,
            options,
            &field.ty,
        )?,
        active: active_of(alloc, lookup, in_union, options)?,
    })
}

/// The fields of a union or of a struct, as the program has them. `planes` are those of the structures of the draft, by place. It fails
/// only if memory runs out.
pub fn fields_of(
    alloc: Global,
    draft: &Draft,
    lookup: &Lookup,
    planes: &[Plane],
    in_union: bool,
    fields: &[DraftField],
) -> Result<List<Field>, AllocError>
    requires lookup { IsLookupOf draft.now lookup.now }
    requires small { All (λ f. IsSmallType f.ty) fields.now }
    ensures made { IfOk result (λ made. made ≡ map (field_of draft.now planes.now in_union) fields.now) }
{
    let mut made = Vec::new(alloc);
    for field in fields {
        made.push(field_of(alloc, draft, lookup, planes, in_union, field)?)?;
    }
    Ok(List::of(made))
}
