// What blocks hold, by their names.
ghost use Rattle.std.specs.Prelude.{◌≡◌, IfOk, IfSome};
ghost use Rattle.gt_tree.specs.Blocks.{Nodes, element_type};
ghost use Rattle.gt_tree.specs.FixedLaws.{MayHold};
ghost use Rattle.gt_types.specs.Paths.{MayStand};
ghost use Rattle.gt_value.specs.Names.{kind_of};
ghost use Rattle.edges_table.specs.Grounds.{IsGround, IsSite};

use crate::grounds::Ground;
use gt_paths::{PathIndex, may_stand};
use gt_types::{Copied, PtrKind, Scalar, Target, Ty, TypeId, Width};
use gt_value::BlockKind;
use std::alloc::AllocError;

const BYTE: Scalar = Scalar::Int {
    width: Width::W1,
    signed: false,
};

/// What a block of this name holds: strings, characters, bytes, a structure, or, after a star, pointers to one. None where no block may
/// hold it.
pub fn kind_named(on: &Ground, name: &str) -> Result<Option<BlockKind>, AllocError>
    requires ground { IsGround on.now.program on.now.layouts }
    ensures kind { IfOk result (λ found. IfSome found (λ kind. MayHold on.now.program (kind_of kind))) }
{
    match name {
        "strings" => Ok(Some(BlockKind::Strings)),
        "chars" => Ok(Some(BlockKind::Chars)),
        "raw" => Ok(Some(BlockKind::Raw)),
        _ => kind_of_structure(on, name),
    }
}

// The same of a structure, or, after a star, of pointers to one.
fn kind_of_structure(on: &Ground, name: &str) -> Result<Option<BlockKind>, AllocError>
    requires ground { IsGround on.now.program on.now.layouts }
    ensures kind { IfOk result (λ found. IfSome found (λ kind. MayHold on.now.program (kind_of kind))) }
{
    if let Some(name) = name.strip_prefix("*") {
        return match standing(on, name)? {
            Some(id) => Ok(Some(BlockKind::Pointers(id))),
            None => Ok(None),
        };
    }
    match standing(on, name)? {
        Some(id) => Ok(Some(BlockKind::Nodes(id))),
        None => Ok(None),
    }
}

// The structure of a name, where it may stand alone.
fn standing(on: &Ground, name: &str) -> Result<Option<TypeId>, AllocError>
    requires ground { IsGround on.now.program on.now.layouts }
    ensures stands { IfOk result (λ found. IfSome found (MayStand on.now.program)) }
{
    let index = PathIndex::new(on.alloc, &on.program)?;
    let Some(id) = structure_named(on, name) else {
        return Ok(None);
    };
    if may_stand(&on.program, &index, id) {
        Ok(Some(id))
    } else {
        Ok(None)
    }
}

// The structure of a name.
fn structure_named(on: &Ground, name: &str) -> Option<TypeId> {
    let structures = on.program.structures.as_slice();
    let place = structures.iter().position(|s| s.name.as_str() == name)?;
    Some(TypeId(u32::try_from(place).ok()?))
}

/// The type of the elements of a block.
pub fn type_of(on: &Ground, kind: BlockKind) -> Result<Ty, AllocError>
    requires ground { IsGround on.now.program on.now.layouts }
    requires holds { MayHold on.now.program (kind_of kind) }
    ensures { IfOk result (λ ty. ty ≡ element_type on.now.program (kind_of kind)) }
{
    match kind {
        BlockKind::Nodes(id) => structure_type(on, id),
        BlockKind::Pointers(id) => Ok(Ty::Ptr {
            target: Some(Target::Node(id)),
            kind: PtrKind::Plain,
            reorder: false,
        }),
        BlockKind::Strings => Ok(Ty::Str(None)),
        BlockKind::Chars | BlockKind::Raw => Ok(Ty::Num(BYTE)),
    }
}

// The type of a structure that stands alone.
fn structure_type(on: &Ground, id: TypeId) -> Result<Ty, AllocError>
    requires ground { IsGround on.now.program on.now.layouts }
    requires stands { MayStand on.now.program id }
    ensures { IfOk result (λ ty. ty ≡ element_type on.now.program (Nodes id)) }
{
    let structure = &on.program.structures.as_slice()[id.0 as usize];
    let desc = match &structure.desc {
        Some(desc) => Some(desc.copy(on.alloc)?),
        None => None,
    };
    Ok(Ty::Node { id, desc })
}

/// How many bytes an element takes, with room for so many elements at its end.
pub fn size_of(on: &Ground, kind: BlockKind, ty: &Ty, capacity: u32) -> u64
    requires ground { IsGround on.now.program on.now.layouts }
    requires holds { MayHold on.now.program (kind_of kind) }
    requires element { ty.now ≡ element_type on.now.program (kind_of kind) }
    ensures site { IsSite on.now.program on.now.layouts capacity ty.now result }
{
    let _ = ty;
    match kind {
        BlockKind::Nodes(id) => on.layouts.size(&on.program, id, capacity),
        BlockKind::Pointers(_) | BlockKind::Strings => 8,
        BlockKind::Chars | BlockKind::Raw => 1,
    }
}
