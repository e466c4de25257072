// The types of the elements of blocks.
ghost use Rattle.std.specs.Prelude.{◌≡◌, ◌≤◌, length, IfOk};
ghost use Rattle.gt_types.specs.declared.limits.TheConstants.{MAX_STRUCTURES};
ghost use Rattle.gt_types.specs.declared.program.Program.{Program};
ghost use Rattle.gt_types.specs.declared.types.Ty.TheVariants as ty;
ghost use Rattle.gt_tree.specs.Blocks.{element_type};
ghost use Rattle.gt_tree.specs.FixedLaws.{MayHold};
ghost use Rattle.gt_value.specs.Names.{kind_of};
ghost use Rattle.gt_held.specs.Types.{AreElementTypesOf, AreNodesOf, ArePointersOf, byte_type, pointer_to};

use gt_types::{Copied, Expr, Program, PtrKind, Scalar, Structure, Target, Ty, TypeId, Width};
use gt_value::BlockKind;
use std::alloc::{AllocError, Global};

/// The types of the elements of blocks: for each structure that of such structures and that of plain pointers to them, and those of
/// strings and of bytes.
#[derive(Drop)]
pub struct ElementTypes {
    nodes: Vec<Ty>,
    pointers: Vec<Ty>,
    strings: Ty,
    bytes: Ty,
}

// A structure that stands alone, with its own `desc`.
fn node_type(alloc: Global, id: TypeId, desc: &Option<Expr>) -> Result<Ty, AllocError>
    ensures { IfOk result (λ made. made ≡ ty.Node id desc.now) }
{
    match desc {
        None => Ok(Ty::Node { id, desc: None }),
        Some(desc) => Ok(Ty::Node {
            id,
            desc: Some(desc.copy(alloc)?),
        }),
    }
}

// A plain pointer to a structure.
fn pointer_to(id: TypeId) -> Ty
    ensures { result ≡ pointer_to id }
{
    Ty::Ptr {
        target: Some(Target::Node(id)),
        kind: PtrKind::Plain,
        reorder: false,
    }
}

// The structures, each as it stands alone.
fn node_types(alloc: Global, structures: &[Structure]) -> Result<Vec<Ty>, AllocError>
    requires few { length structures.now ≤ MAX_STRUCTURES }
    ensures made { IfOk result (λ made. AreNodesOf structures.now made.items) }
{
    let mut made = Vec::new(alloc);
    for (place, structure) in structures.iter().enumerate() {
        made.push(node_type(alloc, TypeId(place as u32), &structure.desc)?)?;
    }
    Ok(made)
}

// Plain pointers to so many structures.
fn pointer_types(alloc: Global, count: u32) -> Result<Vec<Ty>, AllocError>
    ensures made { IfOk result (λ made. ArePointersOf count made.items) }
{
    let mut made = Vec::new(alloc);
    for place in 0..count {
        made.push(pointer_to(TypeId(place)))?;
    }
    Ok(made)
}

impl ElementTypes {
    /// The types of the elements of blocks of a program. It fails only if memory runs out.
    pub fn of(alloc: Global, program: &Program) -> Result<ElementTypes, AllocError>
        requires few { length program.now.structures ≤ MAX_STRUCTURES }
        ensures types { IfOk result (AreElementTypesOf program.now) }
    {
        let structures = program.structures.as_slice();
        let nodes = node_types(alloc, structures)?;
        let pointers = pointer_types(alloc, structures.len() as u32)?;
        Ok(ElementTypes {
            nodes,
            pointers,
            strings: Ty::Str(None),
            bytes: Ty::Num(Scalar::Int {
                width: Width::W1,
                signed: false,
            }),
        })
    }

    /// The type of the elements of blocks that hold these.
    pub fn get(&self, kind: BlockKind) -> &Ty
        requires there { (program : Program) × AreElementTypesOf program self.now × MayHold program (kind_of kind) }
        ensures found { (program : Program) → AreElementTypesOf program self.now → MayHold program (kind_of kind) → result.now ≡ element_type program (kind_of kind) }
    {
        match kind {
            BlockKind::Nodes(id) => &self.nodes[id.0 as usize],
            BlockKind::Pointers(id) => &self.pointers[id.0 as usize],
            BlockKind::Strings => &self.strings,
            BlockKind::Chars | BlockKind::Raw => &self.bytes,
        }
    }
}
