// Chain pointers.
ghost use Rattle.std.specs.Prelude.{◌≡◌, None, find};
ghost use Rattle.std.specs.Option.{option_copied};
ghost use Rattle.gt_types.specs.declared.types.Ty.TheVariants as ty;
ghost use Rattle.gt_types.specs.Settled.{Settled};
ghost use Rattle.gt_types.specs.Contains.{HasStructure};
ghost use Rattle.gt_layout.specs.Planes.{IsLaidOut};
ghost use Rattle.gt_layout.specs.Excess.{IsWithin};
ghost use Rattle.gt_edges.specs.Notes.{chain_offset, offset_to, leads_on};
ghost use Rattle.gt_tables.specs.Chains.{field_type, field_offset, LeadsByPlace};

use gt_layout::Layouts;
use gt_types::{Chain, ChainKind, Program, Structure, Ty, TypeId};

// The type of the field at a place in a structure.
fn field_type(program: &Program, node: TypeId, place: u32) -> Option<&Ty>
    ensures { option_copied result ≡ field_type program.now node place }
{
    let structure = program.structures.get(node.0 as usize)?;
    let field = structure.fields.get(place as usize)?;
    Some(&field.ty)
}

// The byte at which it begins.
fn field_offset(layouts: &Layouts, node: TypeId, place: u32) -> Option<u32>
    ensures { result ≡ field_offset layouts.now.structures node place }
{
    let plane = layouts.structures.get(node.0 as usize)?;
    let spot = plane.fields.get(place as usize)?;
    Some(spot.offset)
}

// Where the places of fields lead to, the first of them in a structure.
fn offset_to(program: &Program, layouts: &Layouts, node: TypeId, places: &[u32]) -> Option<u32>
    requires settled { Settled program.now }
    requires laid { IsLaidOut program.now layouts.now }
    requires within { IsWithin program.now layouts.now }
    requires leads { LeadsByPlace program.now node places.now }
    ensures offset { result ≡ offset_to program.now layouts.now.structures (ty.Node node None) places.now }
{
    let [place, rest @ ..] = places else {
        return Some(0);
    };
    let ty = field_type(program, node, *place)?;
    let offset = field_offset(layouts, node, *place)?;
    if rest.is_empty() {
        return Some(offset);
    }
    let Ty::Node { id, .. } = ty else {
        return None;
    };
    let inside = offset_to(program, layouts, *id, rest)?;
    Some(offset + inside)
}

// Whether a walk may follow a chain: not one that leads back.
fn leads_on(chain: &Chain) -> bool
    ensures { result ≡ leads_on chain.now.kind }
{
    match chain.kind {
        ChainKind::Next | ChainKind::Circular => true,
        ChainKind::Prev => false,
    }
}

// The first chain of a structure that leads on.
fn leading_chain(structure: &Structure) -> Option<&Chain>
    ensures { option_copied result ≡ find (λ c. leads_on c.kind) structure.now.chains }
{
    structure.chains.as_slice().iter().find(|c| leads_on(c))
}

// The offset of the chain pointer of a structure, which is that of its first chain that leads on.
pub fn chain_offset(
    program: &Program,
    layouts: &Layouts,
    node: TypeId,
    structure: &Structure,
) -> Option<u32>
    requires settled { Settled program.now }
    requires laid { IsLaidOut program.now layouts.now }
    requires within { IsWithin program.now layouts.now }
    requires there { HasStructure program.now node structure.now }
    ensures offset { result ≡ chain_offset program.now layouts.now.structures node structure.now }
{
    let chain = leading_chain(structure)?;
    offset_to(program, layouts, node, chain.path.as_slice())
}
