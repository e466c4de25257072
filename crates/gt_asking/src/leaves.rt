// Which leaves may be written at the end of a path.
ghost use Rattle.std.specs.Prelude.{◌≡◌, ◌&&◌, List, Some, None, Ok, Err, IfOk, not, option_map};
ghost use Rattle.std.specs.Bool.{Decides};
ghost use Rattle.gt_types.specs.declared.program.Program.{Program};
ghost use Rattle.gt_types.specs.Shapes.{is_pointer};
ghost use Rattle.gt_layout.specs.declared.planes.Layouts.{Layouts};
ghost use Rattle.gt_tree.specs.Blocks.{Chars};
ghost use Rattle.gt_value.specs.Names.{kind_of};
ghost use Rattle.gt_graph.specs.Objects.{Object};
ghost use Rattle.gt_graph.specs.Good.{Heap};
ghost use Rattle.gt_objects.specs.Holding.{IsHeapOf};
ghost use Rattle.gt_objects.specs.declared.objects.Objects.{Objects};
ghost use Rattle.gt_elements.specs.Elements.{owner_of};
ghost use Rattle.gt_next.specs.Spots.{Spot};
ghost use Rattle.gt_next.specs.Leaves.{takes_numbers, is_in_range, kind_named};
ghost use Rattle.gt_next.specs.declared.answer.Why.{Why};
ghost use Rattle.gt_routes.specs.Reaching.{spot_of, IsEndAt, IsFirstIn, EndsInFirst, IsValueAt};
ghost use Rattle.gt_schema.specs.Schemas.{IsSchema};
ghost use Rattle.gt_writes.specs.declared.found.Found.{Found};
ghost use Rattle.gt_writes.specs.FoundLeaves.{IsFoundAt};
ghost use Rattle.gt_writes.specs.SpotWrites.{SpotTakes};
ghost use Rattle.gt_asking.specs.Judging.{is_beyond, is_idle, IsFixedIn, IsLeafTold, IsNamed, SuitsAs, RefusesLeaf};

use gt_elements::{Element, Owner};
use gt_fit::{has_room, number_fits};
use gt_next::Why;
use gt_objects::Objects;
use gt_routes::{End, Reached};
use gt_schema::Schema;
use gt_types::{PtrKind, Target as Named, Ty};
use gt_value::{BlockKind, Cursor, LeafContent, Place};
use gt_writes::{Found, Target};

// ---- types

// Whether a type is that of a pointer.
fn is_pointer(ty: &Ty) -> bool
    ensures { result ≡ is_pointer ty.now }
{
    match ty {
        Ty::Str(_) | Ty::Ptr { .. } => true,
        Ty::Num(_) | Ty::Bits { .. } | Ty::Opaque { .. } => false,
        Ty::Node { .. } | Ty::Arr { .. } | Ty::Tail { .. } => false,
    }
}

// Whether a value of a type is one number.
fn takes_numbers(ty: &Ty) -> bool
    ensures { result ≡ takes_numbers ty.now }
{
    match ty {
        Ty::Num(_) | Ty::Bits { .. } => true,
        Ty::Opaque { size, .. } => *size == 8,
        Ty::Str(_) | Ty::Ptr { .. } => false,
        Ty::Node { .. } | Ty::Arr { .. } | Ty::Tail { .. } => false,
    }
}

// Whether a number is in the range of a type.
fn is_in_range(ty: &Ty, n: i128) -> bool
    ensures { result ≡ is_in_range ty.now n }
{
    match ty {
        Ty::Opaque { .. } => has_room(true, 64, n),
        Ty::Num(_) | Ty::Bits { .. } => number_fits(ty, n),
        Ty::Str(_) | Ty::Ptr { .. } => number_fits(ty, n),
        Ty::Node { .. } | Ty::Arr { .. } | Ty::Tail { .. } => number_fits(ty, n),
    }
}

// What a block holds that a pointer of a type names by its declaration.
fn kind_named(ty: &Ty) -> Option<BlockKind>
    ensures { option_map kind_of result ≡ kind_named ty.now }
{
    match ty {
        Ty::Str(_) => Some(BlockKind::Chars),
        Ty::Ptr { target, kind, .. } => match target {
            Some(Named::Node(node)) => Some(BlockKind::Nodes(*node)),
            Some(Named::Pointers(node)) => Some(BlockKind::Pointers(*node)),
            Some(Named::Strings) => Some(BlockKind::Strings),
            None => match kind {
                PtrKind::Atomic => Some(BlockKind::Raw),
                PtrKind::Plain | PtrKind::Length(_) | PtrKind::Undef => None,
            },
        },
        Ty::Num(_) | Ty::Bits { .. } | Ty::Opaque { .. } => None,
        Ty::Node { .. } | Ty::Arr { .. } | Ty::Tail { .. } => None,
    }
}

// Whether a pointer of a type names blocks that hold this.
fn names_kind(ty: &Ty, kind: BlockKind) -> bool
    ensures { Decides result (kind_named ty.now ≡ Some (kind_of kind)) }
{
    match kind_named(ty) {
        Some(named) => named == kind,
        None => false,
    }
}

// ---- leaves

// Whether a number is beyond the range of a type.
fn is_beyond(ty: &Ty, leaf: LeafContent) -> bool
    ensures { result ≡ is_beyond ty.now leaf }
{
    match leaf {
        LeafContent::Num(n) => !is_in_range(ty, n),
        LeafContent::Null | LeafContent::To(_) => false,
    }
}

// Whether a block holds the characters of a string.
fn is_chars(kind: BlockKind) -> bool
    ensures { Decides result (kind_of kind ≡ Chars) }
{
    matches!(kind, BlockKind::Chars)
}

// Whether a path leads into the characters of a string, which never change.
fn is_fixed(schema: &Schema, objects: &Objects, to: &Reached<'_>) -> bool
    requires ready { (heap : Heap) × IsHeapOf schema.now.program schema.now.layouts objects.now heap }
    requires first { (heap : Heap) → IsHeapOf schema.now.program schema.now.layouts objects.now heap → IsFirstIn schema.now.program schema.now.layouts objects.now heap to.now }
    ensures fixed { (heap : Heap) → IsHeapOf schema.now.program schema.now.layouts objects.now heap → Decides result (IsFixedIn heap (owner_of to.now.owner)) }
{
    if let Some(element) = to.first {
        return is_chars(element.kind);
    }
    match to.owner {
        Owner::Statics => false,
        Owner::Object(addr) => match objects.known(addr) {
            Some(known) => is_chars(known.kind),
            None => false,
        },
    }
}

// What is known of the object that a leaf names.
fn target_of(objects: &Objects, leaf: LeafContent) -> Option<Target>
    requires ready { (program : Program) × (layouts : Layouts) × (heap : Heap) × IsHeapOf program layouts objects.now heap }
    ensures named { (program : Program) (layouts : Layouts) (heap : Heap) → IsHeapOf program layouts objects.now heap → IsNamed heap.graph.objects leaf result }
{
    match leaf {
        LeafContent::To(addr) => match objects.known(addr) {
            Some(known) => Some(Target { addr, known }),
            None => None,
        },
        LeafContent::Num(_) | LeafContent::Null => None,
    }
}

// Whether a leaf suits a type, but for the range of a number, where this is known of the object that it names.
fn suits(ty: &Ty, leaf: LeafContent, target: Option<Target>) -> bool
    ensures suits { (objects : List Object) → IsNamed objects leaf target → Decides result (SuitsAs objects ty.now leaf) }
{
    match leaf {
        LeafContent::Num(_) => takes_numbers(ty),
        LeafContent::Null => is_pointer(ty),
        LeafContent::To(_) => match target {
            Some(target) => names_kind(ty, target.known.kind),
            None => false,
        },
    }
}

// Whether a place is that of a pointer, and not active.
fn is_idle_if(pointer: bool, active: bool) -> bool
    ensures { result ≡ (pointer && not active) }
{
    pointer && !active
}

// Whether a pointer lies in a common structure while no member of its union is active, where this is told of its place.
fn is_idle(at: &Cursor<'_>, place: Option<Place>) -> bool
    requires told { IsLeafTold at.now place }
    ensures idle { (program : Program) (layouts : Layouts) (objects : Objects) (heap : Heap) (there : Spot) → IsValueAt program layouts objects heap there at.now → result ≡ is_idle heap there at.now.ty.now }
{
    match place {
        Some(place) => is_idle_if(is_pointer(at.ty()), place.active),
        None => false,
    }
}

// Where a leaf was found, if the element is known in which it lies.
fn found_in(first: Option<Element>, place: Option<Place>, target: Option<Target>) -> Option<Found>
    ensures found { (f : Found) → result ≡ Some f → (first ≡ Some f.element) × (place ≡ Some f.place) × (target ≡ f.target) }
{
    match (first, place) {
        (Some(element), Some(place)) => Some(Found {
            element,
            place,
            target,
        }),
        _ => None,
    }
}

/// Whether a leaf may be written where a path leads, and where it lies then, if the element is known in which it does; or why it may not.
pub fn judge(
    schema: &Schema,
    objects: &Objects,
    to: &Reached<'_>,
    leaf: LeafContent,
) -> Result<Option<Found>, Why>
    requires schema { IsSchema schema.now }
    requires ready { (heap : Heap) × IsHeapOf schema.now.program schema.now.layouts objects.now heap }
    requires end { (heap : Heap) → IsHeapOf schema.now.program schema.now.layouts objects.now heap → IsEndAt schema.now.program schema.now.layouts objects.now heap (spot_of to.now) to.now.end }
    requires first { (heap : Heap) → IsHeapOf schema.now.program schema.now.layouts objects.now heap → IsFirstIn schema.now.program schema.now.layouts objects.now heap to.now }
    requires inside { EndsInFirst schema.now.program schema.now.layouts objects.now to.now }
    ensures takes { IfOk result (λ found. (heap : Heap) → IsHeapOf schema.now.program schema.now.layouts objects.now heap → SpotTakes schema.now.program heap.graph (spot_of to.now) leaf) }
    ensures found { IfOk result (λ found. (f : Found) → found ≡ Some f → (heap : Heap) → IsHeapOf schema.now.program schema.now.layouts objects.now heap → IsFoundAt schema.now.program schema.now.layouts objects.now heap (owner_of to.now.owner) to.now.places.items f) }
    ensures refused { (why : Why) → result ≡ Err why → (heap : Heap) → IsHeapOf schema.now.program schema.now.layouts objects.now heap → RefusesLeaf schema.now.program heap (spot_of to.now) leaf why }
{
    let at = match &to.end {
        End::Object => return Err(Why::WrongType),
        End::Value(at) => at,
    };
    let place = at.leaf();
    if is_idle(at, place) {
        return Err(Why::Inactive);
    }
    if is_fixed(schema, objects, to) {
        return Err(Why::WrongType);
    }
    let target = target_of(objects, leaf);
    if !suits(at.ty(), leaf, target) {
        return Err(Why::WrongType);
    }
    if is_beyond(at.ty(), leaf) {
        return Err(Why::OutOfRange);
    }
    Ok(found_in(to.first, place, target))
}
