// Where a path leads in a heap.
ghost use Rattle.std.specs.Prelude.{◌≡◌, ℕ, List, ◌<◌, [], ◌∷◌, true, Some, Err, IfOk, OnOk, MatchOption};
ghost use Rattle.gt_types.specs.Shapes.{is_pointer};
ghost use Rattle.gt_tree.specs.Trees.{Null, To};
ghost use Rattle.gt_value.specs.declared.cursors.Cursor.{Cursor};
ghost use Rattle.gt_value.specs.Places.{Part};
ghost use Rattle.gt_value.specs.Cursors.{Frame};
ghost use Rattle.gt_graph.specs.Objects.{Object, object_of};
ghost use Rattle.gt_graph.specs.Changes.{Of};
ghost use Rattle.gt_graph.specs.Good.{Heap};
ghost use Rattle.gt_objects.specs.Holding.{IsHeapOf};
ghost use Rattle.gt_objects.specs.Knowing.{IsKnownAt};
ghost use Rattle.gt_script.specs.declared.command.Hop.TheVariants.{Name, Index};
ghost use Rattle.gt_elements.specs.Elements.{owner_of, IsElementAt};
ghost use Rattle.gt_next.specs.Spots.{spot};
ghost use Rattle.gt_next.specs.Paths.{Steps, RefusesStep, Walks, RefusesWalk};
ghost use Rattle.gt_schema.specs.Schemas.{IsSchema};
ghost use Rattle.gt_routes.specs.declared.steps.WalkFail.TheVariants.{Refused};
ghost use Rattle.gt_routes.specs.declared.reaching.End.TheVariants.{Value};
ghost use Rattle.gt_routes.specs.Steps.{StandsAt};
ghost use Rattle.gt_routes.specs.Reaching.{start_of, spot_of, IsStart, IsValueAt, IsEndAt, IsElementEnd, IsFirstBy, IsFirstIn, IsInElement, IsInFirst, EndsInFirst, LeadsWithin, StopsWithin, LeadsOn, StopsAt, holds_nodes};

use crate::hops::local_step;
use crate::steps::{Places, WalkFail, add_places};
use gt_elements::{Element, Owner, element_of};
use gt_next::Why;
use gt_objects::{Known, Objects};
use gt_schema::Schema;
use gt_script::Hop;
use gt_space::Space;
use gt_types::Ty;
use gt_value::{BlockKind, Cursor, LeafContent, read_leaf};
use std::alloc::Global;

/// Where a path starts: at the object at an address, or at the root at a place.
#[derive(Clone, Copy, Debug, PartialEq, Eq)]
pub enum Start {
    Object(u64),
    Root(u32),
}

/// What stands where a path leads: an object as a whole, or a value, at which a cursor stands.
#[derive(Clone, Copy)]
pub enum End<'a> {
    Object,
    Value(Cursor<'a>),
}

/// Where a path leads: into the static record or an object, and on by places in its value, from the outside in. `first` is the element
/// at the first of these places, where it is known already; a cursor at the end then stands in it.
#[derive(Drop)]
pub struct Reached<'a> {
    pub owner: Owner,
    pub first: Option<Element>,
    pub places: Places,
    pub end: End<'a>,
}

// Whether a type is that of a pointer.
fn is_pointer(ty: &Ty) -> bool
    ensures { result ≡ is_pointer ty.now }
{
    match ty {
        Ty::Str(_) | Ty::Ptr { .. } => true,
        Ty::Num(_) | Ty::Bits { .. } | Ty::Opaque { .. } => false,
        Ty::Node { .. } | Ty::Arr { .. } | Ty::Tail { .. } => false,
    }
}

// The address that a pointer holds; None where it is null.
fn target(space: &Space, at: &Cursor<'_>) -> Option<u64>
    requires stands { (frame : Frame) × (value : Part) × (path : List ℕ) × StandsAt frame value path at.now × (frame.space ≡ space.now) }
    requires pointer { is_pointer at.now.ty.now ≡ true }
    ensures target { (frame : Frame) (value : Part) (path : List ℕ) (here : StandsAt frame value path at.now) → frame.space ≡ space.now → MatchOption result (here.here.p.tree ≡ Null) (λ address. here.here.p.tree ≡ To address) }
{
    let Some(place) = at.leaf() else {
        return None;
    };
    match read_leaf(space, place) {
        LeafContent::To(address) => Some(address),
        LeafContent::Null => None,
        LeafContent::Num(_) => None,
    }
}

// Goes to the element at a place of an object of which this is known, and gives a cursor there. Where the path ends is left to the caller.
fn enter<'a>(
    schema: &'a Schema,
    objects: &'a Objects,
    reached: &mut Reached<'a>,
    address: u64,
    known: Known,
    place: u32,
) -> Result<Cursor<'a>, WalkFail>
    requires schema { IsSchema schema.now }
    requires ready { (heap : Heap) × IsHeapOf schema.now.program schema.now.layouts objects.now heap }
    requires known { (heap : Heap) → IsHeapOf schema.now.program schema.now.layouts objects.now heap → IsKnownAt heap.graph.objects address (Some known) }
    requires below { place < known.count }
    ensures cursor { IfOk result (λ at. (heap : Heap) → IsHeapOf schema.now.program schema.now.layouts objects.now heap → IsElementEnd schema.now.program schema.now.layouts objects.now heap address place at) }
    ensures spot { IfOk result (λ at. spot_of reached.new ≡ spot (Of address) (place ∷ [])) }
    ensures first { IfOk result (λ at. (heap : Heap) → IsHeapOf schema.now.program schema.now.layouts objects.now heap → IsFirstIn schema.now.program schema.now.layouts objects.now heap reached.new) }
    ensures inside { IfOk result (IsInFirst schema.now.program schema.now.layouts objects.now reached.new.first reached.new.places.items) }
    ensures refused { (why : Why) → ¬ (result ≡ Err (Refused why)) }
{
    let program = &schema.program;
    let layouts = &schema.layouts;
    let element = element_of(objects, program, layouts, address, known, place);
    let ty = schema.types.get(element.kind);
    let at = Cursor::at_element(
        program,
        layouts,
        objects.space(),
        ty,
        element.addr,
        element.capacity,
    );
    reached.places.clear();
    let Ok(()) = reached.places.push(place) else {
        return Err(WalkFail::Memory);
    };
    reached.owner = Owner::Object(address);
    reached.first = Some(element);
    Ok(at)
}

impl<'a> Reached<'a> {
    /// Where nothing leads yet: what `walk` begins with. It takes no memory.
    pub fn new(alloc: Global) -> Reached<'a> {
        Reached {
            owner: Owner::Statics,
            first: None,
            places: Places::new(alloc),
            end: End::Object,
        }
    }
}

// Where a path starts.
fn begin<'a>(
    schema: &'a Schema,
    objects: &'a Objects,
    start: Start,
    reached: &mut Reached<'a>,
) -> Result<(), WalkFail>
    requires schema { IsSchema schema.now }
    requires ready { (heap : Heap) × IsHeapOf schema.now.program schema.now.layouts objects.now heap }
    requires starts { (heap : Heap) → IsHeapOf schema.now.program schema.now.layouts objects.now heap → IsStart schema.now.program heap start }
    ensures start { OnOk result (spot_of reached.new ≡ start_of start) }
    ensures ends { OnOk result ((heap : Heap) → IsHeapOf schema.now.program schema.now.layouts objects.now heap → IsEndAt schema.now.program schema.now.layouts objects.now heap (spot_of reached.new) reached.new.end) }
    ensures first { OnOk result ((heap : Heap) → IsHeapOf schema.now.program schema.now.layouts objects.now heap → IsFirstIn schema.now.program schema.now.layouts objects.now heap reached.new) }
    ensures inside { OnOk result (EndsInFirst schema.now.program schema.now.layouts objects.now reached.new) }
    ensures refused { (why : Why) → ¬ (result ≡ Err (Refused why)) }
{
    reached.first = None;
    reached.places.clear();
    match start {
        Start::Object(address) => {
            reached.owner = Owner::Object(address);
            reached.end = End::Object;
            Ok(())
        }
        Start::Root(place) => {
            objects.sound();
            let space = objects.space();
            let Some(at) = Cursor::at_root(&schema.program, &schema.layouts, space, place) else {
                unreachable!()
            };
            let Ok(()) = reached.places.push(place) else {
                return Err(WalkFail::Memory);
            };
            reached.owner = Owner::Statics;
            reached.end = End::Value(at);
            Ok(())
        }
    }
}

// A step by a number in an object, to the element at this place.
fn index_step<'a>(
    schema: &'a Schema,
    objects: &'a Objects,
    reached: &mut Reached<'a>,
    address: u64,
    place: u64,
) -> Result<(), WalkFail>
    requires schema { IsSchema schema.now }
    requires ready { (heap : Heap) × IsHeapOf schema.now.program schema.now.layouts objects.now heap }
    requires there { (heap : Heap) → IsHeapOf schema.now.program schema.now.layouts objects.now heap → (o : Object) × (object_of heap.graph.objects address ≡ Some o) }
    ensures leads { OnOk result ((heap : Heap) → IsHeapOf schema.now.program schema.now.layouts objects.now heap → LeadsOn schema.now.program schema.now.layouts objects.now heap (spot (Of address) []) (Index place) reached.new) }
    ensures first { OnOk result ((heap : Heap) → IsHeapOf schema.now.program schema.now.layouts objects.now heap → IsFirstIn schema.now.program schema.now.layouts objects.now heap reached.new) }
    ensures inside { OnOk result (EndsInFirst schema.now.program schema.now.layouts objects.now reached.new) }
    ensures refused { (why : Why) → result ≡ Err (Refused why) → (heap : Heap) → IsHeapOf schema.now.program schema.now.layouts objects.now heap → StopsAt schema.now.program heap (spot (Of address) []) (Index place) why }
{
    let Some(known) = objects.known(address) else {
        unreachable!()
    };
    if place >= known.count as u64 {
        return Err(WalkFail::Refused(Why::BadIndex));
    }
    match enter(schema, objects, reached, address, known, place as u32) {
        Ok(at) => {
            reached.end = End::Value(at);
            Ok(())
        }
        Err(stop) => Err(stop),
    }
}

// A step in the value at which a path stands. The places of the step are added to those of the path.
fn value_step<'a>(
    schema: &'a Schema,
    objects: &'a Objects,
    reached: &mut Reached<'a>,
    at: &Cursor<'a>,
    hop: &Hop,
) -> Result<(), WalkFail>
    requires schema { IsSchema schema.now }
    requires ready { (heap : Heap) × IsHeapOf schema.now.program schema.now.layouts objects.now heap }
    requires stands { (heap : Heap) → IsHeapOf schema.now.program schema.now.layouts objects.now heap → IsValueAt schema.now.program schema.now.layouts objects.now heap (spot_of reached.old) at.now }
    requires first { (heap : Heap) → IsHeapOf schema.now.program schema.now.layouts objects.now heap → IsFirstIn schema.now.program schema.now.layouts objects.now heap reached.old }
    requires inside { IsInFirst schema.now.program schema.now.layouts objects.now reached.old.first reached.old.places.items at.now }
    ensures leads { OnOk result ((heap : Heap) → IsHeapOf schema.now.program schema.now.layouts objects.now heap → LeadsWithin schema.now.program schema.now.layouts objects.now heap (spot_of reached.old) hop.now reached.new) }
    ensures first { OnOk result ((heap : Heap) → IsHeapOf schema.now.program schema.now.layouts objects.now heap → IsFirstIn schema.now.program schema.now.layouts objects.now heap reached.new) }
    ensures inside { OnOk result (EndsInFirst schema.now.program schema.now.layouts objects.now reached.new) }
    ensures refused { (why : Why) → result ≡ Err (Refused why) → (heap : Heap) → IsHeapOf schema.now.program schema.now.layouts objects.now heap → StopsWithin schema.now.program heap (spot_of reached.old) hop.now why }
{
    let step = match local_step(&schema.program, &schema.layouts, &schema.fields, at, hop) {
        Ok(step) => step,
        Err(why) => return Err(WalkFail::Refused(why)),
    };
    let Ok(()) = add_places(&mut reached.places, &step) else {
        return Err(WalkFail::Memory);
    };
    reached.end = End::Value(step.at);
    Ok(())
}

// Whether a block holds structures.
fn holds_nodes(kind: BlockKind) -> bool
    ensures { result ≡ holds_nodes kind }
{
    matches!(kind, BlockKind::Nodes(_))
}

// A step by a name in an object of one structure: it is a step in this structure. In another object it is refused.
fn single_step<'a>(
    schema: &'a Schema,
    objects: &'a Objects,
    reached: &mut Reached<'a>,
    address: u64,
    hop: &Hop,
) -> Result<(), WalkFail>
    requires schema { IsSchema schema.now }
    requires ready { (heap : Heap) × IsHeapOf schema.now.program schema.now.layouts objects.now heap }
    requires name { (name : List ℕ) × (hop.now ≡ Name name) }
    requires there { (heap : Heap) → IsHeapOf schema.now.program schema.now.layouts objects.now heap → (o : Object) × (object_of heap.graph.objects address ≡ Some o) }
    ensures leads { OnOk result ((heap : Heap) → IsHeapOf schema.now.program schema.now.layouts objects.now heap → LeadsOn schema.now.program schema.now.layouts objects.now heap (spot (Of address) []) hop.now reached.new) }
    ensures first { OnOk result ((heap : Heap) → IsHeapOf schema.now.program schema.now.layouts objects.now heap → IsFirstIn schema.now.program schema.now.layouts objects.now heap reached.new) }
    ensures inside { OnOk result (EndsInFirst schema.now.program schema.now.layouts objects.now reached.new) }
    ensures refused { (why : Why) → result ≡ Err (Refused why) → (heap : Heap) → IsHeapOf schema.now.program schema.now.layouts objects.now heap → StopsAt schema.now.program heap (spot (Of address) []) hop.now why }
{
    let Some(known) = objects.known(address) else {
        unreachable!()
    };
    if known.count != 1 {
        return Err(WalkFail::Refused(Why::WrongType));
    }
    if !holds_nodes(known.kind) {
        return Err(WalkFail::Refused(Why::WrongType));
    }
    match enter(schema, objects, reached, address, known, 0) {
        Ok(at) => value_step(schema, objects, reached, &at, hop),
        Err(stop) => Err(stop),
    }
}

// A step from an object as a whole.
fn object_step<'a>(
    schema: &'a Schema,
    objects: &'a Objects,
    reached: &mut Reached<'a>,
    address: u64,
    hop: &Hop,
) -> Result<(), WalkFail>
    requires schema { IsSchema schema.now }
    requires ready { (heap : Heap) × IsHeapOf schema.now.program schema.now.layouts objects.now heap }
    requires there { (heap : Heap) → IsHeapOf schema.now.program schema.now.layouts objects.now heap → (o : Object) × (object_of heap.graph.objects address ≡ Some o) }
    ensures leads { OnOk result ((heap : Heap) → IsHeapOf schema.now.program schema.now.layouts objects.now heap → LeadsOn schema.now.program schema.now.layouts objects.now heap (spot (Of address) []) hop.now reached.new) }
    ensures first { OnOk result ((heap : Heap) → IsHeapOf schema.now.program schema.now.layouts objects.now heap → IsFirstIn schema.now.program schema.now.layouts objects.now heap reached.new) }
    ensures inside { OnOk result (EndsInFirst schema.now.program schema.now.layouts objects.now reached.new) }
    ensures refused { (why : Why) → result ≡ Err (Refused why) → (heap : Heap) → IsHeapOf schema.now.program schema.now.layouts objects.now heap → StopsAt schema.now.program heap (spot (Of address) []) hop.now why }
{
    match hop {
        Hop::Index(place) => index_step(schema, objects, reached, address, *place),
        Hop::Name(_) => single_step(schema, objects, reached, address, hop),
    }
}

// One step from where a path stands, which then stands where the step leads. At a pointer it begins at the object that this names.
fn step<'a>(
    schema: &'a Schema,
    objects: &'a Objects,
    reached: &mut Reached<'a>,
    hop: &Hop,
) -> Result<(), WalkFail>
    requires schema { IsSchema schema.now }
    requires ready { (heap : Heap) × IsHeapOf schema.now.program schema.now.layouts objects.now heap }
    requires stands { (heap : Heap) → IsHeapOf schema.now.program schema.now.layouts objects.now heap → IsEndAt schema.now.program schema.now.layouts objects.now heap (spot_of reached.old) reached.old.end }
    requires first { (heap : Heap) → IsHeapOf schema.now.program schema.now.layouts objects.now heap → IsFirstIn schema.now.program schema.now.layouts objects.now heap reached.old }
    requires inside { EndsInFirst schema.now.program schema.now.layouts objects.now reached.old }
    ensures leads { OnOk result ((heap : Heap) → IsHeapOf schema.now.program schema.now.layouts objects.now heap → Steps schema.now.program heap.graph (spot_of reached.old) hop.now (spot_of reached.new)) }
    ensures ends { OnOk result ((heap : Heap) → IsHeapOf schema.now.program schema.now.layouts objects.now heap → IsEndAt schema.now.program schema.now.layouts objects.now heap (spot_of reached.new) reached.new.end) }
    ensures first { OnOk result ((heap : Heap) → IsHeapOf schema.now.program schema.now.layouts objects.now heap → IsFirstIn schema.now.program schema.now.layouts objects.now heap reached.new) }
    ensures inside { OnOk result (EndsInFirst schema.now.program schema.now.layouts objects.now reached.new) }
    ensures refused { (why : Why) → result ≡ Err (Refused why) → (heap : Heap) → IsHeapOf schema.now.program schema.now.layouts objects.now heap → RefusesStep schema.now.program heap.graph (spot_of reached.old) hop.now why }
{
    let at = match reached.end {
        End::Value(at) => at,
        End::Object => {
            let Owner::Object(address) = reached.owner else {
                unreachable!()
            };
            return object_step(schema, objects, reached, address, hop);
        }
    };
    if !is_pointer(at.ty()) {
        return value_step(schema, objects, reached, &at, hop);
    }
    match target(objects.space(), &at) {
        Some(address) => object_step(schema, objects, reached, address, hop),
        None => Err(WalkFail::Refused(Why::NullStep)),
    }
}

/// Takes some steps from a start, and leaves in `reached` where they lead: at a pointer a step first goes to the object that it names. It is
/// refused at the first step that does not lead on. Its time grows with the steps.
pub fn walk<'a>(
    alloc: Global,
    schema: &'a Schema,
    objects: &'a Objects,
    start: Start,
    steps: &gt_script::Steps,
    reached: &mut Reached<'a>,
) -> Result<(), WalkFail>
    requires schema { IsSchema schema.now }
    requires ready { (heap : Heap) × IsHeapOf schema.now.program schema.now.layouts objects.now heap }
    requires starts { (heap : Heap) → IsHeapOf schema.now.program schema.now.layouts objects.now heap → IsStart schema.now.program heap start }
    ensures leads { OnOk result ((heap : Heap) → IsHeapOf schema.now.program schema.now.layouts objects.now heap → Walks schema.now.program heap.graph (start_of start) steps.now (spot_of reached.new)) }
    ensures ends { OnOk result ((heap : Heap) → IsHeapOf schema.now.program schema.now.layouts objects.now heap → IsEndAt schema.now.program schema.now.layouts objects.now heap (spot_of reached.new) reached.new.end) }
    ensures first { OnOk result ((heap : Heap) → IsHeapOf schema.now.program schema.now.layouts objects.now heap → IsFirstIn schema.now.program schema.now.layouts objects.now heap reached.new) }
    ensures inside { OnOk result (EndsInFirst schema.now.program schema.now.layouts objects.now reached.new) }
    ensures refused { (why : Why) → result ≡ Err (Refused why) → (heap : Heap) → IsHeapOf schema.now.program schema.now.layouts objects.now heap → RefusesWalk schema.now.program heap.graph (start_of start) steps.now why }
{
    begin(schema, objects, start, reached)?;
    let mut hops = steps.hops();
    'steps: loop {
        let Ok(first) = hops.take_first(alloc) else {
            return Err(WalkFail::Memory);
        };
        let Some(hop) = first else {
            return Ok(());
        };
        match step(schema, objects, reached, &hop) {
            Ok(()) => {}
            Err(stop) => return Err(stop),
        }
    }
}
