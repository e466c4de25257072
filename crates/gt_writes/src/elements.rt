// A leaf of an object, written.
ghost use Rattle.std.specs.Prelude.{◌≡◌, ◌∷◌, Some, Err, OnOk, OnErr};
ghost use Rattle.gt_tree.specs.Trees.{Tree};
ghost use Rattle.gt_leaf.specs.declared.writing.LeafVerdict.TheVariants as LeafVerdict;
ghost use Rattle.gt_leaf.specs.declared.writing.LeafVerdict.TheVariants.{InPlace};
ghost use Rattle.gt_value.specs.declared.places.Place.{Place};
ghost use Rattle.gt_value.specs.Places.{IsContentOf};
ghost use Rattle.gt_value.specs.Bytes.{IsElement, IsRoomFor};
ghost use Rattle.gt_value.specs.Values.{tree_of};
ghost use Rattle.gt_value.specs.declared.values.ValueFail.TheVariants.{Shape};
ghost use Rattle.gt_elements.specs.Elements.{IsElementAt};
ghost use Rattle.gt_graph.specs.Changes.{Of};
ghost use Rattle.gt_graph.specs.Good.{Heap};
ghost use Rattle.gt_objects.specs.Holding.{IsHeapOf};
ghost use Rattle.gt_next.specs.Spots.{spot};
ghost use Rattle.gt_schema.specs.Schemas.{IsSchema};
ghost use Rattle.gt_writes.specs.SpotWrites.{SpotTakes, IsWrittenAt, MisfitsAt};
ghost use Rattle.gt_writes.specs.declared.found.Found.{Found};
ghost use Rattle.gt_writes.specs.declared.found.Target.{Target};
ghost use Rattle.gt_writes.specs.FoundLeaves.{IsTarget, LeafLiesAt, LiesInElement};
ghost use Rattle.gt_writes.specs.Rewriting.{IsElementRewritten, StandsIn, ElementMisfits, MayPutIn, IsInActive};

use crate::found::{Found, Target};
use crate::leaves::{is_word_at, leaf_value, only_active};
use crate::names::NamesBeside;
use gt_assign::assign;
use gt_elements::{Element, Names, element};
use gt_leaf::{LeafVerdict, judge_leaf, judge_leaf_at};
use gt_objects::Objects;
use gt_schema::Schema;
use gt_types::Ty;
use gt_value::{LeafContent, Place, Value, ValueFail, read};
use std::alloc::Global;

// Writes an element anew: what the write of a leaf makes of it.
fn rewrite_element(
    alloc: Global,
    schema: &Schema,
    objects: &mut Objects,
    element: Element,
    ty: &Ty,
    path: &[u32],
    leaf: Value,
) -> Result<(), ValueFail>
    requires schema { IsSchema schema.now }
    requires ready { (heap : Heap) × IsHeapOf schema.now.program schema.now.layouts objects.old heap }
    requires element { IsElement schema.now.program ty.now }
    requires inside { IsRoomFor schema.now.program schema.now.layouts element.capacity ty.now objects.old.space element.addr }
    requires stands { (heap : Heap) → IsHeapOf schema.now.program schema.now.layouts objects.old heap → (value : Tree) × StandsIn schema.now.program schema.now.layouts heap element.capacity ty.now objects.old.space element.addr value }
    ensures written { OnOk result ((heap : Heap) (value : Tree) → IsHeapOf schema.now.program schema.now.layouts objects.old heap → StandsIn schema.now.program schema.now.layouts heap element.capacity ty.now objects.old.space element.addr value
        → IsElementRewritten schema.now.program schema.now.layouts heap element.capacity ty.now element.addr value path.now (tree_of leaf) objects.old.space objects.new.space) }
    ensures rest { OnOk result (objects.new ≡ record objects.old { space = objects.new.space }) }
    ensures shape { result ≡ Err Shape → (heap : Heap) (value : Tree) → IsHeapOf schema.now.program schema.now.layouts objects.old heap → StandsIn schema.now.program schema.now.layouts heap element.capacity ty.now objects.old.space element.addr value
        → ElementMisfits schema.now.program heap element.capacity ty.now value path.now (tree_of leaf) }
    ensures unchanged { OnErr result (objects.new ≡ objects.old) }
{
    let program = &schema.program;
    let layouts = &schema.layouts;
    let Element { addr, capacity, .. } = element;
    let old = read(alloc, program, layouts, objects.space(), ty, addr, capacity)?;
    let names = Names::of(objects);
    let new = match assign(
        alloc, program, layouts, ty, capacity, old, path, leaf, &names,
    ) {
        Ok(new) => new,
        Err(fail) => return Err(fail),
    };
    objects.store(program, layouts, ty, addr, capacity, &new);
    Ok(())
}

// Judges the write of the leaf at a path of an element before it is done. Where a union around it has no active member, it is not
// written in place: what the type of its field says is then not what lies there.
fn judge_sought(
    schema: &Schema,
    objects: &Objects,
    element: Element,
    ty: &Ty,
    path: &[u32],
    leaf: LeafContent,
) -> LeafVerdict
    requires schema { IsSchema schema.now }
    requires ready { (heap : Heap) × IsHeapOf schema.now.program schema.now.layouts objects.now heap }
    requires element { IsElement schema.now.program ty.now }
    requires inside { IsRoomFor schema.now.program schema.now.layouts element.capacity ty.now objects.now.space element.addr }
    requires stands { (heap : Heap) → IsHeapOf schema.now.program schema.now.layouts objects.now heap → (value : Tree) × StandsIn schema.now.program schema.now.layouts heap element.capacity ty.now objects.now.space element.addr value }
    ensures in_place { (place : Place) → result ≡ InPlace place → (heap : Heap) (value : Tree) → IsHeapOf schema.now.program schema.now.layouts objects.now heap → StandsIn schema.now.program schema.now.layouts heap element.capacity ty.now objects.now.space element.addr value
        → MayPutIn schema.now.program schema.now.layouts heap element.capacity ty.now element.addr value path.now leaf objects.now.space place }
    ensures active { (place : Place) → result ≡ InPlace place → IsInActive place leaf }
    ensures misfit { result ≡ LeafVerdict.Misfit → (heap : Heap) (value tree : Tree) → IsHeapOf schema.now.program schema.now.layouts objects.now heap → StandsIn schema.now.program schema.now.layouts heap element.capacity ty.now objects.now.space element.addr value
        → IsContentOf leaf tree → ElementMisfits schema.now.program heap element.capacity ty.now value path.now tree }
{
    let Element { addr, capacity, .. } = element;
    let names = Names::of(objects);
    let verdict = judge_leaf(
        &schema.program,
        &schema.layouts,
        &schema.reads,
        &names,
        objects.space(),
        ty,
        addr,
        capacity,
        path,
        leaf,
    );
    only_active(verdict, leaf)
}

// The same where the place of the leaf is known.
fn judge_found(
    schema: &Schema,
    objects: &Objects,
    element: Element,
    ty: &Ty,
    path: &[u32],
    place: Place,
    target: Option<Target>,
    leaf: LeafContent,
) -> LeafVerdict
    requires schema { IsSchema schema.now }
    requires ready { (heap : Heap) × IsHeapOf schema.now.program schema.now.layouts objects.now heap }
    requires element { IsElement schema.now.program ty.now }
    requires inside { IsRoomFor schema.now.program schema.now.layouts element.capacity ty.now objects.now.space element.addr }
    requires stands { (heap : Heap) → IsHeapOf schema.now.program schema.now.layouts objects.now heap → (value : Tree) × StandsIn schema.now.program schema.now.layouts heap element.capacity ty.now objects.now.space element.addr value }
    requires place { LeafLiesAt schema.now.program schema.now.layouts element.capacity ty.now objects.now.space element.addr path.now place }
    requires target { (t : Target) → target ≡ Some t → (heap : Heap) → IsHeapOf schema.now.program schema.now.layouts objects.now heap → IsTarget heap.graph.objects t }
    ensures in_place { (other : Place) → result ≡ InPlace other → (heap : Heap) (value : Tree) → IsHeapOf schema.now.program schema.now.layouts objects.now heap → StandsIn schema.now.program schema.now.layouts heap element.capacity ty.now objects.now.space element.addr value
        → MayPutIn schema.now.program schema.now.layouts heap element.capacity ty.now element.addr value path.now leaf objects.now.space other }
    ensures active { (other : Place) → result ≡ InPlace other → IsInActive other leaf }
    ensures misfit { result ≡ LeafVerdict.Misfit → (heap : Heap) (value tree : Tree) → IsHeapOf schema.now.program schema.now.layouts objects.now heap → StandsIn schema.now.program schema.now.layouts heap element.capacity ty.now objects.now.space element.addr value
        → IsContentOf leaf tree → ElementMisfits schema.now.program heap element.capacity ty.now value path.now tree }
{
    let _ = element;
    let names = NamesBeside::of(objects, target);
    let verdict = judge_leaf_at(
        &schema.program,
        &schema.reads,
        &names,
        ty,
        path,
        place,
        leaf,
    );
    only_active(verdict, leaf)
}

// Judges the write of the leaf at a path of an element, of which the place may be known.
fn judge_element(
    schema: &Schema,
    objects: &Objects,
    element: Element,
    ty: &Ty,
    path: &[u32],
    found: Option<Found>,
    leaf: LeafContent,
) -> LeafVerdict
    requires schema { IsSchema schema.now }
    requires ready { (heap : Heap) × IsHeapOf schema.now.program schema.now.layouts objects.now heap }
    requires element { IsElement schema.now.program ty.now }
    requires inside { IsRoomFor schema.now.program schema.now.layouts element.capacity ty.now objects.now.space element.addr }
    requires stands { (heap : Heap) → IsHeapOf schema.now.program schema.now.layouts objects.now heap → (value : Tree) × StandsIn schema.now.program schema.now.layouts heap element.capacity ty.now objects.now.space element.addr value }
    requires found { (f : Found) → found ≡ Some f → LeafLiesAt schema.now.program schema.now.layouts element.capacity ty.now objects.now.space element.addr path.now f.place }
    requires target { (f : Found) → found ≡ Some f → (t : Target) → f.target ≡ Some t → (heap : Heap) → IsHeapOf schema.now.program schema.now.layouts objects.now heap → IsTarget heap.graph.objects t }
    ensures in_place { (place : Place) → result ≡ InPlace place → (heap : Heap) (value : Tree) → IsHeapOf schema.now.program schema.now.layouts objects.now heap → StandsIn schema.now.program schema.now.layouts heap element.capacity ty.now objects.now.space element.addr value
        → MayPutIn schema.now.program schema.now.layouts heap element.capacity ty.now element.addr value path.now leaf objects.now.space place }
    ensures active { (place : Place) → result ≡ InPlace place → IsInActive place leaf }
    ensures misfit { result ≡ LeafVerdict.Misfit → (heap : Heap) (value tree : Tree) → IsHeapOf schema.now.program schema.now.layouts objects.now heap → StandsIn schema.now.program schema.now.layouts heap element.capacity ty.now objects.now.space element.addr value
        → IsContentOf leaf tree → ElementMisfits schema.now.program heap element.capacity ty.now value path.now tree }
{
    match found {
        Some(there) => judge_found(
            schema,
            objects,
            element,
            ty,
            path,
            there.place,
            there.target,
            leaf,
        ),
        None => judge_sought(schema, objects, element, ty, path, leaf),
    }
}

// The element at a place of the object at an address: the one in which the leaf was found, or the one that is there.
fn find_element(
    schema: &Schema,
    objects: &Objects,
    addr: u64,
    place: u32,
    found: Option<Found>,
) -> Option<Element>
    requires schema { IsSchema schema.now }
    requires ready { (heap : Heap) × IsHeapOf schema.now.program schema.now.layouts objects.now heap }
    requires found { (f : Found) → found ≡ Some f → (heap : Heap) → IsHeapOf schema.now.program schema.now.layouts objects.now heap → IsElementAt schema.now.program schema.now.layouts heap objects.now.space addr place (Some f.element) }
    ensures element { (heap : Heap) → IsHeapOf schema.now.program schema.now.layouts objects.now heap → IsElementAt schema.now.program schema.now.layouts heap objects.now.space addr place result }
    ensures same { (f : Found) → found ≡ Some f → result ≡ Some f.element }
{
    match found {
        Some(there) => Some(there.element),
        None => element(objects, &schema.program, &schema.layouts, addr, place),
    }
}

/// Writes the leaf at a place and a path in the object at an address. `Shape` says that no value fits with it. At an error nothing changes.
pub fn write_in_object(
    alloc: Global,
    schema: &Schema,
    objects: &mut Objects,
    addr: u64,
    place: u32,
    rest: &[u32],
    found: Option<Found>,
    leaf: LeafContent,
) -> Result<(), ValueFail>
    requires schema { IsSchema schema.now }
    requires ready { (heap : Heap) × IsHeapOf schema.now.program schema.now.layouts objects.old heap }
    requires may { (heap : Heap) → IsHeapOf schema.now.program schema.now.layouts objects.old heap → SpotTakes schema.now.program heap.graph (spot (Of addr) (place ∷ rest.now)) leaf }
    requires found { (f : Found) → found ≡ Some f → (heap : Heap) → IsHeapOf schema.now.program schema.now.layouts objects.old heap → IsElementAt schema.now.program schema.now.layouts heap objects.old.space addr place (Some f.element) }
    requires lies { (f : Found) → found ≡ Some f → LiesInElement schema.now.program schema.now.layouts objects.old.space f.element rest.now f.place }
    requires target { (f : Found) → found ≡ Some f → (t : Target) → f.target ≡ Some t → (heap : Heap) → IsHeapOf schema.now.program schema.now.layouts objects.old heap → IsTarget heap.graph.objects t }
    ensures written { OnOk result ((heap : Heap) → IsHeapOf schema.now.program schema.now.layouts objects.old heap → IsWrittenAt schema.now.program schema.now.layouts heap (Of addr) (place ∷ rest.now) leaf objects.new) }
    ensures shape { result ≡ Err Shape → (heap : Heap) → IsHeapOf schema.now.program schema.now.layouts objects.old heap → MisfitsAt schema.now.program heap (Of addr) (place ∷ rest.now) leaf }
    ensures unchanged { OnErr result (objects.new ≡ objects.old) }
{
    objects.sound();
    let Some(here) = find_element(schema, objects, addr, place, found) else {
        return Err(ValueFail::Shape);
    };
    let ty = schema.types.get(here.kind);
    match judge_element(schema, objects, here, ty, rest, found, leaf) {
        LeafVerdict::InPlace(at) => {
            objects.store_leaf(at, leaf);
            Ok(())
        }
        LeafVerdict::Misfit => Err(ValueFail::Shape),
        LeafVerdict::NotInPlace => {
            let is_word = is_word_at(&schema.program, Some(ty), rest);
            let value = leaf_value(alloc, is_word, leaf)?;
            rewrite_element(alloc, schema, objects, here, ty, rest, value)
        }
    }
}
