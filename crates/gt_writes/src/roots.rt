// A leaf of the static record, written.
ghost use Rattle.std.specs.Prelude.{◌≡◌, Err, OnOk, OnErr};
ghost use Rattle.gt_tree.specs.Trees.{Tree};
ghost use Rattle.gt_leaf.specs.declared.writing.LeafVerdict.TheVariants as LeafVerdict;
ghost use Rattle.gt_leaf.specs.declared.writing.LeafVerdict.TheVariants.{InPlace};
ghost use Rattle.gt_value.specs.declared.places.Place.{Place};
ghost use Rattle.gt_value.specs.Places.{IsContentOf};
ghost use Rattle.gt_value.specs.Values.{tree_of};
ghost use Rattle.gt_value.specs.declared.values.ValueFail.TheVariants.{Shape};
ghost use Rattle.gt_graph.specs.Changes.{Statics};
ghost use Rattle.gt_graph.specs.Good.{Heap};
ghost use Rattle.gt_objects.specs.Holding.{IsHeapOf};
ghost use Rattle.gt_next.specs.Spots.{spot};
ghost use Rattle.gt_schema.specs.Schemas.{IsSchema};
ghost use Rattle.gt_writes.specs.SpotWrites.{SpotTakes, IsWrittenAt, MisfitsAt};
ghost use Rattle.gt_writes.specs.Rewriting.{AreStaticsRewritten, MayPutRoot, StaticsMisfit, IsInActive};

use crate::leaves::{is_word_in_statics, leaf_value, only_active};
use gt_assign::assign_statics;
use gt_elements::Names;
use gt_leaf::{LeafVerdict, judge_static_leaf};
use gt_objects::Objects;
use gt_schema::Schema;
use gt_value::{LeafContent, Value, ValueFail, read_statics};
use std::alloc::Global;

// Writes the static record anew: what the write of a leaf makes of it.
fn rewrite_statics(
    alloc: Global,
    schema: &Schema,
    objects: &mut Objects,
    path: &[u32],
    leaf: Value,
) -> Result<(), ValueFail>
    requires schema { IsSchema schema.now }
    requires ready { (heap : Heap) × IsHeapOf schema.now.program schema.now.layouts objects.old heap }
    ensures written { OnOk result ((heap : Heap) → IsHeapOf schema.now.program schema.now.layouts objects.old heap → AreStaticsRewritten schema.now.program schema.now.layouts heap path.now (tree_of leaf) objects.old.space objects.new.space) }
    ensures rest { OnOk result (objects.new ≡ record objects.old { space = objects.new.space }) }
    ensures shape { result ≡ Err Shape → (heap : Heap) → IsHeapOf schema.now.program schema.now.layouts objects.old heap → StaticsMisfit schema.now.program heap path.now (tree_of leaf) }
    ensures unchanged { OnErr result (objects.new ≡ objects.old) }
{
    objects.sound();
    let program = &schema.program;
    let layouts = &schema.layouts;
    let old = read_statics(alloc, program, layouts, objects.space())?;
    let names = Names::of(objects);
    let new = match assign_statics(alloc, program, layouts, old, path, leaf, &names) {
        Ok(new) => new,
        Err(fail) => return Err(fail),
    };
    objects.store_statics(program, layouts, &new);
    Ok(())
}

// Judges the write of the leaf at a path of the static record before it is done. Where a union around it has no active member, it is
// not written in place: what the type of its field says is then not what lies there.
fn judge_root(schema: &Schema, objects: &Objects, path: &[u32], leaf: LeafContent) -> LeafVerdict
    requires schema { IsSchema schema.now }
    requires ready { (heap : Heap) × IsHeapOf schema.now.program schema.now.layouts objects.now heap }
    ensures in_place { (place : Place) → result ≡ InPlace place → (heap : Heap) → IsHeapOf schema.now.program schema.now.layouts objects.now heap → MayPutRoot schema.now.program schema.now.layouts heap path.now leaf objects.now.space place }
    ensures active { (place : Place) → result ≡ InPlace place → IsInActive place leaf }
    ensures misfit { result ≡ LeafVerdict.Misfit → (heap : Heap) (tree : Tree) → IsHeapOf schema.now.program schema.now.layouts objects.now heap → IsContentOf leaf tree → StaticsMisfit schema.now.program heap path.now tree }
{
    objects.sound();
    let names = Names::of(objects);
    let verdict = judge_static_leaf(
        &schema.program,
        &schema.layouts,
        &schema.reads,
        &names,
        objects.space(),
        path,
        leaf,
    );
    only_active(verdict, leaf)
}

/// Writes the leaf at a path in the static record, of which the first place is that of a root. `Shape` says that no values fit with it.
/// At an error nothing changes.
pub fn write_in_statics(
    alloc: Global,
    schema: &Schema,
    objects: &mut Objects,
    path: &[u32],
    leaf: LeafContent,
) -> Result<(), ValueFail>
    requires schema { IsSchema schema.now }
    requires ready { (heap : Heap) × IsHeapOf schema.now.program schema.now.layouts objects.old heap }
    requires may { (heap : Heap) → IsHeapOf schema.now.program schema.now.layouts objects.old heap → SpotTakes schema.now.program heap.graph (spot Statics path.now) leaf }
    ensures written { OnOk result ((heap : Heap) → IsHeapOf schema.now.program schema.now.layouts objects.old heap → IsWrittenAt schema.now.program schema.now.layouts heap Statics path.now leaf objects.new) }
    ensures shape { result ≡ Err Shape → (heap : Heap) → IsHeapOf schema.now.program schema.now.layouts objects.old heap → MisfitsAt schema.now.program heap Statics path.now leaf }
    ensures unchanged { OnErr result (objects.new ≡ objects.old) }
{
    objects.sound();
    match judge_root(schema, objects, path, leaf) {
        LeafVerdict::InPlace(at) => {
            objects.store_leaf(at, leaf);
            Ok(())
        }
        LeafVerdict::Misfit => Err(ValueFail::Shape),
        LeafVerdict::NotInPlace => {
            let is_word = is_word_in_statics(&schema.program, path);
            let value = leaf_value(alloc, is_word, leaf)?;
            rewrite_statics(alloc, schema, objects, path, value)
        }
    }
}
