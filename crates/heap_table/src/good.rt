// Whether a graph is good.
ghost use Rattle.std.specs.Prelude.{◌≡◌, ◌≢◌, ◌≤◌, All, AllPairs, map};
ghost use Rattle.std.specs.Bool.{Decides};
ghost use Rattle.gt_types.specs.Settled.{Settled};
ghost use Rattle.gt_tree.specs.Blocks.{element_type};
ghost use Rattle.gt_tree.specs.Fits.{AllFit, EachFits, BlockFits, EndsAs, StaticsFit};
ghost use Rattle.gt_tree.specs.FixedLaws.{MayHold};
ghost use Rattle.gt_tree.specs.Scopes.{outside};
ghost use Rattle.gt_fit.specs.Scoping.{scope_of};
ghost use Rattle.gt_value.specs.Names.{kind_of};
ghost use Rattle.gt_value.specs.Values.{tree_of};
ghost use Rattle.gt_graph.specs.Good.{IsOfTails, IsObject, IsGraph};
ghost use Rattle.heap_table.specs.Graphs.{object_of, objects_of, blocks_in, values_of, graph_of, HasName};
ghost use Rattle.heap_table.specs.Good.{HasItsSize, PartsFit, AreGoodPairs, IsGoodInside};
ghost use Rattle.heap_table.specs.Grounds.{IsGround};

use crate::blocks::{Blocks, ends_in_zero, parts_of};
use crate::graphs::{Graph, Object, Pair};
use crate::grounds::Ground;
use crate::pairs::{are_pairs, have_room};
use gt_fit::{Checking, Within, fits};
use gt_paths::may_stand;
use gt_types::{Root, Ty};
use gt_value::{BlockKind, Value};

/// How many pairs all caches may have together.
const MAX_PAIRS: usize = 1_048_576;

// Whether a block may hold this.
fn may_hold(on: &Ground, kind: BlockKind) -> bool
    requires ground { IsGround on.now }
    ensures { Decides result (MayHold on.now.program (kind_of kind)) }
{
    match kind {
        BlockKind::Nodes(id) => may_stand(&on.program, &on.index, id),
        BlockKind::Pointers(id) => may_stand(&on.program, &on.index, id),
        BlockKind::Strings | BlockKind::Chars | BlockKind::Raw => true,
    }
}

// Whether a block holds structures of a tail type.
fn is_of_tails(on: &Ground, kind: BlockKind) -> bool
    requires ground { IsGround on.now }
    requires holds { MayHold on.now.program (kind_of kind) }
    ensures { Decides result (IsOfTails on.now.program (kind_of kind)) }
{
    match kind {
        BlockKind::Nodes(id) => on.tails.has(id),
        BlockKind::Pointers(_) | BlockKind::Strings => false,
        BlockKind::Chars | BlockKind::Raw => false,
    }
}

// Whether an object has as many elements, and as much room at its end, as it may.
fn has_its_size(on: &Ground, o: &Object) -> bool
    requires ground { IsGround on.now }
    requires holds { MayHold on.now.program (kind_of o.now.kind) }
    ensures { Decides result (HasItsSize on.now.program o.now) }
{
    if is_of_tails(on, o.kind) {
        o.count == 1
    } else {
        o.capacity == 0
    }
}

// Whether each value fits a type.
fn each_fits(
    checking: &Checking<'_, Blocks<'_>>,
    around: &Within<'_>,
    ty: &Ty,
    values: &[Value],
) -> bool
    requires settled { Settled checking.now.program.now }
    ensures { Decides result (EachFits checking.now.program.now (blocks_in checking.now.names.now.objects.now) checking.now.capacity (scope_of around.now) ty.now (values_of values.now)) }
{
    match values {
        [] => true,
        [first, rest @ ..] => {
            fits(first, ty, checking, around) && each_fits(checking, around, ty, rest)
        }
    }
}

// Whether values end as those of a block do: characters in a zero.
fn end_as(kind: BlockKind, values: &[Value]) -> bool
    ensures { Decides result (EndsAs (kind_of kind) (values_of values.now)) }
{
    match kind {
        BlockKind::Chars => ends_in_zero(values),
        _ => true,
    }
}

// Nothing is around a block or a root.
fn outside(statics: &[Value]) -> Within<'_>
    ensures { scope_of result ≡ outside (values_of statics.now) }
{
    Within {
        here: None,
        outer: None,
        outermost: None,
        roots: statics,
    }
}

// Whether values are those of an object's elements.
fn parts_fit(
    on: &Ground,
    blocks: &Blocks<'_>,
    statics: &[Value],
    o: &Object,
    parts: &[Value],
) -> bool
    requires ground { IsGround on.now }
    requires holds { MayHold on.now.program (kind_of o.now.kind) }
    ensures { Decides result (PartsFit on.now.program (blocks_in blocks.now.objects.now) (values_of statics.now) o.now (values_of parts.now)) }
{
    let checking = Checking {
        program: &on.program,
        layouts: &on.layouts,
        names: blocks,
        capacity: o.capacity,
    };
    each_fits(&checking, &outside(statics), on.types.get(o.kind), parts) && end_as(o.kind, parts)
}

// Whether the value of an object is a row of as many values of its type.
fn block_fits(on: &Ground, blocks: &Blocks<'_>, statics: &[Value], o: &Object) -> bool
    requires ground { IsGround on.now }
    requires holds { MayHold on.now.program (kind_of o.now.kind) }
    ensures { Decides result (BlockFits on.now.program (blocks_in blocks.now.objects.now) (values_of statics.now) (kind_of o.now.kind) o.now.count o.now.capacity (tree_of o.now.value)) }
{
    let Some(parts) = parts_of(&o.value) else {
        return false;
    };
    if parts.len() != o.count as usize {
        return false;
    }
    parts_fit(on, blocks, statics, o, parts)
}

// Whether an object of a graph is good, beside the graph's blocks.
fn is_object(on: &Ground, blocks: &Blocks<'_>, g: &Graph, o: &Object) -> bool
    requires ground { IsGround on.now }
    requires same { blocks.now.objects.now ≡ g.now.objects.items }
    ensures { Decides result (IsObject on.now.program (graph_of g.now) (object_of o.now)) }
{
    if !may_hold(on, o.kind) {
        return false;
    }
    has_its_size(on, o) && block_fits(on, blocks, g.statics.as_slice(), o)
}

// Whether each object of a graph is good.
fn are_objects(on: &Ground, blocks: &Blocks<'_>, g: &Graph) -> bool
    requires ground { IsGround on.now }
    requires same { blocks.now.objects.now ≡ g.now.objects.items }
    ensures { Decides result (All (λ o. IsObject on.now.program (graph_of g.now) (object_of o)) g.now.objects.items) }
{
    g.objects.iter().all(|o| is_object(on, blocks, g, o))
}

// Whether each value fits the type of its root.
fn roots_fit(
    checking: &Checking<'_, Blocks<'_>>,
    around: &Within<'_>,
    roots: &[Root],
    values: &[Value],
) -> bool
    requires settled { Settled checking.now.program.now }
    ensures { Decides result (AllFit checking.now.program.now (blocks_in checking.now.names.now.objects.now) checking.now.capacity (scope_of around.now) (map (λ r. r.ty) roots.now) (values_of values.now)) }
{
    let [root, others @ ..] = roots else {
        return values.is_empty();
    };
    let [first, rest @ ..] = values else {
        return false;
    };
    fits(first, &root.ty, checking, around) && roots_fit(checking, around, others, rest)
}

// Whether the values of the roots fit.
fn statics_fit(on: &Ground, blocks: &Blocks<'_>, statics: &[Value]) -> bool
    requires ground { IsGround on.now }
    ensures { Decides result (StaticsFit on.now.program (blocks_in blocks.now.objects.now) (values_of statics.now)) }
{
    let checking = Checking {
        program: &on.program,
        layouts: &on.layouts,
        names: blocks,
        capacity: 0,
    };
    let roots = on.program.roots.as_slice();
    roots_fit(&checking, &outside(statics), roots, statics)
}

// Whether no object has this name.
fn is_no_name(objects: &[Object], id: u64) -> bool
    ensures { Decides result (All (λ o. id ≢ o.id) objects.now) }
{
    objects.iter().all(|o| o.id != id)
}

// Whether no two objects have one name.
fn have_distinct_names(objects: &[Object]) -> bool
    ensures { Decides result (AllPairs (λ o p. o.id ≢ p.id) objects.now) }
{
    let [first, rest @ ..] = objects else {
        return true;
    };
    is_no_name(rest, first.id) && have_distinct_names(rest)
}

// Whether the pairs of a graph are those of its caches, and not too many.
fn are_good_pairs(on: &Ground, g: &Graph) -> bool
    ensures { Decides result (AreGoodPairs on.now.program g.now) }
{
    let lists = g.caches.as_slice();
    are_pairs(g.objects.as_slice(), on.program.caches.as_slice(), lists)
        && have_room(lists, MAX_PAIRS)
}

// Whether a graph is good, beside its blocks.
fn is_good_inside(on: &Ground, blocks: &Blocks<'_>, g: &Graph) -> bool
    requires ground { IsGround on.now }
    requires same { blocks.now.objects.now ≡ g.now.objects.items }
    ensures { Decides result (IsGoodInside on.now.program g.now) }
{
    have_distinct_names(g.objects.as_slice())
        && are_objects(on, blocks, g)
        && statics_fit(on, blocks, g.statics.as_slice())
        && are_good_pairs(on, g)
}

/// Whether a graph is good, where no object has the name of null.
pub fn is_graph(on: &Ground, g: &Graph) -> bool
    requires ground { IsGround on.now }
    requires names { All HasName g.now.objects.items }
    ensures { Decides result (IsGraph on.now.program (graph_of g.now)) }
{
    match Blocks::of(g.objects.as_slice()) {
        Some(blocks) => is_good_inside(on, &blocks, g),
        None => false,
    }
}
