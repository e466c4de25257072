// The text of the static record.
ghost use Rattle.std.specs.Prelude.{◌≡◌, map, IfOk, OnOk};
ghost use Rattle.gt_types.specs.Settled.{Settled};
ghost use Rattle.gt_layout.specs.Planes.{IsLaidOut};
ghost use Rattle.gt_tree.specs.Trees.{Rec, Trees};
ghost use Rattle.gt_tree.specs.Fits.{StaticsFit};
ghost use Rattle.gt_value.specs.Values.{trees, tree_of};
ghost use Rattle.gt_show.specs.Parts.{IsAdded};
ghost use Rattle.gt_show.specs.StaticTexts.{ShowsStatics};

use crate::values::{Context, push_label, push_value};
use gt_layout::Layouts;
use gt_types::{Bytes, Program};
use gt_value::{BlockNames, Value};
use std::alloc::{AllocError, Global};

/// The text of the static record, in which `names` tells what pointers name: that of a struct of which the roots are the fields. Its
/// costs are those of [`show`](crate::show). Its only error is out of memory.
pub fn show_statics<N: BlockNames>(
    alloc: Global,
    program: &Program,
    layouts: &Layouts,
    values: &Value,
    names: &N,
) -> Result<Bytes, AllocError>
    requires settled { Settled program.now }
    requires laid { IsLaidOut program.now layouts.now }
    requires fits { (parts : Trees) × (tree_of values.now ≡ Rec parts) × StaticsFit program.now (N.blocks names.now) parts }
    ensures shown { IfOk result (λ text. (parts : Trees) → tree_of values.now ≡ Rec parts → ShowsStatics program.now (N.blocks names.now) parts text) }
{
    let Value::Rec(parts) = values else {
        unreachable!()
    };
    let mut text = Bytes::new(alloc);
    let context = Context {
        alloc,
        program,
        unions: &layouts.unions,
        names,
    };
    push_roots(&mut text, parts, &context)?;
    Ok(text)
}

// Adds the values of roots, as the fields of a struct.
fn push_roots<N: BlockNames>(
    text: &mut Bytes,
    parts: &[Value],
    context: &Context<N>,
) -> Result<(), AllocError>
    requires settled { Settled context.now.program.now }
    requires fit { StaticsFit context.now.program.now (N.blocks context.now.names.now) (trees (map tree_of parts.now)) }
    ensures added { OnOk result (IsAdded (ShowsStatics context.now.program.now (N.blocks context.now.names.now) (trees (map tree_of parts.now))) text.old text.new) }
{
    text.push(b'{')?;
    for (place, part) in parts.iter().enumerate() {
        let Some(r) = context.program.roots.get(place) else {
            unreachable!()
        };
        push_label(text, place, &r.name)?;
        push_value(text, part, &r.ty, context)?;
    }
    text.push(b'}')
}
