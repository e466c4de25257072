// The text of a whole block.
ghost use Rattle.std.specs.Prelude.{◌≡◌, ◌++◌, map, codes, All, IfOk, OnOk};
ghost use Rattle.std.specs.List.{flat_map};
ghost use Rattle.gt_types.specs.Settled.{Settled};
ghost use Rattle.gt_layout.specs.Planes.{IsLaidOut};
ghost use Rattle.gt_tree.specs.Blocks.{Nodes, Pointers, element_type};
ghost use Rattle.gt_value.specs.declared.values.Value.{Value};
ghost use Rattle.gt_value.specs.Names.{kind_of};
ghost use Rattle.gt_value.specs.Values.{trees, tree_of};
ghost use Rattle.gt_show.specs.Shown.{byte_text, string_text};
ghost use Rattle.gt_show.specs.Parts.{EachFitsSomewhere, IsAdded, ShowsRow};
ghost use Rattle.gt_show.specs.BlockTexts.{AreBytes, ShowsBlock, ElementsFit};
ghost use Rattle.gt_show.specs.BlockParts.{IsByte, IsSomeByte, ShowsNodes};

use crate::numbers::push_bytes;
use crate::strings::push_quoted;
use crate::values::{Context, push_row, push_value};
use gt_layout::Layouts;
use gt_types::{Bytes, Copied, Program, PtrKind, Target, Ty, TypeId};
use gt_value::{BlockKind, BlockNames, Value};
use std::alloc::{AllocError, Global};

/// The text of the value of a whole block, by what it holds: its elements one after another. It takes time by the length of the
/// text. Its only error is out of memory.
pub fn show_block<N: BlockNames>(
    alloc: Global,
    program: &Program,
    layouts: &Layouts,
    kind: BlockKind,
    elements: &[Value],
    names: &N,
) -> Result<Bytes, AllocError>
    requires settled { Settled program.now }
    requires laid { IsLaidOut program.now layouts.now }
    requires fits { ElementsFit program.now (N.blocks names.now) (kind_of kind) (trees (map tree_of elements.now)) }
    ensures shown { IfOk result (λ text. ShowsBlock program.now (N.blocks names.now) (kind_of kind) (trees (map tree_of elements.now)) text) }
{
    let mut text = Bytes::new(alloc);
    let context = Context {
        alloc,
        program,
        unions: &layouts.unions,
        names,
    };
    push_block(&mut text, kind, elements, &context)?;
    Ok(text)
}

fn push_block<N: BlockNames>(
    text: &mut Bytes,
    kind: BlockKind,
    elements: &[Value],
    context: &Context<N>,
) -> Result<(), AllocError>
    requires settled { Settled context.now.program.now }
    requires fits { ElementsFit context.now.program.now (N.blocks context.now.names.now) (kind_of kind) (trees (map tree_of elements.now)) }
    ensures added { OnOk result (IsAdded (ShowsBlock context.now.program.now (N.blocks context.now.names.now) (kind_of kind) (trees (map tree_of elements.now))) text.old text.new) }
{
    match kind {
        BlockKind::Nodes(node) => {
            let ty = node_type(context.alloc, context.program, node)?;
            push_nodes(text, elements, &ty, context)
        }
        BlockKind::Pointers(node) => push_pointers(text, elements, node, context),
        BlockKind::Strings => push_row(text, elements, &Ty::Str(None), context),
        BlockKind::Chars => {
            let bytes = bytes_of(context.alloc, elements)?;
            push_quoted(text, bytes.as_slice())
        }
        BlockKind::Raw => {
            let bytes = bytes_of(context.alloc, elements)?;
            push_raw(text, bytes.as_slice())
        }
    }
}

// The type of a structure that stands alone.
fn node_type(alloc: Global, program: &Program, node: TypeId) -> Result<Ty, AllocError>
    ensures { IfOk result (λ ty. ty ≡ element_type program.now (Nodes node)) }
{
    let Some(s) = program.structures.get(node.0 as usize) else {
        return Ok(Ty::Node {
            id: node,
            desc: None,
        });
    };
    let desc = match &s.desc {
        Some(desc) => Some(desc.copy(alloc)?),
        None => None,
    };
    Ok(Ty::Node { id: node, desc })
}

// Adds one structure as it is, or several in brackets.
fn push_nodes<N: BlockNames>(
    text: &mut Bytes,
    elements: &[Value],
    ty: &Ty,
    context: &Context<N>,
) -> Result<(), AllocError>
    requires settled { Settled context.now.program.now }
    requires fit { EachFitsSomewhere context.now.program.now (N.blocks context.now.names.now) ty.now (trees (map tree_of elements.now)) }
    ensures added { OnOk result (IsAdded (ShowsNodes context.now.program.now (N.blocks context.now.names.now) ty.now (trees (map tree_of elements.now))) text.old text.new) }
{
    if elements.len() == 1 {
        push_value(text, &elements[0], ty, context)
    } else {
        push_row(text, elements, ty, context)
    }
}

// Adds pointers to structures, in brackets.
fn push_pointers<N: BlockNames>(
    text: &mut Bytes,
    elements: &[Value],
    node: TypeId,
    context: &Context<N>,
) -> Result<(), AllocError>
    requires settled { Settled context.now.program.now }
    requires fit { EachFitsSomewhere context.now.program.now (N.blocks context.now.names.now) (element_type context.now.program.now (Pointers node)) (trees (map tree_of elements.now)) }
    ensures added { OnOk result (IsAdded (ShowsRow context.now.program.now (N.blocks context.now.names.now) (element_type context.now.program.now (Pointers node)) (trees (map tree_of elements.now))) text.old text.new) }
{
    let ty = Ty::Ptr {
        target: Some(Target::Node(node)),
        kind: PtrKind::Plain,
        reorder: false,
    };
    push_row(text, elements, &ty, context)
}

// Adds bytes that are never scanned.
fn push_raw(text: &mut Bytes, bytes: &[u8]) -> Result<(), AllocError>
    ensures added { OnOk result (text.new ≡ text.old ++ codes "raw:" ++ flat_map byte_text bytes.now) }
{
    text.append(b"raw:")?;
    push_bytes(text, bytes)
}

// The byte that a value is.
fn byte_of(value: &Value) -> u8
    requires byte { IsSomeByte (tree_of value.now) }
    ensures { IsByte (tree_of value.now) result }
{
    let Value::Num(n) = value else { unreachable!() };
    *n as u8
}

// The bytes that values are.
fn bytes_of(alloc: Global, elements: &[Value]) -> Result<Bytes, AllocError>
    requires bytes { All (λ (v : Value). IsSomeByte (tree_of v)) elements.now }
    ensures { IfOk result (λ bytes. AreBytes (trees (map tree_of elements.now)) bytes) }
{
    let mut bytes = Bytes::new(alloc);
    for element in elements {
        bytes.push(byte_of(element))?;
    }
    Ok(bytes)
}
