// Whole blocks, of which each element is made by writes.
ghost use Rattle.std.specs.Prelude.{◌≡◌, IfOk, map};
ghost use Rattle.gt_tree.specs.Blocks.{Chars, element_type};
ghost use Rattle.gt_tree.specs.FixedLaws.{MayHold};
ghost use Rattle.gt_tree.specs.Fits.{EachFits};
ghost use Rattle.gt_tree.specs.Scopes.{outside};
ghost use Rattle.gt_tree.specs.Trees.{End};
ghost use Rattle.gt_value.specs.Bytes.{IsElement};
ghost use Rattle.gt_value.specs.Names.{kind_of};
ghost use Rattle.gt_value.specs.Values.{trees, tree_of};
ghost use Rattle.gt_assign.specs.Results.{FitsBeside};
ghost use Rattle.sample_program.specs.Sample.{sample};
ghost use Rattle.value_notation.specs.Blocks.{blocks};
ghost use Rattle.value_notation.specs.Trials.{IsReady};

use crate::kinds::{kind_named, type_of};
use gt_show::show_block;
use gt_types::{Bytes, Ty};
use gt_value::{BlockKind, Value, zero};
use std::alloc::{AllocError, Global};
use value_notation::{Leaf, Refusal, Sample, Stop, TableBlocks, Write, write_one};

/// The text of the block that words say: KIND [ELEMENT][; ELEMENT]..
pub fn try_block(on: &Sample, words: &str) -> Result<Bytes, Stop>
    requires ready { IsReady on.now.program on.now.layouts }
{
    let (name, elements) = match words.split_once(' ') {
        Some((name, elements)) => (name, Some(elements)),
        None => (words, None),
    };
    let Some(kind) = kind_named(name) else {
        return Err(Stop::Malformed);
    };
    let ty = type_of(on, kind)?;
    text_by(on, kind, &ty, elements)
}

// The text of a block by the type of its elements, which a text says.
fn text_by(on: &Sample, kind: BlockKind, ty: &Ty, elements: Option<&str>) -> Result<Bytes, Stop>
    requires ready { IsReady on.now.program on.now.layouts }
    requires holds { MayHold on.now.program (kind_of kind) }
    requires element { ty.now ≡ element_type on.now.program (kind_of kind) }
{
    let elements = elements_of(on, kind, ty, elements)?;
    Ok(text_of(on, kind, elements)?)
}

// The elements that a text says, with `; ` between them. None where there is no text.
fn elements_of(
    on: &Sample,
    kind: BlockKind,
    ty: &Ty,
    text: Option<&str>,
) -> Result<Vec<Value>, Stop>
    requires ready { IsReady on.now.program on.now.layouts }
    requires element { IsElement on.now.program ty.now }
    ensures each { IfOk result (λ elements. EachFits on.now.program blocks 0 (outside End) ty.now (trees (map tree_of elements.items))) }
{
    let mut elements = Vec::new(on.alloc);
    let Some(text) = text else {
        return Ok(elements);
    };
    for word in text.split("; ") {
        elements.push(element_of(on, kind, ty, word)?)?;
    }
    Ok(elements)
}

// The element that a text says.
fn element_of(on: &Sample, kind: BlockKind, ty: &Ty, text: &str) -> Result<Value, Stop>
    requires ready { IsReady on.now.program on.now.layouts }
    requires element { IsElement on.now.program ty.now }
    ensures fits { IfOk result (λ v. FitsBeside on.now.program blocks 0 ty.now (tree_of v)) }
{
    let writes = read_element(on.alloc, kind, text)?;
    let nothing = zero(on.alloc, &on.program, &on.layouts, ty, 0)?;
    write_element(on, ty, nothing, writes.as_slice())
}

// An element after these writes.
fn write_element(on: &Sample, ty: &Ty, value: Value, writes: &[Write]) -> Result<Value, Stop>
    requires ready { IsReady on.now.program on.now.layouts }
    requires element { IsElement on.now.program ty.now }
    requires fits { FitsBeside on.now.program blocks 0 ty.now (tree_of value) }
    ensures fits { IfOk result (λ v. FitsBeside on.now.program blocks 0 ty.now (tree_of v)) }
{
    let [first, rest @ ..] = writes else {
        return Ok(value);
    };
    let next = write_one(on, ty, 0, value, first, rest.is_empty())?;
    write_element(on, ty, next, rest)
}

// The writes that make an element: those of a structure, else one leaf.
fn read_element(alloc: Global, kind: BlockKind, text: &str) -> Result<Vec<Write>, Refusal> {
    match kind {
        BlockKind::Nodes(_) => read_writes(alloc, text),
        _ => {
            let write = Write {
                path: Vec::new(alloc),
                leaf: Leaf::read(alloc, text)?,
            };
            Ok(vec![in alloc; write]?)
        }
    }
}

fn read_writes(alloc: Global, text: &str) -> Result<Vec<Write>, Refusal> {
    let mut writes = Vec::new(alloc);
    if text.is_empty() {
        return Ok(writes);
    }
    for word in text.split(' ') {
        writes.push(Write::read(alloc, word)?)?;
    }
    Ok(writes)
}

// The text of a block of these elements; characters have a zero after them.
fn text_of(on: &Sample, kind: BlockKind, elements: Vec<Value>) -> Result<Bytes, AllocError>
    requires ready { IsReady on.now.program on.now.layouts }
    requires each { EachFits on.now.program blocks 0 (outside End) (element_type on.now.program (kind_of kind)) (trees (map tree_of elements.items)) }
{
    match kind {
        BlockKind::Chars => text_of_chars(on, elements),
        _ => show_block(
            on.alloc,
            &on.program,
            &on.layouts,
            kind,
            elements.as_slice(),
            &TableBlocks,
        ),
    }
}

// The text of a block of characters, after which a zero is put.
fn text_of_chars(on: &Sample, mut elements: Vec<Value>) -> Result<Bytes, AllocError>
    requires ready { IsReady on.now.program on.now.layouts }
    requires each { EachFits on.now.program blocks 0 (outside End) (element_type on.now.program Chars) (trees (map tree_of elements.items)) }
{
    elements.push(Value::Num(0))?;
    show_block(
        on.alloc,
        &on.program,
        &on.layouts,
        BlockKind::Chars,
        elements.as_slice(),
        &TableBlocks,
    )
}
