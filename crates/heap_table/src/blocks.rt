// Objects as the blocks that pointers name.
ghost use Rattle.std.specs.Prelude.{◌≡◌, ◌≢◌, ◌<◌, Some, None, MatchOption, pos, slice_get, All};
ghost use Rattle.std.specs.Bool.{Decides};
ghost use Rattle.gt_graph.specs.Objects as typed;
ghost use Rattle.gt_graph.specs.Objects.{bytes_in, elements_in};
ghost use Rattle.gt_tree.specs.Blocks.{Chars};
ghost use Rattle.gt_tree.specs.Trees.{Num, Row, Trees};
ghost use Rattle.gt_tree.specs.Fits.{EndsInZero};
ghost use Rattle.gt_value.specs.Names.{kind_of};
ghost use Rattle.gt_value.specs.Values.{tree_of};
ghost use Rattle.heap_table.specs.Graphs.{object_of, objects_of, values_of, HasName, IsByte, AreBytes, IsText, HasText, AreNamed};

use crate::graphs::Object;
use gt_value::{BlockKind, BlockNames, BlockOf, Value};

/// The object of a name.
pub fn find(objects: &[Object], id: u64) -> Option<&Object>
    ensures { MatchOption result (typed.object_of (objects_of objects.now) id ≡ None) (λ o. typed.object_of (objects_of objects.now) id ≡ Some (object_of o.now)) }
{
    let [first, rest @ ..] = objects else {
        return None;
    };
    if first.id == id {
        return Some(first);
    }
    find(rest, id)
}

fn has_name(o: &Object) -> bool
    ensures { Decides result (HasName o.now) }
{
    o.id != 0
}

/// Whether each object has a name that is not null.
pub fn have_names(objects: &[Object]) -> bool
    ensures { Decides result (All HasName objects.now) }
{
    objects.iter().all(|o| has_name(o))
}

// The byte that a value is.
fn byte_of(value: &Value) -> Option<u8>
    ensures { MatchOption result (¬ IsByte (tree_of value.now)) (λ byte. tree_of value.now ≡ Num (pos byte)) }
{
    match value {
        Value::Num(n) => u8::try_from(*n).ok(),
        _ => None,
    }
}

// Whether a value is a byte.
fn is_byte(value: &Value) -> bool
    ensures { Decides result (IsByte (tree_of value.now)) }
{
    byte_of(value).is_some()
}

// Whether each value is a byte.
fn are_bytes(values: &[Value]) -> bool
    ensures { Decides result (AreBytes (values_of values.now)) }
{
    match values {
        [] => true,
        [first, rest @ ..] => is_byte(first) && are_bytes(rest),
    }
}

// Whether a value is the number 0.
fn is_zero(value: &Value) -> bool
    ensures { Decides result (tree_of value.now ≡ Num (pos 0)) }
{
    match value {
        Value::Num(n) => *n == 0,
        _ => false,
    }
}

/// Whether the last of values is the number 0.
pub fn ends_in_zero(values: &[Value]) -> bool
    ensures { Decides result (EndsInZero (values_of values.now)) }
{
    match values {
        [] => false,
        [last] => is_zero(last),
        [_, rest @ ..] => ends_in_zero(rest),
    }
}

/// The elements of a row.
pub fn parts_of(value: &Value) -> Option<&[Value]>
    ensures { MatchOption result ((parts : Trees) → tree_of value.now ≢ Row parts) (λ parts. tree_of value.now ≡ Row (values_of parts.now)) }
{
    match value {
        Value::Row(parts) => Some(parts.as_slice()),
        _ => None,
    }
}

// Whether a value is a row of so many bytes with a zero at its end.
fn is_text(value: &Value, count: u32) -> bool
    ensures { Decides result (IsText count (tree_of value.now)) }
{
    let Some(parts) = parts_of(value) else {
        return false;
    };
    if parts.len() != count as usize {
        return false;
    }
    are_bytes(parts) && ends_in_zero(parts)
}

// Whether an object of characters is a text.
fn has_text(o: &Object) -> bool
    ensures { Decides result (HasText o.now) }
{
    match o.kind {
        BlockKind::Chars => is_text(&o.value, o.count),
        _ => true,
    }
}

// Whether each object of characters is a text.
fn have_texts(objects: &[Object]) -> bool
    ensures { Decides result (All HasText objects.now) }
{
    objects.iter().all(|o| has_text(o))
}

/// Objects that can be blocks under their names.
#[derive(Drop)]
pub struct Blocks<'a> {
    objects: &'a [Object],
    ghost named: { AreNamed objects.now },
}

impl<'a> Blocks<'a> {
    /// The objects as blocks. None where one of characters is no text.
    pub fn of(objects: &'a [Object]) -> Option<Blocks<'a>>
        requires names { All HasName objects.now }
        ensures { MatchOption result (¬ All HasText objects.now) (λ blocks. blocks.objects.now ≡ objects.now) }
    {
        if have_texts(objects) {
            Some(Blocks { objects })
        } else {
            None
        }
    }
}

// A character of a text.
fn char_at(o: &Object, i: u32) -> u8
    requires text { IsText o.now.count (tree_of o.now.value) }
    requires there { i < o.now.count }
    ensures { slice_get (bytes_in (elements_in (tree_of o.now.value))) i ≡ Some result }
{
    let Some(parts) = parts_of(&o.value) else {
        return 0;
    };
    match byte_of(&parts[i as usize]) {
        Some(byte) => byte,
        None => 0,
    }
}

impl BlockNames for Blocks<'_> {
    ghost use Rattle.heap_table.specs.Graphs.{blocks_in};

    ghost blocks = { λ s. blocks_in s.objects.now };

    fn block(&self, addr: u64) -> Option<BlockOf> {
        let o = find(self.objects, addr)?;
        Some(BlockOf {
            kind: o.kind,
            count: o.count,
        })
    }

    fn byte(&self, addr: u64, i: u32) -> u8 {
        match find(self.objects, addr) {
            Some(o) => char_at(o, i),
            None => 0,
        }
    }

    ghost addresses = { λ s. s.named.addresses };
}
