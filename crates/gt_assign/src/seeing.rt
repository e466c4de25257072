// What is known of the value that each part was, while a value is made anew.
ghost use Rattle.std.specs.Prelude.{◌≡◌, slice_get, option_copied, option_map};
ghost use Rattle.gt_value.specs.Values.{tree_of};
ghost use Rattle.gt_assign.specs.Pasts.{was_of, past_of, past_inside, base_was, was_at, begun_at, begun_next, begun_path, was_path, value_was, desc_was};

use crate::making::Making;
use gt_fit::{is_of_node, item, number_at, place_of, read_path};
use gt_types::{Base, Expr, Reader, Structure, Ty, TypeId, Word, eval};
use gt_value::Value;

/// What a part was.
#[derive(Clone, Copy)]
pub enum Seen<'a> {
    /// This value, with the new leaf in it.
    Whole(&'a Value),
    /// There was none: each of its numbers is 0.
    Zero,
    /// It begins with this value of a structure, and is zero elsewhere.
    Begins { id: TypeId, value: &'a Value },
}

/// A structure and what its value was.
#[derive(Clone, Copy)]
pub struct SeenAt<'a> {
    pub id: TypeId,
    pub seen: Seen<'a>,
}

/// What the structures around a part were, where there are such, and the values of the roots.
#[derive(Clone, Copy)]
pub struct Around<'a> {
    pub here: Option<SeenAt<'a>>,
    pub outer: Option<SeenAt<'a>>,
    pub outermost: Option<SeenAt<'a>>,
    pub roots: &'a [Value],
}

impl<'a> Around<'a> {
    /// What was around the parts of a structure that was this.
    pub fn inside(&self, id: TypeId, seen: Seen<'a>) -> Around<'a>
        ensures { past_of result ≡ past_inside (past_of self.now) id (was_of seen.entry) }
    {
        let here = Some(SeenAt { id, seen });
        Around {
            here,
            outer: self.here,
            outermost: match self.outermost {
                Some(at) => Some(at),
                None => here,
            },
            roots: self.roots,
        }
    }
}

// What the structure was at which a path begins.
fn base<'a>(around: &Around<'a>, base: &Base) -> Option<SeenAt<'a>>
    ensures { was_at result ≡ base_was (past_of around.now) base.now }
{
    match base {
        Base::Here => around.here,
        Base::Outer => around.outer,
        Base::Outermost => around.outermost,
    }
}

// The type of the field at a place, where it is the first: what lies after it is zero.
fn begun_at<'a>(structure: &'a Structure, place: usize) -> Option<Option<&'a Ty>>
    ensures { option_map option_copied result ≡ begun_at place (slice_get structure.now.fields place) }
{
    let Some(field) = structure.fields.get(place) else {
        return None;
    };
    if place == 0 {
        Some(Some(&field.ty))
    } else {
        Some(None)
    }
}

// Where a name leads in a value that begins with a structure: to the type of its first field, or to what is zero.
fn begun_next<'a>(on: &Making<'a>, name: &Word, ty: &Ty) -> Option<Option<&'a Ty>>
    ensures { option_map option_copied result ≡ begun_next on.now.program.now name.now ty.now }
{
    let Ty::Node { id: node, .. } = ty else {
        return None;
    };
    let structure = on.program.structures.get(node.0 as usize)?;
    let place = place_of(on.layouts, *node, name)?;
    begun_at(structure, place as usize)
}

// The number to which names lead, from a part that begins with a value of a structure and is zero elsewhere.
fn read_begun(on: &Making, id: TypeId, value: &Value, steps: &[Word], ty: &Ty) -> Option<i64>
    ensures { result ≡ begun_path on.now.program.now id (tree_of value.now) steps.now ty.now }
{
    match steps {
        [] => None,
        [name, rest @ ..] => {
            if is_of_node(id, Some(ty)) {
                return read_path(on.program, on.layouts, steps, ty, value);
            }
            match begun_next(on, name, ty)? {
                None => Some(0),
                Some(first) => read_begun(on, id, value, rest, first),
            }
        }
    }
}

// The number to which names lead from what a part was.
fn read_seen(on: &Making, seen: Seen, steps: &[Word], ty: &Ty) -> Option<i64>
    ensures { result ≡ was_path on.now.program.now steps.now ty.now (was_of seen.entry) }
{
    match seen {
        Seen::Whole(value) => read_path(on.program, on.layouts, steps, ty, value),
        Seen::Zero => Some(0),
        Seen::Begins { id, value } => read_begun(on, id, value, steps, ty),
    }
}

// What expressions read of what was around a part.
#[derive(Clone, Copy)]
struct Reading<'a> {
    on: &'a Making<'a>,
    around: &'a Around<'a>,
}

impl Reader for Reading<'_> {
    ghost use Rattle.gt_assign.specs.Pasts.{past_of, leaf_was, root_was};

    ghost leaf_of = { λ r. leaf_was r.on.now.program.now (past_of r.around.now) };

    ghost root_of = { λ r. root_was (past_of r.around.now) };

    fn leaf(&self, base: &Base, steps: &[Word]) -> Option<i64> {
        let at = crate::seeing::base(self.around, base)?;
        let ty = Ty::Node {
            id: at.id,
            desc: None,
        };
        read_seen(self.on, at.seen, steps, &ty)
    }

    fn root(&self, i: u32) -> Option<i64> {
        let value = item(self.around.roots, i as usize)?;
        number_at(value)
    }
}

/// The value of an expression by what was around a part.
pub fn value_of(on: &Making, e: &Expr, around: &Around) -> Option<i64>
    ensures { result ≡ value_was on.now.program.now (past_of around.now) e.now }
{
    eval(e, &Reading { on, around })
}

/// The value that says which member of a union is active. None where there is no `desc`.
pub fn desc_value(on: &Making, desc: &Option<Expr>, around: &Around) -> Option<i64>
    ensures { result ≡ desc_was on.now.program.now (past_of around.now) desc.now }
{
    match desc {
        None => None,
        Some(e) => value_of(on, e, around),
    }
}
