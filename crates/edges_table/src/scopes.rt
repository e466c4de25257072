// The structures around a part of a value, and the numbers that paths lead to in them.
use gt_types::{Base, Program, Ty, TypeId, Word};
use gt_value::Value;

/// A structure and its value.
#[derive(Clone, Copy)]
pub struct Held<'a> {
    pub id: TypeId,
    pub value: &'a Value,
}

/// The structures around a part of a value, and the values of the roots: outside the static record there are none.
#[derive(Clone, Copy)]
pub struct Around<'a> {
    here: Option<Held<'a>>,
    outer: Option<Held<'a>>,
    outermost: Option<Held<'a>>,
    roots: &'a [Value],
}

/// A type and a value of it.
#[derive(Clone, Copy)]
struct Typed<'a> {
    ty: &'a Ty,
    value: &'a Value,
}

impl<'a> Around<'a> {
    /// In no structure.
    pub fn outside(roots: &'a [Value]) -> Around<'a> {
        Around {
            here: None,
            outer: None,
            outermost: None,
            roots,
        }
    }

    /// Inside a structure that lies there.
    pub fn inside(&self, held: Held<'a>) -> Around<'a> {
        Around {
            here: Some(held),
            outer: self.here,
            outermost: match self.outermost {
                Some(outermost) => Some(outermost),
                None => Some(held),
            },
            roots: self.roots,
        }
    }

    // The structure at which a path begins.
    fn base(&self, base: Base) -> Option<Held<'a>> {
        match base {
            Base::Here => self.here,
            Base::Outer => self.outer,
            Base::Outermost => self.outermost,
        }
    }

    /// The number of a root.
    pub fn root_number(&self, place: u32) -> Option<i64> {
        number(self.roots.get(place as usize)?)
    }

    /// The number to which names of fields lead.
    pub fn path_number(&self, program: &Program, base: Base, names: &[Word]) -> Option<i64> {
        let Held { id, value } = self.base(base)?;
        let Some((first, rest)) = names.split_first() else {
            return None;
        };
        let mut at = field_named(program, id, value, first)?;
        for name in rest {
            let Ty::Node { id, .. } = at.ty else {
                return None;
            };
            at = field_named(program, *id, at.value, name)?;
        }
        number(at.value)
    }
}

// A number of 64 bits with a sign.
fn number(value: &Value) -> Option<i64> {
    match value {
        Value::Num(n) => i64::try_from(*n).ok(),
        _ => None,
    }
}

// The field of a name in a structure. A member of a union has the value with which the active one begins.
fn field_named<'a>(
    program: &'a Program,
    id: TypeId,
    value: &'a Value,
    name: &Word,
) -> Option<Typed<'a>> {
    let fields = program.structures.get(id.0 as usize)?.fields.as_slice();
    let place = fields.iter().position(|f| f.name == *name)?;
    let ty = &fields.get(place)?.ty;
    match value {
        Value::Rec(parts) => Some(Typed {
            ty,
            value: parts.get(place)?,
        }),
        Value::Alt {
            member: None,
            value: common,
        } => Some(Typed {
            ty,
            value: common.get(),
        }),
        Value::Alt {
            member: Some(member),
            value: active,
        } => {
            let Ty::Node { id: wanted, .. } = ty else {
                return None;
            };
            let held = &fields.get(*member as usize)?.ty;
            let value = beginning(program, *wanted, held, active.get())?;
            Some(Typed { ty, value })
        }
        _ => None,
    }
}

// The value of a structure with which a value begins: itself, or its first field, or the first field of that, and so on.
fn beginning<'a>(
    program: &Program,
    wanted: TypeId,
    ty: &Ty,
    value: &'a Value,
) -> Option<&'a Value> {
    let Ty::Node { id, .. } = ty else {
        return None;
    };
    if id.0 == wanted.0 {
        return Some(value);
    }
    let first = program.structures.get(id.0 as usize)?.fields.get(0)?;
    match value {
        Value::Rec(parts) => beginning(program, wanted, &first.ty, parts.get(0)?),
        _ => None,
    }
}
