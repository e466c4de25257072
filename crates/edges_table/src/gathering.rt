// The edges of a value, found by its type and the layouts.
use crate::edges::{Edge, add_edge};
use crate::grounds::Ground;
use crate::pointers::edge_of;
use crate::scopes::{Around, Held};
use crate::stops::Stop;
use gt_layout::{FieldSpot, extent};
use gt_types::{Field, Ty, TypeId};
use gt_value::Value;

/// Adds the edges of a value of a type that lies at an address.
#[cycle(gathering)]
pub fn add_edges(
    value: &Value,
    ty: &Ty,
    addr: u64,
    on: &Ground,
    around: &Around<'_>,
    edges: &mut Vec<Edge>,
) -> Result<(), Stop> {
    match value {
        Value::Num(_) | Value::Null | Value::Raw(_) => Ok(()),
        Value::To(target) => match edge_of(&on.program, around, ty, addr, *target) {
            Some(edge) => Ok(add_edge(edges, edge)?),
            None => Err(Stop::Misshapen),
        },
        Value::Rec(parts) => add_struct(parts, value, ty, addr, on, around, edges),
        Value::Alt {
            member: None,
            value: _,
        } => Ok(()),
        Value::Alt {
            member: Some(member),
            value: there,
        } => add_member(there.get(), value, *member, ty, addr, on, around, edges),
        Value::Row(parts) => match ty {
            Ty::Arr { elem, .. } | Ty::Tail { elem, .. } => {
                add_elements(parts, elem.get(), addr, on, around, edges)
            }
            _ => Err(Stop::Misshapen),
        },
    }
}

// The fields of a structure.
fn fields_of(on: &Ground, id: TypeId) -> Result<&[Field], Stop> {
    match on.program.structures.get(id.0 as usize) {
        Some(structure) => Ok(structure.fields.as_slice()),
        None => Err(Stop::Misshapen),
    }
}

// Where the fields of a structure begin.
fn spots_of(on: &Ground, id: TypeId) -> Result<&[FieldSpot], Stop> {
    match on.layouts.structures.get(id.0 as usize) {
        Some(plane) => Ok(plane.fields.as_slice()),
        None => Err(Stop::Misshapen),
    }
}

// Adds the edges of the fields of a struct, which is `whole`.
#[cycle(gathering)]
fn add_struct(
    parts: &[Value],
    whole: &Value,
    ty: &Ty,
    addr: u64,
    on: &Ground,
    around: &Around<'_>,
    edges: &mut Vec<Edge>,
) -> Result<(), Stop> {
    let Ty::Node { id, .. } = ty else {
        return Err(Stop::Misshapen);
    };
    let fields = fields_of(on, *id)?;
    let spots = spots_of(on, *id)?;
    let inner = (&*around).inside(Held {
        id: *id,
        value: &*whole,
    });
    for (i, part) in parts.iter().enumerate() {
        let (Some(field), Some(spot)) = (fields.get(i), spots.get(i)) else {
            return Err(Stop::Misshapen);
        };
        let at = addr.saturating_add(spot.offset as u64);
        add_edges(part, &field.ty, at, on, &inner, edges)?;
    }
    Ok(())
}

// Adds the edges of the active member of a union, which is `whole`.
#[cycle(gathering)]
fn add_member(
    there: &Value,
    whole: &Value,
    member: u32,
    ty: &Ty,
    addr: u64,
    on: &Ground,
    around: &Around<'_>,
    edges: &mut Vec<Edge>,
) -> Result<(), Stop> {
    let Ty::Node { id, .. } = ty else {
        return Err(Stop::Misshapen);
    };
    let Some(field) = fields_of(on, *id)?.get(member as usize) else {
        return Err(Stop::Misshapen);
    };
    let inner = (&*around).inside(Held {
        id: *id,
        value: &*whole,
    });
    add_edges(there, &field.ty, addr, on, &inner, edges)
}

// Adds the edges of elements, each after the one before it.
#[cycle(gathering)]
fn add_elements(
    parts: &[Value],
    elem: &Ty,
    addr: u64,
    on: &Ground,
    around: &Around<'_>,
    edges: &mut Vec<Edge>,
) -> Result<(), Stop> {
    let size = extent(elem, on.layouts.structures.as_slice()).size as u64;
    let mut at = addr;
    for part in parts {
        add_edges(part, elem, at, on, around, edges)?;
        at = at.saturating_add(size);
    }
    Ok(())
}

/// Adds the edges of the roots that are not deletable, where the static record begins at an address.
pub fn add_root_edges(
    on: &Ground,
    values: &[Value],
    start: u64,
    edges: &mut Vec<Edge>,
) -> Result<(), Stop> {
    let around = Around::outside(values);
    let roots = on.program.roots.as_slice();
    let spots = on.layouts.statics.fields.as_slice();
    for (i, value) in values.iter().enumerate() {
        let (Some(root), Some(spot)) = (roots.get(i), spots.get(i)) else {
            return Err(Stop::Misshapen);
        };
        if !root.deletable {
            let at = start.saturating_add(spot.offset as u64);
            add_edges(value, &root.ty, at, on, &around, edges)?;
        }
    }
    Ok(())
}
