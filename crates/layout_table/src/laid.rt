// The planes of a row's program, as they are written in the table.
use gt_layout::{Plane, can_place, plane};
use gt_types::{Field, MAX_FIELDS, Structure, Ty};
use std::alloc::{AllocError, Global};

/// The planes of the structures, each laid out after those that stand before it. They end at the first that cannot be laid out
/// so.
pub fn planes(alloc: Global, structures: &[Structure]) -> Result<Vec<Plane>, AllocError> {
    let mut known = Vec::new(alloc);
    for structure in structures {
        if structure.fields.len() > MAX_FIELDS || !can_place(structure, known.as_slice()) {
            return Ok(known);
        }
        let made = plane(alloc, structure, known.as_slice())?;
        known.push(made)?;
    }
    Ok(known)
}

/// The line of a plane: size, alignment, and where each field begins.
pub fn line(alloc: Global, plane: &Plane, fields: &[Field]) -> Result<String, AllocError> {
    let size = plane.size;
    let align = plane.align;
    let mut text = format!(in alloc; "layout {size} {align}")?;
    for (spot, field) in plane.fields.as_slice().iter().zip(fields) {
        let offset = spot.offset;
        let bit = spot.bit;
        let place = match field.ty {
            Ty::Bits { .. } => format!(in alloc; " {offset}.{bit}")?,
            _ => format!(in alloc; " {offset}")?,
        };
        text.push_str(place.as_str())?;
    }
    Ok(text)
}
