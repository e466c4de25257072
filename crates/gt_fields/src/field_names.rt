// The places of fields, by their names.
ghost use Rattle.std.specs.Prelude.{◌≡◌, ◌≤◌, ℕ, [], length, map, slice_get, position, IfOk, All};
ghost use Rattle.std.specs.Str.{bytes_eq};
ghost use Rattle.gt_types.specs.declared.limits.TheConstants.{MAX_FIELDS};
ghost use Rattle.gt_types.specs.declared.program.Structure.{Structure};
ghost use Rattle.gt_names.specs.Entries.{value_in, with_value};
ghost use Rattle.gt_fields.specs.Places.{bind, place_in};
ghost use Rattle.gt_fields.specs.FieldNames.{AreNamesOf, field_names, fields_from, names_of};

use gt_names::Table;
use gt_types::{Field, List, Structure, TypeId, Word};
use std::alloc::{AllocError, Global};

/// The names of the fields of all structures. The place of a field is found in constant time.
#[derive(Drop)]
pub struct FieldNames {
    structures: List<Table<u32>>,
}

// The names of fields, each with the place of the first of its name.
#[tactic(auto, unfolding(crate::specs::FieldNames::fields_from))]
fn names_of(alloc: Global, fields: &[Field]) -> Result<Table<u32>, AllocError>
    requires few { length fields.now ≤ MAX_FIELDS }
    ensures made { IfOk result (λ made. made ≡ fields_from [] 0 fields.now) }
{
    let mut made = Table::new(alloc);
    for (place, field) in fields.iter().enumerate() {
        made = made.with(alloc, &field.name, place as u32)?;
    }
    Ok(made)
}

fn names_of_all(alloc: Global, structures: &[Structure]) -> Result<List<Table<u32>>, AllocError>
    requires few { All (λ s. length s.fields ≤ MAX_FIELDS) structures.now }
    ensures made { IfOk result (λ made. made ≡ map names_of structures.now) }
{
    let mut made = Vec::new(alloc);
    for structure in structures {
        made.push(names_of(alloc, structure.fields.as_slice())?)?;
    }
    Ok(List::of(made))
}

impl FieldNames {
    /// The names of the fields of structures. Its only error is out of memory.
    pub fn of(alloc: Global, structures: &[Structure]) -> Result<FieldNames, AllocError>
        requires few { All (λ s. length s.fields ≤ MAX_FIELDS) structures.now }
        ensures names { IfOk result (AreNamesOf structures.now) }
        ensures made { IfOk result (λ made. made ≡ field_names structures.now) }
    {
        Ok(FieldNames {
            structures: names_of_all(alloc, structures)?,
        })
    }

    /// The place of a field of a structure, by its name.
    pub fn place(&self, structure: TypeId, name: &Word) -> Option<u32>
        ensures place { (structures : List Structure) → AreNamesOf structures self.now → result ≡ bind (slice_get structures structure.0) (place_in name.now) }
    {
        match self.structures.get(structure.0 as usize) {
            None => None,
            Some(names) => names.get(name).copied(),
        }
    }
}
