// The members of unions by their tags, and the common structures, as tables.
ghost use Rattle.std.specs.Prelude.{◌≡◌, ◌≤◌, [], true, cond, is_some, length, ◌<◌, IfOk, IfSome, OnOk, MatchOption};
ghost use Rattle.std.specs.BTreeMap.{insert_entry};
ghost use Rattle.std.specs.Ordering.{int_cmp};
ghost use Rattle.std.specs.List.{position_from};
ghost use Rattle.gt_types.specs.declared.limits.TheConstants.{MAX_FIELDS};
ghost use Rattle.gt_types.specs.declared.types.TypeId.{TypeId};
ghost use Rattle.gt_types.specs.declared.program.Structure.{Structure};
ghost use Rattle.gt_types.specs.declared.program.Program.{Program};
ghost use Rattle.gt_types.specs.Contains.{HasStructure};
ghost use Rattle.gt_types.specs.Settled.{Settled};
ghost use Rattle.gt_types.specs.Unions.{IsCommon};
ghost use Rattle.gt_unions.specs.Commons.{common_of};
ghost use Rattle.gt_unions.specs.Beginnings.{AreKnown};
ghost use Rattle.gt_unions.specs.Members.{active_member, first_place, is_default, is_node, place_of};
ghost use Rattle.gt_unions.specs.Tables.{IsCommonPlace, place_at, place_by, tags_from, with_tag, table_of, union_tables};

use crate::commons::common_of;
use gt_types::{Active, Field, List, Program, Structure, Ty, TypeId};
use std::alloc::{AllocError, Global};
use std::collections::BTreeMap;
use std::marker::Model;

/// Tags with the places of members. Contracts see their list, in the order of the tags.
#[derive(Drop)]
pub struct Tags {
    places: BTreeMap<i64, u32>,
}

impl Model for Tags {
    ghost use Rattle.std.specs.Prelude.{ℕ, ℤ, List};

    ghost Value = { List (ℤ × ℕ) };

    ghost view = { λ t. t.places.entries };
}

impl Tags {
    // The tags of members, each with the place of the first that has it.
    #[tactic(auto, unfolding(crate::specs::Tables::tags_from))]
    fn of(alloc: Global, fields: &[Field]) -> Result<Tags, AllocError>
        requires few { length fields.now ≤ MAX_FIELDS }
        ensures made { IfOk result (λ tags. tags ≡ tags_from [] 0 fields.now) }
    {
        let mut tags = Tags {
            places: BTreeMap::new(alloc),
        };
        for (place, field) in fields.iter().enumerate() {
            tags.add(place as u32, field.active)?;
        }
        Ok(tags)
    }

    // Adds the tag of a member, where no member before has it.
    fn add(&mut self, place: u32, active: Active) -> Result<(), AllocError>
        ensures added { OnOk result (self.new ≡ with_tag self.old place active) }
    {
        match active {
            Active::Tag(tag) => self.add_tag(place, tag),
            _ => Ok(()),
        }
    }

    fn add_tag(&mut self, place: u32, tag: i64) -> Result<(), AllocError>
        ensures added { OnOk result (self.new ≡ cond (is_some (place_at self.old tag)) self.old (insert_entry int_cmp self.old tag place)) }
    {
        if !self.places.contains_key(&tag) {
            self.places.insert(tag, place)?;
        }
        Ok(())
    }

    // The place at a tag.
    fn get(&self, tag: i64) -> Option<u32>
        ensures place { result ≡ place_at self.now tag }
    {
        self.places.get(&tag).copied()
    }
}

fn is_default(active: Active) -> bool
    ensures { result ≡ is_default active }
{
    matches!(active, Active::Other)
}

fn find_default(fields: &[Field]) -> Option<usize>
    ensures place { result ≡ position_from (λ f. is_default f.active) 0 fields.now }
    ensures inside { IfSome result (λ place. place < length fields.now) }
{
    fields.iter().position(|f| is_default(f.active))
}

// The place of the default member.
fn default_of(fields: &[Field]) -> Option<u32>
    requires few { length fields.now ≤ MAX_FIELDS }
    ensures { result ≡ position_from (λ f. is_default f.active) 0 fields.now }
{
    match find_default(fields) {
        Some(place) => Some(place as u32),
        None => None,
    }
}

// The place of the first member that is this structure, where one is given.
fn place_of(fields: &[Field], node: Option<TypeId>) -> Option<u32>
    requires few { length fields.now ≤ MAX_FIELDS }
    ensures { result ≡ place_of fields.now node }
{
    match find_node(fields, node?) {
        Some(place) => Some(place as u32),
        None => None,
    }
}

fn find_node(fields: &[Field], node: TypeId) -> Option<usize>
    ensures place { result ≡ position_from (λ f. is_node node f.ty) 0 fields.now }
    ensures inside { IfSome result (λ place. place < length fields.now) }
{
    fields.iter().position(|f| is_node(node, &f.ty))
}

fn is_node(node: TypeId, ty: &Ty) -> bool
    ensures { result ≡ is_node node ty.now }
{
    match ty {
        Ty::Node { id, .. } => node.0 == id.0,
        _ => false,
    }
}

// The members of a union by their tags, its default member, its common structure, and the place of the first member that is this structure.
#[derive(Drop)]
struct UnionTable {
    tags: Tags,
    other: Option<u32>,
    common: Option<TypeId>,
    place: Option<u32>,
}

/// The tables of the unions of a program. The active member of a union is found in about the logarithm of the number of its members,
/// and its common structure, with the place of the member that is it, in constant time.
#[derive(Drop)]
pub struct Unions {
    structures: List<UnionTable>,
}

impl UnionTable {
    fn of(
        alloc: Global,
        program: &Program,
        known: &mut Vec<Option<bool>>,
        structure: &Structure,
    ) -> Result<UnionTable, AllocError>
        requires settled { Settled program.now }
        requires known { AreKnown program.now known.old.items }
        requires there { (node : TypeId) × HasStructure program.now node structure.now }
        ensures known { AreKnown program.now known.new.items }
        ensures made { IfOk result (λ made. made ≡ table_of program.now structure.now) }
    {
        let fields = structure.fields.as_slice();
        let tags = Tags::of(alloc, fields)?;
        let common = common_of(program, known, structure);
        Ok(UnionTable {
            tags,
            other: default_of(fields),
            common,
            place: place_of(fields, common),
        })
    }

    // The place of the member that is active by the value of the `desc`.
    fn active(&self, value: Option<i64>) -> Option<u32>
        ensures { result ≡ first_place (place_by self.now.tags value) self.now.other }
    {
        let Some(value) = value else {
            return self.other;
        };
        match self.tags.get(value) {
            Some(place) => Some(place),
            None => self.other,
        }
    }
}

impl Unions {
    /// The tables of a program. Its time grows with the number of the fields, each times the logarithm of the number of tags, or a few
    /// times MAX_DEPTH. Its only error is out of memory.
    pub fn of(alloc: Global, program: &Program) -> Result<Unions, AllocError>
        requires settled { Settled program.now }
        ensures made { IfOk result (λ made. made ≡ union_tables program.now) }
    {
        let mut known = vec![in alloc; None; program.structures.len()]?;
        let mut structures = Vec::new(alloc);
        for structure in program.structures.as_slice() {
            structures.push(UnionTable::of(alloc, program, &mut known, structure)?)?;
        }
        Ok(Unions {
            structures: List::of(structures),
        })
    }

    /// The place of the active member of a union, by the value of its `desc`: that with this tag, else the default.
    pub fn active_member(&self, union: TypeId, value: Option<i64>) -> Option<u32>
        ensures place { (program : Program) (s : Structure) → self.now ≡ union_tables program → HasStructure program union s → result ≡ active_member value s.fields }
    {
        match self.structures.get(union.0 as usize) {
            Some(table) => table.active(value),
            None => None,
        }
    }

    /// The common structure of a union: the plain struct that some member is, and with which each member begins that may be active. None
    /// where it has none.
    pub fn common(&self, union: TypeId) -> Option<TypeId>
        ensures same { (program : Program) (s : Structure) → self.now ≡ union_tables program → HasStructure program union s → s.is_union ≡ true → result ≡ common_of program s }
        ensures common { (program : Program) (s : Structure) → self.now ≡ union_tables program → Settled program → HasStructure program union s → s.is_union ≡ true
            → MatchOption result ((common : TypeId) → ¬ IsCommon program s common) (IsCommon program s) }
    {
        match self.structures.get(union.0 as usize) {
            Some(table) => table.common,
            None => None,
        }
    }

    /// The place of the first member that is the common structure of a union. None where it has none.
    pub fn common_place(&self, union: TypeId) -> Option<u32>
        ensures { (program : Program) (s : Structure) → self.now ≡ union_tables program → Settled program → HasStructure program union s → s.is_union ≡ true
            → MatchOption result ((common : TypeId) → ¬ IsCommon program s common) (IsCommonPlace program s) }
    {
        match self.structures.get(union.0 as usize) {
            Some(table) => table.place,
            None => None,
        }
    }
}
