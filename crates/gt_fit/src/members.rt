// Which member of a union is active.
ghost use Rattle.std.specs.Prelude.{◌≡◌, ◌↔◌, IsTrue};
ghost use Rattle.gt_types.specs.declared.program.Structure.{Structure};
ghost use Rattle.gt_types.specs.declared.program.Program.{Program};
ghost use Rattle.gt_types.specs.Contains.{HasStructure};
ghost use Rattle.gt_unions.specs.Members.{active_member};
ghost use Rattle.gt_unions.specs.Tables.{union_tables};

use gt_types::TypeId;
use gt_unions::Unions;

/// Whether this member of a union is the active one, by the value of its `desc`.
pub fn is_active(unions: &Unions, union: TypeId, value: Option<i64>, member: Option<u32>) -> bool
    ensures active { (program : Program) (s : Structure) → unions.now ≡ union_tables program → HasStructure program union s → IsTrue result ↔ (active_member value s.fields ≡ member) }
{
    match (unions.active_member(union, value), member) {
        (None, None) => true,
        (Some(active), Some(place)) => active == place,
        _ => false,
    }
}
