// Which member of a union is active, and its common structure, by the tables of the layouts.
ghost use Rattle.std.specs.Prelude.{◌≡◌, true, MatchOption};
ghost use Rattle.gt_types.specs.Settled.{Settled};
ghost use Rattle.gt_types.specs.Contains.{HasStructure};
ghost use Rattle.gt_types.specs.Unions.{IsCommon};
ghost use Rattle.gt_types.specs.declared.types.TypeId.{TypeId};
ghost use Rattle.gt_layout.specs.Planes.{IsLaidOut};
ghost use Rattle.gt_unions.specs.Members.{active_member};
ghost use Rattle.gt_unions.specs.Tables.{IsCommonPlace};

use gt_layout::Layouts;
use gt_types::{Program, Structure, TypeId};

/// The place of the active member of a union of this number, by the value of its `desc`.
pub(crate) fn active_member(
    program: &Program,
    layouts: &Layouts,
    id: TypeId,
    structure: &Structure,
    value: Option<i64>,
) -> Option<u32>
    requires laid { IsLaidOut program.now layouts.now }
    requires has { HasStructure program.now id structure.now }
    ensures { result ≡ active_member value structure.now.fields }
{
    let _ = program;
    let _ = structure;
    layouts.unions.active_member(id, value)
}

/// The common structure of a union of this number, where it has one.
pub fn common_structure(
    program: &Program,
    layouts: &Layouts,
    id: TypeId,
    structure: &Structure,
) -> Option<TypeId>
    requires settled { Settled program.now }
    requires laid { IsLaidOut program.now layouts.now }
    requires has { HasStructure program.now id structure.now }
    requires union { structure.now.is_union ≡ true }
    ensures { MatchOption result ((common : TypeId) → ¬ IsCommon program.now structure.now common) (IsCommon program.now structure.now) }
{
    let _ = program;
    let _ = structure;
    layouts.unions.common(id)
}

/// The place of the first member that is the common structure of a union of this number, where it has one.
pub(crate) fn common_place(
    program: &Program,
    layouts: &Layouts,
    id: TypeId,
    structure: &Structure,
) -> Option<u32>
    requires settled { Settled program.now }
    requires laid { IsLaidOut program.now layouts.now }
    requires has { HasStructure program.now id structure.now }
    requires union { structure.now.is_union ≡ true }
    ensures { MatchOption result ((common : TypeId) → ¬ IsCommon program.now structure.now common) (IsCommonPlace program.now structure.now) }
{
    let _ = program;
    let _ = structure;
    layouts.unions.common_place(id)
}
