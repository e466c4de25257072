//! What the common structure of a union is. This call does nothing: its clause is a law.
ghost use Rattle.std.specs.Prelude.{◌≡◌, true, MatchOption};
ghost use Rattle.gt_types.specs.declared.types.TypeId.{TypeId};
ghost use Rattle.gt_types.specs.declared.program.Structure.{Structure};
ghost use Rattle.gt_types.specs.declared.program.Program.{Program};
ghost use Rattle.gt_types.specs.Contains.{HasStructure};
ghost use Rattle.gt_types.specs.Settled.{Settled};
ghost use Rattle.gt_types.specs.Unions.{IsCommon};
ghost use Rattle.gt_unions.specs.Commons.{common_of};

/// What `common_of` of the definitions finds for a union is its common structure; where it finds none there is none.
pub fn commons_are_found()
    ensures { (program : Program) (node : TypeId) (s : Structure) → Settled program → HasStructure program node s → s.is_union ≡ true → MatchOption (common_of program s) ((common : TypeId) → ¬ IsCommon program s common) (IsCommon program s) }
{}
