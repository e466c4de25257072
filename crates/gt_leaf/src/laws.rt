//! What follows for leaves that no expression reads, and what a path of names reads. These calls do nothing: their clauses are laws.
ghost use Rattle.gt_layout.specs.declared.planes.Plane.{Plane};
ghost use Rattle.gt_layout.specs.declared.planes.FieldSpot.{FieldSpot};
ghost use Rattle.gt_leaf.specs.Reading.{WaysLead, NoOthersLead};
ghost use Rattle.gt_leaf.specs.Unread.{UnreadElementsFit, UnreadStaticsFit};
ghost use Rattle.gt_types.specs.Settled.{Settled};
ghost use Rattle.gt_types.specs.declared.program.Program.{Program};
ghost use Rattle.std.specs.Prelude.{List};

/// A leaf that no expression reads may be replaced by another that fits its place: the value with it fits, for an element of a
/// block and for the static record.
pub fn unread_leaves_keep_values_fitting()
    ensures elements { (program : Program) (planes : List Plane) → Settled program → UnreadElementsFit program planes }
    ensures statics { (program : Program) (planes : List Plane) (spots : List FieldSpot) → Settled program → UnreadStaticsFit program planes spots }
{}

/// A path of names reads what it leads to: where the way from a structure to a field is known, which leads through no union, the names on
/// it lead by name to that field, and no others do.
pub fn known_ways_lead_by_name()
    ensures lead { (program : Program) → WaysLead program }
    ensures no_others { (program : Program) → NoOthersLead program }
{}
