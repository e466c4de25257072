// What follows from the definitions, for callers to cite. The function does nothing.
ghost use Rattle.gt_types.specs.declared.program.Program.{Program};
ghost use Rattle.gt_types.specs.Settled.{Settled};
ghost use Rattle.gt_layout.specs.declared.planes.Layouts.{Layouts};
ghost use Rattle.gt_layout.specs.Planes.{IsLaidOut};
ghost use Rattle.gt_walk.specs.declared.tables.Tables.{Tables};
ghost use Rattle.gt_edges.specs.Edges.{GivesElements, GivesRoots};
ghost use Rattle.gt_edges.specs.Walks.{AreWalksOf};

/// On bytes that stand for an element of a block, or for the roots, the walks of a program give the edges of the value.
pub fn walks_give_edges()
    ensures elements { (program : Program) (layouts : Layouts) (tables : Tables) → Settled program → IsLaidOut program layouts → AreWalksOf program layouts tables → GivesElements program layouts tables }
    ensures roots { (program : Program) (layouts : Layouts) (tables : Tables) → Settled program → IsLaidOut program layouts → AreWalksOf program layouts tables → GivesRoots program layouts tables }
{}
