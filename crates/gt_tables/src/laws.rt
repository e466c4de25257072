//! What the words of the contract of `build` imply together. This call does nothing: its clauses are laws.
ghost use Rattle.std.specs.Prelude.{◌+◌, ◌*◌, ◌≤◌, List, length};
ghost use Rattle.gt_types.specs.declared.program.Program.{Program};
ghost use Rattle.gt_layout.specs.declared.planes.Layouts.{Layouts};
ghost use Rattle.gt_walk.specs.declared.tables.Tables.{Tables};
ghost use Rattle.gt_edges.specs.Numbers.{first_part};
ghost use Rattle.gt_tables.specs.Sharing.{Part, ArePartsShared, AreTold, places};

/// The walks of a program are at most those of its blocks, two for each root that is not deletable, one for each place (a structure, or a
/// field that holds one), and one for each part of which the outermost structure is told. So where nothing reads the outermost structure,
/// the structures and the fields that hold one bound the walks besides those of blocks and roots. Where something does, they need not: a
/// chain of k structures, of which the last reads a number of the outermost one, held by m structures in which this number lies at
/// different offsets, needs at least k times m walks. Whatever is read, each place has at most one walk for each structure, and one more.
pub fn walks_are_bounded()
    ensures told { (program : Program) (layouts : Layouts) (tables : Tables) (told : List Part) → ArePartsShared program layouts tables → AreTold program told → length tables.walks ≤ first_part program + 2 * length tables.roots + places program + length told }
    ensures whatever_is_read { (program : Program) (layouts : Layouts) (tables : Tables) → ArePartsShared program layouts tables → length tables.walks ≤ first_part program + 2 * length tables.roots + places program * (1 + length program.structures) }
{}
