//! What follows from the definitions. These calls do nothing: their clauses are laws.
ghost use Rattle.gt_types.specs.declared.program.Program.{Program};
ghost use Rattle.gt_types.specs.Settled.{Settled};
ghost use Rattle.gt_layout.specs.declared.planes.Layouts.{Layouts};
ghost use Rattle.gt_layout.specs.Planes.{IsLaidOut};
ghost use Rattle.gt_tree.specs.BlockLeaves.{BlockIsPlaced, CommonIsOne, EdgesAreTargets};
ghost use Rattle.gt_tree.specs.LeafLaws.{ValueHasOneList, ElementsHaveOneList, RecordHasOneList, ValueIsPlaced, ElementsArePlaced, RecordIsPlaced, HasOneForm, SizesAreOne, ValueHasRoom, ElementsHaveRoom, RecordHasRoom};

/// A value that fits has exactly one list of leaves at each bit: so for a value of any type, for elements one after another,
/// and for the static record.
pub fn leaves_are_one_list()
    ensures value { (program : Program) (layouts : Layouts) → Settled program → IsLaidOut program layouts → ValueHasOneList program layouts }
    ensures elements { (program : Program) (layouts : Layouts) → Settled program → IsLaidOut program layouts → ElementsHaveOneList program layouts }
    ensures statics { (program : Program) (layouts : Layouts) → Settled program → IsLaidOut program layouts → RecordHasOneList program layouts }
{}

/// The leaves of a value that fits stand in the order of their places, no two have a bit in common, and all lie inside the
/// width of the value: so for a value of any type of a program, for elements one after another, and for the static record.
pub fn leaves_are_apart()
    ensures value { (program : Program) (layouts : Layouts) → Settled program → IsLaidOut program layouts → ValueIsPlaced program layouts }
    ensures elements { (program : Program) (layouts : Layouts) → Settled program → IsLaidOut program layouts → ElementsArePlaced program layouts }
    ensures statics { (program : Program) (layouts : Layouts) → Settled program → IsLaidOut program layouts → RecordIsPlaced program layouts }
{}

/// What a leaf of a value that fits holds has room in the leaf's bits, where addresses have 64 bits: so no bit of it is lost in
/// the bytes that stand for it.
pub fn contents_have_room()
    ensures value { (program : Program) (layouts : Layouts) → Settled program → ValueHasRoom program layouts }
    ensures elements { (program : Program) (layouts : Layouts) → Settled program → ElementsHaveRoom program layouts }
    ensures statics { (program : Program) (layouts : Layouts) → Settled program → RecordHasRoom program layouts }
{}

/// Leaves stand as exactly one list of bytes of each length, wherever blocks lie.
pub fn leaves_have_one_form()
    ensures { HasOneForm }
{}

/// Each structure of a program has exactly one size at each capacity.
pub fn sizes_are_one()
    ensures { (program : Program) (layouts : Layouts) → Settled program → IsLaidOut program layouts → SizesAreOne program layouts }
{}

/// The leaves of a block's value stand in order, no two have a bit in common, and all lie inside the bytes that it needs.
pub fn blocks_hold_their_leaves()
    ensures { (program : Program) (layouts : Layouts) → Settled program → IsLaidOut program layouts → BlockIsPlaced program layouts }
{}

/// A union has at most one common structure.
pub fn common_structures_are_one()
    ensures { (program : Program) → Settled program → CommonIsOne program }
{}

/// The edges of a value that fits are the names in its leaves, in the order of their places.
pub fn edges_are_in_leaves()
    ensures { (program : Program) (layouts : Layouts) → Settled program → EdgesAreTargets program layouts }
{}
