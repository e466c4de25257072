// What is made once of a program.
ghost use Rattle.std.specs.Prelude.{◌≡◌, IfOk};
ghost use Rattle.gt_types.specs.Settled.{Settled};
ghost use Rattle.gt_layout.specs.Planes.{IsLaidOut};
ghost use Rattle.gt_layout.specs.Excess.{IsWithin};
ghost use Rattle.gt_fields.specs.FieldNames as fields;
ghost use Rattle.gt_held.specs.Types.{AreElementTypesOf};
ghost use Rattle.gt_held.specs.Tails.{AreTailTypesOf};
ghost use Rattle.gt_kinds.specs.Names.{AreNamesOf};
ghost use Rattle.gt_leaf.specs.Tables.{IsTableOf};
ghost use Rattle.gt_edges.specs.Tables.{AreTables};
ghost use Rattle.gt_schema.specs.Schemas.{IsSchema};

use gt_fields::FieldNames;
use gt_held::{ElementTypes, TailTypes};
use gt_kinds::ProgramNames;
use gt_layout::Layouts;
use gt_leaf::Reads;
use gt_tables::build;
use gt_types::Program;
use gt_walk::Tables;
use std::alloc::{AllocError, Global};

/// A program and its layouts, the types of the elements of its blocks, which structures are of a tail type, its names, the names of its
/// fields, which leaves its expressions read, and its walker tables.
#[derive(Drop)]
pub struct Schema {
    pub program: Program,
    pub layouts: Layouts,
    pub types: ElementTypes,
    pub tails: TailTypes,
    pub names: ProgramNames,
    pub fields: FieldNames,
    pub reads: Reads,
    pub tables: Tables,
}

// The types and the names of a program.
#[derive(Drop)]
struct Named {
    types: ElementTypes,
    tails: TailTypes,
    names: ProgramNames,
}

// The names of its fields, which leaves its expressions read, and its walker tables.
#[derive(Drop)]
struct Fielded {
    fields: FieldNames,
    reads: Reads,
    tables: Tables,
}

// The names of a program.
fn names_of(alloc: Global, program: &Program) -> Result<ProgramNames, AllocError>
    requires settled { Settled program.now }
    ensures names { IfOk result (AreNamesOf program.now) }
{
    ProgramNames::of(alloc, program)
}

// The names of the fields of a program.
fn fields_of(alloc: Global, program: &Program) -> Result<FieldNames, AllocError>
    requires settled { Settled program.now }
    ensures fields { IfOk result (fields.AreNamesOf program.now.structures) }
{
    FieldNames::of(alloc, program.structures.as_slice())
}

impl Named {
    fn of(alloc: Global, program: &Program) -> Result<Named, AllocError>
        requires settled { Settled program.now }
        ensures types { IfOk result (λ named. AreElementTypesOf program.now named.types) }
        ensures tails { IfOk result (λ named. AreTailTypesOf program.now named.tails) }
        ensures names { IfOk result (λ named. AreNamesOf program.now named.names) }
    {
        // The types come last, so that no return has to drop them: each place where they are dropped costs the proof a minute.
        let tails = TailTypes::of(alloc, program)?;
        let names = names_of(alloc, program)?;
        let types = ElementTypes::of(alloc, program)?;
        Ok(Named {
            types,
            tails,
            names,
        })
    }
}

impl Fielded {
    fn of(alloc: Global, program: &Program, layouts: &Layouts) -> Result<Fielded, AllocError>
        requires settled { Settled program.now }
        requires laid { IsLaidOut program.now layouts.now }
        requires within { IsWithin program.now layouts.now }
        ensures fields { IfOk result (λ fielded. fields.AreNamesOf program.now.structures fielded.fields) }
        ensures reads { IfOk result (λ fielded. IsTableOf program.now fielded.reads) }
        ensures tables { IfOk result (λ fielded. AreTables program.now layouts.now fielded.tables) }
    {
        let fields = fields_of(alloc, program)?;
        let reads = Reads::of(alloc, program)?;
        let tables = build(alloc, program, layouts)?;
        Ok(Fielded {
            fields,
            reads,
            tables,
        })
    }
}

impl Schema {
    /// The schema of a program and its layouts. It fails only if memory runs out.
    pub fn of(alloc: Global, program: Program, layouts: Layouts) -> Result<Schema, AllocError>
        requires settled { Settled program }
        requires laid { IsLaidOut program layouts }
        requires within { IsWithin program layouts }
        ensures schema { IfOk result IsSchema }
        ensures program { IfOk result (λ schema. schema.program ≡ program) }
        ensures layouts { IfOk result (λ schema. schema.layouts ≡ layouts) }
    {
        let Fielded {
            fields,
            reads,
            tables,
        } = Fielded::of(alloc, &program, &layouts)?;
        let Named {
            types,
            tails,
            names,
        } = Named::of(alloc, &program)?;
        Ok(Schema {
            program,
            layouts,
            types,
            tails,
            names,
            fields,
            reads,
            tables,
        })
    }
}
