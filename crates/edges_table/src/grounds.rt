// The programs whose values are tried.
ghost use Rattle.std.specs.Prelude.{IfOk};
ghost use Rattle.edges_table.specs.Grounds.{IsGround};

use crate::forms::HEADER;
use crate::stops::Stop;
use gt_headers::{are_within_limits, declare, declared_programs_are_settled};
use gt_layout::{Layouts, layout};
use gt_tables::build;
use gt_types::{Bytes, Program};
use gt_walk::Tables;
use sample_program::{sample, sample_is_settled};
use std::alloc::Global;

/// A program, laid out, with its walks.
#[derive(Drop)]
pub struct Ground {
    pub alloc: Global,
    pub program: Program,
    pub layouts: Layouts,
    pub tables: Tables,
}

/// The sample program.
pub fn sample_ground(alloc: Global) -> Result<Ground, Stop>
    ensures ground { IfOk result (λ on. IsGround on.program on.layouts) }
{
    sample_is_settled();
    let program = sample(alloc)?;
    let Ok(layouts) = layout(alloc, &program) else {
        return Err(Stop::Memory);
    };
    let tables = build(alloc, &program, &layouts)?;
    Ok(Ground {
        alloc,
        program,
        layouts,
        tables,
    })
}

/// The program that the header declares.
pub fn forms_ground(alloc: Global) -> Result<Ground, Stop>
    ensures ground { IfOk result (λ on. IsGround on.program on.layouts) }
{
    declared_programs_are_settled();
    let mut texts = Vec::new(alloc);
    texts.push(Bytes::of(alloc, HEADER.as_bytes())?)?;
    if !are_within_limits(&texts) {
        return Err(Stop::Fault);
    }
    let Ok(declared) = declare(alloc, &texts) else {
        return Err(Stop::Fault);
    };
    let tables = build(alloc, &declared.program, &declared.layouts)?;
    Ok(Ground {
        alloc,
        program: declared.program,
        layouts: declared.layouts,
        tables,
    })
}
