// The program under which heaps are tried.
ghost use Rattle.std.specs.Prelude.{IfOk};
ghost use Rattle.heap_table.specs.Grounds.{IsGround, IsLaid};

use crate::header::HEADER;
use gt_headers::{Declared, are_within_limits, declare, declared_programs_are_settled};
use gt_held::{ElementTypes, TailTypes};
use gt_layout::Layouts;
use gt_paths::PathIndex;
use gt_types::{Bytes, Program};
use std::alloc::{AllocError, AllocFailed, Global};

/// A program, laid out, with what is looked up of it.
#[derive(Drop)]
pub struct Ground {
    pub alloc: Global,
    pub program: Program,
    pub layouts: Layouts,
    pub index: PathIndex,
    pub types: ElementTypes,
    pub tails: TailTypes,
}

/// Why there is no program: the header has a fault, or memory is wanting.
#[derive(Clone, Copy, Debug, PartialEq, Eq)]
pub enum Fault {
    Header,
    Memory,
}

impl From<AllocError> for Fault {
    fn from(_: AllocError) -> Fault {
        Fault::Memory
    }
}

impl<T: Drop> From<AllocFailed<T>> for Fault {
    fn from(_: AllocFailed<T>) -> Fault {
        Fault::Memory
    }
}

// The program that the header declares.
fn declared(alloc: Global) -> Result<Declared, Fault>
    ensures { IfOk result (λ declared. IsLaid declared.program declared.layouts) }
{
    declared_programs_are_settled();
    let mut texts = Vec::new(alloc);
    texts.push(Bytes::of(alloc, HEADER.as_bytes())?)?;
    if !are_within_limits(&texts) {
        return Err(Fault::Header);
    }
    match declare(alloc, &texts) {
        Ok(declared) => Ok(declared),
        Err(_) => Err(Fault::Header),
    }
}

impl Ground {
    /// The program that the header declares.
    pub fn new(alloc: Global) -> Result<Ground, Fault>
        ensures { IfOk result IsGround }
    {
        let Declared { program, layouts } = declared(alloc)?;
        let index = PathIndex::new(alloc, &program)?;
        let types = ElementTypes::of(alloc, &program)?;
        let tails = TailTypes::of(alloc, &program)?;
        Ok(Ground {
            alloc,
            program,
            layouts,
            index,
            types,
            tails,
        })
    }
}
